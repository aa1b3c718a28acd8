//! What a source means as it is written, and laws by which its core form means the same.
#![tactic(auto)]

pub mod laws;
