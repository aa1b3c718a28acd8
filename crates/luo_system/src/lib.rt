//! The equations of a program, and laws about them.
#![tactic(auto)]

pub mod laws;
