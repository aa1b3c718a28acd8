//! Numbers of collections, and of charges over them: words and laws.
#![tactic(auto)]

pub mod laws;
