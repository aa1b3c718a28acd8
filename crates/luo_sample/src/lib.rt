//! Sample programs: a large program that breaks no rule, made by a number.
#![tactic(auto)]

mod choice;
pub mod laws;
mod making;
mod writing;

pub use making::sample;
