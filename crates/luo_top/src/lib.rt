//! The top call, which does all that the program does.
#![tactic(auto)]

mod answer;
mod commands;
pub mod laws;
mod lines;
mod steps;
mod top;

pub use luo_answer::{Status, code};
pub use top::luo;
