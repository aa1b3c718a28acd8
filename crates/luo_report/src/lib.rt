//! The report of a program.
#![tactic(auto)]

pub mod laws;
mod table;
mod text;

pub use table::Table;
pub use text::{put_row, report, universe_line};
