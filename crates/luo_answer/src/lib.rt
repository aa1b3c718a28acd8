//! What words ask for, and what a program answers to them.
#![tactic(auto)]

mod audited;
mod commands;
mod lines;
mod names;
mod refusal;
mod rows;
mod status;
mod steps;
mod words;

pub use commands::{analyse_program, audit_program, list_named, run_named, sample_of};
pub use lines::line_at;
pub use refusal::{Line, Refusal};
pub use status::{Status, code};
pub use words::{NUMBER_CAP, Request, asked};
