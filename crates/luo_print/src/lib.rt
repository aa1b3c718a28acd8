//! The canonical text of a source.
#![tactic(auto)]

pub mod laws;
mod patterns;
mod pieces;
mod source;
mod statements;
mod types;
mod values;

pub use source::print_source;
