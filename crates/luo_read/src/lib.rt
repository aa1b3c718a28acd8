//! Structures of a node, read from their texts.
#![tactic(auto)]

mod answers;
pub mod laws;
mod marking;
mod reader;
mod reading;
mod steps;

pub use answers::StructError;
pub use reading::read_structure;

/// The greatest number of a structure's text, of six digits.
pub const GREATEST_NUMBER: u32 = 999999;
