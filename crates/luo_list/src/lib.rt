//! Structures of a node and a size one after the other, from any place to any other.
#![tactic(auto)]

mod cursor;
pub mod laws;

pub use cursor::Cursor;
