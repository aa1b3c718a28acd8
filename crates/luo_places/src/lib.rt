//! Laws of the places of structures: how many structures of a node are before one.
#![tactic(auto)]

pub mod laws;
