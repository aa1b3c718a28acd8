//! From a program to its equations.
#![tactic(auto)]

mod bodies;
mod parts;
mod plain;
mod system;

pub use system::descriptors;
