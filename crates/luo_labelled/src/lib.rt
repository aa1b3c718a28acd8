//! Labelled sequences, sets and cycles counted size by size, and charges summed over them, in numbers alone.
#![tactic(auto)]

mod chain;
mod numbers;
mod rows;
mod steps;
mod sums;
mod walk;

pub use chain::Chain;
pub use walk::ChainWalk;
