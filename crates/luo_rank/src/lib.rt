//! The structure of a node and a size at a place in the order, and the place of a structure.
#![tactic(auto)]

mod bags;
mod branches;
mod choices;
mod filling;
mod firsts;
pub mod laws;
pub mod lookup;
pub mod making;
pub mod parting;
mod planes;
mod ranker;
mod rests;
mod shares;
pub mod tables;

pub use ranker::Ranker;
