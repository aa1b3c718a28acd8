//! The interpreter: what a procedure charges on a structure, and what one with a result makes of it.
#![tactic(auto)]

mod charges;
pub mod laws;
mod making;

pub use charges::charge;
pub use making::make;
