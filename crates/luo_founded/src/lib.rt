//! Well-foundedness of a program.
#![tactic(auto)]

mod calls;
mod checking;
mod circles;
pub mod laws;
mod least;
mod levels;
mod longest;
mod made;
mod peeling;
mod ranks;
mod shared;
mod sites;
mod steps;

pub use checking::{NotFounded, found};
pub use ranks::Ranks;
