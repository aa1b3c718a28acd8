//! Binomials, and choices of labels by their places in lexicographic order.
#![tactic(auto)]

mod large;
pub mod laws;
mod pascal;
mod subsets;

pub use large::choose_large;
pub use pascal::{LAST, Pascal};
pub use subsets::FEW;
