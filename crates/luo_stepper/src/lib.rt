//! The structure after another in the order of structures, made of it.
#![tactic(auto)]

mod beginning;
mod following;
mod labels;
mod rooms;
mod sizes;
mod stepping;

pub use following::behind;
