//! All tables of a program, size by size.
#![tactic(auto)]

mod collecting;
mod collections;
mod counts;
mod engine;
mod kept;
pub mod laws;
mod layout;
mod numbers;
mod order;
mod partial;
mod plan;
mod planned;
mod points;
mod scopes;
mod shared;
mod sites;
mod sizes;
mod table;
mod tasks;
mod total_tables;
mod totals;
mod walk_tables;
mod walking;
mod walks;

pub use engine::{Engine, Overflow};
