//! What the tables of a program hold, entry by entry, and the recipes of its counts and totals.
#![tactic(auto)]

pub mod laws;
