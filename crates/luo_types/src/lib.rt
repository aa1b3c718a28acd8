//! From a source to a checked program: names, types, and the core form.
#![tactic(auto)]

mod checking;
mod circles;
mod counts;
mod definition_check;
mod definitions;
mod expressions;
mod limits;
mod links;
mod naming;
mod nodes;
mod procedure_sites;
mod procedures;
mod rules;
mod scheme;
mod setting;
mod sites;
mod statement_counts;
mod statements;
mod types;

pub use checking::check;
pub use luo_rules::{CheckError, CountLimit, Rule, laws};
