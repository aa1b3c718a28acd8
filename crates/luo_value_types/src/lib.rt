//! Scopes, patterns and the uses of names, which statements and values share, and the check of values.
#![tactic(auto)]

mod context;
mod items;
mod patterns;
mod scope;
mod shared;
mod stands;
mod uses;
mod value_leaves;
mod value_statements;
mod values;

pub use context::{Context, Maker};
pub use items::{push_item, take_site};
pub use luo_rules::{Breach, Meaning, Names, Rule, Setting, Signature, Stop, Variable};
pub use patterns::{Opened, has_factors, pattern};
pub use scope::{argument, find, variable};
pub use stands::{Stand, arm_stand, case_variable, stand_at, stand_count};
pub use uses::{breach, breach_at, use_measure, use_procedure, use_type};
pub use value_statements::count_statements;
pub use values::value;
