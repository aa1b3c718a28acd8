//! Equations: expressions, what they mean, and their texts.
#![tactic(auto)]

mod equation;
pub mod laws;
mod text;

pub use equation::{Equation, Expr, Left};
pub use text::write_equation;
