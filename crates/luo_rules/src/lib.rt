//! The limits and the rules of sources, what names mean, and the core form.
#![tactic(auto)]

mod error;
pub mod laws;
mod names;
mod rule;
mod setting;
mod shared;

pub use error::{CheckError, CountLimit};
pub use names::{Meaning, Names};
pub use rule::{Breach, Rule, Stop};
pub use setting::{Setting, Signature, Variable};
