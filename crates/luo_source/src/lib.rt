//! Sources of programs, and the grammar that relates them to tokens.
#![tactic(auto)]

pub mod laws;
mod names;
mod source;
mod statements;
mod types;
mod values;

pub use names::Name;
pub use source::{ProcBody, ProcDef, Source};
pub use statements::{Pattern, SourceArm, Stmt};
pub use types::{Bound, MeasureDef, Range, TypeDef, TypeExpr};
pub use values::{SourceValue, SourceValueArm};
