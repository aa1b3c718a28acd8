//! The reader of programs: the source of a text's tokens, or where they stop to begin a program.
#![tactic(auto)]

mod cursor;
mod error;
mod fault;
mod laws;
mod name_list;
mod parsing;
mod patterns_reader;
mod procedures;
mod program_reader;
mod statements_reader;
mod types_reader;
mod types_reader_bounds;
mod types_reader_definitions;
mod values_reader;

pub use error::SyntaxError;
pub use laws::source_or_error;
pub use luo_source::laws::source_is_unique;
pub use luo_source::{
    Bound, MeasureDef, Name, Pattern, ProcBody, ProcDef, Range, Source, SourceArm, SourceValue,
    SourceValueArm, Stmt, TypeDef, TypeExpr,
};
pub use parsing::parse;
