// The steps that commands share. Each answers the next thing, or a refusal.
mod program;
mod source;
mod text;

pub use program::{core_of, file_program};
pub use source::{file_source, source_of, tokens_of};
