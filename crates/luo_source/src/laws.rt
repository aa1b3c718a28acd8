//! The laws of the grammar.
#![tactic(auto)]

ghost use Rattle.luo_source.specs.Laws.{SourceIsUnique};

/// The tokens of a text have at most one source.
pub fn source_is_unique()
    ensures { SourceIsUnique }
{}
