// Laws of the grammar.
#![tactic(auto)]

ghost use Rattle.luo_syntax.specs.SourceOrError.{SourceOrError, NeverBoth};

/// The tokens of a text have a source that is nowhere too deep, or an error that explains, and never both.
pub fn source_or_error()
    ensures some { SourceOrError }
    ensures one { NeverBoth }
{}
