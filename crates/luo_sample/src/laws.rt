//! What holds of samples. These functions do nothing when they run; their contracts are the laws.
#![tactic(auto)]

ghost use Rattle.luo_sample.specs.Laws.{EachIsGood};
ghost use Rattle.luo_sample.specs.Facts.{Words, Universes, Choices, FirstLines, MiddleLines, LastLines};

/// The text of every sample has tokens and a source, passes no limit, breaks no rule, and its
/// core form is well-founded.
pub fn samples_are_good()
    ensures { EachIsGood }
{}

/// The first words of some numbers are those of the published generator.
pub fn words_are_published()
    ensures { Words }
{}

/// Some numbers choose what the published words say.
pub fn choices_are_known()
    ensures universes { Universes }
    ensures choices { Choices }
{}

/// The samples of 0 and 1 have lines that are known.
pub fn lines_are_known()
    ensures first { FirstLines }
    ensures middle { MiddleLines }
    ensures last { LastLines }
{}
