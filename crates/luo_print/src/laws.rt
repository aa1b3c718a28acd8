//! The laws of canonical texts.
#![tactic(auto)]

ghost use Rattle.luo_print.specs.Laws.{FormatsOnce, ReadsBack, SameText};

/// The canonical text of a source reads back: its tokens derive the same source but for places.
pub fn canonical_reads_back()
    ensures { ReadsBack }
{}

/// Sources that differ at most in their places have one canonical text.
pub fn places_do_not_show()
    ensures { SameText }
{}

/// The canonical text of a source reads back as a source whose canonical text is that same text.
pub fn formatting_twice_is_formatting_once()
    ensures { FormatsOnce }
{}
