//! What holds of all texts of structures. Nothing is computed here.

ghost use Rattle.luo_read.specs.Facts.{TextsStop, TextsNest};
ghost use Rattle.luo_read.specs.Laws.{OneStructure};

/// A text within the limit is the text of at most one structure of a node, though it doesn't say what a labelled atom
/// weighs.
pub fn one_structure()
    ensures { OneStructure }
{}

/// Where some texts stop being texts of structures.
pub fn texts_stop()
    ensures { TextsStop }
{}

/// How deep some texts nest.
pub fn texts_nest()
    ensures { TextsNest }
{}
