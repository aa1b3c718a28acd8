//! What holds of all that procedures with a result make. Nothing is computed here.

ghost use Rattle.luo_interp.specs.Laws.{EachMakesOne, AtomsAreCharged};

/// Of each member a procedure with a result makes exactly one structure, a member of the result's node without labels.
pub fn each_makes_one()
    ensures { EachMakesOne }
{}

/// Where each atom of each value charges 1, and no variable is handed on, a procedure charges as many as it makes
/// atoms.
pub fn atoms_are_charged()
    ensures { AtomsAreCharged }
{}
