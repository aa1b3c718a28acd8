//! The laws of pieces. Nothing is computed here.
ghost use Rattle.luo_audit.specs.Laws.{PiecesAreEven, PiecesAddUp, SumsAddUp, RowsAgree};
ghost use Rattle.luo_audit.specs.Laws.{PiecesOfPermutations};

/// The pieces go from the first place to the last, and their lengths differ by at most one.
pub fn pieces_are_even()
    ensures { PiecesAreEven }
{}

/// There is one sum for each worker, and together they are the sum of all.
pub fn pieces_add_up()
    ensures { PiecesAddUp }
{}

/// Whatever the number of workers, the sums of the pieces add up to the total.
pub fn sums_add_up()
    ensures { SumsAddUp }
{}

/// Whatever the numbers of workers, audits of one procedure and size have one row.
pub fn rows_agree()
    ensures { RowsAgree }
{}

/// The pieces of the permutations of three points, by cycles, for 1, 2, 4 and 7 workers.
pub fn pieces_of_permutations()
    ensures { PiecesOfPermutations }
{}
