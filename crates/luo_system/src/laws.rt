//! Laws of plain form; that equations hold and determine the numbers; equations of small programs.
ghost use Rattle.luo_system.specs.Laws.{SumsKeepCoefficients, ProductsKeepCoefficients};
ghost use Rattle.luo_system.specs.Laws.{WalksKeepCoefficients, QuotientsRoundDown};
ghost use Rattle.luo_system.specs.Truth.{RightTablesHold, RightTablesExist, HoldingTablesAreRight};
ghost use Rattle.luo_system.specs.Truth.{SystemsDescribe, RightTablesHaveRows, SystemsHaveTables};
ghost use Rattle.luo_system.specs.Truth.{RightTablesStartWithZeros};
ghost use Rattle.luo_system.specs.Facts.{SystemOfTrees, SystemOfRooted};
ghost use Rattle.luo_system.specs.FactsCases.{SystemOfCases};
ghost use Rattle.luo_system.specs.Evaluated.{SystemOfCollections, PermutationsGive, PartitionsGive};
ghost use Rattle.luo_system.specs.Evaluated.{DistinctPartitionsGive};
ghost use Rattle.luo_system.specs.Starts.{PairsHoldFromOne, StartsAreNeeded};

/// A sum in plain form has the coefficients of the sum.
pub fn sums_keep_coefficients()
    ensures { SumsKeepCoefficients }
{}

/// A product in plain form has the coefficients of the product.
pub fn products_keep_coefficients()
    ensures { ProductsKeepCoefficients }
{}

/// A walk in plain form has the coefficients of the walk.
pub fn walks_keep_coefficients()
    ensures { WalksKeepCoefficients }
{}

/// Quotients in coefficients are rounded down, also those of negative numbers.
pub fn quotients_round_down()
    ensures { QuotientsRoundDown }
{}

/// The equations of a founded program hold of its counts and totals, at every size, and no quotient
/// leaves a remainder.
pub fn right_tables_hold()
    ensures { RightTablesHold }
{}

/// A founded program has counts and totals of all sizes.
pub fn right_tables_exist()
    ensures { RightTablesExist }
{}

/// Integers that keep the equations of a founded program, with 0 at size 0 wherever a definition
/// has no structure of that size, are its counts and totals.
pub fn holding_tables_are_right()
    ensures { HoldingTablesAreRight }
{}

/// All three, for equations that are those of the program.
pub fn systems_describe()
    ensures { SystemsDescribe }
{}

/// The counts and totals in a right table are those of the rows of its procedures.
pub fn right_tables_have_rows()
    ensures { RightTablesHaveRows }
{}

/// A right table has 0 at size 0 wherever a definition has no structure of that size.
pub fn right_tables_start_with_zeros()
    ensures { RightTablesStartWithZeros }
{}

/// The equations of a founded program have one table: its numbers are the counts of all definitions and
/// the totals of all procedures, the equations hold of it at every size, it starts with zeros, and each
/// table of integers that satisfies them and starts with zeros is it.
pub fn systems_have_tables()
    ensures { SystemsHaveTables }
{}

/// The equations of binary trees.
pub fn system_of_trees()
    ensures { SystemOfTrees }
{}

/// The equations of rooted labelled trees.
pub fn system_of_rooted()
    ensures { SystemOfRooted }
{}

/// The equations of a program with cases on tuples, arms that bind the whole, and a walk within
/// bounds.
pub fn system_of_cases()
    ensures { SystemOfCases }
{}

/// The equations of collections of collections of points, and of a walk over them.
pub fn system_of_collections()
    ensures { SystemOfCollections }
{}

/// The equations of permutations by cycles give 2, 6 and 24 permutations with 3, 11 and 50 cycles.
pub fn permutations_give()
    ensures { PermutationsGive }
{}

/// The equations of partitions give 2, 3 and 5 partitions with 3, 6 and 12 parts.
pub fn partitions_give()
    ensures { PartitionsGive }
{}

/// The equations of partitions into distinct parts, a powerset, give 1, 2 and 2 partitions with 1, 3
/// and 3 parts.
pub fn distinct_partitions_give()
    ensures { DistinctPartitionsGive }
{}

/// The equations of a founded program hold of a table that has 1 at size 0, where there is no
/// structure.
pub fn pairs_hold_from_one()
    ensures { PairsHoldFromOne }
{}

/// So it isn't true that every table in which the equations hold is right.
pub fn starts_are_needed()
    ensures { StartsAreNeeded }
{}
