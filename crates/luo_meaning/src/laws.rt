//! Laws: the core form of a source keeps what the source means; and what small sources mean.
#![tactic(auto)]

ghost use Rattle.luo_meaning.specs.Names.{NamesMeanFirstEntries};
ghost use Rattle.luo_meaning.specs.EntryOrder.{LesserSizesComeFirst, CountsComeFirst};
ghost use Rattle.luo_meaning.specs.EntryOrder.{CountsGoByRank, TotalsGoByRank, TotalsGoByLevel};
ghost use Rattle.luo_meaning.specs.Facts.{BinaryTreesOfTwo, PathLengths, SpinesAreCharged, PermutationsOfTwo};
ghost use Rattle.luo_meaning.specs.Facts.{FewCyclesOfTwo, CyclesAreCharged, ChoicesOfTwo, BothIsMade};
ghost use Rattle.luo_meaning.specs.Facts.{PlacesOfBinaryTrees, RanksOfBinaryTrees, LevelsOfBinaryTrees};
ghost use Rattle.luo_meaning.specs.Facts.{OrderOfBinaryTrees, TypesOfChoices};
ghost use Rattle.luo_meaning.specs.Laws.{StructuresAreKept, ConstructsAreKept, ChargesAreKept, MadeIsKept};
ghost use Rattle.luo_meaning.specs.Laws.{CountsAreKept, TotalsAreKept, RowsAreKept, TablesAreKept, HeadingsAreKept};
ghost use Rattle.luo_meaning.specs.Laws.{OverIsKept, WalksAreKept, NumbersAreKept, OrderIsKept, EntryNamesAreKept};
ghost use Rattle.luo_meaning.specs.Laws.{BrokenIsKept, FirstBrokenIsKept, NothingBrokenIsKept};

/// A name means what the first of all definitions of this name says, in the order of types, measures and procedures, whatever rules
/// the source breaks.
pub fn names_mean_first_entries()
    ensures { NamesMeanFirstEntries }
{}

/// The members of a definition's node are the structures of its name.
pub fn structures_are_kept()
    ensures { StructuresAreKept }
{}

/// The nodes of the core form are the constructs of the source, with the same structures.
pub fn constructs_are_kept()
    ensures { ConstructsAreKept }
{}

/// A procedure of the core form charges what the one of its name does.
pub fn charges_are_kept()
    ensures { ChargesAreKept }
{}

/// A procedure of the core form makes what the one of its name does.
pub fn made_is_kept()
    ensures { MadeIsKept }
{}

/// The counts of nodes are the counts of constructs.
pub fn counts_are_kept()
    ensures { CountsAreKept }
{}

/// The totals of sites are the totals of sites of the source.
pub fn totals_are_kept()
    ensures { TotalsAreKept }
{}

/// The rows of a procedure are those of the one in its place of the source.
pub fn rows_are_kept()
    ensures { RowsAreKept }
{}

/// The tables of the analyze lines are those of the source.
pub fn tables_are_kept()
    ensures { TablesAreKept }
{}

/// A procedure of the core form has its name, and names the type of its parameter.
pub fn headings_are_kept()
    ensures { HeadingsAreKept }
{}

/// A count or total of the core form is too large exactly where one of the source is.
pub fn over_is_kept()
    ensures { OverIsKept }
{}

/// The core form has as many walks over multisets and powersets as the source.
pub fn walks_are_kept()
    ensures { WalksAreKept }
{}

/// The count of a node and the total of a site are those of the same number in the source.
pub fn numbers_are_kept()
    ensures { NumbersAreKept }
{}

/// Nodes and sites of a founded core form have the ranks and levels of the source.
pub fn order_is_kept()
    ensures { OrderIsKept }
{}

/// Nodes and sites are called as in the source.
pub fn entry_names_are_kept()
    ensures { EntryNamesAreKept }
{}

/// The breaches that are listed are those of the source as it is written.
pub fn broken_is_kept()
    ensures { BrokenIsKept }
{}

/// The first breach of the list is the first that the source breaks.
pub fn first_broken_is_kept()
    ensures { FirstBrokenIsKept }
{}

/// No breach is listed exactly where the source breaks nothing.
pub fn nothing_broken_is_kept()
    ensures { NothingBrokenIsKept }
{}

/// Of two inner nodes there are two binary trees.
pub fn binary_trees_of_two()
    ensures { BinaryTreesOfTwo }
{}

/// The path lengths of three binary trees.
pub fn path_lengths()
    ensures { PathLengths }
{}

/// Who goes on to the left alone finds the inner nodes of the left spine.
pub fn spines_are_charged()
    ensures { SpinesAreCharged }
{}

/// Two points have two permutations, as sets of cycles.
pub fn permutations_of_two()
    ensures { PermutationsOfTwo }
{}

/// One of them has two cycles.
pub fn few_cycles_of_two()
    ensures { FewCyclesOfTwo }
{}

/// What a procedure with a result makes of two pairs, and charges.
pub fn both_is_made()
    ensures { BothIsMade }
{}

/// A walk over the cycles of a permutation charges one for each.
pub fn cycles_are_charged()
    ensures { CyclesAreCharged }
{}

/// Sets and collections with copies of at most two points of two kinds.
pub fn choices_of_two()
    ensures { ChoicesOfTwo }
{}

/// What the constructs and the sites of the source of binary trees are called.
pub fn places_of_binary_trees()
    ensures { PlacesOfBinaryTrees }
{}

/// The ranks of its constructs.
pub fn ranks_of_binary_trees()
    ensures { RanksOfBinaryTrees }
{}

/// The levels of a call, a case and a whole.
pub fn levels_of_binary_trees()
    ensures { LevelsOfBinaryTrees }
{}

/// The order of its counts and of some totals.
pub fn order_of_binary_trees()
    ensures { OrderOfBinaryTrees }
{}

/// Two names with one right side are two types, and a call on one of the wrong type breaks a rule.
pub fn types_of_choices()
    ensures { TypesOfChoices }
{}

/// Counts and totals go by size, at one size counts before totals, counts by rank and as they are in the source,
/// totals by rank, by level and as they are in the source.
pub fn entries_are_ordered()
    ensures sizes { LesserSizesComeFirst }
    ensures counts { CountsComeFirst }
    ensures constructs { CountsGoByRank }
    ensures ranks { TotalsGoByRank }
    ensures levels { TotalsGoByLevel }
{}
