//! What holds of the first entry that overflows. Nothing is computed here.

ghost use Rattle.luo_engine.specs.EntryOrder.{LesserSizesComeFirst, CountsComeFirst, CountsGoByRank};
ghost use Rattle.luo_engine.specs.EntryOrder.{TotalsGoByRank, TotalsGoByLevel};
ghost use Rattle.luo_engine.specs.FirstOver.{FirstOverIsOne, NoneIsFirst, NoneOrFirst};

/// At most one entry at one size is the first that overflows.
pub fn first_overflow_is_one()
    ensures { FirstOverIsOne }
{}

/// Where no entry of any size overflows, none is the first that does.
pub fn none_over_has_no_first()
    ensures { NoneIsFirst }
{}

/// Where no entry is the first that overflows, none does.
pub fn first_overflow_or_none()
    ensures { NoneOrFirst }
{}

/// Entries go by size, at one size counts before totals, counts by rank and by node, totals by rank, by level and
/// by site.
pub fn entries_are_ordered()
    ensures sizes { LesserSizesComeFirst }
    ensures counts { CountsComeFirst }
    ensures nodes { CountsGoByRank }
    ensures ranks { TotalsGoByRank }
    ensures levels { TotalsGoByLevel }
{}
