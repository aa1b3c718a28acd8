//! The laws of marks and of limits.
ghost use Rattle.luo_num.specs.Laws.{CappedSum, CappedProduct, CappedSmall, CappedPast};
ghost use Rattle.luo_num.specs.Limits.{HeadsSayLimits, LinesSayLimits, TextLimitsAre, WordLimitsAre};

/// Marking the terms first changes no marked sum.
pub fn capped_sum()
    ensures { CappedSum }
{}

/// Marking the factors first changes no marked product.
pub fn capped_product()
    ensures { CappedProduct }
{}

/// Numbers up to `MAX` stay as they are, and exactly those past it are marked.
pub fn capped_number()
    ensures small { CappedSmall }
    ensures past { CappedPast }
{}

/// The line of each limit says the limit's number.
pub fn limit_lines()
    ensures heads { HeadsSayLimits }
    ensures lines { LinesSayLimits }
{}

/// The greatest number of a table, and each limit, by its numeral.
pub fn limits_are()
    ensures text { TextLimitsAre }
    ensures words { WordLimitsAre }
{}
