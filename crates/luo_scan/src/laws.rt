// Laws of tokens and faults.
ghost use Rattle.luo_scan.specs.Laws.{TokensAreUnique, FaultIsUnique, TokensOrFault, NeverBoth, TokensLieInside, LexemesAreFit};

/// Two lists of tokens of one text are equal.
pub fn tokens_are_unique()
    ensures { TokensAreUnique }
{}

/// Two first faults of one text are the same, at the same place.
pub fn fault_is_unique()
    ensures { FaultIsUnique }
{}

/// Every text has tokens or a first fault, and none has both.
pub fn tokens_or_fault()
    ensures some { TokensOrFault }
    ensures one { NeverBoth }
{}

/// Each token begins no later than it ends, and ends within the text.
pub fn tokens_lie_inside()
    ensures { TokensLieInside }
{}

/// The bytes between the ends of each token are a piece of its kind, within the limits of names and numbers.
pub fn lexemes_are_fit()
    ensures { LexemesAreFit }
{}
