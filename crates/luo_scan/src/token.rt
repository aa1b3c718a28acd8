// Tokens and their spans.

/// A reserved word.
#[derive(Clone, Copy, Debug, PartialEq, Eq)]
pub enum Word {
    KwLabelled,
    KwUnlabelled,
    KwType,
    KwEpsilon,
    KwAtom,
    KwProduct,
    KwSequence,
    KwSet,
    KwCycle,
    KwMultiset,
    KwPowerset,
    KwCard,
    KwIn,
    KwMeasure,
    KwProcedure,
    KwAnalyze,
    KwBegin,
    KwEnd,
    KwCase,
    KwOf,
    KwForall,
    KwDo,
    KwSkip,
    KwAs,
}

/// A mark.
#[derive(Clone, Copy, Debug, PartialEq, Eq)]
pub enum Mark {
    Semicolon,
    Comma,
    Equals,
    Bar,
    LeftRound,
    RightRound,
    LessEqual,
    GreaterEqual,
    Dots,
    Colon,
    Underscore,
}

/// What a token is.
#[derive(Clone, Copy, Debug, PartialEq, Eq)]
pub enum TokenKind {
    Word(Word),
    Name,
    Number(u128),
    Mark(Mark),
}

/// A token and its span: the bytes from `start` up to, not with, `end`.
#[derive(Clone, Copy, Debug, PartialEq, Eq)]
pub struct Token {
    pub kind: TokenKind,
    pub start: usize,
    pub end: usize,
}
