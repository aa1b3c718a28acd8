// Reserved words and how they are spelled.
ghost use Rattle.std.specs.Prelude.{◌≡◌, ◌≢◌, MatchOption};
ghost use Rattle.luo_scan.specs.Spellings.{spelling};

use crate::Word;

const WORDS: [Word; 24] = [
    Word::KwLabelled,
    Word::KwUnlabelled,
    Word::KwType,
    Word::KwEpsilon,
    Word::KwAtom,
    Word::KwProduct,
    Word::KwSequence,
    Word::KwSet,
    Word::KwCycle,
    Word::KwMultiset,
    Word::KwPowerset,
    Word::KwCard,
    Word::KwIn,
    Word::KwMeasure,
    Word::KwProcedure,
    Word::KwAnalyze,
    Word::KwBegin,
    Word::KwEnd,
    Word::KwCase,
    Word::KwOf,
    Word::KwForall,
    Word::KwDo,
    Word::KwSkip,
    Word::KwAs,
];

/// The bytes of a reserved word.
pub fn spelled(word: Word) -> &'static [u8]
    ensures { result.now ≡ spelling word }
{
    match word {
        Word::KwLabelled => b"labelled",
        Word::KwUnlabelled => b"unlabelled",
        Word::KwType => b"type",
        Word::KwEpsilon => b"epsilon",
        Word::KwAtom => b"atom",
        Word::KwProduct => b"product",
        Word::KwSequence => b"sequence",
        Word::KwSet => b"set",
        Word::KwCycle => b"cycle",
        Word::KwMultiset => b"multiset",
        Word::KwPowerset => b"powerset",
        Word::KwCard => b"card",
        Word::KwIn => b"in",
        Word::KwMeasure => b"measure",
        Word::KwProcedure => b"procedure",
        Word::KwAnalyze => b"analyze",
        Word::KwBegin => b"begin",
        Word::KwEnd => b"end",
        Word::KwCase => b"case",
        Word::KwOf => b"of",
        Word::KwForall => b"forall",
        Word::KwDo => b"do",
        Word::KwSkip => b"skip",
        Word::KwAs => b"as",
    }
}

/// The reserved word that is spelled by these bytes, if there is one.
pub(crate) fn word_of(bytes: &[u8]) -> Option<Word>
    ensures { MatchOption result ((w : Word) → spelling w ≢ bytes.now)
        (λ w. spelling w ≡ bytes.now) }
{
    for word in &WORDS {
        if spelled(*word) == bytes {
            return Some(*word);
        }
    }
    None
}
