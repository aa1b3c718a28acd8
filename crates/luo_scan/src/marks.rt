// Marks and how they are written.
ghost use Rattle.std.specs.Prelude.{◌≡◌, ◌≢◌, ℕ, List, ◌++◌, MatchOption};
ghost use Rattle.luo_scan.specs.Spellings.{sign};

use crate::Mark;

const MARKS: [Mark; 11] = [
    Mark::Semicolon,
    Mark::Comma,
    Mark::Equals,
    Mark::Bar,
    Mark::LeftRound,
    Mark::RightRound,
    Mark::LessEqual,
    Mark::GreaterEqual,
    Mark::Dots,
    Mark::Colon,
    Mark::Underscore,
];

/// The bytes of a mark.
pub fn written(mark: Mark) -> &'static [u8]
    ensures { result.now ≡ sign mark }
{
    match mark {
        Mark::Semicolon => b";",
        Mark::Comma => b",",
        Mark::Equals => b"=",
        Mark::Bar => b"|",
        Mark::LeftRound => b"(",
        Mark::RightRound => b")",
        Mark::LessEqual => b"<=",
        Mark::GreaterEqual => b">=",
        Mark::Dots => b"..",
        Mark::Colon => b":",
        Mark::Underscore => b"_",
    }
}

/// The mark that the text begins with, if there is one.
pub(crate) fn mark_of(text: &[u8]) -> Option<Mark>
    ensures { MatchOption result ((m : Mark) (after : List ℕ) → text.now ≢ sign m ++ after)
        (λ m. (after : List ℕ) × (text.now ≡ sign m ++ after)) }
{
    for mark in &MARKS {
        if text.starts_with(written(*mark)) {
            return Some(*mark);
        }
    }
    None
}
