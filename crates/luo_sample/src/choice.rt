// What the words of a generator choose.
ghost use Rattle.std.specs.Prelude.{◌≡◌};
ghost use Rattle.luo_sample.specs.Number.{choice_of, behind};

use rand_core::utils::NextWord;
use rand_pcg::Pcg32;

/// What is chosen for one definition and its procedure.
#[derive(Clone, Copy)]
pub struct Choice {
    /// The definition that is the first of two factors, below 20.
    pub first: u32,
    /// The definition that is the second, below 20.
    pub second: u32,
    /// The kind of the collection: 0, 1 or 2.
    pub kind: u32,
    /// The definition of its components, below 20.
    pub inner: u32,
}

// Takes the next four words.
pub(crate) fn next_choice(words: &mut Pcg32) -> Choice
    ensures value { result ≡ choice_of words.old }
    ensures rest { words.new ≡ behind (behind (behind (behind words.old))) }
{
    let first = words.next_word() % 20;
    let second = words.next_word() % 20;
    let kind = words.next_word() % 3;
    let inner = words.next_word() % 20;
    Choice {
        first,
        second,
        kind,
        inner,
    }
}
