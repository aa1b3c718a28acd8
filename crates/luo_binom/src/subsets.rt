// Choices of labels by their places.
ghost use Rattle.std.specs.Prelude.{◌≡◌, ◌<◌, ◌≤◌, ◌-◌, length};
ghost use Rattle.luo_finite.specs.Binomial.{choose};
ghost use Rattle.luo_finite.specs.Places.{IsPlace, IsChoice, Lexical};
ghost use Rattle.luo_binom.specs.Laws.{Rises};
ghost use Rattle.luo_binom.specs.inner.Written.{IsWritten};

use crate::pascal::Pascal;

/// The greatest number of labels for which every number of choices is at most `MAX`.
pub const FEW: usize = 130;

impl Pascal {
    /// Writes the choice of `j` of the labels, rising, that stands at place `rank` among all such choices in lexicographic order
    /// (Flajolet, Zimmermann and Van Cutsem 1994). There are at most `FEW` labels, for which every number of choices is at
    /// most `MAX`.
    pub fn subset_at(&self, labels: &[u32], j: u32, rank: u128, out: &mut [u32])
        requires labels { Rises labels.now }
        requires few { length labels.now ≤ FEW }
        requires reached { length labels.now ≤ self.now }
        requires inside { j ≤ length labels.now }
        requires rank { rank < choose (length labels.now) j }
        requires room { length out.old ≡ j }
        ensures { IsPlace (IsChoice labels.now j) Lexical rank out.new }
    {
        subset_from(self, labels, rank, 0, out);
    }

    /// The place of a rising choice of the labels among all choices of as many, in lexicographic order.
    pub fn subset_rank(&self, labels: &[u32], part: &[u32]) -> u128
        requires labels { Rises labels.now }
        requires few { length labels.now ≤ FEW }
        requires reached { length labels.now ≤ self.now }
        requires part { IsChoice labels.now (length part.now) part.now }
        ensures { IsPlace (IsChoice labels.now (length part.now)) Lexical result part.now }
    {
        rank_from(self, labels, part)
    }
}

// Writes the choice at place `rank` after the first `at` of `out`: those with the least label come first.
fn subset_from(pascal: &Pascal, labels: &[u32], rank: u128, at: usize, out: &mut [u32])
    requires labels { Rises labels.now }
    requires few { length labels.now ≤ FEW }
    requires reached { length labels.now ≤ pascal.now }
    requires inside { at ≤ length out.old }
    requires rank { rank < choose (length labels.now) (length out.old - at) }
    ensures { IsWritten labels.now rank at out.old out.new }
{
    if at < out.len() {
        if let Some((first, rest)) = labels.split_first() {
            let with = choices(pascal, rest.len(), out.len() - at - 1);
            if rank < with {
                out[at] = *first;
                subset_from(pascal, rest, rank, at + 1, out);
            } else {
                subset_from(pascal, rest, rank - with, at, out);
            }
        }
    }
}

// The place of a choice: where it doesn't have the least label, all that have it come before.
fn rank_from(pascal: &Pascal, labels: &[u32], part: &[u32]) -> u128
    requires labels { Rises labels.now }
    requires few { length labels.now ≤ FEW }
    requires reached { length labels.now ≤ pascal.now }
    requires part { IsChoice labels.now (length part.now) part.now }
    ensures place { IsPlace (IsChoice labels.now (length part.now)) Lexical result part.now }
    ensures below { result < choose (length labels.now) (length part.now) }
{
    match part.split_first() {
        Some((first, others)) => match labels.split_first() {
            Some((least, rest)) => {
                if *first == *least {
                    rank_from(pascal, rest, others)
                } else {
                    let with = choices(pascal, rest.len(), others.len());
                    let _all = choices(pascal, labels.len(), part.len());
                    with + rank_from(pascal, rest, part)
                }
            }
            None => 0,
        },
        None => 0,
    }
}

// The number of choices of k of few things.
fn choices(pascal: &Pascal, n: usize, k: usize) -> u128
    requires few { n ≤ FEW }
    requires reached { n ≤ pascal.now }
    requires within { k ≤ n }
    ensures { result ≡ choose n k }
{
    pascal.marked(n as u32, k as u32)
}
