// The components of collections, counted by size.
ghost use Rattle.std.specs.Prelude.{◌≡◌, ◌≤◌, ◌<◌, ℕ, length, slice_index, IfSome};
ghost use Rattle.luo_num.specs.declared.TheConstants.{MAX};
ghost use Rattle.luo_model.specs.Member.{IsWithin};
ghost use Rattle.luo_numbers.specs.Given.{AreComponents};

use luo_num::mul;

/// What the components of a collection are.
#[derive(Clone, Copy)]
pub enum Components {
    /// None of any size.
    Nothing,
    /// An atom: one of size 1.
    Atom,
    /// One of each size from 1 on.
    EachSize,
    /// Cycles of labelled atoms: those of size n are 1 for n = 1, and n - 1 times those of size n - 1 after that.
    Cycles,
    /// Trees, a root with a collection of trees: as many of size n as there are collections of size n - 1.
    Trees,
    /// Trees whose atoms have labels: n times as many.
    LabelledTrees,
}

impl Components {
    // The number of components of size n, of which there are `before` of size n - 1. The collections of size n - 1 are `behind`.
    fn number(self, n: u128, before: u128, behind: u128) -> Option<u128>
        requires size { n ≤ MAX }
        requires before { before ≤ MAX }
        requires behind { behind ≤ MAX }
        ensures { IfSome result (λ number. number ≤ MAX) }
    {
        match self {
            Components::Nothing => Some(0),
            Components::Atom => Some(u128::from(n == 1)),
            Components::EachSize => Some(1),
            Components::Cycles => { if n < 2 { Some(1) } else { mul(n - 1, before) } }
            Components::Trees => Some(behind),
            Components::LabelledTrees => mul(n, behind),
        }
    }

    /// Writes the number of components of size n + 1, where there are `behind` collections of size n. It is false, and nothing is
    /// written, where there is no place for it or it is above `MAX`.
    pub fn grow(self, comp: &mut [u128], n: usize, behind: u128) -> bool
        requires comp { AreComponents comp.old }
        requires inside { n < length comp.old }
        requires behind { behind ≤ MAX }
        ensures comp { AreComponents comp.new }
        ensures long { length comp.new ≡ length comp.old }
        ensures kept { (m : ℕ) → m ≤ n → slice_index comp.new m ≡ slice_index comp.old m }
    {
        if n + 1 >= comp.len() {
            return false;
        }
        match self.number(n as u128 + 1, comp[n], behind) {
            Some(number) => {
                comp[n + 1] = number;
                true
            }
            None => false,
        }
    }
}

/// The number of components, where one component is within the bounds, and else 0.
pub fn alone(low: u32, high: Option<u32>, number: u128) -> u128
    ensures within { IsWithin low high 1 → result ≡ number }
    ensures without { (IsWithin low high 1 → ⊥) → result ≡ 0 }
    ensures small { result ≤ number }
{
    match high {
        Some(high) => { if low <= 1 && 1 <= high { number } else { 0 } }
        None => { if low <= 1 { number } else { 0 } }
    }
}
