// Sums and products of numbers with a mark in place of each past `MAX`.
ghost use Rattle.std.specs.Prelude.{◌≡◌, ◌+◌, ◌*◌};
ghost use Rattle.luo_num.specs.Mark.{capped};

use crate::MARK;

/// The answer of calls whose value is above `MAX`.
#[derive(Clone, Copy, Debug, PartialEq, Eq)]
pub struct Over;

/// The sum, or `MARK` where it is above `MAX`. A sum with a mark is a mark.
pub fn marked_add(a: u128, b: u128) -> u128
    ensures { result ≡ capped (a + b) }
{
    a.saturating_add(b).min(MARK)
}

/// The product, or `MARK` where it is above `MAX`. A mark times 0 is 0, and each other product with a
/// mark is a mark.
pub fn marked_mul(a: u128, b: u128) -> u128
    ensures { result ≡ capped (a * b) }
{
    a.saturating_mul(b).min(MARK)
}
