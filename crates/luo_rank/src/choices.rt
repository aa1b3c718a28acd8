// Choices of some of the components of one size.
ghost use Rattle.std.specs.Prelude.{◌≡◌, ◌+◌, ◌≤◌, ◌<◌, ◌↔◌, length, IsTrue};
ghost use Rattle.luo_num.specs.Mark.{capped};
ghost use Rattle.luo_num.specs.declared.TheConstants.{MAX};
ghost use Rattle.luo_finite.specs.Binomial.{choose};
ghost use Rattle.luo_counting.specs.Numbers.{chosen};
ghost use Rattle.luo_places.specs.Tails.{IsBag};
ghost use Rattle.luo_rank.specs.inner.Lookup.{AreWays};

use luo_binom::choose_large;
use luo_model::Kind;
use luo_num::MARK;

// Whether the components of a kind stand by the order.
pub fn is_bag(kind: Kind) -> bool
    ensures { IsTrue result ↔ IsBag kind }
{
    match kind {
        Kind::Multiset | Kind::Powerset => true,
        _ => false,
    }
}

// `C(a, j)`, marked.
fn binomial(a: u128, j: usize) -> u128
    requires large { a ≤ MAX + 200 }
    requires few { j ≤ 200 }
    ensures { result ≡ capped (choose a j) }
{
    choose_large(a, j as u32).unwrap_or(MARK)
}

// The multisets or the subsets of j of c things, marked.
fn ways_of(kind: Kind, c: u128, j: usize) -> u128
    requires bag { IsBag kind }
    requires things { c ≤ MAX }
    requires few { j ≤ 40 }
    ensures { result ≡ capped (chosen kind c j) }
{
    match kind {
        Kind::Powerset => binomial(c, j),
        _ => {
            if j == 0 {
                1
            } else {
                binomial(c + (j - 1) as u128, j)
            }
        }
    }
}

// Writes the ways to take components of size d, of which there are c, as far as they fit into size n.
fn write_ways(kind: Kind, ways: &mut [u128], c: u128, d: usize, n: usize)
    requires bag { IsBag kind }
    requires things { c ≤ MAX }
    requires some { 1 ≤ d }
    requires few { n ≤ 40 }
    requires long { n < length ways.old }
    ensures { AreWays kind c d n ways.new }
{
    for j in 0..n / d + 1 {
        ways[j] = ways_of(kind, c, j);
    }
}

// The ways to take components of size d, where there is such a size.
pub fn ways_at(kind: Kind, c: u128, d: usize, n: usize) -> [u128; 41]
    requires bag { IsBag kind }
    requires things { c ≤ MAX }
    requires few { n ≤ 40 }
    ensures ways { 1 ≤ d → AreWays kind c d n result }
    ensures long { length result ≡ 41 }
{
    let mut ways = [0; 41];
    if d == 0 {
        return ways;
    }
    write_ways(kind, &mut ways, c, d, n);
    ways
}
