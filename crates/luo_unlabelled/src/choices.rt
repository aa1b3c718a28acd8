// Choices of some of the components of one size.
ghost use Rattle.std.specs.Prelude.{◌≡◌, ◌+◌, ◌*◌, ◌/◌, ◌<◌, ◌≤◌, ℕ, length, slice_index};
ghost use Rattle.luo_num.specs.Mark.{capped};
ghost use Rattle.luo_num.specs.declared.limits.TheConstants.{SIZE_LIMIT};
ghost use Rattle.luo_num.specs.declared.TheConstants.{MAX};
ghost use Rattle.luo_finite.specs.Binomial.{choose};
ghost use Rattle.luo_counting.specs.Numbers.{repeats, repeat_totals, subset_totals, chosen, chosen_totals};
ghost use Rattle.luo_unlabelled.specs.inner.Planes.{AreWays, AreCharges};

use luo_binom::choose_large;
use luo_model::Kind;
use luo_num::{MARK, marked_mul};

// `C(a, j)`, marked.
fn binomial(a: u128, j: usize) -> u128
    requires large { a ≤ MAX + 200 }
    requires few { j ≤ 200 }
    ensures { result ≡ capped (choose a j) }
{
    choose_large(a, j as u32).unwrap_or(MARK)
}

// The multisets of j of c things, marked.
fn multisets(c: u128, j: usize) -> u128
    requires things { c ≤ MAX }
    requires few { j ≤ SIZE_LIMIT }
    ensures { result ≡ capped (repeats c j) }
{
    if j == 0 {
        1
    } else {
        binomial(c + (j - 1) as u128, j)
    }
}

// The charges over all multisets of j of c things, marked: each copy is charged. Those over the things are `charge`.
fn charged_multisets(c: u128, charge: u128, j: usize) -> u128
    requires things { c ≤ MAX }
    requires few { j ≤ SIZE_LIMIT }
    ensures { result ≡ capped (repeat_totals c charge j) }
{
    if j == 0 {
        0
    } else {
        marked_mul(charge, binomial(c + (j - 1) as u128, j - 1))
    }
}

// And over all subsets.
fn charged_subsets(c: u128, charge: u128, j: usize) -> u128
    requires things { c ≤ MAX }
    requires few { j ≤ SIZE_LIMIT }
    ensures { result ≡ capped (subset_totals c charge j) }
{
    if j == 0 || c == 0 {
        0
    } else {
        marked_mul(charge, binomial(c - 1, j - 1))
    }
}

// The choices of a kind.
fn choices(kind: Kind, c: u128, j: usize) -> u128
    requires things { c ≤ MAX }
    requires few { j ≤ SIZE_LIMIT }
    ensures { result ≡ capped (chosen kind c j) }
{
    match kind {
        Kind::Powerset => binomial(c, j),
        _ => multisets(c, j),
    }
}

// The charges over them.
fn charged(kind: Kind, c: u128, charge: u128, j: usize) -> u128
    requires things { c ≤ MAX }
    requires few { j ≤ SIZE_LIMIT }
    ensures { result ≡ capped (chosen_totals kind c charge j) }
{
    match kind {
        Kind::Powerset => charged_subsets(c, charge, j),
        _ => charged_multisets(c, charge, j),
    }
}

// Writes the ways to take components of size d, of which there are c, as far as they fit into the sizes of a plane.
pub fn write_ways(kind: Kind, ways: &mut [u128], c: u128, d: usize)
    requires things { c ≤ MAX }
    requires some { 1 ≤ d }
    requires long { length ways.old ≤ SIZE_LIMIT + 1 }
    requires not_empty { 1 ≤ length ways.old }
    ensures { AreWays kind c d (length ways.old) ways.new }
{
    for j in 0..(ways.len() - 1) / d + 1 {
        ways[j] = choices(kind, c, j);
    }
}

// Writes the charges over these ways.
pub fn write_charges(kind: Kind, charges: &mut [u128], c: u128, charge: u128, d: usize)
    requires things { c ≤ MAX }
    requires some { 1 ≤ d }
    requires long { length charges.old ≤ SIZE_LIMIT + 1 }
    requires not_empty { 1 ≤ length charges.old }
    ensures { AreCharges kind c charge d (length charges.old) charges.new }
{
    for j in 0..(charges.len() - 1) / d + 1 {
        charges[j] = charged(kind, c, charge, j);
    }
}
