// Marked sums over the ways to share a size between two.
ghost use Rattle.std.specs.Prelude.{◌≡◌, ◌<◌, ◌≤◌, ◌+◌, ◌*◌, ℕ, List, length, slice_index};
ghost use Rattle.luo_num.specs.declared.limits.TheConstants.{SIZE_LIMIT};
ghost use Rattle.luo_num.specs.Mark.{capped};
ghost use Rattle.luo_finite.specs.Range.{unit};
ghost use Rattle.luo_recipes.specs.Shares.{ways, inner};
ghost use Rattle.luo_engine.specs.inner.Partial.{closing};

use luo_binom::Pascal;
use luo_model::Universe;
use luo_num::{marked_add, marked_mul};

// 1 at size 0, and 0 elsewhere.
pub fn unit_at(n: usize) -> u128
    ensures { result ≡ unit n }
{
    if n == 0 { 1 } else { 0 }
}

// The ways to choose the labels of the first of two, where it has k of n; without labels there is one.
fn ways_at(universe: Universe, pascal: &Pascal, n: usize, k: usize) -> u128
    requires small { n ≤ SIZE_LIMIT }
    requires reached { n ≤ pascal.now }
    requires within { k ≤ n }
    ensures { result ≡ capped (ways universe n k) }
{
    match universe {
        Universe::Unlabelled => 1,
        Universe::Labelled => pascal.marked(n as u32, k as u32),
    }
}

// The ways to share size n between two columns where each gets some of it.
pub fn inner_at(
    universe: Universe,
    pascal: &Pascal,
    left: &[u128],
    right: &[u128],
    n: usize,
) -> u128
    requires small { n ≤ SIZE_LIMIT }
    requires reached { n ≤ pascal.now }
    requires left { n < length left.now }
    requires right { n < length right.now }
    ensures { result
        ≡ capped (inner universe (slice_index left.now) (slice_index right.now) n) }
{
    let mut sum = 0;
    for k in 1..n.max(1) {
        let both = marked_mul(left[k], right[n - k]);
        sum = marked_add(sum, marked_mul(ways_at(universe, pascal, n, k), both));
    }
    sum
}

// An open entry of size n with what is added where one of the two columns gets all: `whole` is the right column's entry of size n.
pub fn closing_at(opened: u128, left: &[u128], right: &[u128], n: usize, whole: u128) -> u128
    requires left { n < length left.now }
    requires right { n < length right.now }
    ensures { result
        ≡ capped (closing opened (slice_index left.now) (slice_index right.now) n whole) }
{
    let first = marked_mul(left[0], whole);
    if n == 0 {
        first
    } else {
        marked_add(opened, marked_add(first, marked_mul(left[n], right[0])))
    }
}
