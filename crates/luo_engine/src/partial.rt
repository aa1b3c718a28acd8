// Partial products of all products, by factors.
ghost use Rattle.std.specs.Prelude.{◌≡◌, ◌<◌, ◌≤◌, ◌+◌, ◌*◌, ℕ, List, length, drop, slice_get, Some, None};
ghost use Rattle.luo_num.specs.declared.limits.TheConstants.{SIZE_LIMIT};
ghost use Rattle.luo_num.specs.Mark.{capped};
ghost use Rattle.luo_engine.specs.inner.Grid.{entry_of, SameShape};
ghost use Rattle.luo_recipes.specs.Shares.{tail_of, open_of};
ghost use Rattle.luo_engine.specs.inner.Partial.{AreClosedBelow, AreOpenBefore, AreClosedFrom};

use crate::numbers::{closing_at, inner_at, unit_at};
use crate::table::Table;
use luo_binom::Pascal;
use luo_model::Universe;

// The open entry of row r at size n.
fn open_at(
    universe: Universe,
    pascal: &Pascal,
    counts: &Table,
    factors: &[Option<usize>],
    partials: &Table,
    r: usize,
    n: usize,
) -> u128
    requires small { n ≤ SIZE_LIMIT }
    requires reached { n ≤ pascal.now }
    requires below { AreClosedBelow universe counts.now factors.now partials.now n }
    requires row { r < length factors.now }
    ensures { result ≡ capped (open_of universe (entry_of counts.now) (drop r factors.now) n) }
{
    match factors[r] {
        None => 0,
        Some(y) => inner_at(universe, pascal, counts.row(y), partials.row(r + 1), n),
    }
}

// Opens size n: each row gets what reads smaller sizes alone.
pub fn open_size(
    universe: Universe,
    pascal: &Pascal,
    counts: &Table,
    factors: &[Option<usize>],
    partials: &mut Table,
    n: usize,
)
    requires small { n ≤ SIZE_LIMIT }
    requires reached { n ≤ pascal.now }
    requires below { AreClosedBelow universe counts.now factors.now partials.old n }
    ensures open_rows { AreOpenBefore universe counts.now factors.now partials.new n
        (length factors.now) }
    ensures shape { SameShape partials.old partials.new }
{
    for r in 0..factors.len() {
        let value = open_at(universe, pascal, counts, factors, partials, r, n);
        partials.set(r, n, value);
    }
}

// The entry of row r at size n, from its open entry and the next row's entry `whole`.
fn closed_at(
    counts: &Table,
    factors: &[Option<usize>],
    partials: &Table,
    r: usize,
    n: usize,
    whole: u128,
    universe: Universe,
) -> u128
    requires open_row { AreOpenBefore universe counts.now factors.now partials.now n (r + 1) }
    requires row { r < length factors.now }
    requires whole { whole
        ≡ capped (tail_of universe (entry_of counts.now) (drop (r + 1) factors.now) n) }
    ensures { result ≡ capped (tail_of universe (entry_of counts.now) (drop r factors.now) n) }
{
    match factors[r] {
        None => unit_at(n),
        Some(y) => closing_at(
            partials.entry(r, n),
            counts.row(y),
            partials.row(r + 1),
            n,
            whole,
        ),
    }
}

// Closes size n, once its counts are known.
pub fn close_size(
    universe: Universe,
    counts: &Table,
    factors: &[Option<usize>],
    partials: &mut Table,
    n: usize,
)
    requires { AreOpenBefore universe counts.now factors.now partials.old n (length factors.now) }
    ensures closed_rows { AreClosedFrom universe counts.now factors.now partials.new n 0 }
    ensures shape { SameShape partials.old partials.new }
{
    let mut whole = unit_at(n);
    for r in (0..factors.len()).rev() {
        whole = closed_at(counts, factors, partials, r, n, whole, universe);
        partials.set(r, n, whole);
    }
}

// The number of ways to share size n among the factors from row `start` on, `arity` many.
pub fn product_at(
    universe: Universe,
    counts: &Table,
    factors: &[Option<usize>],
    partials: &Table,
    start: usize,
    arity: usize,
    n: usize,
) -> u128
    requires open_rows { AreOpenBefore universe counts.now factors.now partials.now n
        (length factors.now) }
    requires room { start + arity < length factors.now }
    requires end { slice_get factors.now (start + arity) ≡ Some None }
    ensures { result
        ≡ capped (tail_of universe (entry_of counts.now) (drop start factors.now) n) }
{
    let mut whole = unit_at(n);
    for i in (0..arity).rev() {
        whole = closed_at(counts, factors, partials, start + i, n, whole, universe);
    }
    whole
}
