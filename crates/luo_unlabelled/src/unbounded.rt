// Multisets and powersets without a greatest number of components, and with a least one of at most 2. A collection of components
// that are all smaller than it has at least 2 of them, so the least number is looked at in no row: it says whether the empty
// collection counts, and whether one component of the size at hand does.
ghost use Rattle.std.specs.Prelude.{◌≡◌, ◌≤◌, ◌+◌, ◌-◌, ◌*◌, ◌<◌, ◌++◌, ◌∷◌, [], ℕ, suc, length, take, slice_index, None, false, is_err, IfOk, OkIff};
ghost use Rattle.luo_num.specs.Mark.{capped};
ghost use Rattle.luo_num.specs.declared.TheConstants.{MAX};
ghost use Rattle.luo_num.specs.declared.limits.TheConstants.{SIZE_LIMIT};
ghost use Rattle.luo_model.specs.declared.program.Universe.TheVariants.{Unlabelled};
ghost use Rattle.luo_counting.specs.Numbers.{coll_count};
ghost use Rattle.luo_unlabelled.specs.Calls.{AreBounds, IsOfParts, GoesOn, start_of, numbers, number_of, IsCounted};
ghost use Rattle.luo_unlabelled.specs.inner.Planes.{AreWays};
ghost use Rattle.luo_unlabelled.specs.inner.Sizes.{sized, HoldsSizes};

use crate::choices::write_ways;
use crate::numbers::{keep, within, zeros};
use crate::sizes::{empty_row, fold, taken};
use luo_model::Kind;
use luo_num::{NoMemory, Over, marked_add};
use std::alloc::Global;
use std::marker::Model;

/// Counts multisets or powersets without a greatest number of components, size by size, in a row by size alone. Contracts see in it
/// the same as in a `Parts`.
#[derive(Drop)]
pub struct Unbounded {
    pub(crate) kind: Kind,
    pub(crate) low: u32,
    pub(crate) n_max: u32,
    pub(crate) calls: usize,
    pub(crate) over: bool,
    pub(crate) comp: Vec<u128>,
    pub(crate) ways: Vec<u128>,
    pub(crate) cells: Vec<u128>,
}

impl Model for Unbounded {
    ghost use Rattle.std.specs.Prelude.{take, None};
    ghost use Rattle.luo_unlabelled.specs.Calls.{Calls};
    ghost use Rattle.luo_unlabelled.specs.inner.Sizes.{IsUnbounded};

    ghost Value = { Calls };

    ghost view = { λ p. record {
      kind = p.kind;
      low = p.low;
      high = None;
      n_max = p.n_max;
      given = take p.calls p.comp.items;
      over = p.over;
    } };

    ghost invariant = { λ p. IsUnbounded p.kind p.low p.n_max p.calls p.comp.items p.ways.items
        p.cells.items };
}

impl Unbounded {
    /// A table for multisets or powersets of at least `low` components, where that is at most 2, of sizes up to `n_max`. It takes all
    /// memory that it will need.
    ///
    /// # Errors
    ///
    /// `NoMemory` where memory is refused.
    pub fn new(alloc: Global, kind: Kind, low: u32, n_max: u32) -> Result<Unbounded, NoMemory>
        requires parts { IsOfParts kind }
        requires bounds { AreBounds low None n_max }
        requires any { low ≤ 2 }
        ensures { IfOk result (λ table. table ≡ start_of kind low None n_max) }
    {
        let wide = n_max as usize + 1;
        let comp = zeros(alloc, wide)?;
        let ways = zeros(alloc, wide)?;
        let cells = empty_row(alloc, wide)?;
        Ok(Unbounded {
            kind,
            low,
            n_max,
            calls: 0,
            over: false,
            comp,
            ways,
            cells,
        })
    }

    /// The number of collections of the next size n. `comp` has the numbers of components of the sizes below n, and `here` is that
    /// of size n where one component is within the bounds, and 0 elsewhere.
    ///
    /// # Errors
    ///
    /// `Over` exactly where the number is above `MAX`.
    pub fn count_at(&mut self, comp: &[u128], here: u128) -> Result<u128, Over>
        requires { GoesOn self.old comp.now here }
        ensures answer { let number = number_of self.old comp.now here in
            OkIff result (number ≤ MAX) number }
        ensures counted { IsCounted self.old comp.now here }
        ensures kept { self.new
            ≡ record self.old { given = comp.now ++ here ∷ []; over = is_err result } }
    {
        let number = next_number(
            self.kind,
            self.low,
            &mut self.comp,
            &mut self.ways,
            &mut self.cells,
            comp,
            here,
        );
        let answer = within(number);
        self.calls += 1;
        self.over = answer.is_err();
        answer
    }
}

// The number of collections of the next size, marked, with what is kept for the sizes after it.
fn next_number(
    kind: Kind,
    low: u32,
    kept: &mut [u128],
    ways: &mut [u128],
    cells: &mut [u128],
    comp: &[u128],
    here: u128,
) -> u128
    requires parts { IsOfParts kind }
    requires any { low ≤ 2 }
    requires long { length kept.old ≤ SIZE_LIMIT + 1 }
    requires size { length comp.now < length kept.old }
    requires ways { length ways.old ≡ length kept.old }
    requires cells { length cells.old ≡ length kept.old }
    requires none_empty { slice_index kept.old 0 ≡ 0 }
    requires given { slice_index comp.now 0 ≡ 0 }
    requires small { (m : ℕ) → slice_index comp.now m ≤ MAX }
    requires here { length comp.now ≡ 0 → here ≡ 0 }
    requires here_small { here ≤ MAX }
    requires here_alone { low ≡ 2 → here ≡ 0 }
    requires agree { (m : ℕ) → suc m < length comp.now → slice_index comp.now m
        ≡ slice_index kept.old m }
    requires known { 3 ≤ length comp.now → AreWays kind (slice_index kept.old
        (length comp.now - 2)) (length comp.now - 2) (length kept.old) ways.old }
    requires holds { HoldsSizes (length kept.old)
        (sized kind (slice_index kept.old) (length comp.now - 3)) cells.old }
    ensures number { result ≡ capped (coll_count Unlabelled kind
        (numbers comp.now here) low None (length comp.now)) }
    ensures kept { take (length comp.now + 1) kept.new ≡ comp.now ++ here ∷ [] }
    ensures none_empty { slice_index kept.new 0 ≡ 0 }
    ensures known { 3 ≤ length comp.now + 1 → AreWays kind (slice_index kept.new
        (length comp.now + 1 - 2)) (length comp.now + 1 - 2) (length kept.old) ways.new }
    ensures holds { HoldsSizes (length kept.old)
        (sized kind (slice_index kept.new) (length comp.now + 1 - 3)) cells.new }
{
    let n = comp.len();
    keep(kept, comp, here);
    advance(kind, cells, ways, kept, n);
    count_of(kind, low, cells, ways, kept, n)
}

// Folds the size before the last but one into the row, where there are components of it, and writes the ways to take those of
// that before the last.
fn advance(kind: Kind, cells: &mut [u128], ways: &mut [u128], comp: &[u128], n: usize)
    requires long { length comp.now ≤ SIZE_LIMIT + 1 }
    requires size { n < length comp.now }
    requires ways { length ways.old ≡ length comp.now }
    requires cells { length cells.old ≡ length comp.now }
    requires small { 2 ≤ n → slice_index comp.now (n - 1) ≤ MAX }
    requires known { 3 ≤ n → AreWays kind (slice_index comp.now (n - 2)) (n - 2)
        (length comp.now) ways.old }
    requires holds { HoldsSizes (length comp.now)
        (sized kind (slice_index comp.now) (n - 3)) cells.old }
    ensures known { 2 ≤ n → AreWays kind (slice_index comp.now (n - 1)) (n - 1)
        (length comp.now) ways.new }
    ensures holds { HoldsSizes (length comp.now)
        (sized kind (slice_index comp.now) (n - 2)) cells.new }
{
    if n > 2 && comp[n - 2] > 0 {
        fold(cells, ways, n - 2);
    }
    if n > 1 {
        write_ways(kind, ways, comp[n - 1], n - 1);
    }
}

// The number of empty collections.
fn empty(low: u32) -> u128
    ensures { result ≡ 1 - low }
{
    if low == 0 { 1 } else { 0 }
}

// The number of collections of size n, marked: the row has the sizes below n - 1.
fn count_of(kind: Kind, low: u32, cells: &[u128], ways: &[u128], comp: &[u128], n: usize) -> u128
    requires parts { IsOfParts kind }
    requires any { low ≤ 2 }
    requires size { n < length comp.now }
    requires here { slice_index comp.now n ≤ MAX }
    requires alone { low ≡ 2 → slice_index comp.now n ≡ 0 }
    requires none_empty { slice_index comp.now 0 ≡ 0 }
    requires ways { length ways.now ≡ length comp.now }
    requires cells { length cells.now ≡ length comp.now }
    requires known { 2 ≤ n → AreWays kind (slice_index comp.now (n - 1)) (n - 1)
        (length comp.now) ways.now }
    requires holds { HoldsSizes (length comp.now)
        (sized kind (slice_index comp.now) (n - 2)) cells.now }
    ensures { result ≡ capped (coll_count Unlabelled kind (slice_index comp.now) low None n) }
{
    if n == 0 {
        empty(low)
    } else if n == 1 {
        comp[1]
    } else {
        marked_add(taken(ways, cells, n - 1, n), comp[n])
    }
}
