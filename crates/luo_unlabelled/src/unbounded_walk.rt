// Charges over multisets and powersets without a greatest number of components.
ghost use Rattle.std.specs.Prelude.{◌≡◌, ◌≤◌, ◌+◌, ◌-◌, ◌*◌, ◌<◌, ◌++◌, ◌∷◌, [], ℕ, suc, length, take, slice_index, is_err, IfOk, OkIff};
ghost use Rattle.luo_num.specs.Mark.{capped};
ghost use Rattle.luo_num.specs.declared.TheConstants.{MAX};
ghost use Rattle.luo_num.specs.declared.limits.TheConstants.{SIZE_LIMIT};
ghost use Rattle.luo_unlabelled.specs.Calls.{GoesWith, walk_of, total_of, IsTotalled};
ghost use Rattle.luo_unlabelled.specs.inner.Planes.{AreWays};
ghost use Rattle.luo_unlabelled.specs.inner.Sizes.{sized, sized_totals, HoldsSizes};

use crate::Unbounded;
use crate::choices::write_charges;
use crate::numbers::{keep, within, zeros};
use crate::sizes::fold_total;
use luo_model::Kind;
use luo_num::{NoMemory, Over, marked_add};
use std::alloc::Global;
use std::marker::Model;

/// Sums charges over multisets or powersets without a greatest number of components, size by size; in a multiset each copy is
/// charged. Contracts see in it the same as in a `PartsWalk`.
#[derive(Drop)]
pub struct UnboundedWalk {
    kind: Kind,
    low: u32,
    n_max: u32,
    calls: usize,
    over: bool,
    comp: Vec<u128>,
    body: Vec<u128>,
    charges: Vec<u128>,
    cells: Vec<u128>,
}

impl Model for UnboundedWalk {
    ghost use Rattle.std.specs.Prelude.{take, None, ◌-◌};
    ghost use Rattle.luo_unlabelled.specs.Calls.{Walk};
    ghost use Rattle.luo_unlabelled.specs.inner.Sizes.{IsUnboundedWalk};

    ghost Value = { Walk };

    ghost view = { λ w. record {
      calls =
          record {
            kind = w.kind;
            low = w.low;
            high = None;
            n_max = w.n_max;
            given = take w.calls w.body.items;
            over = w.over;
          };
      comp = take (w.calls - 1) w.comp.items;
    } };

    ghost invariant = { λ w. IsUnboundedWalk w.kind w.low w.n_max w.calls w.comp.items w.body.items
        w.charges.items w.cells.items };
}

impl UnboundedWalk {
    /// A table for the charges over the collections that `table` counts. It takes all memory that it will need.
    ///
    /// # Errors
    ///
    /// `NoMemory` where memory is refused.
    pub fn new(alloc: Global, table: &Unbounded) -> Result<UnboundedWalk, NoMemory>
        ensures { IfOk result (λ walk. walk ≡ walk_of table.now) }
    {
        let wide = table.n_max as usize + 1;
        let comp = zeros(alloc, wide)?;
        let body = zeros(alloc, wide)?;
        let charges = zeros(alloc, wide)?;
        let cells = zeros(alloc, wide)?;
        Ok(UnboundedWalk {
            kind: table.kind,
            low: table.low,
            n_max: table.n_max,
            calls: 0,
            over: false,
            comp,
            body,
            charges,
            cells,
        })
    }

    /// What the components of all collections of the next size n are charged together. `comp` has the numbers of components of the
    /// sizes below n, as `table` was given them when it counted this size, and `body` has the sums of charges over them; `here` is
    /// the sum over those of size n where one component is within the bounds, and 0 elsewhere.
    ///
    /// # Errors
    ///
    /// `Over` exactly where the sum is above `MAX`.
    pub fn total_at(
        &mut self,
        table: &Unbounded,
        comp: &[u128],
        body: &[u128],
        here: u128,
    ) -> Result<u128, Over>
        requires { GoesWith table.now self.old comp.now body.now here }
        ensures answer { let total = total_of table.now body.now here in
            OkIff result (total ≤ MAX) total }
        ensures totalled { IsTotalled table.now body.now here }
        ensures kept { self.new ≡ record {
          calls = record self.old.calls { given = body.now ++ here ∷ []; over = is_err result };
          comp = comp.now;
        } }
    {
        let total = next_total(
            self.kind,
            &table.cells,
            &table.ways,
            &mut self.cells,
            &mut self.charges,
            &mut self.comp,
            &mut self.body,
            comp,
            body,
            here,
        );
        let answer = within(total);
        self.calls += 1;
        self.over = answer.is_err();
        answer
    }
}

// The charges over the collections of the next size, marked, with what is kept for the sizes after it.
fn next_total(
    kind: Kind,
    counts: &[u128],
    ways: &[u128],
    cells: &mut [u128],
    charges: &mut [u128],
    kept: &mut [u128],
    sums: &mut [u128],
    comp: &[u128],
    body: &[u128],
    here: u128,
) -> u128
    requires long { length cells.old ≤ SIZE_LIMIT + 1 }
    requires size { length body.now < length cells.old }
    requires sizes { length comp.now ≡ length body.now }
    requires kept { length kept.old ≡ length cells.old }
    requires sums { length sums.old ≡ length cells.old }
    requires ways { length ways.now ≡ length cells.old }
    requires charges { length charges.old ≡ length cells.old }
    requires counts { length counts.now ≡ length cells.old }
    requires none_empty { slice_index kept.old 0 ≡ 0 }
    requires none_charged { slice_index sums.old 0 ≡ 0 }
    requires comp_given { slice_index comp.now 0 ≡ 0 }
    requires body_given { slice_index body.now 0 ≡ 0 }
    requires here { length body.now ≡ 0 → here ≡ 0 }
    requires small { (m : ℕ) → slice_index comp.now m ≤ MAX }
    requires idle { (m : ℕ) → m < length body.now → slice_index comp.now m ≡ 0
        → slice_index body.now m ≡ 0 }
    requires agree { (m : ℕ) → suc m < length comp.now → slice_index comp.now m
        ≡ slice_index kept.old m }
    requires sums_agree { (m : ℕ) → suc m < length body.now → slice_index body.now m
        ≡ slice_index sums.old m }
    requires known { 2 ≤ length body.now → AreWays kind (slice_index comp.now
        (length body.now - 1)) (length body.now - 1) (length cells.old) ways.now }
    requires counted { HoldsSizes (length cells.old)
        (sized kind (slice_index comp.now) (length body.now - 2)) counts.now }
    requires holds { HoldsSizes (length cells.old) (sized_totals kind (slice_index kept.old)
        (slice_index sums.old) (length body.now - 2)) cells.old }
    ensures total { result ≡ capped (sized_totals kind (slice_index comp.now)
        (slice_index body.now) (length body.now - 1) (length body.now) + here) }
    ensures kept { take (length body.now) kept.new ≡ comp.now }
    ensures sums { take (length body.now + 1) sums.new ≡ body.now ++ here ∷ [] }
    ensures none_empty { slice_index kept.new 0 ≡ 0 }
    ensures none_charged { slice_index sums.new 0 ≡ 0 }
    ensures holds { HoldsSizes (length cells.old) (sized_totals kind (slice_index kept.new)
        (slice_index sums.new) (length body.now + 1 - 2)) cells.new }
{
    let n = body.len();
    keep(kept, comp, 0);
    keep(sums, body, here);
    advance(kind, counts, ways, cells, charges, comp, body, n);
    marked_add(cells[n], here)
}

// Folds the size before n into the row of charges, where there are components of it.
fn advance(
    kind: Kind,
    counts: &[u128],
    ways: &[u128],
    cells: &mut [u128],
    charges: &mut [u128],
    comp: &[u128],
    body: &[u128],
    n: usize,
)
    requires long { length cells.old ≤ SIZE_LIMIT + 1 }
    requires size { n < length cells.old }
    requires comp { length comp.now ≡ n }
    requires body { length body.now ≡ n }
    requires ways { length ways.now ≡ length cells.old }
    requires charges { length charges.old ≡ length cells.old }
    requires counts { length counts.now ≡ length cells.old }
    requires small { (m : ℕ) → slice_index comp.now m ≤ MAX }
    requires idle { 2 ≤ n → slice_index comp.now (n - 1) ≡ 0 → slice_index body.now (n - 1) ≡ 0 }
    requires known { 2 ≤ n → AreWays kind (slice_index comp.now (n - 1)) (n - 1)
        (length cells.old) ways.now }
    requires counted { HoldsSizes (length cells.old)
        (sized kind (slice_index comp.now) (n - 2)) counts.now }
    requires holds { HoldsSizes (length cells.old)
        (sized_totals kind (slice_index comp.now) (slice_index body.now) (n - 2)) cells.old }
    ensures { HoldsSizes (length cells.old)
        (sized_totals kind (slice_index comp.now) (slice_index body.now) (n - 1)) cells.new }
{
    if n > 1 && comp[n - 1] > 0 {
        write_charges(kind, charges, comp[n - 1], body[n - 1], n - 1);
        fold_total(cells, counts, ways, charges, n - 1);
    }
}
