// Charges over multisets and powersets.
ghost use Rattle.std.specs.Prelude.{◌≡◌, ◌≤◌, ◌+◌, ◌-◌, ◌*◌, ◌<◌, ◌++◌, ◌∷◌, [], ℕ, suc, length, take, slice_index, is_err, IfOk, OkIff};
ghost use Rattle.luo_num.specs.Mark.{capped};
ghost use Rattle.luo_num.specs.declared.TheConstants.{MAX};
ghost use Rattle.luo_counting.specs.Numbers.{plane, plane_totals};
ghost use Rattle.luo_unlabelled.specs.Calls.{AreBounds, GoesWith, walk_of, total_of, IsTotalled};
ghost use Rattle.luo_unlabelled.specs.inner.Planes.{AreWays, HoldsPlane, last_of, sum_within, sum_in_cells};

use crate::Parts;
use crate::choices::write_charges;
use crate::frame::Frame;
use crate::numbers::{keep, within, zeros};
use crate::plane::{put_total, total_within};
use luo_num::{NoMemory, Over};
use std::alloc::Global;
use std::marker::Model;

/// Sums charges over multisets or powersets, size by size; in a multiset each copy is charged. Contracts see in it the same as in
/// a `Parts`, of its own calls: the sums that they were given, and the numbers of components of the sizes below.
#[derive(Drop)]
pub struct PartsWalk {
    frame: Frame,
    calls: usize,
    over: bool,
    comp: Vec<u128>,
    body: Vec<u128>,
    charges: Vec<u128>,
    cells: Vec<u128>,
}

impl Model for PartsWalk {
    ghost use Rattle.std.specs.Prelude.{take, ◌-◌};
    ghost use Rattle.luo_unlabelled.specs.Calls.{Walk};
    ghost use Rattle.luo_unlabelled.specs.inner.Planes.{IsPartsWalk};

    ghost Value = { Walk };

    ghost view = { λ w. record {
      calls =
          record {
            kind = w.frame.kind;
            low = w.frame.low;
            high = w.frame.high;
            n_max = w.frame.n_max;
            given = take w.calls w.body.items;
            over = w.over;
          };
      comp = take (w.calls - 1) w.comp.items;
    } };

    ghost invariant = { λ w. IsPartsWalk w.frame.kind w.frame.low w.frame.high w.frame.n_max w.calls
        w.comp.items w.body.items w.charges.items w.cells.items };
}

impl PartsWalk {
    /// A table for the charges over the collections that `parts` counts. It takes all memory that it will need.
    ///
    /// # Errors
    ///
    /// `NoMemory` where memory is refused.
    pub fn new(alloc: Global, parts: &Parts) -> Result<PartsWalk, NoMemory>
        ensures { IfOk result (λ walk. walk ≡ walk_of parts.now) }
    {
        let frame = parts.frame;
        let comp = zeros(alloc, frame.wide())?;
        let body = zeros(alloc, frame.wide())?;
        let charges = zeros(alloc, frame.wide())?;
        let cells = zeros(alloc, frame.deep() * frame.wide())?;
        Ok(PartsWalk {
            frame,
            calls: 0,
            over: false,
            comp,
            body,
            charges,
            cells,
        })
    }

    /// What the components of all collections of the next size n are charged together. `comp` has the numbers of components of the
    /// sizes below n, as `parts` was given them when it counted this size, and `body` has the sums of charges over them; `here` is
    /// the sum over those of size n where one component is within the bounds, and 0 elsewhere.
    ///
    /// # Errors
    ///
    /// `Over` exactly where the sum is above `MAX`.
    pub fn total_at(
        &mut self,
        parts: &Parts,
        comp: &[u128],
        body: &[u128],
        here: u128,
    ) -> Result<u128, Over>
        requires { GoesWith parts.now self.old comp.now body.now here }
        ensures answer { let total = total_of parts.now body.now here in
            OkIff result (total ≤ MAX) total }
        ensures totalled { IsTotalled parts.now body.now here }
        ensures kept { self.new ≡ record {
          calls = record self.old.calls { given = body.now ++ here ∷ []; over = is_err result };
          comp = comp.now;
        } }
    {
        let total = next_total(
            self.frame,
            &parts.cells,
            &parts.ways,
            &mut self.cells,
            &mut self.charges,
            &mut self.comp,
            &mut self.body,
            comp,
            body,
            here,
        );
        let answer = within(total);
        self.calls += 1;
        self.over = answer.is_err();
        answer
    }
}

// The charges over the collections of the next size, marked, with what is kept for the sizes after it.
fn next_total(
    frame: Frame,
    counts: &[u128],
    ways: &[u128],
    cells: &mut [u128],
    charges: &mut [u128],
    kept: &mut [u128],
    sums: &mut [u128],
    comp: &[u128],
    body: &[u128],
    here: u128,
) -> u128
    requires bounds { AreBounds frame.low frame.high frame.n_max }
    requires size { length body.now ≤ frame.n_max }
    requires sizes { length comp.now ≡ length body.now }
    requires kept { length kept.old ≡ frame.n_max + 1 }
    requires sums { length sums.old ≡ frame.n_max + 1 }
    requires ways { length ways.now ≡ frame.n_max + 1 }
    requires charges { length charges.old ≡ frame.n_max + 1 }
    requires counts { length counts.now ≡ (last_of frame.high frame.n_max + 1) * (frame.n_max + 1) }
    requires cells { length cells.old ≡ (last_of frame.high frame.n_max + 1) * (frame.n_max + 1) }
    requires none_empty { slice_index kept.old 0 ≡ 0 }
    requires none_charged { slice_index sums.old 0 ≡ 0 }
    requires comp_given { slice_index comp.now 0 ≡ 0 }
    requires body_given { slice_index body.now 0 ≡ 0 }
    requires here { length body.now ≡ 0 → here ≡ 0 }
    requires small { (m : ℕ) → slice_index comp.now m ≤ MAX }
    requires agree { (m : ℕ) → suc m < length comp.now → slice_index comp.now m
        ≡ slice_index kept.old m }
    requires sums_agree { (m : ℕ) → suc m < length body.now → slice_index body.now m
        ≡ slice_index sums.old m }
    requires known { 2 ≤ length body.now → AreWays frame.kind (slice_index comp.now
        (length body.now - 1)) (length body.now - 1) (frame.n_max + 1) ways.now }
    requires counted { HoldsPlane (last_of frame.high frame.n_max + 1) (frame.n_max + 1)
        (plane frame.kind (slice_index comp.now) (length body.now - 2)) counts.now }
    requires holds { HoldsPlane (last_of frame.high frame.n_max + 1) (frame.n_max + 1)
        (plane_totals frame.kind (slice_index kept.old) (slice_index sums.old)
        (length body.now - 2)) cells.old }
    ensures total { result ≡ capped (sum_within frame.low frame.high frame.kind
        (slice_index comp.now) (slice_index body.now) here (length body.now)) }
    ensures kept { take (length body.now) kept.new ≡ comp.now }
    ensures sums { take (length body.now + 1) sums.new ≡ body.now ++ here ∷ [] }
    ensures none_empty { slice_index kept.new 0 ≡ 0 }
    ensures none_charged { slice_index sums.new 0 ≡ 0 }
    ensures holds { HoldsPlane (last_of frame.high frame.n_max + 1) (frame.n_max + 1)
        (plane_totals frame.kind (slice_index kept.new) (slice_index sums.new)
        (length body.now + 1 - 2)) cells.new }
{
    let n = body.len();
    keep(kept, comp, 0);
    keep(sums, body, here);
    advance(frame, counts, ways, cells, charges, comp, body, n);
    sum_of(frame, cells, n, here)
}

// Puts the size before n into the plane of charges.
fn advance(
    frame: Frame,
    counts: &[u128],
    ways: &[u128],
    cells: &mut [u128],
    charges: &mut [u128],
    comp: &[u128],
    body: &[u128],
    n: usize,
)
    requires bounds { AreBounds frame.low frame.high frame.n_max }
    requires size { n ≤ frame.n_max }
    requires comp { length comp.now ≡ n }
    requires body { length body.now ≡ n }
    requires ways { length ways.now ≡ frame.n_max + 1 }
    requires charges { length charges.old ≡ frame.n_max + 1 }
    requires counts { length counts.now ≡ (last_of frame.high frame.n_max + 1) * (frame.n_max + 1) }
    requires cells { length cells.old ≡ (last_of frame.high frame.n_max + 1) * (frame.n_max + 1) }
    requires small { (m : ℕ) → slice_index comp.now m ≤ MAX }
    requires known { 2 ≤ n → AreWays frame.kind (slice_index comp.now (n - 1)) (n - 1)
        (frame.n_max + 1) ways.now }
    requires counted { HoldsPlane (last_of frame.high frame.n_max + 1) (frame.n_max + 1)
        (plane frame.kind (slice_index comp.now) (n - 2)) counts.now }
    requires holds { HoldsPlane (last_of frame.high frame.n_max + 1) (frame.n_max + 1)
        (plane_totals frame.kind (slice_index comp.now) (slice_index body.now) (n - 2)) cells.old }
    ensures { HoldsPlane (last_of frame.high frame.n_max + 1) (frame.n_max + 1)
        (plane_totals frame.kind (slice_index comp.now) (slice_index body.now) (n - 1)) cells.new }
{
    if n > 1 {
        write_charges(frame.kind, charges, comp[n - 1], body[n - 1], n - 1);
        put_total(
            cells,
            counts,
            ways,
            charges,
            frame.wide(),
            frame.deep(),
            n - 1,
        );
    }
}

// The charges over the collections of size n within the bounds, marked: the plane has the sizes below n.
fn sum_of(frame: Frame, cells: &[u128], n: usize, here: u128) -> u128
    requires bounds { AreBounds frame.low frame.high frame.n_max }
    requires size { n ≤ frame.n_max }
    requires cells { length cells.now ≡ (last_of frame.high frame.n_max + 1) * (frame.n_max + 1) }
    ensures { result ≡ capped (sum_in_cells frame.low frame.high cells.now
        (frame.n_max + 1) n here) }
{
    let low = frame.low as usize;
    let last = frame.last(n);
    if low <= last {
        total_within(cells, frame.wide(), n, here, low, last)
    } else {
        0
    }
}
