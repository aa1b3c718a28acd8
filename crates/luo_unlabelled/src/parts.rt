// Multisets and powersets.
ghost use Rattle.std.specs.Prelude.{◌≡◌, ◌≤◌, ◌+◌, ◌-◌, ◌*◌, ◌<◌, ◌++◌, ◌∷◌, [], ℕ, suc, length, take, slice_index, false, is_err, IfOk, IfSome, OkIff, SomeIff};
ghost use Rattle.luo_num.specs.Mark.{capped};
ghost use Rattle.luo_num.specs.declared.TheConstants.{MAX};
ghost use Rattle.luo_model.specs.declared.program.Universe.TheVariants.{Unlabelled};
ghost use Rattle.luo_counting.specs.Numbers.{plane, coll_count};
ghost use Rattle.luo_unlabelled.specs.Calls.{AreBounds, IsOfParts, GoesOn, start_of, numbers, number_of, IsCounted, ahead_of, IsAheadCounted};
ghost use Rattle.luo_unlabelled.specs.inner.Planes.{AreWays, HoldsPlane, last_of};

use crate::choices::write_ways;
use crate::frame::Frame;
use crate::numbers::{keep, within, zeros};
use crate::plane::{cell, count_within, empty_plane, put};
use luo_model::Kind;
use luo_num::{MAX, NoMemory, Over};
use std::alloc::Global;
use std::marker::Model;

/// Counts multisets or powersets, size by size. Contracts see in it the kind, the bounds, the greatest size, what its calls were
/// given, and whether one answered `Over`.
#[derive(Drop)]
pub struct Parts {
    pub(crate) frame: Frame,
    pub(crate) calls: usize,
    pub(crate) over: bool,
    pub(crate) comp: Vec<u128>,
    pub(crate) ways: Vec<u128>,
    pub(crate) cells: Vec<u128>,
}

impl Model for Parts {
    ghost use Rattle.std.specs.Prelude.{take};
    ghost use Rattle.luo_unlabelled.specs.Calls.{Calls};
    ghost use Rattle.luo_unlabelled.specs.inner.Planes.{IsParts};

    ghost Value = { Calls };

    ghost view = { λ p. record {
      kind = p.frame.kind;
      low = p.frame.low;
      high = p.frame.high;
      n_max = p.frame.n_max;
      given = take p.calls p.comp.items;
      over = p.over;
    } };

    ghost invariant = { λ p. IsParts p.frame.kind p.frame.low p.frame.high p.frame.n_max p.calls
        p.comp.items p.ways.items p.cells.items };
}

impl Parts {
    /// A table for multisets or powersets of at least `low` components, and at most `high` where there is one, of sizes up to
    /// `n_max`. It takes all memory that it will need.
    ///
    /// # Errors
    ///
    /// `NoMemory` where memory is refused.
    pub fn new(
        alloc: Global,
        kind: Kind,
        low: u32,
        high: Option<u32>,
        n_max: u32,
    ) -> Result<Parts, NoMemory>
        requires parts { IsOfParts kind }
        requires bounds { AreBounds low high n_max }
        ensures { IfOk result (λ parts. parts ≡ start_of kind low high n_max) }
    {
        let frame = Frame {
            kind,
            low,
            high,
            n_max,
        };
        let comp = zeros(alloc, frame.wide())?;
        let ways = zeros(alloc, frame.wide())?;
        let cells = empty_plane(alloc, frame.wide(), frame.deep())?;
        Ok(Parts {
            frame,
            calls: 0,
            over: false,
            comp,
            ways,
            cells,
        })
    }

    /// The number of collections of the next size n. `comp` has the numbers of components of the sizes below n, and `here` is that
    /// of size n where one component is within the bounds, and 0 elsewhere.
    ///
    /// # Errors
    ///
    /// `Over` exactly where the number is above `MAX`.
    pub fn count_at(&mut self, comp: &[u128], here: u128) -> Result<u128, Over>
        requires { GoesOn self.old comp.now here }
        ensures answer { let number = number_of self.old comp.now here in
            OkIff result (number ≤ MAX) number }
        ensures counted { IsCounted self.old comp.now here }
        ensures kept { self.new
            ≡ record self.old { given = comp.now ++ here ∷ []; over = is_err result } }
    {
        let number = next_number(
            self.frame,
            &mut self.comp,
            &mut self.ways,
            &mut self.cells,
            comp,
            here,
        );
        let answer = within(number);
        self.calls += 1;
        self.over = answer.is_err();
        answer
    }

    /// The number of collections of `k` components, of size `m`, whose components are all smaller by two at least than the size of
    /// the last call of `count_at`. `None` comes exactly where it is above `MAX`.
    pub fn ahead(&self, k: u32, m: u32) -> Option<u128>
        requires called { 1 ≤ length self.now.given }
        requires going { self.now.over ≡ false }
        requires size { m ≤ self.now.n_max }
        requires number { k ≤ self.now.n_max }
        requires bounds { IfSome self.now.high (λ high. k ≤ high) }
        ensures answer { let number = ahead_of self.now k m in SomeIff result
            (number ≤ MAX) number }
        ensures counted { IsAheadCounted self.now k m }
    {
        let number = cell(&self.cells, self.frame.wide(), k as usize, m as usize);
        if number <= MAX { Some(number) } else { None }
    }
}

// The number of collections of the next size, marked, with what is kept for the sizes after it.
fn next_number(
    frame: Frame,
    kept: &mut [u128],
    ways: &mut [u128],
    cells: &mut [u128],
    comp: &[u128],
    here: u128,
) -> u128
    requires parts { IsOfParts frame.kind }
    requires bounds { AreBounds frame.low frame.high frame.n_max }
    requires size { length comp.now ≤ frame.n_max }
    requires kept { length kept.old ≡ frame.n_max + 1 }
    requires long { length ways.old ≡ frame.n_max + 1 }
    requires cells { length cells.old ≡ (last_of frame.high frame.n_max + 1) * (frame.n_max + 1) }
    requires none_empty { slice_index kept.old 0 ≡ 0 }
    requires given { slice_index comp.now 0 ≡ 0 }
    requires small { (m : ℕ) → slice_index comp.now m ≤ MAX }
    requires here { length comp.now ≡ 0 → here ≡ 0 }
    requires agree { (m : ℕ) → suc m < length comp.now → slice_index comp.now m
        ≡ slice_index kept.old m }
    requires known { 3 ≤ length comp.now → AreWays frame.kind (slice_index kept.old
        (length comp.now - 2)) (length comp.now - 2) (frame.n_max + 1) ways.old }
    requires holds { HoldsPlane (last_of frame.high frame.n_max + 1) (frame.n_max + 1)
        (plane frame.kind (slice_index kept.old) (length comp.now - 3)) cells.old }
    ensures number { result ≡ capped (coll_count Unlabelled frame.kind
        (numbers comp.now here) frame.low frame.high (length comp.now)) }
    ensures kept { take (length comp.now + 1) kept.new ≡ comp.now ++ here ∷ [] }
    ensures none_empty { slice_index kept.new 0 ≡ 0 }
    ensures known { 3 ≤ length comp.now + 1 → AreWays frame.kind (slice_index kept.new
        (length comp.now + 1 - 2)) (length comp.now + 1 - 2) (frame.n_max + 1) ways.new }
    ensures holds { HoldsPlane (last_of frame.high frame.n_max + 1) (frame.n_max + 1)
        (plane frame.kind (slice_index kept.new) (length comp.now + 1 - 3)) cells.new }
{
    let n = comp.len();
    keep(kept, comp, here);
    advance(frame, cells, ways, kept, n);
    count_of(frame, cells, ways, kept, n)
}

// Puts the size before the last but one into the plane, and writes the ways to take components of that before the last.
fn advance(frame: Frame, cells: &mut [u128], ways: &mut [u128], comp: &[u128], n: usize)
    requires bounds { AreBounds frame.low frame.high frame.n_max }
    requires size { n ≤ frame.n_max }
    requires comp { length comp.now ≡ frame.n_max + 1 }
    requires long { length ways.old ≡ frame.n_max + 1 }
    requires cells { length cells.old ≡ (last_of frame.high frame.n_max + 1) * (frame.n_max + 1) }
    requires small { 2 ≤ n → slice_index comp.now (n - 1) ≤ MAX }
    requires known { 3 ≤ n → AreWays frame.kind (slice_index comp.now (n - 2)) (n - 2)
        (frame.n_max + 1) ways.old }
    requires holds { HoldsPlane (last_of frame.high frame.n_max + 1) (frame.n_max + 1)
        (plane frame.kind (slice_index comp.now) (n - 3)) cells.old }
    ensures known { 2 ≤ n → AreWays frame.kind (slice_index comp.now (n - 1)) (n - 1)
        (frame.n_max + 1) ways.new }
    ensures holds { HoldsPlane (last_of frame.high frame.n_max + 1) (frame.n_max + 1)
        (plane frame.kind (slice_index comp.now) (n - 2)) cells.new }
{
    if n > 2 {
        put(cells, ways, frame.wide(), frame.deep(), n - 2);
    }
    if n > 1 {
        write_ways(frame.kind, ways, comp[n - 1], n - 1);
    }
}

// The number of collections of size n within the bounds, marked: the plane has the sizes below n - 1.
fn count_of(frame: Frame, cells: &[u128], ways: &[u128], comp: &[u128], n: usize) -> u128
    requires parts { IsOfParts frame.kind }
    requires bounds { AreBounds frame.low frame.high frame.n_max }
    requires size { n ≤ frame.n_max }
    requires comp { length comp.now ≡ frame.n_max + 1 }
    requires none_empty { slice_index comp.now 0 ≡ 0 }
    requires long { length ways.now ≡ frame.n_max + 1 }
    requires cells { length cells.now ≡ (last_of frame.high frame.n_max + 1) * (frame.n_max + 1) }
    requires known { 2 ≤ n → AreWays frame.kind (slice_index comp.now (n - 1)) (n - 1)
        (frame.n_max + 1) ways.now }
    requires holds { HoldsPlane (last_of frame.high frame.n_max + 1) (frame.n_max + 1)
        (plane frame.kind (slice_index comp.now) (n - 2)) cells.now }
    ensures { result ≡ capped (coll_count Unlabelled frame.kind
        (slice_index comp.now) frame.low frame.high n) }
{
    let low = frame.low as usize;
    let last = frame.last(n);
    if low <= last {
        count_within(cells, ways, frame.wide(), n, comp[n], low, last)
    } else {
        0
    }
}
