// Charges over sequences.
ghost use Rattle.std.specs.Prelude.{◌≡◌, ◌≤◌, ◌+◌, ◌*◌, ◌<◌, ◌++◌, ◌∷◌, [], ℕ, suc, length, take, slice_index, is_err, IfOk, OkIff};
ghost use Rattle.luo_num.specs.Mark.{capped};
ghost use Rattle.luo_num.specs.declared.TheConstants.{MAX};
ghost use Rattle.luo_unlabelled.specs.Calls.{GoesWith, walk_of, numbers, total_of, IsTotalled};
ghost use Rattle.luo_unlabelled.specs.inner.Steps.{step_count, step_total, HoldsAll, HoldsTable, Follows};

use crate::Line;
use crate::numbers::{keep, within};
use crate::steps::{Steps, settle_totals, total_entry};
use luo_num::{NoMemory, Over};
use std::alloc::Global;
use std::marker::Model;

/// Sums charges over sequences, size by size. Contracts see in it the same as in a `Line`, of its own calls: the sums that they
/// were given, and the numbers of components of the sizes below.
#[derive(Drop)]
pub struct LineWalk {
    low: u32,
    high: Option<u32>,
    n_max: u32,
    calls: usize,
    over: bool,
    comp: Vec<u128>,
    body: Vec<u128>,
    cells: Vec<u128>,
}

impl Model for LineWalk {
    ghost use Rattle.std.specs.Prelude.{take, ◌-◌};
    ghost use Rattle.luo_model.specs.declared.program.Kind.TheVariants.{Sequence};
    ghost use Rattle.luo_unlabelled.specs.Calls.{Walk};
    ghost use Rattle.luo_unlabelled.specs.inner.Steps.{IsLineWalk};

    ghost Value = { Walk };

    ghost view = { λ w. record {
      calls =
          record {
            kind = Sequence;
            low = w.low;
            high = w.high;
            n_max = w.n_max;
            given = take w.calls w.body.items;
            over = w.over;
          };
      comp = take (w.calls - 1) w.comp.items;
    } };

    ghost invariant = { λ w. IsLineWalk w.low w.high w.n_max w.calls w.comp.items w.body.items
        w.cells.items };
}

impl LineWalk {
    /// A table for the charges over the sequences that `line` counts. It takes all memory that it will need.
    ///
    /// # Errors
    ///
    /// `NoMemory` where memory is refused.
    pub fn new(alloc: Global, line: &Line) -> Result<LineWalk, NoMemory>
        ensures { IfOk result (λ walk. walk ≡ walk_of line.now) }
    {
        let steps = Steps::new(line.low, line.high, line.n_max);
        let comp = vec![in alloc; 0; steps.wide]?;
        let body = vec![in alloc; 0; steps.wide]?;
        let cells = vec![in alloc; 0; (steps.last + 1) * steps.wide]?;
        Ok(LineWalk {
            low: line.low,
            high: line.high,
            n_max: line.n_max,
            calls: 0,
            over: false,
            comp,
            body,
            cells,
        })
    }

    /// What the components of all sequences of the next size n are charged together. `comp` has the numbers of components of the
    /// sizes below n, as `line` was given them when it counted this size, and `body` has the sums of charges over them; `here` is
    /// the sum over those of size n where one component is within the bounds, and 0 elsewhere.
    ///
    /// # Errors
    ///
    /// `Over` exactly where the sum is above `MAX`.
    pub fn total_at(
        &mut self,
        line: &Line,
        comp: &[u128],
        body: &[u128],
        here: u128,
    ) -> Result<u128, Over>
        requires { GoesWith line.now self.old comp.now body.now here }
        ensures answer { let total = total_of line.now body.now here in
            OkIff result (total ≤ MAX) total }
        ensures totalled { IsTotalled line.now body.now here }
        ensures kept { self.new ≡ record {
          calls = record self.old.calls { given = body.now ++ here ∷ []; over = is_err result };
          comp = comp.now;
        } }
    {
        let steps = Steps::new(self.low, self.high, self.n_max);
        let total = next_total(
            steps,
            &line.cells,
            &mut self.cells,
            &mut self.comp,
            &mut self.body,
            comp,
            body,
            here,
        );
        let answer = within(total);
        self.calls += 1;
        self.over = answer.is_err();
        answer
    }
}

// The charges over the sequences of the next size, marked, with what is kept for the sizes after it.
fn next_total(
    steps: Steps,
    counts: &[u128],
    cells: &mut [u128],
    kept: &mut [u128],
    sums: &mut [u128],
    comp: &[u128],
    body: &[u128],
    here: u128,
) -> u128
    requires size { length body.now < steps.wide }
    requires sizes { length comp.now ≡ length body.now }
    requires kept { length kept.old ≡ steps.wide }
    requires sums { length sums.old ≡ steps.wide }
    requires counts { length counts.now ≡ (steps.last + 1) * steps.wide }
    requires cells { length cells.old ≡ (steps.last + 1) * steps.wide }
    requires none_empty { slice_index kept.old 0 ≡ 0 }
    requires none_charged { slice_index sums.old 0 ≡ 0 }
    requires comp_given { slice_index comp.now 0 ≡ 0 }
    requires body_given { slice_index body.now 0 ≡ 0 }
    requires here { length body.now ≡ 0 → here ≡ 0 }
    requires agree { (m : ℕ) → suc m < length comp.now → slice_index comp.now m
        ≡ slice_index kept.old m }
    requires follows { Follows steps sums.old body.now }
    requires counted { HoldsAll steps (step_count steps (slice_index comp.now))
        (length body.now) counts.now }
    requires holds { HoldsTable steps (step_total steps (slice_index kept.old)
        (slice_index sums.old)) (length body.now) cells.old }
    ensures total { result ≡ capped (step_total steps (slice_index comp.now)
        (numbers body.now here) steps.last (length body.now)) }
    ensures kept { take (length body.now) kept.new ≡ comp.now }
    ensures sums { take (length body.now + 1) sums.new ≡ body.now ++ here ∷ [] }
    ensures none_empty { slice_index kept.new 0 ≡ 0 }
    ensures none_charged { slice_index sums.new 0 ≡ 0 }
    ensures holds { HoldsTable steps (step_total steps (slice_index kept.new)
        (slice_index sums.new)) (length body.now + 1) cells.new }
{
    let n = body.len();
    keep(kept, comp, 0);
    keep(sums, body, here);
    settle_totals_before(steps, counts, cells, kept, sums, n);
    let total = total_entry(steps, counts, cells, kept, sums, steps.last, n);
    cells[steps.last * steps.wide + n] = total;
    total
}

// Writes the charges of the size before n, if there is one, at the steps below the last.
fn settle_totals_before(
    steps: Steps,
    counts: &[u128],
    cells: &mut [u128],
    comp: &[u128],
    body: &[u128],
    n: usize,
)
    requires size { n < steps.wide }
    requires start { slice_index comp.now 0 ≡ 0 }
    requires free { slice_index body.now 0 ≡ 0 }
    requires comp { length comp.now ≡ steps.wide }
    requires body { length body.now ≡ steps.wide }
    requires counts { length counts.now ≡ (steps.last + 1) * steps.wide }
    requires cells { length cells.old ≡ (steps.last + 1) * steps.wide }
    requires counted { HoldsAll steps (step_count steps (slice_index comp.now)) n counts.now }
    requires holds { HoldsTable steps (step_total steps (slice_index comp.now)
        (slice_index body.now)) n cells.old }
    ensures { HoldsAll steps (step_total steps (slice_index comp.now)
        (slice_index body.now)) n cells.new }
{
    if n > 0 {
        settle_totals(steps, counts, cells, comp, body, n - 1);
    }
}
