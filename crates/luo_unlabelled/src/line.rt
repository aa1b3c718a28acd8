// Sequences.
ghost use Rattle.std.specs.Prelude.{◌≡◌, ◌≤◌, ◌+◌, ◌*◌, ◌<◌, ◌++◌, ◌∷◌, [], ℕ, suc, length, take, slice_index, false, is_err, IfOk, OkIff};
ghost use Rattle.luo_num.specs.Mark.{capped};
ghost use Rattle.luo_num.specs.declared.TheConstants.{MAX};
ghost use Rattle.luo_model.specs.declared.program.Kind.TheVariants.{Sequence};
ghost use Rattle.luo_unlabelled.specs.Calls.{AreBounds, GoesOn, start_of, numbers, number_of, IsCounted};
ghost use Rattle.luo_unlabelled.specs.inner.Steps.{step_count, HoldsRow, HoldsBelow, HoldsTable, Follows};

use crate::numbers::{keep, within};
use crate::steps::{Steps, entry, settle};
use luo_num::{NoMemory, Over};
use std::alloc::Global;
use std::marker::Model;

/// Counts sequences, size by size. Contracts see in it the bounds, the greatest size, what its calls were given, and whether
/// one answered `Over`.
#[derive(Drop)]
pub struct Line {
    pub(crate) low: u32,
    pub(crate) high: Option<u32>,
    pub(crate) n_max: u32,
    pub(crate) calls: usize,
    pub(crate) over: bool,
    pub(crate) comp: Vec<u128>,
    pub(crate) cells: Vec<u128>,
}

impl Model for Line {
    ghost use Rattle.std.specs.Prelude.{take};
    ghost use Rattle.luo_model.specs.declared.program.Kind.TheVariants.{Sequence};
    ghost use Rattle.luo_unlabelled.specs.Calls.{Calls};
    ghost use Rattle.luo_unlabelled.specs.inner.Steps.{IsLine};

    ghost Value = { Calls };

    ghost view = { λ l. record {
      kind = Sequence;
      low = l.low;
      high = l.high;
      n_max = l.n_max;
      given = take l.calls l.comp.items;
      over = l.over;
    } };

    ghost invariant = { λ l. IsLine l.low l.high l.n_max l.calls l.comp.items l.cells.items };
}

impl Line {
    /// A table for sequences of at least `low` components, and at most `high` where there is one, of sizes up to `n_max`. It
    /// takes all memory that it will need.
    ///
    /// # Errors
    ///
    /// `NoMemory` where memory is refused.
    pub fn new(alloc: Global, low: u32, high: Option<u32>, n_max: u32) -> Result<Line, NoMemory>
        requires { AreBounds low high n_max }
        ensures { IfOk result (λ line. line ≡ start_of Sequence low high n_max) }
    {
        let steps = Steps::new(low, high, n_max);
        let comp = vec![in alloc; 0; steps.wide]?;
        let cells = vec![in alloc; 0; (steps.last + 1) * steps.wide]?;
        Ok(Line {
            low,
            high,
            n_max,
            calls: 0,
            over: false,
            comp,
            cells,
        })
    }

    /// The number of sequences of the next size n. `comp` has the numbers of components of the sizes below n, and `here` is that
    /// of size n where one component is within the bounds, and 0 elsewhere.
    ///
    /// # Errors
    ///
    /// `Over` exactly where the number is above `MAX`.
    pub fn count_at(&mut self, comp: &[u128], here: u128) -> Result<u128, Over>
        requires { GoesOn self.old comp.now here }
        ensures answer { let number = number_of self.old comp.now here in
            OkIff result (number ≤ MAX) number }
        ensures counted { IsCounted self.old comp.now here }
        ensures kept { self.new
            ≡ record self.old { given = comp.now ++ here ∷ []; over = is_err result } }
    {
        let steps = Steps::new(self.low, self.high, self.n_max);
        let number = next_number(steps, &mut self.comp, &mut self.cells, comp, here);
        let answer = within(number);
        self.calls += 1;
        self.over = answer.is_err();
        answer
    }
}

// The number of sequences of the next size, marked, with what is kept for the sizes after it.
fn next_number(
    steps: Steps,
    kept: &mut [u128],
    cells: &mut [u128],
    comp: &[u128],
    here: u128,
) -> u128
    requires size { length comp.now < steps.wide }
    requires kept { length kept.old ≡ steps.wide }
    requires cells { length cells.old ≡ (steps.last + 1) * steps.wide }
    requires none_empty { slice_index kept.old 0 ≡ 0 }
    requires given { slice_index comp.now 0 ≡ 0 }
    requires here { length comp.now ≡ 0 → here ≡ 0 }
    requires follows { Follows steps kept.old comp.now }
    requires holds { HoldsTable steps (step_count steps (slice_index kept.old))
        (length comp.now) cells.old }
    ensures number { result ≡ capped (step_count steps (numbers comp.now here) steps.last
        (length comp.now)) }
    ensures kept { take (length comp.now + 1) kept.new ≡ comp.now ++ here ∷ [] }
    ensures none_empty { slice_index kept.new 0 ≡ 0 }
    ensures holds { HoldsTable steps (step_count steps (slice_index kept.new))
        (length comp.now + 1) cells.new }
{
    let n = comp.len();
    keep(kept, comp, here);
    settle_before(steps, cells, kept, n);
    let number = entry(steps, cells, kept, steps.last, n);
    cells[steps.last * steps.wide + n] = number;
    number
}

// Writes the numbers of the size before n, if there is one, at the steps below the last.
fn settle_before(steps: Steps, cells: &mut [u128], comp: &[u128], n: usize)
    requires size { n < steps.wide }
    requires comp { length comp.now ≡ steps.wide }
    requires cells { length cells.old ≡ (steps.last + 1) * steps.wide }
    requires none_empty { slice_index comp.now 0 ≡ 0 }
    requires holds { HoldsTable steps (step_count steps (slice_index comp.now)) n cells.old }
    ensures below { HoldsBelow steps (step_count steps (slice_index comp.now)) n cells.new }
    ensures answers { HoldsRow steps (step_count steps
        (slice_index comp.now)) steps.last n cells.new }
{
    if n > 0 {
        settle(steps, cells, comp, n - 1);
    }
}
