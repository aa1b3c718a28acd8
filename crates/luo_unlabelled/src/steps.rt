// Sequences within bounds, step by step: at step i stand those of at most i components, or of any number where the bounds have
// no greatest number, and of so many fewer at least than at the last step as there are steps between. A sequence of the next
// step is a component and a sequence of this one.
ghost use Rattle.std.specs.Prelude.{◌≡◌, ◌+◌, ◌*◌, ◌^◌, ◌<◌, ◌≤◌, ℕ, length, slice_index};
ghost use Rattle.luo_num.specs.Mark.{capped};
ghost use Rattle.luo_unlabelled.specs.Calls.{AreBounds};
ghost use Rattle.luo_unlabelled.specs.inner.Steps.{steps_of, source, empty_at, step_count, step_total, HasSource, HoldsBelow, Settled};

use crate::numbers::convolved;
use luo_num::marked_add;

/// The steps to the bounds: up to step `free` a sequence may be empty, `last` has the bounds themselves, `bounded` says that they
/// have a greatest number. `wide` is the number of cells for a step, one for each size.
#[derive(Clone, Copy)]
pub struct Steps {
    pub free: usize,
    pub last: usize,
    pub bounded: bool,
    pub wide: usize,
}

impl Steps {
    pub fn new(low: u32, high: Option<u32>, n_max: u32) -> Steps
        requires { AreBounds low high n_max }
        ensures { result ≡ steps_of low high n_max }
    {
        let wide = n_max as usize + 1;
        match high {
            Some(high) => Steps {
                free: (high - low) as usize,
                last: high as usize,
                bounded: true,
                wide,
            },
            None => Steps {
                free: 0,
                last: low as usize,
                bounded: false,
                wide,
            },
        }
    }

    // Where the row of the step begins that step i goes on from.
    pub fn source(self, i: usize) -> usize
        requires inside { i ≤ self.last }
        requires fits { (self.last + 1) * self.wide < 2 ^ 64 }
        ensures { result ≡ source i * self.wide }
    {
        if i == 0 { 0 } else { (i - 1) * self.wide }
    }

    // The number of empty sequences of size n at step i.
    pub fn empty(self, i: usize, n: usize) -> u128
        ensures { result ≡ empty_at self i n }
    {
        if n == 0 && i <= self.free { 1 } else { 0 }
    }
}

// The number of sequences of size n at step i, marked.
pub fn entry(steps: Steps, cells: &[u128], comp: &[u128], i: usize, n: usize) -> u128
    requires start { slice_index comp.now 0 ≡ 0 }
    requires inside { i ≤ steps.last }
    requires size { n < steps.wide }
    requires comp { length comp.now ≡ steps.wide }
    requires cells { length cells.now ≡ (steps.last + 1) * steps.wide }
    requires row { HasSource steps (step_count steps (slice_index comp.now)) i n cells.now }
    ensures { result ≡ capped (step_count steps (slice_index comp.now) i n) }
{
    let empty = steps.empty(i, n);
    if i == 0 && steps.bounded {
        empty
    } else {
        marked_add(empty, convolved(comp, cells, steps.source(i), n))
    }
}

// Writes the numbers of size m at the steps below the last.
pub fn settle(steps: Steps, cells: &mut [u128], comp: &[u128], m: usize)
    requires start { slice_index comp.now 0 ≡ 0 }
    requires size { m < steps.wide }
    requires comp { length comp.now ≡ steps.wide }
    requires cells { length cells.old ≡ (steps.last + 1) * steps.wide }
    requires rows { HoldsBelow steps (step_count steps (slice_index comp.now)) m cells.old }
    ensures { Settled steps (step_count steps
        (slice_index comp.now)) m steps.last cells.old cells.new }
{
    for i in 0..steps.last {
        let number = entry(steps, cells, comp, i, m);
        cells[i * steps.wide + m] = number;
    }
}

// The charges over the sequences of size n at step i, marked: the first component is charged, or the rest is.
pub fn total_entry(
    steps: Steps,
    counts: &[u128],
    cells: &[u128],
    comp: &[u128],
    body: &[u128],
    i: usize,
    n: usize,
) -> u128
    requires start { slice_index comp.now 0 ≡ 0 }
    requires free { slice_index body.now 0 ≡ 0 }
    requires inside { i ≤ steps.last }
    requires size { n < steps.wide }
    requires comp { length comp.now ≡ steps.wide }
    requires body { length body.now ≡ steps.wide }
    requires counts { length counts.now ≡ (steps.last + 1) * steps.wide }
    requires cells { length cells.now ≡ (steps.last + 1) * steps.wide }
    requires counted { HasSource steps (step_count steps (slice_index comp.now)) i n counts.now }
    requires row { HasSource steps (step_total steps (slice_index comp.now)
        (slice_index body.now)) i n cells.now }
    ensures { result ≡ capped (step_total steps (slice_index comp.now) (slice_index body.now) i n) }
{
    if i == 0 && steps.bounded {
        0
    } else {
        let row = steps.source(i);
        marked_add(
            convolved(body, counts, row, n),
            convolved(comp, cells, row, n),
        )
    }
}

// Writes the charges of size m at the steps below the last.
pub fn settle_totals(
    steps: Steps,
    counts: &[u128],
    cells: &mut [u128],
    comp: &[u128],
    body: &[u128],
    m: usize,
)
    requires start { slice_index comp.now 0 ≡ 0 }
    requires free { slice_index body.now 0 ≡ 0 }
    requires size { m < steps.wide }
    requires comp { length comp.now ≡ steps.wide }
    requires body { length body.now ≡ steps.wide }
    requires counts { length counts.now ≡ (steps.last + 1) * steps.wide }
    requires cells { length cells.old ≡ (steps.last + 1) * steps.wide }
    requires counted { HoldsBelow steps (step_count steps (slice_index comp.now)) m counts.now }
    requires rows { HoldsBelow steps (step_total steps (slice_index comp.now)
        (slice_index body.now)) m cells.old }
    ensures { Settled steps (step_total steps (slice_index comp.now)
        (slice_index body.now)) m steps.last cells.old cells.new }
{
    for i in 0..steps.last {
        let total = total_entry(steps, counts, cells, comp, body, i, m);
        cells[i * steps.wide + m] = total;
    }
}
