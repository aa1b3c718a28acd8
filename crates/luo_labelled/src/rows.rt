// Rows of numbers with marks, a row for each step and a cell for each size.
ghost use Rattle.std.specs.Prelude.{◌≡◌, ◌≤◌, ◌+◌, ◌*◌, ◌-◌, ◌<◌, ℕ, length, slice_index};
ghost use Rattle.std.specs.Prelude.{slice_set};
ghost use Rattle.luo_num.specs.Mark.{capped};
ghost use Rattle.luo_labelled.specs.inner.Steps.{counts_of, totals_of, rest_of, row_count};
ghost use Rattle.luo_labelled.specs.inner.Steps.{HoldsBelow, HoldRows, Settled, IsPlan};

use crate::steps::Steps;
use crate::sums::{count_entry, rest_of, total_entry};
use luo_binom::Pascal;
use luo_model::Kind;

// Writes the numbers of size m at the steps below the last. The kind is one that comes after a first component.
fn settle_counts(
    steps: Steps,
    pascal: &Pascal,
    kind: Kind,
    comp: &[u128],
    cells: &mut [u128],
    m: usize,
)
    requires plan { IsPlan steps kind }
    requires rest { rest_of kind ≡ kind }
    requires size { m < steps.wide }
    requires reached { m ≤ pascal.now }
    requires start { slice_index comp.now 0 ≡ 0 }
    requires comp { length comp.now ≡ steps.wide }
    requires cells { length cells.old ≡ row_count steps.last * steps.wide }
    requires rows { HoldsBelow steps (counts_of steps kind comp.now) m cells.old }
    ensures { Settled steps (counts_of steps kind comp.now) (m + 1) cells.old cells.new }
{
    for i in 0..steps.last {
        let number = count_entry(steps, pascal, kind, comp, cells, i, m);
        cells[steps.row(i) + m] = number;
    }
}

// Writes the sums of charges of size m at the steps below the last.
fn settle_totals(
    steps: Steps,
    pascal: &Pascal,
    kind: Kind,
    comp: &[u128],
    body: &[u128],
    counts: &[u128],
    totals: &mut [u128],
    m: usize,
)
    requires plan { IsPlan steps kind }
    requires rest { rest_of kind ≡ kind }
    requires size { m < steps.wide }
    requires reached { m ≤ pascal.now }
    requires start { slice_index comp.now 0 ≡ 0 }
    requires body_start { slice_index body.now 0 ≡ 0 }
    requires comp { length comp.now ≡ steps.wide }
    requires body { length body.now ≡ steps.wide }
    requires counts { length counts.now ≡ row_count steps.last * steps.wide }
    requires totals { length totals.old ≡ row_count steps.last * steps.wide }
    requires count_rows { HoldsBelow steps (counts_of steps kind comp.now) m counts.now }
    requires total_rows { HoldsBelow steps (totals_of steps kind comp.now body.now) m totals.old }
    ensures { Settled steps (totals_of steps kind comp.now body.now) (m + 1) totals.old totals.new }
{
    for i in 0..steps.last {
        let number = total_entry(steps, pascal, kind, comp, body, counts, totals, i, m);
        totals[steps.row(i) + m] = number;
    }
}

// Takes in the size below n: its numbers depend on the number of components of that size, which is told with size n.
fn take_in_counts(
    steps: Steps,
    pascal: &Pascal,
    kind: Kind,
    comp: &[u128],
    cells: &mut [u128],
    n: usize,
)
    requires plan { IsPlan steps kind }
    requires rest { rest_of kind ≡ kind }
    requires size { n < steps.wide }
    requires reached { n ≤ pascal.now }
    requires start { slice_index comp.now 0 ≡ 0 }
    requires comp { length comp.now ≡ steps.wide }
    requires cells { length cells.old ≡ row_count steps.last * steps.wide }
    requires rows { HoldsBelow steps (counts_of steps kind comp.now) (n - 1) cells.old }
    ensures { Settled steps (counts_of steps kind comp.now) n cells.old cells.new }
{
    if n > 0 {
        settle_counts(steps, pascal, kind, comp, cells, n - 1);
    }
}

fn take_in_totals(
    steps: Steps,
    pascal: &Pascal,
    kind: Kind,
    comp: &[u128],
    body: &[u128],
    counts: &[u128],
    totals: &mut [u128],
    n: usize,
)
    requires plan { IsPlan steps kind }
    requires rest { rest_of kind ≡ kind }
    requires size { n < steps.wide }
    requires reached { n ≤ pascal.now }
    requires start { slice_index comp.now 0 ≡ 0 }
    requires body_start { slice_index body.now 0 ≡ 0 }
    requires comp { length comp.now ≡ steps.wide }
    requires body { length body.now ≡ steps.wide }
    requires counts { length counts.now ≡ row_count steps.last * steps.wide }
    requires totals { length totals.old ≡ row_count steps.last * steps.wide }
    requires count_rows { HoldsBelow steps (counts_of steps kind comp.now) n counts.now }
    requires total_rows { HoldsBelow steps (totals_of steps kind comp.now body.now) (n - 1)
        totals.old }
    ensures { Settled steps (totals_of steps kind comp.now body.now) n totals.old totals.new }
{
    if n > 0 {
        settle_totals(steps, pascal, kind, comp, body, counts, totals, n - 1);
    }
}

// Keeps an answer where the row of step 0 is that of the answers.
fn keep_answer(steps: Steps, cells: &mut [u128], n: usize, number: u128)
    requires size { n < steps.wide }
    requires cells { length cells.old ≡ row_count steps.last * steps.wide }
    ensures long { length cells.new ≡ length cells.old }
    ensures kept { (steps.last ≡ 0 → ⊥) → cells.new ≡ cells.old }
    ensures written { steps.last ≡ 0 → cells.new ≡ slice_set cells.old n number }
{
    if steps.last == 0 {
        cells[n] = number;
    }
}

/// The number of collections of size n, marked; the rows are brought up to that size.
pub fn next_count(
    steps: Steps,
    pascal: &Pascal,
    kind: Kind,
    comp: &[u128],
    cells: &mut [u128],
    n: usize,
) -> u128
    requires plan { IsPlan steps kind }
    requires size { n < steps.wide }
    requires reached { n ≤ pascal.now }
    requires start { slice_index comp.now 0 ≡ 0 }
    requires comp { length comp.now ≡ steps.wide }
    requires cells { length cells.old ≡ row_count steps.last * steps.wide }
    requires rows { HoldRows steps (counts_of steps (rest_of kind) comp.now) n cells.old }
    ensures number { result ≡ capped (counts_of steps kind comp.now steps.last n) }
    ensures long { length cells.new ≡ length cells.old }
    ensures rows { HoldRows steps (counts_of steps (rest_of kind) comp.now) (n + 1) cells.new }
{
    take_in_counts(steps, pascal, rest_of(kind), comp, cells, n);
    let number = count_entry(steps, pascal, kind, comp, cells, steps.last, n);
    keep_answer(steps, cells, n, number);
    number
}

/// The sum of the charges over the collections of size n, marked; the rows are brought up to that size. The rows of counts are so
/// already.
pub fn next_total(
    steps: Steps,
    pascal: &Pascal,
    kind: Kind,
    comp: &[u128],
    body: &[u128],
    counts: &[u128],
    totals: &mut [u128],
    n: usize,
) -> u128
    requires plan { IsPlan steps kind }
    requires size { n < steps.wide }
    requires reached { n ≤ pascal.now }
    requires start { slice_index comp.now 0 ≡ 0 }
    requires body_start { slice_index body.now 0 ≡ 0 }
    requires comp { length comp.now ≡ steps.wide }
    requires body { length body.now ≡ steps.wide }
    requires counts { length counts.now ≡ row_count steps.last * steps.wide }
    requires totals { length totals.old ≡ row_count steps.last * steps.wide }
    requires count_rows { HoldRows steps (counts_of steps (rest_of kind) comp.now) (n + 1)
        counts.now }
    requires total_rows { HoldRows steps (totals_of steps (rest_of kind) comp.now body.now) n
        totals.old }
    ensures number { result ≡ capped (totals_of steps kind comp.now body.now steps.last n) }
    ensures long { length totals.new ≡ length totals.old }
    ensures rows { HoldRows steps (totals_of steps (rest_of kind) comp.now body.now) (n + 1)
        totals.new }
{
    take_in_totals(steps, pascal, rest_of(kind), comp, body, counts, totals, n);
    let number = total_entry(
        steps, pascal, kind, comp, body, counts, totals, steps.last, n,
    );
    keep_answer(steps, totals, n, number);
    number
}
