// Numbers of collections, and sums of charges over them, by their first component.
ghost use Rattle.std.specs.Prelude.{◌≡◌, ◌≤◌, ◌+◌, ◌*◌, ◌-◌, ◌<◌, length, slice_index};
ghost use Rattle.luo_num.specs.Mark.{capped};
ghost use Rattle.luo_num.specs.declared.limits.TheConstants.{SIZE_LIMIT};
ghost use Rattle.luo_labelled.specs.inner.Steps.{is_led, ways, joined, counts_of, totals_of};
ghost use Rattle.luo_labelled.specs.inner.Steps.{rest_of, row_count, HoldsSource, IsPlanned};

use crate::steps::Steps;
use luo_binom::Pascal;
use luo_model::Kind;
use luo_num::{marked_add, marked_mul};

// What comes after the first component.
pub fn rest_of(kind: Kind) -> Kind
    ensures { result ≡ rest_of kind }
{
    match kind {
        Kind::Set => Kind::Set,
        _ => Kind::Sequence,
    }
}

// The ways to choose the j labels of the first component of n, marked: that of a set or a cycle has the least label.
fn ways(pascal: &Pascal, kind: Kind, n: usize, j: usize) -> u128
    requires some { 1 ≤ j }
    requires inside { j ≤ n }
    requires small { n ≤ SIZE_LIMIT }
    requires reached { n ≤ pascal.now }
    ensures { result ≡ capped (ways (is_led kind) n j) }
{
    match kind {
        Kind::Sequence => pascal.marked(n as u32, j as u32),
        _ => pascal.marked((n - 1) as u32, (j - 1) as u32),
    }
}

// The sum over the sizes j of a first component: the ways to choose its labels, times number j, times the cell of what is left.
fn joined(
    pascal: &Pascal,
    kind: Kind,
    numbers: &[u128],
    cells: &[u128],
    row: usize,
    n: usize,
) -> u128
    requires small { n ≤ SIZE_LIMIT }
    requires reached { n ≤ pascal.now }
    requires numbers { n < length numbers.now }
    requires row { row + n ≤ length cells.now }
    ensures { result
        ≡ capped (joined (is_led kind) (slice_index numbers.now)
        (λ m. slice_index cells.now (row + m)) n) }
{
    let mut sum = 0;
    for j in 0..n {
        let both = marked_mul(numbers[j + 1], cells[row + (n - (j + 1))]);
        sum = marked_add(sum, marked_mul(ways(pascal, kind, n, j + 1), both));
    }
    sum
}

// The number of collections of size n at step i, marked.
pub fn count_entry(
    steps: Steps,
    pascal: &Pascal,
    kind: Kind,
    comp: &[u128],
    cells: &[u128],
    i: usize,
    n: usize,
) -> u128
    requires planned { IsPlanned steps kind i n }
    requires reached { n ≤ pascal.now }
    requires start { slice_index comp.now 0 ≡ 0 }
    requires comp { length comp.now ≡ steps.wide }
    requires cells { length cells.now ≡ row_count steps.last * steps.wide }
    requires row { HoldsSource steps i n (counts_of steps (rest_of kind) comp.now (i - 1))
        cells.now }
    ensures { result ≡ capped (counts_of steps kind comp.now i n) }
{
    let empty = steps.empty(i, n);
    match steps.source(i) {
        Some(row) => marked_add(empty, joined(pascal, kind, comp, cells, row, n)),
        None => empty,
    }
}

// The sum of the charges over the collections of size n at step i, marked.
pub fn total_entry(
    steps: Steps,
    pascal: &Pascal,
    kind: Kind,
    comp: &[u128],
    body: &[u128],
    counts: &[u128],
    totals: &[u128],
    i: usize,
    n: usize,
) -> u128
    requires planned { IsPlanned steps kind i n }
    requires reached { n ≤ pascal.now }
    requires start { slice_index comp.now 0 ≡ 0 }
    requires body_start { slice_index body.now 0 ≡ 0 }
    requires comp { length comp.now ≡ steps.wide }
    requires body { length body.now ≡ steps.wide }
    requires counts { length counts.now ≡ row_count steps.last * steps.wide }
    requires totals { length totals.now ≡ row_count steps.last * steps.wide }
    requires count_row { HoldsSource steps i n (counts_of steps (rest_of kind) comp.now (i - 1))
        counts.now }
    requires total_row { HoldsSource steps i n
        (totals_of steps (rest_of kind) comp.now body.now (i - 1)) totals.now }
    ensures { result ≡ capped (totals_of steps kind comp.now body.now i n) }
{
    match steps.source(i) {
        Some(row) => {
            let first = joined(pascal, kind, body, counts, row, n);
            let behind = joined(pascal, kind, comp, totals, row, n);
            marked_add(first, behind)
        }
        None => 0,
    }
}
