// Rows by size alone: cell m is for the collections of size m, of any number of components. Their components have sizes up to a
// greatest one, and a next size is folded in by one step over the row, in place: from the largest size down, since a cell goes on
// from smaller ones. The cells of sizes below it stay as they are.
ghost use Rattle.std.specs.Prelude.{◌≡◌, ◌+◌, ◌*◌, ◌-◌, ◌/◌, ◌<◌, ◌≤◌, ℕ, length, set, replicate, slice_index, IfOk};
ghost use Rattle.luo_num.specs.Mark.{capped};
ghost use Rattle.luo_unlabelled.specs.inner.Sizes.{from_cells, count_fold, total_fold, IsFolded};

use crate::numbers::zeros;
use luo_num::{NoMemory, marked_add, marked_mul};
use std::alloc::Global;

// The row of no sizes: the empty collection alone.
pub fn empty_row(alloc: Global, wide: usize) -> Result<Vec<u128>, NoMemory>
    requires some { 1 ≤ wide }
    ensures { IfOk result (λ cells. cells.items ≡ set (replicate wide 0) 0 1) }
{
    let mut cells = zeros(alloc, wide)?;
    cells[0] = 1;
    Ok(cells)
}

// The sum over j of the ways to take j components of size d, times the cell of the rest of size m, marked.
pub fn taken(ways: &[u128], cells: &[u128], d: usize, m: usize) -> u128
    requires some { 1 ≤ d }
    requires ways { m < length ways.now }
    requires inside { m < length cells.now }
    ensures { result ≡ capped (from_cells ways.now cells.now d m) }
{
    let mut sum = 0;
    for j in 0..m / d + 1 {
        sum = marked_add(sum, marked_mul(ways[j], cells[m - j * d]));
    }
    sum
}

// Folds size d into a row of counts.
pub fn fold(cells: &mut [u128], ways: &[u128], d: usize)
    requires some { 1 ≤ d }
    requires ways { length cells.old ≤ length ways.now }
    requires inside { d ≤ length cells.old }
    ensures { IsFolded (count_fold ways.now d) d cells.old cells.new }
{
    for done in 0..cells.len() - d {
        let m = cells.len() - 1 - done;
        let number = taken(ways, cells, d, m);
        cells[m] = number;
    }
}

// Folds size d into a row of charges. The row of counts is that of the sizes below d.
pub fn fold_total(cells: &mut [u128], counts: &[u128], ways: &[u128], charges: &[u128], d: usize)
    requires some { 1 ≤ d }
    requires ways { length cells.old ≤ length ways.now }
    requires charges { length cells.old ≤ length charges.now }
    requires counts { length cells.old ≤ length counts.now }
    requires inside { d ≤ length cells.old }
    ensures { IsFolded (total_fold ways.now charges.now counts.now d) d cells.old cells.new }
{
    for done in 0..cells.len() - d {
        let m = cells.len() - 1 - done;
        let charged = taken(charges, counts, d, m);
        let total = marked_add(charged, taken(ways, cells, d, m));
        cells[m] = total;
    }
}
