// Planes: cell m of row k is for the collections of k components, of size m. Their components have sizes up to a greatest one, and a
// next size is put in by one step over the plane, in place: from the most components down, since a cell goes on from cells of
// fewer components.
ghost use Rattle.std.specs.Prelude.{◌≡◌, ◌+◌, ◌*◌, ◌-◌, ◌/◌, ◌<◌, ◌≤◌, ℕ, length, set, replicate, slice_index, IfOk};
ghost use Rattle.luo_num.specs.Mark.{capped};
ghost use Rattle.luo_num.specs.declared.limits.TheConstants.{SIZE_LIMIT};
ghost use Rattle.luo_unlabelled.specs.inner.Planes.{with_size, count_put, total_put, IsPut, IsRowPut, IsSlim, IsSlimBehind, alone, top_count, top_total, sum_from};

use crate::numbers::zeros;
use luo_num::{NoMemory, marked_add, marked_mul};
use std::alloc::Global;

// Cell m of row k.
pub fn cell(cells: &[u128], wide: usize, k: usize, m: usize) -> u128
    requires { k * wide + m < length cells.now }
    ensures { result ≡ slice_index cells.now (k * wide + m) }
{
    cells[k * wide + m]
}

// The plane of no sizes: the empty collection alone.
pub fn empty_plane(alloc: Global, wide: usize, deep: usize) -> Result<Vec<u128>, NoMemory>
    requires some { 1 ≤ deep * wide }
    requires sizes { wide ≤ SIZE_LIMIT + 1 }
    requires rows { deep ≤ SIZE_LIMIT + 1 }
    ensures { IfOk result (λ cells. cells.items ≡ set (replicate (deep * wide) 0) 0 1) }
{
    let mut cells = zeros(alloc, deep * wide)?;
    cells[0] = 1;
    Ok(cells)
}

// The most components of size d among k of size m together, where the others have some size too.
fn most_copies(d: usize, k: usize, m: usize) -> usize
    requires some { 1 ≤ d }
    requires room { k ≤ m }
    ensures within { result ≤ k }
    ensures fits { result * d ≤ m }
    ensures most { (j : ℕ) → result < j → j ≤ k → m + j < k + j * d }
{
    if d == 1 {
        k
    } else {
        ((m - k) / (d - 1)).min(k)
    }
}

// The sum over j of the ways to take j components of size d, times the cell of the others, marked. Only those j are gone through
// that leave at least as much size as components.
fn copies(ways: &[u128], cells: &[u128], wide: usize, d: usize, k: usize, m: usize) -> u128
    requires some { 1 ≤ d }
    requires ways { k < length ways.now }
    requires size { m < wide }
    requires cells { (k + 1) * wide ≤ length cells.now }
    requires slim { IsSlimBehind wide d k m cells.now }
    ensures { result ≡ capped (with_size ways.now cells.now wide d k m) }
{
    if m < k {
        return 0;
    }
    let most = most_copies(d, k, m);
    let mut sum = 0;
    for j in 0..most + 1 {
        sum = marked_add(
            sum,
            marked_mul(ways[j], cells[(k - j) * wide + (m - j * d)]),
        );
    }
    sum
}

// Puts size d into row k, while the rows below are as they were.
fn put_row(cells: &mut [u128], ways: &[u128], wide: usize, d: usize, k: usize)
    requires some { 1 ≤ d }
    requires ways { k < length ways.now }
    requires cells { (k + 1) * wide ≤ length cells.old }
    requires slim { IsSlim wide (k + 1) cells.old }
    ensures { IsRowPut (count_put ways.now wide d) wide k wide cells.old cells.new }
{
    for m in 0..wide {
        let number = copies(ways, cells, wide, d, k, m);
        cells[k * wide + m] = number;
    }
}

// Puts size d into a plane of counts.
pub fn put(cells: &mut [u128], ways: &[u128], wide: usize, deep: usize, d: usize)
    requires some { 1 ≤ d }
    requires ways { deep ≤ length ways.now }
    requires cells { deep * wide ≤ length cells.old }
    requires slim { IsSlim wide deep cells.old }
    ensures { IsPut (count_put ways.now wide d) wide 0 deep cells.old cells.new }
{
    for done in 0..deep {
        put_row(cells, ways, wide, d, deep - 1 - done);
    }
}

// Puts size d into row k of a plane of charges.
fn put_total_row(
    cells: &mut [u128],
    counts: &[u128],
    ways: &[u128],
    charges: &[u128],
    wide: usize,
    d: usize,
    k: usize,
)
    requires some { 1 ≤ d }
    requires ways { k < length ways.now }
    requires charges { k < length charges.now }
    requires counts { (k + 1) * wide ≤ length counts.now }
    requires cells { (k + 1) * wide ≤ length cells.old }
    requires slim_counts { IsSlim wide (k + 1) counts.now }
    requires slim { IsSlim wide (k + 1) cells.old }
    ensures { IsRowPut
        (total_put ways.now charges.now counts.now wide d) wide k wide cells.old cells.new }
{
    for m in 0..wide {
        let charged = copies(charges, counts, wide, d, k, m);
        let total = marked_add(charged, copies(ways, cells, wide, d, k, m));
        cells[k * wide + m] = total;
    }
}

// Puts size d into a plane of charges. The plane of counts is that of the sizes below d.
pub fn put_total(
    cells: &mut [u128],
    counts: &[u128],
    ways: &[u128],
    charges: &[u128],
    wide: usize,
    deep: usize,
    d: usize,
)
    requires some { 1 ≤ d }
    requires ways { deep ≤ length ways.now }
    requires charges { deep ≤ length charges.now }
    requires counts { deep * wide ≤ length counts.now }
    requires cells { deep * wide ≤ length cells.old }
    requires slim_counts { IsSlim wide deep counts.now }
    requires slim { IsSlim wide deep cells.old }
    ensures { IsPut
        (total_put ways.now charges.now counts.now wide d) wide 0 deep cells.old cells.new }
{
    for done in 0..deep {
        put_total_row(cells, counts, ways, charges, wide, d, deep - 1 - done);
    }
}

// One component of the size at hand, of which there are `here`.
fn alone(here: u128, k: usize) -> u128
    ensures { result ≡ alone here k }
{
    if k == 1 { here } else { 0 }
}

// The collections of k components, of size n, marked: the plane has the sizes below n - 1, and the ways are those of size n - 1.
fn top_count(cells: &[u128], ways: &[u128], wide: usize, n: usize, here: u128, k: usize) -> u128
    requires ways { k < length ways.now }
    requires size { n < wide }
    requires cells { (k + 1) * wide ≤ length cells.now }
    requires slim { IsSlim wide (k + 1) cells.now }
    ensures { result ≡ capped (top_count ways.now cells.now wide n here k) }
{
    if n < 2 {
        marked_add(cells[k * wide + n], alone(here, k))
    } else {
        marked_add(copies(ways, cells, wide, n - 1, k, n), alone(here, k))
    }
}

// The sum of those of the numbers of components from `low` to `last`.
pub fn count_within(
    cells: &[u128],
    ways: &[u128],
    wide: usize,
    n: usize,
    here: u128,
    low: usize,
    last: usize,
) -> u128
    requires ordered { low ≤ last + 1 }
    requires ways { last < length ways.now }
    requires size { n < wide }
    requires cells { (last + 1) * wide ≤ length cells.now }
    requires slim { IsSlim wide (last + 1) cells.now }
    ensures { result ≡ capped (sum_from low (last + 1) (top_count ways.now cells.now wide n here)) }
{
    let mut sum = 0;
    for k in low..last + 1 {
        sum = marked_add(sum, top_count(cells, ways, wide, n, here, k));
    }
    sum
}

// The charges over the collections of size n, for the numbers of components from `low` to `last`: the plane has the sizes below n.
pub fn total_within(
    cells: &[u128],
    wide: usize,
    n: usize,
    here: u128,
    low: usize,
    last: usize,
) -> u128
    requires ordered { low ≤ last + 1 }
    requires size { n < wide }
    requires cells { (last + 1) * wide ≤ length cells.now }
    ensures { result ≡ capped (sum_from low (last + 1) (top_total cells.now wide n here)) }
{
    let mut sum = 0;
    for k in low..last + 1 {
        sum = marked_add(sum, marked_add(cells[k * wide + n], alone(here, k)));
    }
    sum
}
