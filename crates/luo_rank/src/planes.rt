// Planes: cell n of row k is the number of collections of k components of sizes up to a greatest one, of size n.
ghost use Rattle.std.specs.Prelude.{◌≡◌, ◌+◌, ◌*◌, ◌-◌, ◌<◌, ◌≤◌, ℕ, suc, length, slice_index, slice_index_or, [], IfOk};
ghost use Rattle.luo_finite.specs.Range.{sum_below};
ghost use Rattle.luo_num.specs.Mark.{capped};
ghost use Rattle.luo_num.specs.declared.TheConstants.{MAX};
ghost use Rattle.luo_counting.specs.Numbers.{plane};
ghost use Rattle.luo_places.specs.Tails.{IsBag};
ghost use Rattle.luo_rank.specs.inner.Lookup.{IsPlane, ArePlanes, AreWays, IsWide, IsCellRow, with_size};

use crate::choices::ways_at;
use luo_model::Kind;
use luo_num::{Items, NoMemory, marked_add, marked_mul};
use std::alloc::Global;

// The row at a place.
pub fn nth(rows: &[Items<u128>], at: usize) -> &[u128]
    requires { at < length rows.now }
    ensures { result.now ≡ slice_index_or rows.now at [] }
{
    rows[at].as_slice()
}

// The sum over j of the ways to take j components of size d, times the cell of the others, marked.
fn copies(ways: &[u128], rows: &[Items<u128>], d: usize, k: usize, n: usize) -> u128
    requires some { 1 ≤ d }
    requires ways { n < length ways.now }
    requires rows { k < length rows.now }
    requires wide { IsWide rows.now n }
    requires few { n ≤ 40 }
    requires row { k ≤ 40 }
    requires reach { d ≤ 40 }
    ensures { result ≡ capped (with_size ways.now rows.now d k n) }
{
    let mut sum = 0;
    let mut j = 0;
    while j <= k && j * d <= n {
        let row = nth(rows, k - j);
        sum = marked_add(sum, marked_mul(ways[j], row[n - j * d]));
        j += 1;
    }
    sum
}

// The same for the numbers of components from `low` to `most`, together.
pub fn copies_within(
    ways: &[u128],
    rows: &[Items<u128>],
    d: usize,
    low: usize,
    most: usize,
    n: usize,
) -> u128
    requires some { 1 ≤ d }
    requires ways { n < length ways.now }
    requires rows { most < length rows.now }
    requires wide { IsWide rows.now n }
    requires few { n ≤ 40 }
    requires most { most ≤ 40 }
    requires reach { d ≤ 40 }
    ensures { result ≡ capped (sum_below (λ e. with_size ways.now rows.now d (low + e) n)
        (suc most - low)) }
{
    if most < low {
        return 0;
    }
    let mut sum = 0;
    for k in low..most + 1 {
        sum = marked_add(sum, copies(ways, rows, d, k, n));
    }
    sum
}

// Cell n of row k of the plane of the sizes up to d, from that of the smaller sizes.
fn cell(
    ways: &[u128],
    behind: &[Items<u128>],
    kind: Kind,
    counts: &[u128],
    d: usize,
    k: usize,
    n: usize,
    last: usize,
) -> u128
    requires few { last ≤ 40 }
    requires reach { d ≤ 40 }
    requires row { k < suc last }
    requires size { n < suc last }
    requires long { last < length ways.now }
    requires ways { 1 ≤ d → AreWays kind (slice_index counts.now d) d last ways.now }
    requires behind { 1 ≤ d → IsPlane kind (slice_index counts.now) (d - 1) last behind.now }
    ensures { result ≡ capped (plane kind (slice_index counts.now) d k n) }
{
    if d > 0 {
        copies(ways, behind, d, k, n)
    } else if k > 0 {
        0
    } else if n > 0 {
        0
    } else {
        1
    }
}

// Row k of the plane.
fn row_of(
    alloc: Global,
    ways: &[u128],
    behind: &[Items<u128>],
    kind: Kind,
    counts: &[u128],
    d: usize,
    k: usize,
    last: usize,
) -> Result<Items<u128>, NoMemory>
    requires few { last ≤ 40 }
    requires reach { d ≤ 40 }
    requires row { k < suc last }
    requires long { last < length ways.now }
    requires ways { 1 ≤ d → AreWays kind (slice_index counts.now d) d last ways.now }
    requires behind { 1 ≤ d → IsPlane kind (slice_index counts.now) (d - 1) last behind.now }
    ensures { IfOk result (IsCellRow kind (slice_index counts.now) d k (suc last)) }
{
    let mut row = Items::new(alloc);
    for n in 0..last + 1 {
        let number = cell(ways, behind, kind, counts, d, k, n, last);
        row.push(number)?;
    }
    Ok(row)
}

// The plane of the sizes up to d, of which there are `counts`, from that of the smaller sizes.
fn plane_of(
    alloc: Global,
    behind: &[Items<u128>],
    kind: Kind,
    counts: &[u128],
    d: usize,
    last: usize,
) -> Result<Items<Items<u128>>, NoMemory>
    requires bag { IsBag kind }
    requires few { last ≤ 40 }
    requires reach { d ≤ 40 }
    requires within { d < length counts.now }
    requires behind { 1 ≤ d → IsPlane kind (slice_index counts.now) (d - 1) last behind.now }
    requires small { slice_index counts.now d ≤ MAX }
    ensures { IfOk result (IsPlane kind (slice_index counts.now) d last) }
{
    let ways = ways_at(kind, counts[d], d, last);
    let mut rows = Items::new(alloc);
    for k in 0..last + 1 {
        let row = row_of(alloc, &ways, behind, kind, counts, d, k, last)?;
        rows.push(row)?;
    }
    Ok(rows)
}

// The planes of all sizes up to the last.
pub fn planes_of(
    alloc: Global,
    kind: Kind,
    counts: &[u128],
    last: usize,
) -> Result<Items<Items<Items<u128>>>, NoMemory>
    requires bag { IsBag kind }
    requires few { last ≤ 40 }
    requires long { last < length counts.now }
    requires small { (d : ℕ) → d < suc last → slice_index counts.now d ≤ MAX }
    ensures { IfOk result (ArePlanes kind (slice_index counts.now) last (suc last)) }
{
    let mut planes = Items::new(alloc);
    for d in 0..last + 1 {
        let plane = plane_of(alloc, last_plane(planes.as_slice()), kind, counts, d, last)?;
        planes.push(plane)?;
    }
    Ok(planes)
}

// The last of some planes.
fn last_plane(planes: &[Items<Items<u128>>]) -> &[Items<u128>]
    ensures { result.now ≡ slice_index_or planes.now (length planes.now - 1) [] }
{
    let n = planes.len();
    if n == 0 {
        &[]
    } else {
        planes[n - 1].as_slice()
    }
}
