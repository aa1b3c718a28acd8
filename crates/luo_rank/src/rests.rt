// How many there are of what is left after some parts, row by row.
ghost use Rattle.std.specs.Prelude.{◌≡◌, ◌+◌, ◌-◌, ◌<◌, ◌≤◌, ℕ, suc, [], length, slice_index_or, IsTrue, IfOk};
ghost use Rattle.luo_num.specs.Mark.{capped};
ghost use Rattle.luo_model.specs.Program.{shape_of};
ghost use Rattle.luo_model.specs.View.{plain_of};
ghost use Rattle.luo_places.specs.Tails.{Ends, GoesOn, IsSpread};
ghost use Rattle.luo_rank.specs.inner.Lookup.{IsCounted, IsRow, AreRows, AreRests, AreAllRests, IsLeft, Stands, tail_at, left_count, top_of};

use crate::shares::all_shared;
use crate::tables::Tables;
use luo_model::Shape;
use luo_num::{Items, NoMemory};
use std::alloc::Global;

// How many there are where nothing is left after f parts.
fn ended(tables: &Tables<'_>, x: usize, f: usize, n: usize) -> u128
    requires tables { IsCounted tables.now }
    requires node { x < length tables.now.program.nodes }
    requires stands { Stands (shape_of (plain_of tables.now.program) x) tables.now.last f n }
    requires ends { Ends (tail_at (plain_of tables.now.program) x f) n }
    ensures { result ≡ capped (left_count tables.now x f n) }
{
    match tables.shape(x) {
        Shape::Coll { low, .. } => { if *low as usize <= f { 1 } else { 0 } }
        _ => { if n == 0 { 1 } else { 0 } }
    }
}

// Whether the bounds allow a part more after f parts.
fn allows(tables: &Tables<'_>, x: usize, f: usize, n: usize) -> bool
    requires tables { IsCounted tables.now }
    requires node { x < length tables.now.program.nodes }
    requires stands { Stands (shape_of (plain_of tables.now.program) x) tables.now.last f n }
    requires left { IsLeft (tail_at (plain_of tables.now.program) x f) n }
    requires size { n ≤ tables.now.last }
    ensures on { IsTrue result → GoesOn (tail_at (plain_of tables.now.program) x f) n }
    ensures none { (IsTrue result → ⊥) → left_count tables.now x f n ≡ 0 }
{
    match tables.shape(x) {
        Shape::Coll { high, .. } => match *high {
            Some(high) => f < high as usize,
            None => true,
        },
        _ => true,
    }
}

// How many there are of what is left after f parts, of size n, marked: `behind` has how many there are after one part more.
fn left(tables: &Tables<'_>, x: usize, f: usize, behind: &[u128], n: usize) -> u128
    requires tables { IsCounted tables.now }
    requires node { x < length tables.now.program.nodes }
    requires stands { Stands (shape_of (plain_of tables.now.program) x) tables.now.last f n }
    requires spread { IsSpread (tail_at (plain_of tables.now.program) x f) }
    requires size { n ≤ tables.now.last }
    requires behind { IsRow tables.now x (f + 1) behind.now }
    ensures { result ≡ capped (left_count tables.now x f n) }
{
    if !tables.goes_on(x, f, n) {
        ended(tables, x, f, n)
    } else if allows(tables, x, f, n) {
        all_shared(tables, x, f, behind, n)
    } else {
        0
    }
}

// How many sizes come after f parts.
fn width(tables: &Tables<'_>, x: usize, f: usize) -> usize
    requires tables { IsCounted tables.now }
    requires node { x < length tables.now.program.nodes }
    requires top { f ≤ top_of (shape_of (plain_of tables.now.program) x) tables.now.last }
    ensures stands { (n : ℕ) → n < result
        → Stands (shape_of (plain_of tables.now.program) x) tables.now.last f n
        × (n ≤ tables.now.last) }
    ensures all { (n : ℕ) → Stands (shape_of (plain_of tables.now.program) x) tables.now.last f n
        → n ≤ tables.now.last → n < result }
{
    match tables.shape(x) {
        Shape::Product { .. } => tables.last + 1,
        Shape::Coll { .. } => tables.last + 1 - f,
        _ => 0,
    }
}

// The row after f parts.
fn row_of(
    alloc: Global,
    tables: &Tables<'_>,
    x: usize,
    f: usize,
    behind: &[u128],
) -> Result<Items<u128>, NoMemory>
    requires tables { IsCounted tables.now }
    requires node { x < length tables.now.program.nodes }
    requires spread { IsSpread (tail_at (plain_of tables.now.program) x f) }
    requires top { f ≤ top_of (shape_of (plain_of tables.now.program) x) tables.now.last }
    requires behind { IsRow tables.now x (f + 1) behind.now }
    ensures { IfOk result (IsRow tables.now x f) }
{
    let wide = width(tables, x, f);
    let mut row = Items::new(alloc);
    for n in 0..wide {
        let number = left(tables, x, f, behind, n);
        row.push(number)?;
    }
    Ok(row)
}

// The last of some rows.
fn last_row(rows: &[Items<u128>]) -> &[u128]
    ensures { result.now ≡ slice_index_or rows.now (length rows.now - 1) [] }
{
    let n = rows.len();
    if n == 0 { &[] } else { rows[n - 1].as_slice() }
}

// The rows of a node, from the last part down.
fn rows_of(alloc: Global, tables: &Tables<'_>, x: usize) -> Result<Items<Items<u128>>, NoMemory>
    requires tables { IsCounted tables.now }
    requires node { x < length tables.now.program.nodes }
    requires spread { IsSpread (tail_at (plain_of tables.now.program) x 0) }
    ensures { IfOk result (AreRows tables.now x
        (suc (top_of (shape_of (plain_of tables.now.program) x) tables.now.last))) }
{
    let most = tables.top(x);
    let mut rows = Items::new(alloc);
    for done in 0..most + 1 {
        let row = row_of(alloc, tables, x, most - done, last_row(rows.as_slice()))?;
        rows.push(row)?;
    }
    Ok(rows)
}

// The rows of a node whose parts don't stand by the order.
fn rests_of(alloc: Global, tables: &Tables<'_>, x: usize) -> Result<Items<Items<u128>>, NoMemory>
    requires tables { IsCounted tables.now }
    requires node { x < length tables.now.program.nodes }
    ensures { IfOk result (AreRests tables.now x) }
{
    if tables.is_bag(x, 0) {
        Ok(Items::new(alloc))
    } else {
        rows_of(alloc, tables, x)
    }
}

// The rows of all nodes.
pub fn all_rests(alloc: Global, tables: &Tables<'_>) -> Result<Items<Items<Items<u128>>>, NoMemory>
    requires tables { IsCounted tables.now }
    ensures { IfOk result (AreAllRests tables.now (length tables.now.program.nodes)) }
{
    let mut rests = Items::new(alloc);
    for x in 0..tables.nodes() {
        let rows = rests_of(alloc, tables, x)?;
        rests.push(rows)?;
    }
    Ok(rests)
}
