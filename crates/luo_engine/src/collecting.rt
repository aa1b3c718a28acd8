// The tables of a program's collections: one at the place of each collection's node.
ghost use Rattle.std.specs.Prelude.{◌≡◌, ◌+◌, ◌≤◌, ◌<◌, ℕ, Some, length, take, slice_set, slice_index, IfOk, IsTrue, IsFalse};
ghost use Rattle.luo_num.specs.Mark.{capped};
ghost use Rattle.luo_num.specs.declared.TheConstants.{MAX};
ghost use Rattle.luo_num.specs.declared.limits.TheConstants.{SIZE_LIMIT};
ghost use Rattle.luo_model.specs.Member.{IsWithin};
ghost use Rattle.luo_model.specs.Program.{shape_of};
ghost use Rattle.luo_model.specs.View.{plain_of};
ghost use Rattle.luo_engine.specs.inner.Grid.{row_of, entry_of};
ghost use Rattle.luo_engine.specs.inner.Filled.{AreCounted, CountsTo};
ghost use Rattle.luo_engine.specs.inner.Asked.{GoesOnAs, number_asked, asked_more};
ghost use Rattle.luo_engine.specs.inner.Collections.{table_at, HasTable, AreCollections, AreUnasked, IsCollection, IsUnasked};

use crate::collections::Collection;
use crate::plan::Plan;
use crate::table::Table;
use luo_binom::Pascal;
use luo_model::{Program, Shape};
use luo_num::NoMemory;
use std::alloc::Global;

// A table for node x, if it is a collection.
fn collection_of(
    alloc: Global,
    program: &Program,
    x: usize,
    n_max: u32,
) -> Result<Option<Collection>, NoMemory>
    requires there { x < length program.now.nodes }
    requires size { n_max ≤ SIZE_LIMIT }
    ensures { IfOk result (IsUnasked (plain_of program.now) n_max x) }
{
    match &program.nodes.as_slice()[x].shape {
        Shape::Coll {
            kind,
            part: _,
            low,
            high,
        } => {
            let collection = Collection::new(alloc, program.universe, *kind, *low, *high, n_max)?;
            Ok(Some(collection))
        }
        _ => Ok(None),
    }
}

/// A table for each collection of the program, at the place of its node, for sizes up to `n_max`. They take all memory that they will
/// need.
///
/// # Errors
///
/// `NoMemory` where memory is refused.
pub fn collections_of(
    alloc: Global,
    program: &Program,
    n_max: u32,
) -> Result<Vec<Option<Collection>>, NoMemory>
    requires size { n_max ≤ SIZE_LIMIT }
    ensures { IfOk result (λ tables. AreUnasked (plain_of program.now) n_max tables.items
        (length program.now.nodes)) }
{
    let mut tables = Vec::new(alloc);
    for x in 0..program.nodes.len() {
        let table = collection_of(alloc, program, x, n_max)?;
        tables.push(table)?;
    }
    Ok(tables)
}

/// Whether one component is within the bounds.
pub fn allows_one(low: u32, high: Option<u32>) -> bool
    ensures within { IsTrue result → IsWithin low high 1 }
    ensures without { IsFalse result → IsWithin low high 1 → ⊥ }
{
    match high {
        Some(high) => low <= 1 && 1 <= high,
        None => low <= 1,
    }
}

/// The entry of size n where one component is within the bounds, and 0 elsewhere.
pub fn here_at(table: &Table, x: usize, n: usize, low: u32, high: Option<u32>) -> u128
    requires row { x < length table.now }
    requires size { n < length (row_of table.now x) }
    ensures one { IsWithin low high 1 → result ≡ entry_of table.now x n }
    ensures alone { (IsWithin low high 1 → ⊥) → result ≡ 0 }
{
    if allows_one(low, high) {
        table.entry(x, n)
    } else {
        0
    }
}

/// The first n entries.
pub fn prefix(row: &[u128], n: usize) -> &[u128]
    requires { n ≤ length row.now }
    ensures { result.now ≡ take n row.now }
{
    &row[..n]
}

// The table of node x answers its next size.
fn ask(
    tables: &mut Vec<Option<Collection>>,
    x: usize,
    pascal: &Pascal,
    comp: &[u128],
    here: u128,
) -> u128
    requires there { HasTable tables.old.items x }
    requires goes_on { GoesOnAs (table_at tables.old.items x) comp.now here }
    requires reached { length comp.now ≤ pascal.now }
    ensures answer { result ≡ capped (number_asked (table_at tables.old.items x) comp.now here) }
    ensures kept { tables.new.items ≡ slice_set tables.old.items x (Some (asked_more
        (table_at tables.old.items x) comp.now here result)) }
{
    match &mut tables[x] {
        Some(collection) => collection.count_at(pascal, comp, here),
        None => unreachable!(),
    }
}

/// The number of structures of size n of the collection at place k of the order, marked.
pub fn collection_at(
    plan: &Plan,
    counts: &Table,
    tables: &mut Vec<Option<Collection>>,
    k: usize,
    n: usize,
) -> u128
    requires place { k < length plan.now.order }
    requires collection { IsCollection (shape_of (plain_of plan.now.program)
        (slice_index plan.now.order k)) }
    requires reached { n ≤ plan.now.reach }
    requires counted { AreCounted (plain_of plan.now.program) plan.now.order counts.now n k }
    requires tables { AreCollections (plain_of plan.now.program) plan.now.reach plan.now.order
        tables.old.items n k }
    ensures number { CountsTo (plain_of plan.now.program) (slice_index plan.now.order k) n result }
    ensures tables { result ≤ MAX → AreCollections (plain_of plan.now.program) plan.now.reach
        plan.now.order tables.new.items n (k + 1) }
{
    let x = plan.node_at(k);
    match plan.shape(x) {
        Shape::Coll {
            kind: _,
            part,
            low,
            high,
        } => {
            let here = here_at(counts, part.node, n, *low, *high);
            let comp = prefix(counts.row(part.node), n);
            ask(tables, x, plan.pascal(), comp, here)
        }
        _ => unreachable!(),
    }
}
