// The tables of a program's walks over collections: one at the place of each walk's site.
ghost use Rattle.std.specs.Prelude.{◌≡◌, ◌+◌, ◌≤◌, ◌<◌, ℕ, length, slice_get, IfOk};
ghost use Rattle.luo_num.specs.Mark.{capped};
ghost use Rattle.luo_num.specs.declared.TheConstants.{MAX};
ghost use Rattle.luo_model.specs.Program.{shape_of, site_node};
ghost use Rattle.luo_model.specs.Tables.{IsTotal};
ghost use Rattle.luo_model.specs.View.{plain_of};
ghost use Rattle.luo_engine.specs.inner.Filled.{AreCounted, NumbersTo, IsRightOf};
ghost use Rattle.luo_engine.specs.inner.Plan.{IsPlan};
ghost use Rattle.luo_engine.specs.inner.Asked.{GoesWithAs, unasked_walk, total_asked};
ghost use Rattle.luo_engine.specs.inner.Collections.{table_at, HasTable, AreCollections};
ghost use Rattle.luo_engine.specs.inner.Walks.{IsWalk, walk_at, HasWalk, IsWalkAsked, HasAnswered, AllowsOne, HasTotals};

use crate::collecting::{here_at, prefix};
use crate::collections::Collection;
use crate::plan::Plan;
use crate::table::Table;
use crate::walks::CollectionWalk;
use luo_binom::Pascal;
use luo_model::Shape;
use luo_num::NoMemory;
use std::alloc::Global;

// The table of node x.
fn table_of(tables: &[Option<Collection>], x: usize) -> &Collection
    requires there { HasTable tables.now x }
    ensures { result.now ≡ table_at tables.now x }
{
    match &tables[x] {
        Some(collection) => collection,
        None => unreachable!(),
    }
}

/// A table for a walk over the collection of node x.
///
/// # Errors
///
/// `NoMemory` where memory is refused.
pub fn walk_of(
    alloc: Global,
    tables: &[Option<Collection>],
    x: usize,
) -> Result<CollectionWalk, NoMemory>
    requires there { HasTable tables.now x }
    ensures { IfOk result (λ walk. walk ≡ unasked_walk (table_at tables.now x)) }
{
    CollectionWalk::new(alloc, table_of(tables, x))
}

// The node of site i.
pub fn node_of(plan: &Plan, i: usize) -> usize
    requires { i < length plan.now.program.sites }
    ensures node { result ≡ site_node (plain_of plan.now.program) i }
    ensures plan { IsPlan plan.now }
{
    let program = plan.program;
    program.sites.as_slice()[i].node
}

// The table of site i answers its next size.
fn ask(
    walks: &mut Vec<Option<CollectionWalk>>,
    i: usize,
    collection: &Collection,
    pascal: &Pascal,
    comp: &[u128],
    body: &[u128],
    here: u128,
) -> u128
    requires there { HasWalk walks.old.items i }
    requires goes_with { GoesWithAs collection.now (walk_at walks.old.items i)
        comp.now body.now here }
    requires reached { length comp.now ≤ pascal.now }
    ensures answer { result ≡ capped (total_asked collection.now body.now here) }
    ensures kept { HasAnswered collection.now walks.old.items walks.new.items i
        comp.now body.now here result }
{
    match &mut walks[i] {
        Some(walk) => walk.total_at(collection, pascal, comp, body, here),
        None => unreachable!(),
    }
}

/// The total of size n of the walk at site i, marked. Its body's site is s, and the counts of size n are known.
pub fn walk_total(
    plan: &Plan,
    counts: &Table,
    totals: &Table,
    tables: &[Option<Collection>],
    walks: &mut Vec<Option<CollectionWalk>>,
    i: usize,
    s: usize,
    n: usize,
) -> u128
    requires walk { IsWalk (plain_of plan.now.program) i s }
    requires reached { n ≤ plan.now.reach }
    requires counted { AreCounted (plain_of plan.now.program) plan.now.order counts.now n
        (length plan.now.order) }
    requires tables { AreCollections (plain_of plan.now.program) plan.now.reach plan.now.order
        tables.now n (length plan.now.order) }
    requires totals { HasTotals (plain_of plan.now.program) totals.now s n }
    requires one { AllowsOne (shape_of (plain_of plan.now.program)
        (site_node (plain_of plan.now.program) i))
        → IsRightOf (IsTotal (plain_of plan.now.program)) totals.now s n }
    requires asks { IsWalkAsked (plain_of plan.now.program) plan.now.reach walks.old.items i s n }
    ensures total { NumbersTo (IsTotal (plain_of plan.now.program)) i n result }
    ensures walks { result ≤ MAX → IsWalkAsked (plain_of plan.now.program) plan.now.reach
        walks.new.items i s (n + 1) }
    ensures others { (j : ℕ) → (j ≡ i → ⊥) → slice_get walks.new.items j
        ≡ slice_get walks.old.items j }
{
    let x = node_of(plan, i);
    match plan.shape(x) {
        Shape::Coll {
            kind: _,
            part,
            low,
            high,
        } => {
            let here = here_at(totals, s, n, *low, *high);
            let comp = prefix(counts.row(part.node), n);
            let body = prefix(totals.row(s), n);
            ask(
                walks,
                i,
                table_of(tables, x),
                plan.pascal(),
                comp,
                body,
                here,
            )
        }
        _ => unreachable!(),
    }
}
