// The totals of one size.
ghost use Rattle.std.specs.Prelude.{◌≡◌, ◌<◌, ◌≤◌, ◌+◌, ℕ, length, slice_index, slice_get, Some, IsNone, IfSome};
ghost use Rattle.luo_num.specs.declared.TheConstants.{MAX};
ghost use Rattle.luo_model.specs.View.{plain_of};
ghost use Rattle.luo_model.specs.Tables.{IsTotal};
ghost use Rattle.luo_engine.specs.inner.Grid.{SameShape};
ghost use Rattle.luo_engine.specs.inner.Points.{ArePointsOpen};
ghost use Rattle.luo_engine.specs.inner.Filled.{AreCounted, IsRightOf, NumbersTo, IsFirstPastOf};
ghost use Rattle.luo_engine.specs.inner.Listed.{IsSiteBefore};
ghost use Rattle.luo_engine.specs.inner.Laid.{AreTotalled};
ghost use Rattle.luo_engine.specs.inner.Collections.{AreCollections};
ghost use Rattle.luo_engine.specs.inner.Totals.{ArePlanned, AreWalked};

use crate::collections::Collection;
use crate::plan::Plan;
use crate::table::Table;
use crate::tasks::{Sites, Task, scopes_sum};
use crate::walking::walk_total;
use crate::walks::CollectionWalk;
use luo_num::MAX;

// The site at place k of the order.
fn site_at(sites: &Sites, k: usize) -> usize
    requires { k < length sites.now.order }
    ensures { slice_get sites.now.order k ≡ Some result }
{
    sites.order.as_slice()[k]
}

// What the total of site i is made of.
fn task_of(sites: &Sites, i: usize) -> &Task
    requires { i < length sites.now.tasks }
    ensures { slice_get sites.now.tasks i ≡ Some result.now }
{
    &sites.tasks.as_slice()[i]
}

// The total of size n of the site at place k of the order, marked, from what comes before it.
fn total_at(
    plan: &Plan,
    sites: &Sites,
    counts: &Table,
    partials: &Table,
    totals: &Table,
    points: &Table,
    tables: &[Option<Collection>],
    walks: &mut Vec<Option<CollectionWalk>>,
    k: usize,
    n: usize,
) -> u128
    requires place { k < length sites.now.order }
    requires fixed { ArePlanned plan.now sites.now }
    requires reached { n ≤ plan.now.reach }
    requires counted { AreCounted (plain_of plan.now.program) plan.now.order counts.now n
        (length plan.now.order) }
    requires totalled { AreTotalled (plain_of plan.now.program) sites.now.order totals.now n k }
    requires open_rows { ArePointsOpen plan.now.program.universe counts.now totals.now
        plan.now.factors partials.now sites.now.links points.now n (length sites.now.links) }
    requires tables { AreCollections (plain_of plan.now.program) plan.now.reach plan.now.order
        tables.now n (length plan.now.order) }
    requires walks { AreWalked (plain_of plan.now.program) plan.now.reach sites.now
        walks.old.items n k }
    ensures number { NumbersTo (IsTotal (plain_of plan.now.program))
        (slice_index sites.now.order k) n result }
    ensures walks { result ≤ MAX → AreWalked (plain_of plan.now.program) plan.now.reach sites.now
        walks.new.items n (k + 1) }
{
    let i = site_at(sites, k);
    match task_of(sites, i) {
        Task::Scopes { scopes } => scopes_sum(
            plan.universe(),
            counts,
            totals,
            plan.factors(),
            partials,
            sites.links.as_slice(),
            points,
            scopes.as_slice(),
            n,
        ),
        Task::Walk {
            collection: _,
            body,
        } => { walk_total(plan, counts, totals, tables, walks, i, *body, n) }
    }
}

/// Fills in the totals of size n, in order, up to the first that overflows, which is answered.
pub fn fill_totals(
    plan: &Plan,
    sites: &Sites,
    counts: &Table,
    partials: &Table,
    totals: &mut Table,
    points: &Table,
    tables: &[Option<Collection>],
    walks: &mut Vec<Option<CollectionWalk>>,
    n: usize,
) -> Option<usize>
    requires fixed { ArePlanned plan.now sites.now }
    requires reached { n ≤ plan.now.reach }
    requires counted { AreCounted (plain_of plan.now.program) plan.now.order counts.now n
        (length plan.now.order) }
    requires totalled { AreTotalled (plain_of plan.now.program) sites.now.order totals.old n 0 }
    requires open_rows { ArePointsOpen plan.now.program.universe counts.now totals.old
        plan.now.factors partials.now sites.now.links points.now n (length sites.now.links) }
    requires tables { AreCollections (plain_of plan.now.program) plan.now.reach plan.now.order
        tables.now n (length plan.now.order) }
    requires walks { AreWalked (plain_of plan.now.program) plan.now.reach sites.now
        walks.old.items n 0 }
    ensures totalled { IsNone result → AreTotalled (plain_of plan.now.program) sites.now.order
        totals.new n (length sites.now.order) }
    ensures open_rows { ArePointsOpen plan.now.program.universe counts.now totals.new
        plan.now.factors partials.now sites.now.links points.now n (length sites.now.links) }
    ensures walks { IsNone result → AreWalked (plain_of plan.now.program) plan.now.reach sites.now
        walks.new.items n (length sites.now.order) }
    ensures kept { (i m : ℕ) → i < length plan.now.program.sites → m < n
        → IsRightOf (IsTotal (plain_of plan.now.program)) totals.new i m }
    ensures shape { SameShape totals.old totals.new }
    ensures past { IfSome result (IsFirstPastOf (IsTotal (plain_of plan.now.program))
        (length plan.now.program.sites) (IsSiteBefore sites.now.ranks sites.now.levels) n) }
{
    for k in 0..sites.order.len() {
        let value = total_at(
            plan, sites, counts, partials, totals, points, tables, walks, k, n,
        );
        let i = site_at(sites, k);
        if value > MAX {
            return Some(i);
        }
        totals.set(i, n, value);
    }
    None
}
