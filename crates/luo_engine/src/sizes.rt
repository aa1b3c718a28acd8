// One more size of all tables.
ghost use Rattle.std.specs.Prelude.{◌≡◌, ◌<◌, ◌≤◌, ℕ, length, IsNone, IfSome};
ghost use Rattle.luo_num.specs.declared.limits.TheConstants.{SIZE_LIMIT};
ghost use Rattle.luo_model.specs.View.{plain_of};
ghost use Rattle.luo_model.specs.Tables.{IsTotal};
ghost use Rattle.luo_engine.specs.inner.Grid.{SameShape, SameOthers};
ghost use Rattle.luo_engine.specs.inner.Listed.{IsSiteBefore};
ghost use Rattle.luo_engine.specs.inner.Points.{ArePointsBelow, ArePointsClosed};
ghost use Rattle.luo_engine.specs.inner.Laid.{AreTotalled};
ghost use Rattle.luo_engine.specs.inner.Totals.{ArePlanned, AreWalked};
ghost use Rattle.luo_engine.specs.inner.Partial.{AreClosedBelow, AreClosedFrom};
ghost use Rattle.luo_engine.specs.inner.Collections.{AreCollections};
ghost use Rattle.luo_engine.specs.inner.Filled.{AreCounted, AreKept, IsRightOf, IsFirstPast, IsFirstPastOf};

use crate::collections::Collection;
use crate::counts::fill_counts;
use crate::partial::{close_size, open_size};
use crate::plan::Plan;
use crate::points::{close_points, open_points};
use crate::table::Table;
use crate::tasks::Sites;
use crate::totals::fill_totals;
use crate::walks::CollectionWalk;

/// The counts of size n and the partial products, or the first node that overflows.
pub fn extend_counts(
    plan: &Plan,
    counts: &mut Table,
    collections: &mut Vec<Option<Collection>>,
    partials: &mut Table,
    n: usize,
) -> Option<usize>
    requires small { n ≤ SIZE_LIMIT }
    requires reached { n ≤ plan.now.reach }
    requires counted { AreCounted (plain_of plan.now.program) plan.now.order counts.old n 0 }
    requires collections { AreCollections (plain_of plan.now.program) plan.now.reach plan.now.order
        collections.old.items n 0 }
    requires below { AreClosedBelow plan.now.program.universe counts.old plan.now.factors
        partials.old n }
    ensures counted { IsNone result → AreCounted (plain_of plan.now.program) plan.now.order
        counts.new n (length plan.now.order) }
    ensures collections { IsNone result → AreCollections (plain_of plan.now.program) plan.now.reach
        plan.now.order collections.new.items n (length plan.now.order) }
    ensures closed { IsNone result → AreClosedFrom plan.now.program.universe counts.new
        plan.now.factors partials.new n 0 }
    ensures kept { AreKept (plain_of plan.now.program) counts.new n }
    ensures counts_shape { SameShape counts.old counts.new }
    ensures partials_shape { SameShape partials.old partials.new }
    ensures others { SameOthers n counts.old counts.new }
    ensures past { IfSome result (IsFirstPast (plain_of plan.now.program) plan.now.ranks n) }
{
    let universe = plan.universe();
    open_size(universe, plan.pascal(), counts, plan.factors(), partials, n);
    let past = fill_counts(plan, counts, collections, partials, n);
    if past.is_none() {
        close_size(universe, counts, plan.factors(), partials, n);
    }
    past
}

/// The totals of size n and the charged products, or the first site that overflows. The counts
/// of size n are known.
pub fn extend_totals(
    plan: &Plan,
    sites: &Sites,
    counts: &Table,
    collections: &[Option<Collection>],
    partials: &Table,
    totals: &mut Table,
    walks: &mut Vec<Option<CollectionWalk>>,
    points: &mut Table,
    n: usize,
) -> Option<usize>
    requires small { n ≤ SIZE_LIMIT }
    requires reached { n ≤ plan.now.reach }
    requires fixed { ArePlanned plan.now sites.now }
    requires counted { AreCounted (plain_of plan.now.program) plan.now.order counts.now n
        (length plan.now.order) }
    requires collections { AreCollections (plain_of plan.now.program) plan.now.reach plan.now.order
        collections.now n (length plan.now.order) }
    requires totalled { AreTotalled (plain_of plan.now.program) sites.now.order totals.old n 0 }
    requires walks { AreWalked (plain_of plan.now.program) plan.now.reach sites.now
        walks.old.items n 0 }
    requires below { ArePointsBelow plan.now.program.universe counts.now totals.old
        plan.now.factors partials.now sites.now.links points.old n }
    ensures totalled { IsNone result → AreTotalled (plain_of plan.now.program) sites.now.order
        totals.new n (length sites.now.order) }
    ensures closed { IsNone result → ArePointsClosed plan.now.program.universe counts.now totals.new
        plan.now.factors partials.now sites.now.links points.new n 0 }
    ensures walks { IsNone result → AreWalked (plain_of plan.now.program) plan.now.reach sites.now
        walks.new.items n (length sites.now.order) }
    ensures kept { (i m : ℕ) → i < length plan.now.program.sites → m < n
        → IsRightOf (IsTotal (plain_of plan.now.program)) totals.new i m }
    ensures totals_shape { SameShape totals.old totals.new }
    ensures points_shape { SameShape points.old points.new }
    ensures past { IfSome result (IsFirstPastOf (IsTotal (plain_of plan.now.program))
        (length plan.now.program.sites) (IsSiteBefore sites.now.ranks sites.now.levels) n) }
{
    let universe = plan.universe();
    let factors = plan.factors();
    let links = sites.links.as_slice();
    open_points(
        universe,
        plan.pascal(),
        counts,
        totals,
        factors,
        partials,
        links,
        points,
        n,
    );
    let past = fill_totals(
        plan,
        sites,
        counts,
        partials,
        totals,
        points,
        collections,
        walks,
        n,
    );
    if past.is_none() {
        close_points(
            universe, counts, totals, factors, partials, links, points, n,
        );
    }
    past
}
