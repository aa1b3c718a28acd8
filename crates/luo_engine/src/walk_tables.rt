// The tables of all walks before the first size.
ghost use Rattle.std.specs.Prelude.{◌≡◌, ◌<◌, ℕ, Some, length, slice_get, IfOk};
ghost use Rattle.luo_model.specs.Program.{site_node};
ghost use Rattle.luo_model.specs.View.{plain_of};
ghost use Rattle.luo_engine.specs.declared.tasks.Task.TheVariants.{Walk as Walked};
ghost use Rattle.luo_engine.specs.inner.Asked.{unasked_walk};
ghost use Rattle.luo_engine.specs.inner.Collections.{table_at, AreUnasked};
ghost use Rattle.luo_engine.specs.inner.Totals.{ArePlanned, AreWalked};

use crate::collections::Collection;
use crate::plan::Plan;
use crate::tasks::{Sites, Task};
use crate::walking::{node_of, walk_of};
use crate::walks::CollectionWalk;
use luo_num::NoMemory;
use std::alloc::Global;

// A table for site i, if a walk is there.
fn table_for(
    alloc: Global,
    plan: &Plan,
    sites: &Sites,
    tables: &[Option<Collection>],
    i: usize,
) -> Result<Option<CollectionWalk>, NoMemory>
    requires fixed { ArePlanned plan.now sites.now }
    requires tables { AreUnasked (plain_of plan.now.program) plan.now.reach tables.now
        (length plan.now.program.nodes) }
    requires there { i < length sites.now.tasks }
    ensures { IfOk result (λ table. (collection body : ℕ)
        → slice_get sites.now.tasks i ≡ Some (Walked collection body)
        → table ≡ Some (unasked_walk (table_at tables.now
        (site_node (plain_of plan.now.program) i)))) }
{
    match &sites.tasks.as_slice()[i] {
        Task::Scopes { .. } => Ok(None),
        Task::Walk { .. } => {
            let walk = walk_of(alloc, tables, node_of(plan, i))?;
            Ok(Some(walk))
        }
    }
}

/// A table for each walk, at the place of its site. They take all memory that they will need.
///
/// # Errors
///
/// `NoMemory` where memory is refused.
pub fn walks_of(
    alloc: Global,
    plan: &Plan,
    sites: &Sites,
    tables: &[Option<Collection>],
) -> Result<Vec<Option<CollectionWalk>>, NoMemory>
    requires fixed { ArePlanned plan.now sites.now }
    requires tables { AreUnasked (plain_of plan.now.program) plan.now.reach tables.now
        (length plan.now.program.nodes) }
    ensures { IfOk result (λ walks. AreWalked (plain_of plan.now.program) plan.now.reach sites.now
        walks.items 0 0) }
{
    let mut walks = Vec::new(alloc);
    for i in 0..sites.tasks.len() {
        let table = table_for(alloc, plan, sites, tables, i)?;
        walks.push(table)?;
    }
    Ok(walks)
}
