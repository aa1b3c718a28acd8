// The tables of totals before the first size.
ghost use Rattle.std.specs.Prelude.{◌≡◌, ◌+◌, ℕ, List, false, length, IfOk};
ghost use Rattle.luo_model.specs.declared.table.Fill.TheVariants.{All};
ghost use Rattle.luo_model.specs.View.{plain_of};
ghost use Rattle.luo_engine.specs.inner.Collections.{AreUnasked};
ghost use Rattle.luo_engine.specs.inner.Totalling.{IsTotalling};

use crate::collections::Collection;
use crate::plan::Plan;
use crate::planned::sites_of_plan;
use crate::table::Table;
use crate::tasks::Sites;
use crate::walk_tables::walks_of;
use crate::walks::CollectionWalk;
use luo_founded::Ranks;
use luo_model::Fill;
use luo_num::NoMemory;
use std::alloc::Global;

/// What is fixed of the sites, the tables of their totals and of charged products, and those of walks.
#[derive(Drop)]
pub struct TotalTables {
    pub sites: Sites,
    pub totals: Table,
    pub walks: Vec<Option<CollectionWalk>>,
    pub points: Table,
}

// The rows of a table of totals: none where totals aren't filled in.
fn rows_for(fill: Fill, rows: usize) -> usize
    ensures { fill ≡ All → result ≡ rows }
{
    match fill {
        Fill::Counts => 0,
        Fill::All => rows,
    }
}

/// Tables of totals with no size filled.
///
/// # Errors
///
/// `NoMemory` where memory is refused.
pub fn total_tables(
    alloc: Global,
    plan: &Plan,
    ranks: &Ranks<'_>,
    collections: &[Option<Collection>],
    sizes: usize,
    fill: Fill,
) -> Result<TotalTables, NoMemory>
    requires same { ranks.now ≡ plan.now.program }
    requires collections { AreUnasked (plain_of plan.now.program) plan.now.reach collections.now
        (length plan.now.program.nodes) }
    requires sizes { sizes ≡ plan.now.reach + 1 }
    ensures { IfOk result (λ made. (counts : List (List ℕ)) → fill ≡ All
        → IsTotalling plan.now made.sites counts made.totals made.walks.items made.points
        plan.now.reach 0 false) }
{
    let sites = sites_of_plan(alloc, plan, ranks)?;
    let walks = walks_of(alloc, plan, &sites, collections)?;
    let tasks = sites.tasks.len();
    let width = rows_for(fill, tasks);
    let totals = Table::zeros(alloc, width, sizes)?;
    let links = sites.links.len();
    let rows = rows_for(fill, links);
    let points = Table::zeros(alloc, rows, sizes)?;
    Ok(TotalTables {
        sites,
        totals,
        walks,
        points,
    })
}
