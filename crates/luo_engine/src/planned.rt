// What is fixed of the sites in a run.
ghost use Rattle.std.specs.Prelude.{◌≡◌, ◌<◌, length, IfOk};
ghost use Rattle.luo_model.specs.Program.{site_node};
ghost use Rattle.luo_model.specs.View.{plain_of};
ghost use Rattle.luo_engine.specs.inner.Plan.{IsPlan};
ghost use Rattle.luo_engine.specs.inner.SiteLists.{AreSiteRanks, AreSiteLevels};
ghost use Rattle.luo_engine.specs.inner.Totals.{ArePlanned};

use crate::order::site_order_of;
use crate::plan::Plan;
use crate::sites::sites_laid;
use crate::tasks::Sites;
use luo_founded::Ranks;
use luo_model::Program;
use luo_num::{Items, NoMemory};
use std::alloc::Global;

// How many sites the program has, and what holds of the plan.
fn width(plan: &Plan) -> usize
    ensures width { result ≡ length plan.now.program.sites }
    ensures plan { IsPlan plan.now }
{
    let program = plan.program;
    program.sites.len()
}

// The program of a plan.
fn program_of<'p>(plan: &Plan<'p>) -> &'p Program
    ensures { result.now ≡ plan.now.program }
{
    plan.program
}

// Where the rows of products start.
fn starts_of<'a>(plan: &'a Plan<'_>) -> &'a [usize]
    ensures { result.now ≡ plan.now.starts }
{
    plan.starts.as_slice()
}

// The node of site i.
fn node_of(plan: &Plan, i: usize) -> usize
    requires { i < length plan.now.program.sites }
    ensures { result ≡ site_node (plain_of plan.now.program) i }
{
    let program = plan.program;
    program.sites.as_slice()[i].node
}

// The ranks of the sites' nodes.
fn ranks_of_sites(alloc: Global, plan: &Plan, ranks: &Ranks<'_>) -> Result<Items<u32>, NoMemory>
    requires same { ranks.now ≡ plan.now.program }
    ensures { IfOk result (λ copied. AreSiteRanks (plain_of plan.now.program) copied
        (length plan.now.program.sites)) }
{
    let mut copied = Items::new(alloc);
    for i in 0..width(plan) {
        copied.push(ranks.node_rank(node_of(plan, i)))?;
    }
    Ok(copied)
}

// The levels of the sites.
fn levels_of_sites(alloc: Global, plan: &Plan, ranks: &Ranks<'_>) -> Result<Items<u32>, NoMemory>
    requires same { ranks.now ≡ plan.now.program }
    ensures { IfOk result (λ copied. AreSiteLevels (plain_of plan.now.program) copied
        (length plan.now.program.sites)) }
{
    let mut copied = Items::new(alloc);
    for i in 0..width(plan) {
        copied.push(ranks.site_level(i))?;
    }
    Ok(copied)
}

/// The sites of a plan's program.
///
/// # Errors
///
/// `NoMemory` where memory is refused.
pub fn sites_of_plan(alloc: Global, plan: &Plan, ranks: &Ranks<'_>) -> Result<Sites, NoMemory>
    requires same { ranks.now ≡ plan.now.program }
    ensures { IfOk result (ArePlanned plan.now) }
{
    let _sites = width(plan);
    let site_ranks = ranks_of_sites(alloc, plan, ranks)?;
    let levels = levels_of_sites(alloc, plan, ranks)?;
    let order = site_order_of(alloc, site_ranks.as_slice(), levels.as_slice())?;
    let laid = sites_laid(alloc, program_of(plan), starts_of(plan))?;
    Ok(Sites {
        ranks: site_ranks,
        levels,
        order,
        tasks: laid.tasks,
        links: laid.links,
    })
}
