// What the totals of a program's sites are made of, laid out site by site.
ghost use Rattle.std.specs.Prelude.{◌≡◌, ◌++◌, ◌∷◌, [], slice_get, IfOk, OnOk};
ghost use Rattle.luo_model.specs.Program.{site_node};
ghost use Rattle.luo_model.specs.View.{plain_of, item_of, item_list, body_of};
ghost use Rattle.luo_model.specs.Lists.{arm_list};
ghost use Rattle.luo_engine.specs.declared.tasks.Task.TheVariants.{Scopes};
ghost use Rattle.luo_recipes.specs.Tasks.{does, calls, chooses, walks, whole_sites, recipe_of};
ghost use Rattle.luo_engine.specs.inner.Laying.{lay, lay_all, recipes_of_items, recipes_of_item, recipes_of_arms, recipes_of};
ghost use Rattle.luo_engine.specs.inner.Starts.{HaveRoom};

use crate::points::Link;
use crate::scopes::{node_of, push_case, push_one};
use crate::tasks::{Scope, Task};
use luo_model::{Arm, Bind, Body, Item, Program};
use luo_num::{Items, NoMemory};
use std::alloc::Global;

/// The tasks of sites, and the rows of charged products.
#[derive(Drop)]
pub struct Laid {
    pub tasks: Items<Task>,
    pub links: Items<Option<Link>>,
}

// A site that is made of scopes comes after the others.
fn lay_scopes(laid: &mut Laid, scopes: Items<Scope>) -> Result<(), NoMemory>
    ensures tasks { OnOk result (laid.new.tasks ≡ laid.old.tasks ++ Scopes scopes ∷ []) }
    ensures links { OnOk result (laid.new.links ≡ laid.old.links) }
{
    laid.tasks.push(Task::Scopes { scopes })?;
    Ok(())
}

// The site of a procedure's whole, or of a walk's body, comes after the others.
fn lay_body(
    alloc: Global,
    program: &Program,
    starts: &[usize],
    laid: &mut Laid,
    site: usize,
    body: &Body,
) -> Result<(), NoMemory>
    requires { HaveRoom (plain_of program.now) starts.now }
    ensures { OnOk result (laid.new ≡ lay starts.now laid.old (recipe_of (plain_of program.now)
        (site_node (plain_of program.now) site) (does (body_of body.now)))) }
{
    let x = node_of(program, site);
    let scopes = push_one(
        alloc,
        program,
        starts,
        &mut laid.links,
        x,
        Bind::Whole,
        body,
    )?;
    lay_scopes(laid, scopes)
}

// The site of a case comes after the others.
fn lay_case(
    alloc: Global,
    program: &Program,
    starts: &[usize],
    laid: &mut Laid,
    site: usize,
    arms: &[Arm],
) -> Result<(), NoMemory>
    requires { HaveRoom (plain_of program.now) starts.now }
    ensures { OnOk result (laid.new ≡ lay starts.now laid.old (recipe_of (plain_of program.now)
        (site_node (plain_of program.now) site) (chooses (arm_list arms.now)))) }
{
    let x = node_of(program, site);
    let scopes = push_case(alloc, program, starts, &mut laid.links, x, arms)?;
    lay_scopes(laid, scopes)
}

// The site of the whole of a procedure that is there.
fn whole_of(alloc: Global, program: &Program, callee: usize) -> Result<Items<usize>, NoMemory>
    ensures { IfOk result (λ sites. sites
        ≡ whole_sites (slice_get (plain_of program.now).procs callee)) }
{
    let mut sites = Items::new(alloc);
    if callee < program.procs.len() {
        sites.push(program.procs.as_slice()[callee].site)?;
    }
    Ok(sites)
}

// The site of a call comes after the others.
fn lay_call(
    alloc: Global,
    program: &Program,
    laid: &mut Laid,
    site: usize,
    callee: usize,
    starts: &[usize],
) -> Result<(), NoMemory>
    ensures { OnOk result (laid.new ≡ lay starts.now laid.old (recipe_of (plain_of program.now)
        (site_node (plain_of program.now) site) (calls callee))) }
{
    let x = node_of(program, site);
    let sites = whole_of(alloc, program, callee)?;
    let start = laid.links.len();
    laid.links.push(None)?;
    let mut scopes = Items::new(alloc);
    scopes.push(Scope {
        own: 0,
        node: x,
        sites,
        start,
        arity: 0,
    })?;
    lay_scopes(laid, scopes)
}

// The site of a walk comes after the others.
fn lay_walk(
    program: &Program,
    laid: &mut Laid,
    site: usize,
    body: &Body,
    body_site: usize,
    starts: &[usize],
) -> Result<(), NoMemory>
    ensures { OnOk result (laid.new ≡ lay starts.now laid.old (recipe_of (plain_of program.now)
        (site_node (plain_of program.now) site) (walks (body_of body.now) body_site))) }
{
    let x = node_of(program, site);
    laid.tasks.push(Task::Walk {
        collection: x,
        body: body_site,
    })?;
    Ok(())
}

// The sites of these arms come after the others.
#[cycle(laying)]
fn lay_arms(
    alloc: Global,
    program: &Program,
    starts: &[usize],
    laid: &mut Laid,
    arms: &[Arm],
) -> Result<(), NoMemory>
    requires { HaveRoom (plain_of program.now) starts.now }
    ensures { OnOk result (laid.new ≡ lay_all starts.now laid.old
        (recipes_of_arms (plain_of program.now) (arm_list arms.now))) }
{
    for arm in arms {
        lay_items(alloc, program, starts, laid, arm.body.items.as_slice())?;
    }
    Ok(())
}

// The sites of this item come after the others, its own last.
#[cycle(laying)]
fn lay_item(
    alloc: Global,
    program: &Program,
    starts: &[usize],
    laid: &mut Laid,
    item: &Item,
) -> Result<(), NoMemory>
    requires { HaveRoom (plain_of program.now) starts.now }
    ensures { OnOk result (laid.new ≡ lay_all starts.now laid.old
        (recipes_of_item (plain_of program.now) (item_of item.now))) }
{
    match item {
        Item::Call {
            var: _,
            callee,
            site,
        } => lay_call(alloc, program, laid, *site, *callee, starts),
        Item::Case { var: _, arms, site } => {
            lay_arms(alloc, program, starts, laid, arms.as_slice())?;
            lay_case(alloc, program, starts, laid, *site, arms.as_slice())?;
            Ok(())
        }
        Item::Forall {
            var: _,
            body,
            body_site,
            site,
        } => {
            lay_items(alloc, program, starts, laid, body.items.as_slice())?;
            lay_body(alloc, program, starts, laid, *body_site, body)?;
            lay_walk(program, laid, *site, body, *body_site, starts)?;
            Ok(())
        }
    }
}

// The sites of these items come after the others.
#[cycle(laying)]
fn lay_items(
    alloc: Global,
    program: &Program,
    starts: &[usize],
    laid: &mut Laid,
    items: &[Item],
) -> Result<(), NoMemory>
    requires { HaveRoom (plain_of program.now) starts.now }
    ensures { OnOk result (laid.new ≡ lay_all starts.now laid.old
        (recipes_of_items (plain_of program.now) (item_list items.now))) }
{
    for item in items {
        lay_item(alloc, program, starts, laid, item)?;
    }
    Ok(())
}

/// What the totals of the program's sites are made of, site by site.
///
/// # Errors
///
/// `NoMemory` where memory is refused.
pub fn sites_laid(alloc: Global, program: &Program, starts: &[usize]) -> Result<Laid, NoMemory>
    requires { HaveRoom (plain_of program.now) starts.now }
    ensures { IfOk result (λ laid. laid ≡ lay_all starts.now (record { tasks = []; links = [] })
        (recipes_of (plain_of program.now))) }
{
    let mut laid = Laid {
        tasks: Items::new(alloc),
        links: Items::new(alloc),
    };
    let procs = program.procs.as_slice();
    for procedure in procs {
        let items = procedure.body.items.as_slice();
        lay_items(alloc, program, starts, &mut laid, items)?;
        lay_body(
            alloc,
            program,
            starts,
            &mut laid,
            procedure.site,
            &procedure.body,
        )?;
    }
    Ok(laid)
}
