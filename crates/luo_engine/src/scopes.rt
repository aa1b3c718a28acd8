// The scopes of a program's sites, with the rows of their factors.
ghost use Rattle.std.specs.Prelude.{◌≡◌, ◌<◌, ◌+◌, ◌^◌, ◌++◌, ◌∷◌, [], map, length, IfOk, OnOk, IsTrue, ◌↔◌};
ghost use Rattle.luo_model.specs.Program.{shape_of, site_node};
ghost use Rattle.luo_model.specs.View.{plain_of, item_of, item_list, body_of};
ghost use Rattle.luo_model.specs.Lists.{arm_list};
ghost use Rattle.luo_recipes.specs.Tasks.{var_in, site_in, sites_on, factors_from, scope_of, scopes_of, stand_nodes};
ghost use Rattle.luo_engine.specs.inner.Laying.{product_parts, union_parts, IsProductShape, IsPushed, ArePushed, links_from};
ghost use Rattle.luo_engine.specs.inner.Starts.{HaveRoom};

use crate::points::Link;
use crate::tasks::Scope;
use luo_model::{Arm, Bind, Body, Item, Part, Program, Shape};
use luo_num::{Items, NoMemory};
use std::alloc::Global;

// The node of a site, and 0 past the last.
pub fn node_of(program: &Program, site: usize) -> usize
    ensures { result ≡ site_node (plain_of program.now) site }
{
    if site < program.sites.len() {
        program.sites.as_slice()[site].node
    } else {
        0
    }
}

// The factors of a product, and none of another node.
fn parts_at(program: &Program, x: usize) -> &[Part]
    ensures { result.now ≡ product_parts (shape_of (plain_of program.now) x) }
{
    if x < program.nodes.len() {
        match &program.nodes.as_slice()[x].shape {
            Shape::Product { parts } => parts.as_slice(),
            _ => &[],
        }
    } else {
        &[]
    }
}

// The branches of a union, and none of another node.
fn branches_at(program: &Program, x: usize) -> &[Part]
    ensures { result.now ≡ union_parts (shape_of (plain_of program.now) x) }
{
    if x < program.nodes.len() {
        match &program.nodes.as_slice()[x].shape {
            Shape::Union { parts } => parts.as_slice(),
            _ => &[],
        }
    } else {
        &[]
    }
}

// Whether a node is a product.
fn is_product(program: &Program, x: usize) -> bool
    ensures { IsTrue result ↔ IsProductShape (shape_of (plain_of program.now) x) }
{
    if x < program.nodes.len() {
        match &program.nodes.as_slice()[x].shape {
            Shape::Product { .. } => true,
            _ => false,
        }
    } else {
        false
    }
}

// The variable of an item.
fn var_of(item: &Item) -> usize
    ensures { result ≡ var_in (item_of item.now) }
{
    match item {
        Item::Call { var, .. } => *var,
        Item::Case { var, .. } => *var,
        Item::Forall { var, .. } => *var,
    }
}

// The site of an item.
fn site_of(item: &Item) -> usize
    ensures { result ≡ site_in (item_of item.now) }
{
    match item {
        Item::Call { site, .. } => *site,
        Item::Case { site, .. } => *site,
        Item::Forall { site, .. } => *site,
    }
}

// The sites of the items on this variable.
fn sites_of(alloc: Global, var: usize, items: &[Item]) -> Result<Items<usize>, NoMemory>
    ensures { IfOk result (λ sites. sites ≡ sites_on var (item_list items.now)) }
{
    let mut sites = Items::new(alloc);
    for item in items {
        if var_of(item) == var {
            sites.push(site_of(item))?;
        }
    }
    Ok(sites)
}

// The links of the factors of a product whose rows start there, each with the sites of the items on it.
fn push_factors(
    alloc: Global,
    links: &mut Items<Option<Link>>,
    start: usize,
    parts: &[Part],
    items: &[Item],
) -> Result<(), NoMemory>
    requires { start + length parts.now < 2 ^ 32 }
    ensures { OnOk result (links.new ≡ links.old ++ links_from start
        (factors_from (item_list items.now) 0 parts.now)) }
{
    for j in 0..parts.len() {
        let sites = sites_of(alloc, j, items)?;
        links.push(Some(Link {
            node: parts[j].node,
            behind: start + j + 1,
            sites,
        }))?;
    }
    Ok(())
}

// The scope of a body on structures of node y, where so much of them is bound; its rows go after the others.
fn push_scope(
    alloc: Global,
    program: &Program,
    starts: &[usize],
    links: &mut Items<Option<Link>>,
    y: usize,
    bind: Bind,
    body: &Body,
) -> Result<Scope, NoMemory>
    requires { HaveRoom (plain_of program.now) starts.now }
    ensures { IfOk result (λ scope. IsPushed starts.now links.old links.new scope
        (scope_of (plain_of program.now) y bind (body_of body.now))) }
{
    let start = links.len();
    let items = body.items.as_slice();
    let mut sites = Items::new(alloc);
    let mut arity = 0;
    match bind {
        Bind::Nothing => {}
        Bind::Whole => sites = sites_of(alloc, 0, items)?,
        Bind::Parts(_) => {
            let parts = parts_at(program, y);
            arity = parts.len();
            if arity > 0 {
                push_factors(alloc, links, starts[y], parts, items)?;
            }
        }
    }
    links.push(None)?;
    Ok(Scope {
        own: body.own,
        node: y,
        sites,
        start,
        arity,
    })
}

// The scopes of a case on a union, each arm on its branch.
fn push_union(
    alloc: Global,
    program: &Program,
    starts: &[usize],
    links: &mut Items<Option<Link>>,
    arms: &[Arm],
    parts: &[Part],
) -> Result<Items<Scope>, NoMemory>
    requires { HaveRoom (plain_of program.now) starts.now }
    ensures { IfOk result (λ scopes. ArePushed starts.now links.old links.new scopes
        (scopes_of (plain_of program.now) (map (λ part. part.node) parts.now)
        (arm_list arms.now))) }
{
    let mut scopes = Items::new(alloc);
    let width = parts.len().min(arms.len());
    for b in 0..width {
        let arm = &arms[b];
        let scope = push_scope(
            alloc,
            program,
            starts,
            links,
            parts[b].node,
            arm.bind,
            &arm.body,
        )?;
        scopes.push(scope)?;
    }
    Ok(scopes)
}

// One scope by itself.
pub fn push_one(
    alloc: Global,
    program: &Program,
    starts: &[usize],
    links: &mut Items<Option<Link>>,
    y: usize,
    bind: Bind,
    body: &Body,
) -> Result<Items<Scope>, NoMemory>
    requires { HaveRoom (plain_of program.now) starts.now }
    ensures { IfOk result (λ scopes. ArePushed starts.now links.old links.new scopes
        (scope_of (plain_of program.now) y bind (body_of body.now) ∷ [])) }
{
    let mut scopes = Items::new(alloc);
    let scope = push_scope(alloc, program, starts, links, y, bind, body)?;
    scopes.push(scope)?;
    Ok(scopes)
}

// The scopes of a case on node x.
pub fn push_case(
    alloc: Global,
    program: &Program,
    starts: &[usize],
    links: &mut Items<Option<Link>>,
    x: usize,
    arms: &[Arm],
) -> Result<Items<Scope>, NoMemory>
    requires { HaveRoom (plain_of program.now) starts.now }
    ensures { IfOk result (λ scopes. ArePushed starts.now links.old links.new scopes
        (scopes_of (plain_of program.now) (stand_nodes x (shape_of (plain_of program.now) x))
        (arm_list arms.now))) }
{
    let branches = branches_at(program, x);
    if is_product(program, x) && !arms.is_empty() {
        push_one(
            alloc,
            program,
            starts,
            links,
            x,
            arms[0].bind,
            &arms[0].body,
        )
    } else {
        push_union(alloc, program, starts, links, arms, branches)
    }
}
