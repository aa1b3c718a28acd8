// The sites of procedures, and their walks over multisets and powersets.
ghost use Rattle.std.specs.Prelude.{◌≡◌, [], ◌∷◌, ◌++◌, ◌+◌, ◌*◌, ◌^◌, ◌<◌, ◌≤◌, length, sum_by, IfOk, OnOk};
ghost use Rattle.luo_model.specs.Scopes.Stands as scopes;
ghost use Rattle.luo_model.specs.Scopes.Sites as sited;
ghost use Rattle.luo_model.specs.Scopes.Walks as walking;
ghost use Rattle.luo_model.specs.View.{body_of, item_of, item_list, procedure_of};
ghost use Rattle.luo_rules.specs.Settings.{shape_at, types_of};
ghost use Rattle.luo_value_types.specs.inner.Stands.{stand_of};
ghost use Rattle.luo_model.specs.Lists.{arm_list};
ghost use Rattle.luo_types.specs.inner.SitesFound.{nodes_of, IsFound, sites_at, sites_in, procedure_walks, procedure_items};

use luo_model::{Arm, Bind, Body, Item, Kind, Part, Proc, Shape, Site};
use luo_num::Items;
use luo_rules::Setting;
use luo_value_types::{Stand, stand_at};
use std::alloc::{AllocError, Global};

/// What is found in bodies: the nodes of their sites, and the number of walks over multisets and powersets.
#[derive(Debug, Drop)]
pub(crate) struct Found {
    pub nodes: Items<usize>,
    pub walks: usize,
}

// What stands for a place past the end of a scope.
const NO_PART: Part = Part {
    node: 0,
    name: None,
};

// The part of a variable.
fn part_at(vars: &[Part], var: usize) -> Part
    ensures { result ≡ scopes.part_at vars.now var }
{
    match vars.get(var) {
        Some(part) => *part,
        None => NO_PART,
    }
}

// One part.
pub(crate) fn one_part(alloc: Global, part: Part) -> Result<Items<Part>, AllocError>
    ensures { IfOk result (λ parts. parts ≡ part ∷ []) }
{
    let mut parts = Items::new(alloc);
    parts.push(part)?;
    Ok(parts)
}

// The factors of a node.
fn factors(alloc: Global, setting: &Setting, node: usize) -> Result<Items<Part>, AllocError>
    ensures { IfOk result (λ parts. parts ≡ scopes.factors (shape_at setting.now node)) }
{
    match setting.shape(node) {
        Some(Shape::Product { parts }) => Items::from_slice(alloc, parts.as_slice()),
        _ => Ok(Items::new(alloc)),
    }
}

// The parts of the variables that an arm binds, which stands for this.
fn bound_parts(
    alloc: Global,
    setting: &Setting,
    stand: Stand,
    bind: Bind,
) -> Result<Items<Part>, AllocError>
    ensures { IfOk result (λ parts. parts ≡ scopes.bound_parts (types_of setting.now)
        (stand_of stand) bind) }
{
    match bind {
        Bind::Nothing => Ok(Items::new(alloc)),
        Bind::Whole => one_part(alloc, stand.part()),
        Bind::Parts(_) => factors(alloc, setting, stand.part().node),
    }
}

// The components of a collection.
fn component_in(shape: &Shape) -> Part
    ensures { result ≡ scopes.component shape.now }
{
    match shape {
        Shape::Coll { part, .. } => *part,
        _ => NO_PART,
    }
}

// 1 for a multiset or a powerset.
fn walk_in(shape: &Shape) -> usize
    ensures { result ≡ walking.multiset_of shape.now }
{
    match shape {
        Shape::Coll { kind, .. } => match kind {
            Kind::Multiset => 1,
            Kind::Powerset => 1,
            _ => 0,
        },
        _ => 0,
    }
}

// The components of a node, and 1 where it is a multiset or a powerset.
fn walked(setting: &Setting, node: usize) -> (Part, usize)
    ensures component { result.0 ≡ scopes.component (shape_at setting.now node) }
    ensures walks { result.1 ≡ walking.multiset_of (shape_at setting.now node) }
{
    match setting.shape(node) {
        Some(shape) => (component_in(shape), walk_in(shape)),
        None => (NO_PART, 0),
    }
}

// Finds what an arm has that stands for this.
#[cycle(found)]
fn arm(
    alloc: Global,
    setting: &Setting,
    stand: Stand,
    arm: &Arm,
    found: &mut Found,
) -> Result<(), AllocError>
    requires { found.old.walks + walking.body_items (body_of arm.now.body) ≤ 2 ^ 32 }
    ensures { OnOk result (IsFound
        (nodes_of (sited.body_sites (types_of setting.now)
        (scopes.bound_parts (types_of setting.now) (stand_of stand) arm.now.bind)
        (body_of arm.now.body)))
        (walking.body_walks (types_of setting.now)
        (scopes.bound_parts (types_of setting.now) (stand_of stand) arm.now.bind)
        (body_of arm.now.body)) found.old found.new) }
{
    let vars = bound_parts(alloc, setting, stand, arm.bind)?;
    items(
        alloc,
        setting,
        vars.as_slice(),
        arm.body.items.as_slice(),
        found,
    )?;
    Ok(())
}

// Finds what the arms of a case on this part have.
#[cycle(found)]
fn arms(
    alloc: Global,
    setting: &Setting,
    on: Part,
    arms: &[Arm],
    found: &mut Found,
) -> Result<(), AllocError>
    requires { found.old.walks + walking.arms_in (arm_list arms.now) ≤ 2 ^ 32 }
    ensures { OnOk result (IsFound
        (nodes_of (sited.arms_sites (types_of setting.now)
        (scopes.stands on (shape_at setting.now on.node)) (arm_list arms.now)))
        (walking.arms_walks (types_of setting.now) (scopes.stands on (shape_at setting.now on.node))
        (arm_list arms.now)) found.old found.new) }
{
    for (place, one) in arms.iter().enumerate() {
        let Some(stand) = stand_at(setting, on, place) else {
            return Ok(());
        };
        arm(alloc, setting, stand, one, found)?;
    }
    Ok(())
}

// Finds what a walk over a variable of this node has.
#[cycle(found)]
fn walk(
    alloc: Global,
    setting: &Setting,
    node: usize,
    body: &Body,
    found: &mut Found,
) -> Result<(), AllocError>
    requires { found.old.walks + (1 + walking.body_items (body_of body.now)) ≤ 2 ^ 32 }
    ensures { OnOk result (IsFound
        (nodes_of (sited.body_sites (types_of setting.now)
        (scopes.component (shape_at setting.now node) ∷ []) (body_of body.now))
        ++ (scopes.component (shape_at setting.now node)).node ∷ node ∷ [])
        (walking.multiset_of (shape_at setting.now node)
        + walking.body_walks (types_of setting.now)
        (scopes.component (shape_at setting.now node) ∷ [])
        (body_of body.now)) found.old found.new) }
{
    let (component, walks) = walked(setting, node);
    let vars = one_part(alloc, component)?;
    found.walks += walks;
    items(
        alloc,
        setting,
        vars.as_slice(),
        body.items.as_slice(),
        found,
    )?;
    found.nodes.push(component.node)?;
    found.nodes.push(node)?;
    Ok(())
}

// Finds what an item has in a scope of variables of these parts.
#[cycle(found)]
fn item(
    alloc: Global,
    setting: &Setting,
    vars: &[Part],
    item: &Item,
    found: &mut Found,
) -> Result<(), AllocError>
    requires { found.old.walks + walking.item_in (item_of item.now) ≤ 2 ^ 32 }
    ensures { OnOk result (IsFound
        (nodes_of (sited.item_sites (types_of setting.now) vars.now (item_of item.now)))
        (walking.item_walks (types_of setting.now) vars.now
        (item_of item.now)) found.old found.new) }
{
    match item {
        Item::Call { var, .. } => {
            found.nodes.push(part_at(vars, *var).node)?;
            Ok(())
        }
        Item::Case {
            var,
            arms: branches,
            ..
        } => {
            let on = part_at(vars, *var);
            arms(alloc, setting, on, branches.as_slice(), found)?;
            found.nodes.push(on.node)?;
            Ok(())
        }
        Item::Forall { var, body, .. } => {
            walk(alloc, setting, part_at(vars, *var).node, body, found)?;
            Ok(())
        }
    }
}

// Finds what items have in a scope of variables of these parts.
#[cycle(found)]
pub(crate) fn items(
    alloc: Global,
    setting: &Setting,
    vars: &[Part],
    items: &[Item],
    found: &mut Found,
) -> Result<(), AllocError>
    requires { found.old.walks + walking.items_in (item_list items.now) ≤ 2 ^ 32 }
    ensures { OnOk result (IsFound
        (nodes_of (sited.items_sites (types_of setting.now) vars.now (item_list items.now)))
        (walking.items_walks (types_of setting.now) vars.now
        (item_list items.now)) found.old found.new) }
{
    for one in items {
        item(alloc, setting, vars, one, found)?;
    }
    Ok(())
}
