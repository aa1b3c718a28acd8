// The levels of sites.
ghost use Rattle.std.specs.Prelude.{◌≡◌, ◌++◌, OnOk, IfOk};
ghost use Rattle.luo_model.specs.Charges.{works_of_body, works_of_item, works_of_items, works_of_arms, works_of};
ghost use Rattle.luo_model.specs.Lists.{arm_list};
ghost use Rattle.luo_model.specs.View.{plain_of, item_of, item_list, body_of};
ghost use Rattle.luo_founded.specs.inner.Longest.{AreUpTo};
ghost use Rattle.luo_founded.specs.inner.Wholes.{levels_of, levels_of_body};

use crate::levels::body_level;
use crate::longest::past;
use luo_model::{Arm, Body, Item, Program};
use luo_num::{Items, NoMemory};
use std::alloc::{AllocError, Global};

// Puts the levels of the sites of these arms after those before them.
#[cycle(levels)]
fn push_arms(arms: &[Arm], wholes: &[u32], levels: &mut Items<u32>) -> Result<(), AllocError>
    requires { AreUpTo 1000000 wholes.now }
    ensures { OnOk result (levels.new ≡ levels.old ++ levels_of wholes.now
        (works_of_arms (arm_list arms.now))) }
{
    for arm in arms {
        push_items(arm.body.items.as_slice(), wholes, levels)?;
    }
    Ok(())
}

// Puts the levels of the sites of this body after those before them, and its own.
#[cycle(levels)]
fn push_body(body: &Body, wholes: &[u32], levels: &mut Items<u32>) -> Result<(), AllocError>
    requires { AreUpTo 1000000 wholes.now }
    ensures { OnOk result (levels.new ≡ levels.old ++ levels_of_body wholes.now
        (body_of body.now)) }
{
    push_items(body.items.as_slice(), wholes, levels)?;
    levels.push(body_level(body, wholes))?;
    Ok(())
}

// Puts the levels of the sites of this item after those before them.
#[cycle(levels)]
fn push_item(item: &Item, wholes: &[u32], levels: &mut Items<u32>) -> Result<(), AllocError>
    requires { AreUpTo 1000000 wholes.now }
    ensures { OnOk result (levels.new ≡ levels.old ++ levels_of wholes.now
        (works_of_item (item_of item.now))) }
{
    match item {
        Item::Call { callee, .. } => {
            levels.push(past(wholes, *callee))?;
            Ok(())
        }
        Item::Case { arms, .. } => {
            push_arms(arms.as_slice(), wholes, levels)?;
            levels.push(0)?;
            Ok(())
        }
        Item::Forall { body, .. } => {
            push_body(body, wholes, levels)?;
            levels.push(0)?;
            Ok(())
        }
    }
}

// Puts the levels of the sites of these items after those before them.
#[cycle(levels)]
fn push_items(items: &[Item], wholes: &[u32], levels: &mut Items<u32>) -> Result<(), AllocError>
    requires { AreUpTo 1000000 wholes.now }
    ensures { OnOk result (levels.new ≡ levels.old ++ levels_of wholes.now
        (works_of_items (item_list items.now))) }
{
    for item in items {
        push_item(item, wholes, levels)?;
    }
    Ok(())
}

/// The level of each site, by the levels of the wholes.
pub(crate) fn site_levels(
    alloc: Global,
    program: &Program,
    wholes: &[u32],
) -> Result<Items<u32>, NoMemory>
    requires { AreUpTo 1000000 wholes.now }
    ensures { IfOk result (λ levels. levels ≡ levels_of wholes.now
        (works_of (plain_of program.now))) }
{
    let mut levels = Items::new(alloc);
    let procs = program.procs.as_slice();
    for procedure in procs {
        push_body(&procedure.body, wholes, &mut levels)?;
    }
    Ok(levels)
}
