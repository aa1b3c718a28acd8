// What procedures charge on structures.
ghost use Rattle.std.specs.Prelude.{◌≡◌, ◌≤◌, ◌<◌, ℕ, MatchResult};
ghost use Rattle.luo_num.specs.declared.TheConstants.{MAX};
ghost use Rattle.luo_model.specs.Charges.{bound, BodyCharges, ItemsCharge, ItemCharges, CaseCharges, Charges, of_walk, WorkCharges};
ghost use Rattle.luo_model.specs.Lists.{arm_list};
ghost use Rattle.luo_model.specs.Tree.{to_list};
ghost use Rattle.luo_model.specs.View.{plain_of, item_of, item_list, body_of};
ghost use Rattle.luo_struct.specs.View.{tree_of, tree_list};
ghost use Rattle.luo_interp.specs.Takes.{Takes};
ghost use Rattle.luo_interp.specs.inner.Marked.{Marks};
ghost use Rattle.luo_interp.specs.inner.Short.{Ends, IsShort, AreShort, BodyIsShort, ItemIsShort, StandsBody, StandItems, StandsItem, StandArms};

use luo_founded::Ranks;
use luo_model::{Arm, Bind, Body, Item, Program};
use luo_num::{MAX, Over, marked_add};
use luo_struct::Structure;
use std::slice;

// The structures that an arm binds of this one.
pub(crate) fn bound(bind: Bind, s: &Structure) -> &[Structure]
    ensures { to_list (tree_list result.now) ≡ bound bind (tree_of s.now) }
{
    match bind {
        Bind::Nothing => &[],
        Bind::Whole => slice::from_ref(s),
        Bind::Parts(_) => match s {
            Structure::Tup { parts } => parts.as_slice(),
            _ => &[],
        },
    }
}

// What a procedure charges, or `MARK` where that is above `MAX`. Calls on the same structure go on for less than
// `left` steps.
#[cycle(charges)]
fn procedure_charge(program: &Program, left: usize, callee: usize, s: &Structure) -> u128
    requires ends { Ends (plain_of program.now) }
    requires short { IsShort (plain_of program.now) left callee }
    ensures { Marks (Charges (plain_of program.now) callee (tree_of s.now)) result }
{
    match program.procs.get(callee) {
        Some(procedure) => body_charge(program, left - 1, &procedure.body, slice::from_ref(s)),
        None => 0,
    }
}

// What a body charges.
#[cycle(charges)]
fn body_charge(program: &Program, left: usize, body: &Body, vars: &[Structure]) -> u128
    requires ends { Ends (plain_of program.now) }
    requires stands { StandsBody (plain_of program.now) (body_of body.now) }
    requires short { BodyIsShort (plain_of program.now) left (body_of body.now) }
    ensures { Marks (BodyCharges (Charges (plain_of program.now)) (body_of body.now)
        (to_list (tree_list vars.now))) result }
{
    let items = items_charge(program, left, body.items.as_slice(), vars);
    marked_add(body.own, items)
}

// What items charge.
#[cycle(charges)]
fn items_charge(program: &Program, left: usize, items: &[Item], vars: &[Structure]) -> u128
    requires ends { Ends (plain_of program.now) }
    requires stand { StandItems (plain_of program.now) (item_list items.now) }
    requires short { AreShort (plain_of program.now) left (item_list items.now) }
    ensures { Marks (ItemsCharge (Charges (plain_of program.now)) (item_list items.now)
        (to_list (tree_list vars.now))) result }
{
    let mut sum = 0;
    for item in items {
        sum = marked_add(sum, item_charge(program, left, item, vars));
    }
    sum
}

// What an item charges.
#[cycle(charges)]
fn item_charge(program: &Program, left: usize, item: &Item, vars: &[Structure]) -> u128
    requires ends { Ends (plain_of program.now) }
    requires stands { StandsItem (plain_of program.now) (item_of item.now) }
    requires short { ItemIsShort (plain_of program.now) left (item_of item.now) }
    ensures { Marks (ItemCharges (Charges (plain_of program.now)) (item_of item.now)
        (to_list (tree_list vars.now))) result }
{
    match item {
        Item::Call { var, callee, .. } => match vars.get(*var) {
            Some(s) => procedure_charge(program, left, *callee, s),
            None => 0,
        },
        Item::Case { var, arms, .. } => match vars.get(*var) {
            Some(s) => case_charge(program, arms.as_slice(), s),
            None => 0,
        },
        Item::Forall { var, body, .. } => match vars.get(*var) {
            Some(s) => walk_charge(program, body, s),
            None => 0,
        },
    }
}

// What a case charges on a structure.
#[cycle(charges)]
fn case_charge(program: &Program, arms: &[Arm], s: &Structure) -> u128
    requires ends { Ends (plain_of program.now) }
    requires stand { StandArms (plain_of program.now) (arm_list arms.now) }
    ensures { Marks (CaseCharges (Charges (plain_of program.now)) (arm_list arms.now)
        (tree_of s.now)) result }
{
    match s {
        Structure::Inj { branch, inner } => {
            let Some(place) = branch.checked_sub(1) else {
                return 0;
            };
            match arms.get(place as usize) {
                Some(arm) => arm_charge(program, arm, bound(arm.bind, inner.get())),
                None => 0,
            }
        }
        Structure::Tup { parts } => match arms {
            [arm] => match arm.bind {
                Bind::Parts(_) => arm_charge(program, arm, parts.as_slice()),
                _ => arm_charge(program, arm, &[]),
            },
            _ => 0,
        },
        _ => 0,
    }
}

// What an arm charges on what it binds.
#[cycle(charges)]
fn arm_charge(program: &Program, arm: &Arm, vars: &[Structure]) -> u128
    requires ends { Ends (plain_of program.now) }
    requires stands { StandsBody (plain_of program.now) (body_of arm.now.body) }
    ensures { Marks (BodyCharges (Charges (plain_of program.now)) (body_of arm.now.body)
        (to_list (tree_list vars.now))) result }
{
    body_charge(program, program.procs.len() + 1, &arm.body, vars)
}

// What a walk charges over the components of a collection.
#[cycle(charges)]
fn walk_charge(program: &Program, body: &Body, s: &Structure) -> u128
    requires ends { Ends (plain_of program.now) }
    requires stands { StandsBody (plain_of program.now) (body_of body.now) }
    ensures { Marks (WorkCharges (plain_of program.now) (of_walk (body_of body.now))
        (tree_of s.now)) result }
{
    let Structure::Coll { parts } = s else {
        return 0;
    };
    let parts = parts.as_slice();
    let left = program.procs.len() + 1;
    let mut sum = 0;
    for part in parts {
        sum = marked_add(sum, body_charge(program, left, body, slice::from_ref(part)));
    }
    sum
}

/// What the procedure charges on the structure. `Over` comes exactly where that is above `MAX`. It takes no memory.
///
/// The ranks are those of the program, and the structure belongs to the node of the procedure's parameter.
pub fn charge(program: &Program, ranks: &Ranks, callee: usize, s: &Structure) -> Result<u128, Over>
    requires same { ranks.now ≡ program.now }
    requires there { Takes (plain_of program.now) callee (tree_of s.now) }
    ensures { MatchResult result
        (λ q. Charges (plain_of program.now) callee (tree_of s.now) q × (q ≤ MAX))
        (λ _. (q : ℕ) × Charges (plain_of program.now) callee (tree_of s.now) q × (MAX < q)) }
{
    let program = ranks.program();
    let charge = procedure_charge(program, program.procs.len() + 1, callee, s);
    if charge <= MAX { Ok(charge) } else { Err(Over) }
}
