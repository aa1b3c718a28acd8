// The levels of procedures' wholes, by their calls on their own parameters.
ghost use Rattle.std.specs.Prelude.{◌≡◌, ◌<◌, ◌+◌, ◌≤◌, ℕ, List, Some, map, max, IfOk, length, slice_get};
ghost use Rattle.luo_finite.specs.Walk.{OnCircle};
ghost use Rattle.luo_model.specs.declared.program.Proc.{Proc};
ghost use Rattle.luo_model.specs.View.{plain_of, item_of, item_list, body_of};
ghost use Rattle.luo_model.specs.Founded.{OwnCall};
ghost use Rattle.luo_founded.specs.inner.Longest.{AreUpTo};
ghost use Rattle.luo_founded.specs.inner.Wholes.{item_level, items_level, body_level, AreWholes};

use crate::longest::{larger, past};
use luo_model::{Body, Item, Proc, Program};
use luo_num::{Items, NoMemory};
use std::alloc::Global;

// 1 more than the level of the whole that is called, and 0 for a case or a walk.
fn item_level(item: &Item, wholes: &[u32]) -> u32
    requires { AreUpTo 1000000 wholes.now }
    ensures { result ≡ item_level wholes.now (item_of item.now) }
{
    match item {
        Item::Call { callee, .. } => past(wholes, *callee),
        _ => 0,
    }
}

// The greatest of these.
fn items_level(items: &[Item], wholes: &[u32]) -> u32
    requires { AreUpTo 1000000 wholes.now }
    ensures { result ≡ items_level wholes.now (item_list items.now) }
{
    let mut most = 0;
    for item in items {
        most = larger(most, item_level(item, wholes));
    }
    most
}

// The level of a body.
pub(crate) fn body_level(body: &Body, wholes: &[u32]) -> u32
    requires { AreUpTo 1000000 wholes.now }
    ensures { result ≡ body_level wholes.now (body_of body.now) }
{
    if body.items.is_empty() {
        0
    } else {
        items_level(body.items.as_slice(), wholes) + 1
    }
}

// One round more.
fn next_wholes(alloc: Global, procs: &[Proc], wholes: &[u32]) -> Result<Items<u32>, NoMemory>
    requires { AreUpTo 1000000 wholes.now }
    ensures { IfOk result (λ more. more ≡ map
        (λ (P : Proc). body_level wholes.now (body_of P.body)) procs.now) }
{
    let mut more = Items::new(alloc);
    for procedure in procs {
        more.push(body_level(&procedure.body, wholes))?;
    }
    Ok(more)
}

/// The levels of the wholes of procedures.
pub(crate) fn wholes(alloc: Global, program: &Program) -> Result<Items<u32>, NoMemory>
    requires no_circle { (f : ℕ) → OnCircle (OwnCall (plain_of program.now)) f → ⊥ }
    ensures right { IfOk result (AreWholes (plain_of program.now)) }
    ensures small { IfOk result (AreUpTo 1000000) }
{
    let procs = program.procs.as_slice();
    let mut wholes = Items::new(alloc);
    for _ in 0..procs.len() {
        wholes.push(0)?;
    }
    for _ in 0..procs.len() + 1 {
        wholes = next_wholes(alloc, procs, wholes.as_slice())?;
    }
    Ok(wholes)
}
