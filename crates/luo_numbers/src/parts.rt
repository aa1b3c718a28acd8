// Multisets and powersets, size by size.
ghost use Rattle.std.specs.Prelude.{◌≡◌, ◌+◌, ◌≤◌, ◌<◌, false, length, IfOk};
ghost use Rattle.luo_num.specs.declared.TheConstants.{MAX};
ghost use Rattle.luo_unlabelled.specs.Calls.{AreBounds, IsOfParts};
ghost use Rattle.luo_numbers.specs.Given.{AreComponents, AreGiven, AreKept, AreSame};

use crate::components::{Components, alone};
use crate::failure::Failure;
use crate::plan::Plan;
use luo_model::Kind;
use luo_num::Over;
use luo_unlabelled::{Parts, PartsWalk};
use std::alloc::Global;

// The number of collections of size n.
fn next_count(parts: &mut Parts, plan: Plan, comp: &[u128], n: usize) -> Result<u128, Over>
    requires comp { AreComponents comp.now }
    requires inside { n < length comp.now }
    requires going { parts.old.over ≡ false }
    requires size { n ≤ parts.old.n_max }
    requires low { parts.old.low ≡ plan.low }
    requires high { parts.old.high ≡ plan.high }
    requires given { AreGiven plan.low plan.high comp.now n parts.old.given }
    ensures small { IfOk result (λ number. number ≤ MAX) }
    ensures going { IfOk result (λ number. parts.new.over ≡ false) }
    ensures same { AreSame parts.old parts.new }
    ensures given { AreGiven plan.low plan.high comp.now (n + 1) parts.new.given }
{
    let here = alone(plan.low, plan.high, comp[n]);
    parts.count_at(&comp[..n], here)
}

// The number of components of all collections of size n.
fn next_total(
    walk: &mut PartsWalk,
    parts: &Parts,
    plan: Plan,
    comp: &[u128],
    n: usize,
) -> Result<u128, Over>
    requires comp { AreComponents comp.now }
    requires inside { n < length comp.now }
    requires going { parts.now.over ≡ false }
    requires walking { walk.old.calls.over ≡ false }
    requires size { n ≤ parts.now.n_max }
    requires low { parts.now.low ≡ plan.low }
    requires high { parts.now.high ≡ plan.high }
    requires same { AreSame parts.now walk.old.calls }
    requires counted { AreGiven plan.low plan.high comp.now (n + 1) parts.now.given }
    requires kept { AreKept comp.now n walk.old.comp }
    requires given { AreGiven plan.low plan.high comp.now n walk.old.calls.given }
    ensures walking { IfOk result (λ number. walk.new.calls.over ≡ false) }
    ensures same { AreSame walk.old.calls walk.new.calls }
    ensures kept { AreKept comp.now (n + 1) walk.new.comp }
    ensures given { AreGiven plan.low plan.high comp.now (n + 1) walk.new.calls.given }
{
    let here = alone(plan.low, plan.high, comp[n]);
    walk.total_at(parts, &comp[..n], &comp[..n], here)
}

// A table that has answered for all its sizes, or up to the first number past `MAX`; its answers come after `numbers`.
fn filled(alloc: Global, plan: Plan, numbers: &mut Vec<Option<u128>>) -> Result<Parts, Failure>
    requires parts { IsOfParts plan.kind }
    requires bounds { AreBounds plan.low plan.high plan.last }
{
    let mut parts = Parts::new(alloc, plan.kind, plan.low, plan.high, plan.last)?;
    let mut comp = vec![in alloc; 0; plan.last as usize + 1]?;
    for n in 0..plan.last as usize + 1 {
        let Ok(behind) = next_count(&mut parts, plan, &comp, n) else {
            numbers.push(None)?;
            break;
        };
        numbers.push(Some(behind))?;
        if !plan.of.grow(&mut comp, n, behind) {
            break;
        }
    }
    Ok(parts)
}

/// The numbers of multisets or powersets of the sizes from 0 on, with `None` for one past `MAX`, which ends them.
pub fn counts(alloc: Global, plan: Plan) -> Result<Vec<Option<u128>>, Failure>
    requires parts { IsOfParts plan.kind }
    requires bounds { AreBounds plan.low plan.high plan.last }
{
    let mut numbers = Vec::new(alloc);
    let _parts = filled(alloc, plan, &mut numbers)?;
    Ok(numbers)
}

/// Holds so many filled tables at once, and as many for the charges over them.
pub fn planes(alloc: Global, plan: Plan, number: u32) -> Result<(), Failure>
    requires parts { IsOfParts plan.kind }
    requires bounds { AreBounds plan.low plan.high plan.last }
{
    let mut tables = Vec::new(alloc);
    let mut walks = Vec::new(alloc);
    for _ in 0..number {
        let mut numbers = Vec::new(alloc);
        let parts = filled(alloc, plan, &mut numbers)?;
        walks.push(PartsWalk::new(alloc, &parts)?)?;
        tables.push(parts)?;
    }
    Ok(())
}

/// Of multisets of parts of which there is one of each size from 1 to 3, after the call for size 3: those of 50 parts of
/// size 50, those of one part of size 2, and those of none.
pub fn ahead(alloc: Global) -> Result<[Option<u128>; 3], Failure> {
    let plan = Plan::any(Kind::Multiset, Components::EachSize, 100);
    let mut parts = Parts::new(alloc, plan.kind, plan.low, plan.high, plan.last)?;
    let comp = [0, 1, 1, 1];
    for n in 0..4 {
        if next_count(&mut parts, plan, &comp, n).is_err() {
            return Err(Failure::Refused);
        }
    }
    Ok([parts.ahead(50, 50), parts.ahead(1, 2), parts.ahead(0, 0)])
}

/// The numbers of the components of all these collections, in the same way. They end before a size whose count is past `MAX`.
pub fn totals(alloc: Global, plan: Plan) -> Result<Vec<Option<u128>>, Failure>
    requires parts { IsOfParts plan.kind }
    requires bounds { AreBounds plan.low plan.high plan.last }
{
    let mut parts = Parts::new(alloc, plan.kind, plan.low, plan.high, plan.last)?;
    let mut walk = PartsWalk::new(alloc, &parts)?;
    let mut comp = vec![in alloc; 0; plan.last as usize + 1]?;
    let mut numbers = Vec::new(alloc);
    for n in 0..plan.last as usize + 1 {
        let Ok(behind) = next_count(&mut parts, plan, &comp, n) else {
            break;
        };
        let Ok(total) = next_total(&mut walk, &parts, plan, &comp, n) else {
            numbers.push(None)?;
            break;
        };
        numbers.push(Some(total))?;
        if !plan.of.grow(&mut comp, n, behind) {
            break;
        }
    }
    Ok(numbers)
}
