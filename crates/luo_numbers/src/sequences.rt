// Unlabelled sequences, size by size.
ghost use Rattle.std.specs.Prelude.{◌≡◌, ◌+◌, ◌≤◌, ◌<◌, false, length, IfOk};
ghost use Rattle.luo_num.specs.declared.TheConstants.{MAX};
ghost use Rattle.luo_unlabelled.specs.Calls.{AreBounds};
ghost use Rattle.luo_numbers.specs.Given.{AreComponents, AreGiven, AreKept, AreSame};

use crate::components::alone;
use crate::failure::Failure;
use crate::plan::Plan;
use luo_num::Over;
use luo_unlabelled::{Line, LineWalk};
use std::alloc::Global;

// The number of collections of size n.
fn next_count(line: &mut Line, plan: Plan, comp: &[u128], n: usize) -> Result<u128, Over>
    requires comp { AreComponents comp.now }
    requires inside { n < length comp.now }
    requires going { line.old.over ≡ false }
    requires size { n ≤ line.old.n_max }
    requires low { line.old.low ≡ plan.low }
    requires high { line.old.high ≡ plan.high }
    requires given { AreGiven plan.low plan.high comp.now n line.old.given }
    ensures small { IfOk result (λ number. number ≤ MAX) }
    ensures going { IfOk result (λ number. line.new.over ≡ false) }
    ensures same { AreSame line.old line.new }
    ensures given { AreGiven plan.low plan.high comp.now (n + 1) line.new.given }
{
    let here = alone(plan.low, plan.high, comp[n]);
    line.count_at(&comp[..n], here)
}

// The number of components of all collections of size n.
fn next_total(
    walk: &mut LineWalk,
    line: &Line,
    plan: Plan,
    comp: &[u128],
    n: usize,
) -> Result<u128, Over>
    requires comp { AreComponents comp.now }
    requires inside { n < length comp.now }
    requires going { line.now.over ≡ false }
    requires walking { walk.old.calls.over ≡ false }
    requires size { n ≤ line.now.n_max }
    requires low { line.now.low ≡ plan.low }
    requires high { line.now.high ≡ plan.high }
    requires same { AreSame line.now walk.old.calls }
    requires counted { AreGiven plan.low plan.high comp.now (n + 1) line.now.given }
    requires kept { AreKept comp.now n walk.old.comp }
    requires given { AreGiven plan.low plan.high comp.now n walk.old.calls.given }
    ensures walking { IfOk result (λ number. walk.new.calls.over ≡ false) }
    ensures same { AreSame walk.old.calls walk.new.calls }
    ensures kept { AreKept comp.now (n + 1) walk.new.comp }
    ensures given { AreGiven plan.low plan.high comp.now (n + 1) walk.new.calls.given }
{
    let here = alone(plan.low, plan.high, comp[n]);
    walk.total_at(line, &comp[..n], &comp[..n], here)
}

/// The numbers of sequences of the sizes from 0 on, with `None` for one past `MAX`, which ends them.
pub fn counts(alloc: Global, plan: Plan) -> Result<Vec<Option<u128>>, Failure>
    requires { AreBounds plan.low plan.high plan.last }
{
    let mut line = Line::new(alloc, plan.low, plan.high, plan.last)?;
    let mut comp = vec![in alloc; 0; plan.last as usize + 1]?;
    let mut numbers = Vec::new(alloc);
    for n in 0..plan.last as usize + 1 {
        let Ok(behind) = next_count(&mut line, plan, &comp, n) else {
            numbers.push(None)?;
            break;
        };
        numbers.push(Some(behind))?;
        if !plan.of.grow(&mut comp, n, behind) {
            break;
        }
    }
    Ok(numbers)
}

/// The numbers of the components of all these collections, in the same way. They end before a size whose count is past `MAX`.
pub fn totals(alloc: Global, plan: Plan) -> Result<Vec<Option<u128>>, Failure>
    requires { AreBounds plan.low plan.high plan.last }
{
    let mut line = Line::new(alloc, plan.low, plan.high, plan.last)?;
    let mut walk = LineWalk::new(alloc, &line)?;
    let mut comp = vec![in alloc; 0; plan.last as usize + 1]?;
    let mut numbers = Vec::new(alloc);
    for n in 0..plan.last as usize + 1 {
        let Ok(behind) = next_count(&mut line, plan, &comp, n) else {
            break;
        };
        let Ok(total) = next_total(&mut walk, &line, plan, &comp, n) else {
            numbers.push(None)?;
            break;
        };
        numbers.push(Some(total))?;
        if !plan.of.grow(&mut comp, n, behind) {
            break;
        }
    }
    Ok(numbers)
}
