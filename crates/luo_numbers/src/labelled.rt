// Labelled collections, size by size.
ghost use Rattle.std.specs.Prelude.{◌≡◌, ◌+◌, ◌≤◌, ◌<◌, length, IfOk};
ghost use Rattle.luo_num.specs.declared.TheConstants.{MAX};
ghost use Rattle.luo_labelled.specs.Calls.{AreBounds};
ghost use Rattle.luo_numbers.specs.Given.{AreComponents, AreGiven, AreAlike};

use crate::components::alone;
use crate::failure::Failure;
use crate::plan::Plan;
use luo_binom::Pascal;
use luo_labelled::{Chain, ChainWalk};
use luo_num::Over;
use std::alloc::Global;

// The number of collections of size n.
fn next_count(
    chain: &mut Chain,
    pascal: &Pascal,
    plan: Plan,
    comp: &[u128],
    n: usize,
) -> Result<u128, Over>
    requires comp { AreComponents comp.now }
    requires inside { n < length comp.now }
    requires reached { n ≤ pascal.now }
    requires size { n ≤ chain.old.n_max }
    requires low { chain.old.low ≡ plan.low }
    requires high { chain.old.high ≡ plan.high }
    requires given { AreGiven plan.low plan.high comp.now n chain.old.given }
    ensures small { IfOk result (λ number. number ≤ MAX) }
    ensures alike { AreAlike chain.old chain.new }
    ensures given { AreGiven plan.low plan.high comp.now (n + 1) chain.new.given }
{
    let here = alone(plan.low, plan.high, comp[n]);
    chain.count_at(pascal, &comp[..n], here)
}

// The number of components of all collections of size n.
fn next_total(
    walk: &mut ChainWalk,
    chain: &Chain,
    pascal: &Pascal,
    plan: Plan,
    comp: &[u128],
    n: usize,
) -> Result<u128, Over>
    requires comp { AreComponents comp.now }
    requires inside { n < length comp.now }
    requires reached { n ≤ pascal.now }
    requires size { n ≤ chain.now.n_max }
    requires low { chain.now.low ≡ plan.low }
    requires high { chain.now.high ≡ plan.high }
    requires alike { AreAlike chain.now walk.old.sums }
    requires counted { AreGiven plan.low plan.high comp.now (n + 1) chain.now.given }
    requires counts { AreGiven plan.low plan.high comp.now n walk.old.counts }
    requires given { AreGiven plan.low plan.high comp.now n walk.old.sums.given }
    ensures alike { AreAlike walk.old.sums walk.new.sums }
    ensures counts { AreGiven plan.low plan.high comp.now (n + 1) walk.new.counts }
    ensures given { AreGiven plan.low plan.high comp.now (n + 1) walk.new.sums.given }
{
    let here = alone(plan.low, plan.high, comp[n]);
    walk.total_at(chain, pascal, &comp[..n], &comp[..n], here)
}

/// The numbers of labelled collections of the sizes from 0 on, with `None` for one past `MAX`, which ends them.
pub fn counts(alloc: Global, pascal: &Pascal, plan: Plan) -> Result<Vec<Option<u128>>, Failure>
    requires bounds { AreBounds plan.kind plan.low plan.high plan.last }
    requires reached { plan.last ≤ pascal.now }
{
    let mut chain = Chain::new(alloc, plan.kind, plan.low, plan.high, plan.last)?;
    let mut comp = vec![in alloc; 0; plan.last as usize + 1]?;
    let mut numbers = Vec::new(alloc);
    for n in 0..plan.last as usize + 1 {
        let Ok(behind) = next_count(&mut chain, pascal, plan, &comp, n) else {
            numbers.push(None)?;
            break;
        };
        numbers.push(Some(behind))?;
        if !plan.of.grow(&mut comp, n, behind) {
            break;
        }
    }
    Ok(numbers)
}

/// The numbers of the components of all these collections, in the same way. They end before a size whose count is past `MAX`.
pub fn totals(alloc: Global, pascal: &Pascal, plan: Plan) -> Result<Vec<Option<u128>>, Failure>
    requires bounds { AreBounds plan.kind plan.low plan.high plan.last }
    requires reached { plan.last ≤ pascal.now }
{
    let mut chain = Chain::new(alloc, plan.kind, plan.low, plan.high, plan.last)?;
    let mut walk = ChainWalk::new(alloc, &chain)?;
    let mut comp = vec![in alloc; 0; plan.last as usize + 1]?;
    let mut numbers = Vec::new(alloc);
    for n in 0..plan.last as usize + 1 {
        let Ok(behind) = next_count(&mut chain, pascal, plan, &comp, n) else {
            break;
        };
        let Ok(total) = next_total(&mut walk, &chain, pascal, plan, &comp, n) else {
            numbers.push(None)?;
            break;
        };
        numbers.push(Some(total))?;
        if !plan.of.grow(&mut comp, n, behind) {
            break;
        }
    }
    Ok(numbers)
}
