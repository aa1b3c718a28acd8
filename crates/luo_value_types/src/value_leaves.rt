// Checks of single places of a value.
ghost use Rattle.std.specs.Prelude.{◌≡◌, [], Some, false, length, decimal, IfOk, IfErr, OnOk, IfSome, IfNone};
ghost use Rattle.luo_model.specs.declared.program.Shape.TheVariants.{Atom, Product};
ghost use Rattle.luo_rules.specs.Breaches.{◌or_if_none◌, broken, StopsAt};
ghost use Rattle.luo_value_types.specs.Checks.{Checks};
ghost use Rattle.luo_value_types.specs.inner.Callee.{callee_breaches};
ghost use Rattle.luo_rules.specs.Meanings.{procedure_use, procedure_of};
ghost use Rattle.luo_rules.specs.Settings.{meant, signature_meant, shape_at, found, place_of};
ghost use Rattle.luo_rules.specs.Patterns.{has_factors};
ghost use Rattle.luo_rules.specs.declared.rule.Rule.TheVariants.{Y15};
ghost use Rattle.luo_rules.specs.ValueBreaches.{given_breaches, result_breaches, charge_use, is_atom, branch_at, branch_of};
ghost use Rattle.luo_rules.specs.ValueCore.{charge_of};

use crate::context::Context;
use crate::scope::variable;
use crate::uses::{breach, breach_at, use_measure, use_procedure};
use itoa::Buffer;
use luo_model::{Part, Shape};
use luo_rules::{Rule, Setting, Stop};
use luo_source::Name;
use std::alloc::Global;

// The place of a variable that is handed on where this node is expected.
pub(crate) fn given(context: &Context<'_>, expected: usize, name: &Name) -> Result<usize, Stop>
    ensures { Checks
        (given_breaches (found context.now.scope.now name.now) (Some expected) name.now)
        result (λ i. i ≡ place_of (found context.now.scope.now name.now)) }
{
    let there = variable(context, name)?;
    if there.1.node == expected {
        Ok(there.0)
    } else {
        Err(breach_at(context.alloc, Rule::Y15, name))
    }
}

// A callee's result, which there has to be, and of the node that is expected.
fn check_result(
    alloc: Global,
    expected: usize,
    made: Option<Option<usize>>,
    callee: &Name,
) -> Result<(), Stop>
    ensures unbroken { OnOk result (result_breaches (Some expected) made callee.now ≡ []) }
    ensures stops { IfErr result (StopsAt (result_breaches (Some expected) made callee.now)) }
{
    match made {
        None => Err(breach_at(alloc, Rule::Y15, callee)),
        Some(Some(node)) if node != expected => Err(breach_at(alloc, Rule::Y15, callee)),
        _ => Ok(()),
    }
}

// The procedure that is called where this node is expected.
pub(crate) fn callee_of(
    context: &Context<'_>,
    expected: usize,
    callee: &Name,
) -> Result<usize, Stop>
    ensures { Checks (callee_breaches context.now.setting.now expected callee.now)
        result (λ f. f ≡ procedure_of (meant context.now.setting.now callee.now)) }
{
    let meant = context.setting.meant(callee);
    let procedure = use_procedure(context.alloc, meant, callee)?;
    check_result(
        context.alloc,
        expected,
        context.setting.signature_meant(meant).result,
        callee,
    )?;
    Ok(procedure)
}

// The value of the measure that is charged at an atom, and 0 where none is.
pub(crate) fn charge_at(context: &Context<'_>, charge: &Option<Name>) -> Result<u128, Stop>
    ensures { Checks (charge_use context.now.setting.now charge.now)
        result (λ own. own ≡ charge_of context.now.setting.now charge.now) }
{
    match charge {
        None => Ok(0),
        Some(measure) => use_measure(context.alloc, context.setting.meant(measure), measure),
    }
}

// The weight of the atom that a node is, if it is one.
pub(crate) fn weight_at(setting: &Setting, node: usize) -> Option<u32>
    ensures atom { IfSome result (λ w. shape_at setting.now node ≡ Atom w) }
    ensures other { IfNone result (is_atom (shape_at setting.now node) ≡ false) }
{
    match setting.shape(node) {
        Some(Shape::Atom { weight }) => Some(*weight),
        _ => None,
    }
}

// The factors of a node, if it is a product of so many.
pub(crate) fn factors_at(setting: &Setting, node: usize, count: usize) -> Option<&[Part]>
    ensures product { IfSome result (λ parts.
        (shape_at setting.now node ≡ Product parts.now) × (length parts.now ≡ count)) }
    ensures other { IfNone result (has_factors count (shape_at setting.now node) ≡ false) }
{
    match setting.shape(node) {
        Some(Shape::Product { parts }) if parts.len() == count => Some(parts.as_slice()),
        _ => None,
    }
}

// The node of the branch of this number, counted from 1, if the node is a union with such a branch.
pub(crate) fn branch_node(setting: &Setting, node: usize, number: u128) -> Option<usize>
    ensures { result ≡ branch_of (shape_at setting.now node) number }
{
    match setting.shape(node) {
        Some(Shape::Union { parts }) => branch_in(parts.as_slice(), number),
        _ => None,
    }
}

// The node of the part of this number, counted from 1.
#[tactic(auto, using(crate::proofs::BranchLemmas::branches))]
fn branch_in(parts: &[Part], number: u128) -> Option<usize>
    ensures { result ≡ branch_at parts.now number }
{
    if number == 0 {
        return None;
    }
    if number > parts.len() as u128 {
        return None;
    }
    Some(parts[(number - 1) as usize].node)
}

// The stop at a branch of a number that there isn't where it stands.
pub(crate) fn no_branch(alloc: Global, at: usize, number: u128) -> Stop
    ensures { StopsAt (broken Y15 at (decimal number)) result }
{
    let mut buffer = Buffer::new();
    breach(alloc, Rule::Y15, at, buffer.format(number).as_bytes())
}
