// The variables of a scope, and the arguments of calls.
ghost use Rattle.std.specs.Prelude.{◌≡◌, [], ◌∷◌, Some, IfOk, IfErr, OnOk};
ghost use Rattle.luo_rules.specs.declared.rule.Rule.TheVariants.{Y9};
ghost use Rattle.luo_rules.specs.Breaches.{StopsAt};
ghost use Rattle.luo_rules.specs.Settings.{signature_meant, found, place_of, variable_use, argument_breaches};

use crate::context::Context;
use crate::uses::breach_at;
use luo_model::Part;
use luo_num::Items;
use luo_rules::{Breach, Meaning, Rule, Stop, Variable};
use luo_source::Name;
use std::alloc::{AllocError, Global};

/// The first variable of this name: its place in the scope, and its part.
pub fn find(scope: &[Variable], name: &Name) -> Option<(usize, Part)>
    ensures { result ≡ found scope.now name.now }
{
    for (i, variable) in scope.iter().enumerate() {
        if variable.name.as_slice() == name.text.as_slice() {
            return Some((i, variable.part));
        }
    }
    None
}

/// The place and the part of a variable that has to be bound.
pub fn variable(context: &Context<'_>, name: &Name) -> Result<(usize, Part), Stop>
    ensures ok { IfOk result (λ v. found context.now.scope.now name.now ≡ Some v) }
    ensures stops { IfErr result (StopsAt
        (variable_use (found context.now.scope.now name.now) name.now)) }
{
    match find(context.scope, name) {
        Some(there) => Ok(there),
        None => Err(breach_at(context.alloc, Rule::Y13, name)),
    }
}

// The breach of an argument of another type than the callee's parameter.
fn about_both(alloc: Global, arg: &Name, callee: &Name) -> Result<Breach, AllocError>
    ensures { IfOk result (λ b. b
        ≡ record { rule = Y9; token = arg.now.at; names = arg.now.text ∷ callee.now.text ∷ [] }) }
{
    let mut names = Items::new(alloc);
    names.push(Items::from_slice(alloc, arg.text.as_slice())?)?;
    names.push(Items::from_slice(alloc, callee.text.as_slice())?)?;
    Ok(Breach {
        rule: Rule::Y9,
        token: arg.at,
        names,
    })
}

// The stop at an argument of another type than the callee's parameter.
fn other_type(alloc: Global, arg: &Name, callee: &Name) -> Stop
    ensures { StopsAt
        (record { rule = Y9; token = arg.now.at; names = arg.now.text ∷ callee.now.text ∷ [] }
        ∷ []) result }
{
    match about_both(alloc, arg, callee) {
        Ok(made) => Stop::Breach(made),
        Err(_) => Stop::NoMemory,
    }
}

/// The place of the argument of a call, which has to be of the parameter's type.
pub fn argument(
    context: &Context<'_>,
    callee_meant: Option<Meaning>,
    arg: &Name,
    callee: &Name,
) -> Result<usize, Stop>
    ensures ok { OnOk result (argument_breaches (found context.now.scope.now arg.now)
        (signature_meant context.now.setting.now callee_meant).on arg.now callee.now ≡ []) }
    ensures place { IfOk result (λ i. i ≡ place_of (found context.now.scope.now arg.now)) }
    ensures stops { IfErr result (λ s. StopsAt
        (argument_breaches (found context.now.scope.now arg.now)
        (signature_meant context.now.setting.now callee_meant).on arg.now callee.now) s) }
{
    let Some((place, part)) = find(context.scope, arg) else {
        return Err(breach_at(context.alloc, Rule::Y13, arg));
    };
    let on = context.setting.signature_meant(callee_meant).on;
    match on {
        Some(wanted) if wanted != part.node => Err(other_type(context.alloc, arg, callee)),
        _ => Ok(place),
    }
}
