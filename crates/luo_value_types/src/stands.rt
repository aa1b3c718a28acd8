// What the arms of a case stand for.
ghost use Rattle.std.specs.Prelude.{◌≡◌, ◌<◌, List, true, Some, nat_eq, length, slice_get, IfOk, IfErr, OnOk};
ghost use Rattle.std.specs.Option.{option_map};
ghost use Rattle.luo_model.specs.Scopes.Stands.{stands};
ghost use Rattle.luo_rules.specs.Breaches.{StopsAt};
ghost use Rattle.luo_rules.specs.Patterns.{case_breaches};
ghost use Rattle.luo_rules.specs.Settings.{shape_at, found, case_stands};
ghost use Rattle.luo_value_types.specs.inner.Stands.{stand_of};
ghost use Rattle.luo_rules.specs.declared.rule.Breach.{Breach};

use crate::context::Context;
use crate::scope::variable;
use crate::uses::breach_at;
use luo_model::{Part, Shape};
use luo_rules::{Rule, Setting, Stop};
use luo_source::Name;

/// What an arm stands for, by its part.
#[derive(Clone, Copy, Debug, PartialEq, Eq)]
pub enum Stand {
    /// A branch of a union.
    Inside(Part),
    /// A product itself.
    Itself(Part),
}

// How many things the arms of a case on a part of this construct stand for.
fn count_in(shape: &Shape, on: Part) -> usize
    ensures { result ≡ length (stands on shape.now) }
{
    match shape {
        Shape::Union { parts } => parts.len(),
        Shape::Product { .. } => 1,
        _ => 0,
    }
}

// What the arm at this place stands for, in a case on a part of this construct.
fn stand_in(shape: &Shape, on: Part, place: usize) -> Option<Stand>
    ensures { option_map stand_of result ≡ slice_get (stands on shape.now) place }
{
    match shape {
        Shape::Union { parts } => match parts.get(place) {
            Some(part) => Some(Stand::Inside(*part)),
            None => None,
        },
        Shape::Product { .. } if place == 0 => Some(Stand::Itself(on)),
        _ => None,
    }
}

/// How many arms a case on this part has.
pub fn stand_count(setting: &Setting, on: Part) -> usize
    ensures { result ≡ length (stands on (shape_at setting.now on.node)) }
{
    match setting.shape(on.node) {
        Some(shape) => count_in(shape, on),
        None => 0,
    }
}

/// What the arm at this place stands for, in a case on this part.
pub fn stand_at(setting: &Setting, on: Part, place: usize) -> Option<Stand>
    ensures { option_map stand_of result
        ≡ slice_get (stands on (shape_at setting.now on.node)) place }
{
    match setting.shape(on.node) {
        Some(shape) => stand_in(shape, on, place),
        None => None,
    }
}

/// What the arm at this place stands for, in a case on this part that has so many.
pub fn arm_stand(setting: &Setting, on: Part, place: usize) -> Stand
    requires { place < length (stands on (shape_at setting.now on.node)) }
    ensures { slice_get (stands on (shape_at setting.now on.node)) place
        ≡ Some (stand_of result) }
{
    match stand_at(setting, on, place) {
        Some(stand) => stand,
        None => unreachable!(),
    }
}

/// The place and the part of the variable of a case with so many arms. It has to be bound, and of a
/// union of so many branches, or of a product where there is one arm.
pub fn case_variable(context: &Context<'_>, var: &Name, arms: usize) -> Result<(usize, Part), Stop>
    ensures ok { IfOk result (λ v. found context.now.scope.now var.now ≡ Some v) }
    ensures arms { OnOk result (nat_eq arms
        (length (case_stands context.now.setting.now
        (found context.now.scope.now var.now))) ≡ true) }
    ensures stops { IfErr result (λ s. (inner : List Breach) → StopsAt
        (case_breaches context.now.setting.now
        (found context.now.scope.now var.now) var.now arms inner) s) }
{
    let there = variable(context, var)?;
    if arms == stand_count(context.setting, there.1) {
        Ok(there)
    } else {
        Err(breach_at(context.alloc, Rule::Y10, var))
    }
}
