// Patterns: whether they fit what an arm stands for, and what they bind.
ghost use Rattle.std.specs.Prelude.{◌≡◌, [], ◌∷◌, true, IfOk, IfErr, OnOk};
ghost use Rattle.luo_model.specs.Scopes.Stands.{stand_part, factors};
ghost use Rattle.luo_rules.specs.Breaches.{StopsAt};
ghost use Rattle.luo_rules.specs.Patterns as spec;
ghost use Rattle.luo_rules.specs.Settings.{type_node, shape_at};
ghost use Rattle.luo_value_types.specs.inner.Stands.{stand_of};

use crate::context::Context;
use crate::stands::Stand;
use crate::uses::{breach, breach_at, use_type};
use luo_model::{Bind, Part, Shape};
use luo_num::Items;
use luo_rules::{Rule, Setting, Stop, Variable};
use luo_source::{Name, Pattern};
use std::alloc::{AllocError, Global};

/// What a pattern opens for the body of its arm.
#[derive(Debug, Drop)]
pub struct Opened {
    pub bind: Bind,
    /// The variables of the arm.
    pub scope: Items<Variable>,
}

impl Stand {
    /// The part of the structures that the arm is about.
    pub fn part(self) -> Part
        ensures { result ≡ stand_part (stand_of self) }
    {
        match self {
            Stand::Inside(part) => part,
            Stand::Itself(part) => part,
        }
    }
}

// Whether the name is that of a type with this node.
fn is_named(setting: &Setting, name: &Name, node: usize) -> bool
    ensures { result ≡ spec.is_node (type_node setting.now name.now) node }
{
    match setting.type_node(name) {
        Some(found) => found == node,
        None => false,
    }
}

// Whether it is a product of so many factors.
fn is_product_of(shape: &Shape, count: usize) -> bool
    ensures { result ≡ spec.has_factors count shape.now }
{
    match shape {
        Shape::Product { parts } => parts.len() == count,
        _ => false,
    }
}

/// Whether the node is a product of so many factors.
pub fn has_factors(setting: &Setting, node: usize, count: usize) -> bool
    ensures { result ≡ spec.has_factors count (shape_at setting.now node) }
{
    match setting.shape(node) {
        Some(shape) => is_product_of(shape, count),
        None => false,
    }
}

// Whether the pattern fits a branch of this node.
fn fits_branch(setting: &Setting, node: usize, pattern: &Pattern) -> bool
    ensures { result ≡ spec.fits_branch setting.now node pattern.now }
{
    match pattern {
        Pattern::Named(name) => is_named(setting, name, node),
        Pattern::NamedWhole(name, _) => is_named(setting, name, node),
        Pattern::NamedParts(name, names) => {
            is_named(setting, name, node) && has_factors(setting, node, names.len())
        }
        Pattern::Parts { names, .. } => has_factors(setting, node, names.len()),
        Pattern::Any { .. } => true,
        Pattern::AnyWhole { .. } => true,
    }
}

// Whether the pattern fits a product of this node.
fn fits_product(setting: &Setting, node: usize, pattern: &Pattern) -> bool
    ensures { result ≡ spec.fits_product setting.now node pattern.now }
{
    match pattern {
        Pattern::NamedParts(name, names) => {
            is_named(setting, name, node) && has_factors(setting, node, names.len())
        }
        Pattern::Parts { names, .. } => has_factors(setting, node, names.len()),
        Pattern::Any { .. } => true,
        _ => false,
    }
}

// Whether the pattern fits what the arm stands for.
fn fits(setting: &Setting, stand: Stand, pattern: &Pattern) -> bool
    ensures { result ≡ spec.fits setting.now (stand_of stand) pattern.now }
{
    match stand {
        Stand::Inside(part) => fits_branch(setting, part.node, pattern),
        Stand::Itself(part) => fits_product(setting, part.node, pattern),
    }
}

// The first token of a pattern.
fn first_token(pattern: &Pattern) -> usize
    ensures { result ≡ spec.first_token pattern.now }
{
    match pattern {
        Pattern::Named(name) => name.at,
        Pattern::NamedWhole(name, _) => name.at,
        Pattern::NamedParts(name, _) => name.at,
        Pattern::Parts { at, .. } => *at,
        Pattern::Any { at } => *at,
        Pattern::AnyWhole { at, .. } => *at,
    }
}

// What the pattern binds.
fn bind_of(pattern: &Pattern) -> Bind
    ensures { result ≡ spec.bind_of pattern.now }
{
    match pattern {
        Pattern::Named(_) => Bind::Nothing,
        Pattern::NamedWhole(..) => Bind::Whole,
        Pattern::NamedParts(_, names) => Bind::Parts(names.len()),
        Pattern::Parts { names, .. } => Bind::Parts(names.len()),
        Pattern::Any { .. } => Bind::Nothing,
        Pattern::AnyWhole { .. } => Bind::Whole,
    }
}

// The type that the pattern names has to be one.
fn use_pattern_type(alloc: Global, setting: &Setting, pattern: &Pattern) -> Result<(), Stop>
    ensures ok { OnOk result (spec.pattern_type_use setting.now pattern.now ≡ []) }
    ensures stops { IfErr result (λ s. StopsAt (spec.pattern_type_use setting.now pattern.now) s) }
{
    match pattern {
        Pattern::Named(name) => {
            use_type(alloc, setting.meant(name), name)?;
        }
        Pattern::NamedWhole(name, _) => {
            use_type(alloc, setting.meant(name), name)?;
        }
        Pattern::NamedParts(name, _) => {
            use_type(alloc, setting.meant(name), name)?;
        }
        _ => {}
    }
    Ok(())
}

// Whether the text is one of these names.
fn is_among(text: &[u8], names: &[Name]) -> bool
    ensures { result ≡ spec.is_among text.now names.now }
{
    for name in names {
        if name.text.as_slice() == text {
            return true;
        }
    }
    false
}

// No name stands a second time.
fn without_repeats(alloc: Global, names: &[Name]) -> Result<(), Stop>
    ensures ok { OnOk result (spec.repeated [] names.now ≡ []) }
    ensures stops { IfErr result (λ s. StopsAt (spec.repeated [] names.now) s) }
{
    for (i, name) in names.iter().enumerate() {
        if is_among(name.text.as_slice(), &names[..i]) {
            return Err(breach_at(alloc, Rule::Y1, name));
        }
    }
    Ok(())
}

// No factor's name stands a second time.
fn without_repeated_factors(alloc: Global, pattern: &Pattern) -> Result<(), Stop>
    ensures ok { OnOk result (spec.repeated [] (spec.factor_names pattern.now) ≡ []) }
    ensures stops { IfErr result (λ s. StopsAt
        (spec.repeated [] (spec.factor_names pattern.now)) s) }
{
    match pattern {
        Pattern::NamedParts(_, names) => without_repeats(alloc, names.as_slice()),
        Pattern::Parts { names, .. } => without_repeats(alloc, names.as_slice()),
        _ => Ok(()),
    }
}

// A variable of this name and part.
fn variable_of(alloc: Global, name: &Name, part: Part) -> Result<Variable, AllocError>
    ensures { IfOk result (λ v. v ≡ record { name = name.now.text; part = part }) }
{
    Ok(Variable {
        name: Items::from_slice(alloc, name.text.as_slice())?,
        part,
    })
}

// The one variable of a pattern that binds the whole.
fn whole_of(alloc: Global, name: &Name, part: Part) -> Result<Items<Variable>, AllocError>
    ensures { IfOk result (λ vs. vs ≡ record { name = name.now.text; part = part } ∷ []) }
{
    let mut made = Items::new(alloc);
    made.push(variable_of(alloc, name, part)?)?;
    Ok(made)
}

// Variables of these names, for these factors.
fn variables(alloc: Global, names: &[Name], parts: &[Part]) -> Result<Items<Variable>, AllocError>
    ensures { IfOk result (λ vs. vs ≡ spec.variables names.now parts.now) }
{
    let mut made = Items::new(alloc);
    for (i, name) in names.iter().enumerate() {
        let Some(part) = parts.get(i) else {
            break;
        };
        made.push(variable_of(alloc, name, *part)?)?;
    }
    Ok(made)
}

// Variables of these names, for the factors of a product.
#[tactic(auto, using(crate::proofs::PatternLemmas::no_variables))]
fn shape_variables(
    alloc: Global,
    names: &[Name],
    shape: &Shape,
) -> Result<Items<Variable>, AllocError>
    ensures { IfOk result (λ vs. vs ≡ spec.variables names.now (factors shape.now)) }
{
    match shape {
        Shape::Product { parts } => variables(alloc, names, parts.as_slice()),
        _ => Ok(Items::new(alloc)),
    }
}

// Variables of these names, for the factors of the node.
#[tactic(auto, using(crate::proofs::PatternLemmas::no_variables))]
fn factor_variables(
    alloc: Global,
    setting: &Setting,
    names: &[Name],
    node: usize,
) -> Result<Items<Variable>, AllocError>
    ensures { IfOk result (λ vs. vs
        ≡ spec.variables names.now (factors (shape_at setting.now node))) }
{
    match setting.shape(node) {
        Some(shape) => shape_variables(alloc, names, shape),
        None => Ok(Items::new(alloc)),
    }
}

// The variables that the pattern binds.
fn bound(
    alloc: Global,
    setting: &Setting,
    stand: Stand,
    pattern: &Pattern,
) -> Result<Items<Variable>, AllocError>
    ensures { IfOk result (λ vs. vs ≡ spec.bound setting.now (stand_of stand) pattern.now) }
{
    match pattern {
        Pattern::NamedWhole(_, name) => whole_of(alloc, name, stand.part()),
        Pattern::AnyWhole { name, .. } => whole_of(alloc, name, stand.part()),
        Pattern::NamedParts(_, names) => {
            factor_variables(alloc, setting, names.as_slice(), stand.part().node)
        }
        Pattern::Parts { names, .. } => {
            factor_variables(alloc, setting, names.as_slice(), stand.part().node)
        }
        _ => Ok(Items::new(alloc)),
    }
}

/// Opens a pattern in a case on this variable, in an arm that stands for this.
#[tactic(auto, using(crate::proofs::PatternLemmas::pattern_steps))]
pub fn pattern(
    context: &Context<'_>,
    stand: Stand,
    var: &Name,
    pattern: &Pattern,
) -> Result<Opened, Stop>
    ensures ok { OnOk result
        (spec.pattern_breaches context.now.setting.now (stand_of stand) var.now pattern.now
        ≡ []) }
    ensures fitting { OnOk result
        (spec.fits context.now.setting.now (stand_of stand) pattern.now ≡ true) }
    ensures bind { IfOk result (λ o. o.bind ≡ spec.bind_of pattern.now) }
    ensures scope { IfOk result (λ o. o.scope
        ≡ spec.bound context.now.setting.now (stand_of stand) pattern.now) }
    ensures stops { IfErr result (λ s. StopsAt
        (spec.pattern_breaches context.now.setting.now (stand_of stand) var.now pattern.now) s) }
{
    let alloc = context.alloc;
    let setting = context.setting;
    use_pattern_type(alloc, setting, pattern)?;
    if !fits(setting, stand, pattern) {
        return Err(breach(alloc, Rule::Y11, first_token(pattern), var.text.as_slice()));
    }
    without_repeated_factors(alloc, pattern)?;
    let scope = bound(alloc, setting, stand, pattern)?;
    Ok(Opened {
        bind: bind_of(pattern),
        scope,
    })
}
