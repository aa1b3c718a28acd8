// The descriptors of bodies.
ghost use Rattle.std.specs.Prelude.{◌≡◌, IfOk, OnOk, [], ◌∷◌, map};
ghost use Rattle.luo_model.specs.Program.{shape_of};
ghost use Rattle.luo_model.specs.Scopes.Stands as scopes;
ghost use Rattle.luo_model.specs.Scopes.Stands.{inside, stand_part};
ghost use Rattle.luo_model.specs.View.{plain_of, item_of, body_of};
ghost use Rattle.luo_model.specs.Lists.{arm_list};
ghost use Rattle.luo_equation.specs.Expr.{expr};
ghost use Rattle.luo_equation.specs.View.{expr_of, expr_list};
ghost use Rattle.luo_system.specs.Plain.{sum_of};
ghost use Rattle.luo_system.specs.System.{own_expr, body_expr, term_expr, item_expr, item_var, case_expr, arm_expr, walk_body_expr};

use crate::parts::{add_others, add_parts, factors_at, part_at, part_of, shape_at};
use crate::plain::{add_factor, add_term, product_of_factors, sum_of_terms, walk_over};
use luo_equation::Expr;
use luo_model::{Arm, Bind, Body, Item, Part, Program, Shape};
use luo_num::{Items, NoMemory};
use std::alloc::Global;
use std::slice;

// What a scope charges itself, over what stands for the scope.
fn own(alloc: Global, program: &Program, own: u128, whole: &[Part]) -> Result<Expr, NoMemory>
    ensures { IfOk result (λ e. expr_of e ≡ own_expr (plain_of program.now) whole.now own) }
{
    let mut factors = Items::new(alloc);
    add_factor(&mut factors, Expr::Number(own))?;
    add_parts(alloc, program, &mut factors, whole)?;
    Ok(product_of_factors(factors))
}

// The place of an item's variable.
fn var_of(item: &Item) -> usize
    ensures { result ≡ item_var (item_of item.now) }
{
    match item {
        Item::Call { var, .. } => *var,
        Item::Case { var, .. } => *var,
        Item::Forall { var, .. } => *var,
    }
}

/// The descriptor of a body, where `whole` stands for its scope, and its variables are of these types.
#[cycle(bodies)]
pub(crate) fn body_descriptor(
    alloc: Global,
    program: &Program,
    whole: &[Part],
    vars: &[Part],
    body: &Body,
) -> Result<Expr, NoMemory>
    ensures { IfOk result (λ e. expr_of e
        ≡ body_expr (plain_of program.now) whole.now vars.now (body_of body.now)) }
{
    let mut terms = Items::new(alloc);
    add_term(&mut terms, own(alloc, program, body.own, whole)?)?;
    for item in body.items.as_slice() {
        add_term(&mut terms, term(alloc, program, vars, item)?)?;
    }
    Ok(sum_of_terms(terms))
}

// The term of an item: its descriptor times all other variables.
#[cycle(bodies)]
fn term(alloc: Global, program: &Program, vars: &[Part], item: &Item) -> Result<Expr, NoMemory>
    ensures { IfOk result (λ e. expr_of e
        ≡ term_expr (plain_of program.now) vars.now (item_of item.now)) }
{
    let mut factors = Items::new(alloc);
    add_factor(&mut factors, item_descriptor(alloc, program, vars, item)?)?;
    add_others(alloc, program, &mut factors, vars, var_of(item))?;
    Ok(product_of_factors(factors))
}

// The descriptor of an item.
#[cycle(bodies)]
fn item_descriptor(
    alloc: Global,
    program: &Program,
    vars: &[Part],
    item: &Item,
) -> Result<Expr, NoMemory>
    ensures { IfOk result (λ e. expr_of e
        ≡ item_expr (plain_of program.now) vars.now (item_of item.now)) }
{
    match item {
        Item::Call { callee, .. } => Ok(Expr::Tau(*callee)),
        Item::Case { var, arms, .. } => {
            case(alloc, program, part_at(vars, *var), arms.as_slice())
        }
        Item::Forall { var, body, .. } => walk(alloc, program, part_at(vars, *var), body),
    }
}

// What the arms of a case stand for: the branches of a union, or a product itself.
fn stands<'p>(program: &'p Program, on: &'p Part) -> &'p [Part]
    ensures { result.now ≡ map stand_part
        (scopes.stands on.now (shape_of (plain_of program.now) on.now.node)) }
{
    match shape_at(program, on.node) {
        Some(Shape::Union { parts }) => parts.as_slice(),
        Some(Shape::Product { .. }) => slice::from_ref(on),
        _ => &[],
    }
}

// The sum of the descriptors of a case's arms.
#[cycle(bodies)]
fn case(alloc: Global, program: &Program, on: Part, arms: &[Arm]) -> Result<Expr, NoMemory>
    ensures { IfOk result (λ e. expr_of e
        ≡ case_expr (plain_of program.now) on (arm_list arms.now)) }
{
    let mut terms = Items::new(alloc);
    let standing = stands(program, &on);
    for (i, arm) in arms.iter().enumerate() {
        if let Some(stand) = standing.get(i) {
            add_term(&mut terms, arm_descriptor(alloc, program, *stand, arm)?)?;
        }
    }
    Ok(sum_of_terms(terms))
}

// The descriptor of an arm.
#[cycle(bodies)]
fn arm_descriptor(
    alloc: Global,
    program: &Program,
    stand: Part,
    arm: &Arm,
) -> Result<Expr, NoMemory>
    ensures { IfOk result (λ e. expr_of e
        ≡ arm_expr (plain_of program.now) (inside stand) arm.now.bind (body_of arm.now.body)) }
{
    let one = [stand];
    match arm.bind {
        Bind::Nothing => body_descriptor(alloc, program, &one, &[], &arm.body),
        Bind::Whole => body_descriptor(alloc, program, &one, &one, &arm.body),
        Bind::Parts(_) => {
            let factors = factors_at(program, stand.node);
            body_descriptor(alloc, program, factors, factors, &arm.body)
        }
    }
}

// The descriptor of a walk over a collection.
#[cycle(bodies)]
fn walk(alloc: Global, program: &Program, on: Part, inside: &Body) -> Result<Expr, NoMemory>
    ensures { IfOk result (λ e. expr_of e
        ≡ walk_body_expr (plain_of program.now) on (body_of inside.now)) }
{
    match shape_at(program, on.node) {
        Some(
            Shape::Coll {
                kind,
                part,
                low,
                high,
            },
        ) => {
            let one = [*part];
            let marked = body_descriptor(alloc, program, &one, &one, inside)?;
            let inner = part_of(alloc, program, part)?;
            walk_over(alloc, *kind, inner, *low, *high, marked)
        }
        _ => Ok(Expr::Number(0)),
    }
}
