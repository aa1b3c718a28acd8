// The expressions of nodes and parts.
ghost use Rattle.std.specs.Prelude.{◌≡◌, IfOk, OnOk, IfSome, IfNone, [], length};
ghost use Rattle.luo_model.specs.declared.program.Shape.TheVariants.{Union};
ghost use Rattle.luo_model.specs.Scopes.Stands as scopes;
ghost use Rattle.luo_model.specs.View.{plain_of};
ghost use Rattle.luo_model.specs.Program.{shape_of};
ghost use Rattle.luo_equation.specs.View.{expr_of, expr_list};
ghost use Rattle.luo_system.specs.Plain.{join_exprs, all_factors, sum_of, product_of};
ghost use Rattle.luo_system.specs.System.{atom_expr, exprs_of, node_expr, inside_expr, part_expr, others};

use crate::plain::{add_factor, add_term, collection, product_of_factors, sum_of_terms};
use luo_equation::Expr;
use luo_model::{Part, Program, Shape};
use luo_num::{Items, NoMemory};
use std::alloc::Global;

/// The construct of a node, where there is such a node.
pub(crate) fn shape_at(program: &Program, x: usize) -> Option<&Shape>
    ensures some { IfSome result (λ shape. shape_of (plain_of program.now) x ≡ shape.now) }
    ensures none { IfNone result (shape_of (plain_of program.now) x ≡ Union []) }
{
    match program.nodes.get(x) {
        Some(node) => Some(&node.shape),
        None => None,
    }
}

// An atom of weight 0 is the number 1.
fn atom(weight: u32) -> Expr
    ensures { expr_of result ≡ atom_expr weight }
{
    if weight == 0 {
        Expr::Number(1)
    } else {
        Expr::Power(weight)
    }
}

// The construct of a node, not deeper than so many nodes inside one another.
#[cycle(nodes)]
fn node(alloc: Global, program: &Program, depth: usize, x: usize) -> Result<Expr, NoMemory>
    ensures { IfOk result (λ e. expr_of e ≡ node_expr (plain_of program.now) depth x) }
{
    if depth == 0 {
        return Ok(Expr::Number(0));
    }
    match shape_at(program, x) {
        Some(Shape::Atom { weight }) => Ok(atom(*weight)),
        Some(Shape::Union { parts }) => union(alloc, program, depth - 1, parts.as_slice()),
        Some(Shape::Product { parts }) => product(alloc, program, depth - 1, parts.as_slice()),
        Some(
            Shape::Coll {
                kind,
                part,
                low,
                high,
            },
        ) => {
            let inner = inside(alloc, program, depth - 1, part)?;
            collection(alloc, *kind, inner, *low, *high)
        }
        None => Ok(Expr::Number(0)),
    }
}

// A part: a name where a name stands, else the construct.
#[cycle(nodes)]
fn inside(alloc: Global, program: &Program, depth: usize, part: &Part) -> Result<Expr, NoMemory>
    ensures { IfOk result (λ e. expr_of e ≡ inside_expr (plain_of program.now) depth part.now) }
{
    match part.name {
        Some(i) => Ok(Expr::Series(i)),
        None => node(alloc, program, depth, part.node),
    }
}

// The sum of branches.
#[cycle(nodes)]
fn union(alloc: Global, program: &Program, depth: usize, parts: &[Part]) -> Result<Expr, NoMemory>
    ensures { IfOk result (λ e. expr_of e
        ≡ sum_of (exprs_of (inside_expr (plain_of program.now) depth) parts.now)) }
{
    let mut terms = Items::new(alloc);
    for part in parts {
        add_term(&mut terms, inside(alloc, program, depth, part)?)?;
    }
    Ok(sum_of_terms(terms))
}

// The product of factors.
#[cycle(nodes)]
fn product(alloc: Global, program: &Program, depth: usize, parts: &[Part]) -> Result<Expr, NoMemory>
    ensures { IfOk result (λ e. expr_of e
        ≡ product_of (exprs_of (inside_expr (plain_of program.now) depth) parts.now)) }
{
    let mut factors = Items::new(alloc);
    for part in parts {
        add_factor(&mut factors, inside(alloc, program, depth, part)?)?;
    }
    Ok(product_of_factors(factors))
}

/// A part as it is written in the source.
pub(crate) fn part_of(alloc: Global, program: &Program, part: &Part) -> Result<Expr, NoMemory>
    ensures { IfOk result (λ e. expr_of e ≡ part_expr (plain_of program.now) part.now) }
{
    inside(alloc, program, program.nodes.as_slice().len(), part)
}

/// Puts parts after the factors of a product.
pub(crate) fn add_parts(
    alloc: Global,
    program: &Program,
    factors: &mut Items<Expr>,
    parts: &[Part],
) -> Result<(), NoMemory>
    ensures { OnOk result (expr_list factors.new ≡ join_exprs (expr_list factors.old)
        (all_factors (exprs_of (part_expr (plain_of program.now)) parts.now))) }
{
    for part in parts {
        add_factor(factors, part_of(alloc, program, part)?)?;
    }
    Ok(())
}

/// Puts all parts but one after the factors of a product.
pub(crate) fn add_others(
    alloc: Global,
    program: &Program,
    factors: &mut Items<Expr>,
    parts: &[Part],
    but: usize,
) -> Result<(), NoMemory>
    ensures { OnOk result (expr_list factors.new ≡ join_exprs (expr_list factors.old)
        (all_factors (exprs_of (part_expr (plain_of program.now)) (others but parts.now)))) }
{
    for (i, part) in parts.iter().enumerate() {
        if i != but {
            add_factor(factors, part_of(alloc, program, part)?)?;
        }
    }
    Ok(())
}

/// The part of a variable.
pub(crate) fn part_at(parts: &[Part], i: usize) -> Part
    ensures { result ≡ scopes.part_at parts.now i }
{
    match parts.get(i) {
        Some(part) => *part,
        None => Part {
            node: 0,
            name: None,
        },
    }
}

/// The factors of a product, and of another construct none.
pub(crate) fn factors_at(program: &Program, x: usize) -> &[Part]
    ensures { result.now ≡ scopes.factors (shape_of (plain_of program.now) x) }
{
    match shape_at(program, x) {
        Some(Shape::Product { parts }) => parts.as_slice(),
        _ => &[],
    }
}
