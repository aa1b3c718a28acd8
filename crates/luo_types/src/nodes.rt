// The nodes of definitions.
ghost use Rattle.std.specs.Prelude.{◌≡◌, ◌+◌, ◌≤◌, [], ◌++◌, sum_by, flat_map, IfOk, OnOk};
ghost use Rattle.luo_num.specs.declared.limits.TheConstants.{BOUND_LIMIT, NODE_LIMIT};
ghost use Rattle.luo_rules.specs.Counted.{greatest_of, greatest_by};
ghost use Rattle.luo_rules.specs.TypeBreaches.{low_of, high_of};
ghost use Rattle.luo_source.specs.View.{expr_of};
ghost use Rattle.luo_rules.specs.Nodes.{nodes_at};
ghost use Rattle.luo_types.specs.inner.NodeLists.{FitsAt, AllFitAt, construct_at, inside_at, nodes_of};
ghost use Rattle.luo_types.specs.inner.Held.{nodes_in, bound_in, breaches_in};

use crate::counts::count_expr;
use crate::rules::{high_in, least_of, low_in};
use crate::scheme::{Scheme, Spot};
use luo_model::{Kind, Node, Shape};
use luo_num::{Items, NoMemory};
use luo_source::{Bound, TypeExpr};

// The least number of components under a bound.
fn low_of(kind: Kind, bound: Option<Bound>) -> u32
    requires { greatest_of bound ≤ BOUND_LIMIT }
    ensures { result ≡ low_of kind bound }
{
    match bound {
        Some(bound) => low_in(kind, bound.range) as u32,
        None => least_of(kind) as u32,
    }
}

// The greatest number of components under a bound, where there is one.
fn high_of(bound: Option<Bound>) -> Option<u32>
    requires { greatest_of bound ≤ BOUND_LIMIT }
    ensures { result ≡ high_of bound }
{
    match high_in(bound?.range) {
        Some(high) => Some(high as u32),
        None => None,
    }
}

// The construct of a type expression at this spot, and none for a name.
fn construct(expr: &TypeExpr, scheme: &Scheme, at: Spot) -> Result<Option<Shape>, NoMemory>
    requires { FitsAt scheme.now.universe scheme.now.names at expr.now }
    ensures { IfOk result (λ made. made
        ≡ construct_at scheme.now.names scheme.now.defs.items at (expr_of expr.now)) }
{
    match expr {
        TypeExpr::Named(_) => Ok(None),
        TypeExpr::Epsilon { .. } => Ok(Some(Shape::Atom { weight: 0 })),
        TypeExpr::Atom { weight, .. } => Ok(Some(Shape::Atom {
            weight: *weight as u32,
        })),
        TypeExpr::Union { parts } => Ok(Some(Shape::Union {
            parts: scheme.parts(at.behind(1), parts.as_slice())?,
        })),
        TypeExpr::Product { parts, .. } => Ok(Some(Shape::Product {
            parts: scheme.parts(at.behind(1), parts.as_slice())?,
        })),
        TypeExpr::Coll {
            kind,
            part,
            bound,
            ..
        } => Ok(Some(Shape::Coll {
            kind: *kind,
            part: scheme.part(at.behind(1), part.get()),
            low: low_of(*kind, *bound),
            high: high_of(*bound),
        })),
    }
}

/// Puts the nodes of a type expression of a definition after the others, the first at this spot.
#[cycle(nodes)]
pub(crate) fn put(
    expr: &TypeExpr,
    scheme: &Scheme,
    owner: usize,
    at: Spot,
    nodes: &mut Items<Node>,
) -> Result<(), NoMemory>
    requires { FitsAt scheme.now.universe scheme.now.names at expr.now }
    ensures { OnOk result (nodes.new ≡ nodes.old
        ++ nodes_at scheme.now.names scheme.now.defs.items owner at (expr_of expr.now)) }
{
    let Some(shape) = construct(expr, scheme, at)? else {
        return Ok(());
    };
    nodes.push(Node {
        shape,
        owner,
        place: at.place,
    })?;
    put_inside(expr, scheme, owner, at, nodes)
}

// Puts the nodes inside a construct that stands at this spot.
#[cycle(nodes)]
fn put_inside(
    expr: &TypeExpr,
    scheme: &Scheme,
    owner: usize,
    at: Spot,
    nodes: &mut Items<Node>,
) -> Result<(), NoMemory>
    requires { FitsAt scheme.now.universe scheme.now.names at expr.now }
    ensures { OnOk result (nodes.new ≡ nodes.old
        ++ inside_at scheme.now.names scheme.now.defs.items owner at (expr_of expr.now)) }
{
    match expr {
        TypeExpr::Union { parts } => {
            put_all(parts.as_slice(), scheme, owner, at.behind(1), nodes)
        }
        TypeExpr::Product { parts, .. } => {
            put_all(parts.as_slice(), scheme, owner, at.behind(1), nodes)
        }
        TypeExpr::Coll { part, .. } => put(part.get(), scheme, owner, at.behind(1), nodes),
        _ => Ok(()),
    }
}

// Puts the nodes of type expressions, one after the other.
#[cycle(nodes)]
fn put_all(
    exprs: &[TypeExpr],
    scheme: &Scheme,
    owner: usize,
    at: Spot,
    nodes: &mut Items<Node>,
) -> Result<(), NoMemory>
    requires { AllFitAt scheme.now.universe scheme.now.names at exprs.now }
    ensures { OnOk result (nodes.new ≡ nodes.old
        ++ nodes_of scheme.now.names scheme.now.defs.items owner at exprs.now) }
{
    let mut spot = at;
    for expr in exprs {
        put(expr, scheme, owner, spot, nodes)?;
        spot = spot.behind(count_expr(expr).nodes as usize);
    }
    Ok(())
}
