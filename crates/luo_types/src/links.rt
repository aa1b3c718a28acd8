// Where names lead from definition to definition.
ghost use Rattle.std.specs.Prelude.{◌≡◌, ◌+◌, ◌<◌, ◌≤◌, length, sum_by, suc};
ghost use Rattle.luo_num.specs.declared.limits.TheConstants.{NODE_LIMIT};
ghost use Rattle.luo_rules.specs.Counted.{own_nodes};
ghost use Rattle.luo_rules.specs.Definitions.{definition_meant, named_by, next, first_node};
ghost use Rattle.luo_source.specs.View.{expr_of};
ghost use Rattle.luo_rules.specs.inner.Naming.{node_of};

use crate::counts::count_expr;
use crate::definitions::Entry;
use luo_rules::{Meaning, Names};
use luo_source::TypeExpr;

/// The definition that a name means, by its meaning.
pub(crate) fn definition_meant(meant: Option<Meaning>) -> Option<usize>
    ensures { result ≡ definition_meant meant }
{
    match meant {
        Some(Meaning::Definition(i)) => Some(i),
        _ => None,
    }
}

// The definition that a right side names, where it is a name.
fn named_by(names: &Names, right: &TypeExpr) -> Option<usize>
    ensures { result ≡ named_by names.now (expr_of right.now) }
{
    match right {
        TypeExpr::Named(name) => definition_meant(names.meaning(name.text.as_slice())),
        _ => None,
    }
}

/// The definition that this definition names, where its right side is a name.
pub(crate) fn next(names: &Names, defs: &[Entry], i: usize) -> Option<usize>
    ensures { result ≡ next names.now defs.now i }
{
    match defs.get(i) {
        Some(def) => named_by(names, def.right),
        None => None,
    }
}

// The number of nodes of definitions.
fn total_nodes(defs: &[Entry]) -> usize
    requires { sum_by (λ d. own_nodes d.right) defs.now ≤ NODE_LIMIT }
    ensures { result ≡ sum_by (λ d. own_nodes d.right) defs.now }
{
    let mut total = 0;
    for def in defs {
        total += count_expr(def.right).nodes as usize;
    }
    total
}

// The first node of a definition.
fn first_node(defs: &[Entry], i: usize) -> usize
    requires { sum_by (λ d. own_nodes d.right) defs.now ≤ NODE_LIMIT }
    ensures { result ≡ first_node defs.now i }
{
    total_nodes(&defs[..i.min(defs.len())])
}

/// The node of a definition, and 0 where names lead round and round.
pub(crate) fn node_of(names: &Names, defs: &[Entry], i: usize) -> usize
    requires { sum_by (λ d. own_nodes d.right) defs.now ≤ NODE_LIMIT }
    ensures { result ≡ node_of names.now defs.now i }
{
    let mut at = i;
    let mut steps = defs.len();
    while let Some(named) = next(names, defs, at) {
        if steps == 0 {
            return 0;
        }
        steps -= 1;
        at = named;
    }
    first_node(defs, at)
}
