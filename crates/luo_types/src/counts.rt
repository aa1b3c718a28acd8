// What the limits count in type expressions.
ghost use Rattle.std.specs.Prelude.{◌≡◌, ◌+◌, suc, max, length, sum_by};
ghost use Rattle.luo_num.specs.Mark.{capped};
ghost use Rattle.luo_rules.specs.Counted.{multiset_of, greatest_of, greatest_by};
ghost use Rattle.luo_types.specs.inner.Held.{nodes_in, multisets_in, parts_in, bound_in};

use luo_model::Kind;
use luo_num::marked_add;
use luo_source::{Bound, Range, TypeExpr};

/// What is counted in type expressions: constructs, multisets and powersets, the most parts of one union or product,
/// and the greatest number in a bound. Sums are marked.
#[derive(Clone, Copy, Debug, PartialEq, Eq)]
pub(crate) struct TypeCounts {
    pub nodes: u128,
    pub multisets: u128,
    pub parts: usize,
    pub bound: u128,
}

fn multiset_count(kind: Kind) -> u128
    ensures { result ≡ multiset_of kind }
{
    match kind {
        Kind::Multiset | Kind::Powerset => 1,
        _ => 0,
    }
}

fn greatest_number(bound: Option<Bound>) -> u128
    ensures { result ≡ greatest_of bound }
{
    let Some(bound) = bound else {
        return 0;
    };
    match bound.range {
        Range::Exactly(number) | Range::AtMost(number) | Range::AtLeast(number) => number,
        Range::Between(low, high) => low.max(high),
    }
}

impl TypeCounts {
    pub const NOTHING: TypeCounts = TypeCounts {
        nodes: 0,
        multisets: 0,
        parts: 0,
        bound: 0,
    };

    const NODE: TypeCounts = TypeCounts {
        nodes: 1,
        ..TypeCounts::NOTHING
    };

    /// Of expressions that stand beside each other.
    pub fn beside(self, other: TypeCounts) -> TypeCounts
        ensures nodes { result.nodes ≡ capped (self.nodes + other.nodes) }
        ensures multisets { result.multisets ≡ capped (self.multisets + other.multisets) }
        ensures parts { result.parts ≡ max self.parts other.parts }
        ensures bound { result.bound ≡ max self.bound other.bound }
    {
        TypeCounts {
            nodes: marked_add(self.nodes, other.nodes),
            multisets: marked_add(self.multisets, other.multisets),
            parts: self.parts.max(other.parts),
            bound: self.bound.max(other.bound),
        }
    }
}

/// Counts in a type expression.
#[cycle(counts)]
pub(crate) fn count_expr(expr: &TypeExpr) -> TypeCounts
    ensures nodes { result.nodes ≡ capped (nodes_in expr.now) }
    ensures multisets { result.multisets ≡ capped (multisets_in expr.now) }
    ensures parts { result.parts ≡ parts_in expr.now }
    ensures bound { result.bound ≡ bound_in expr.now }
{
    match expr {
        TypeExpr::Named(_) => return TypeCounts::NOTHING,
        TypeExpr::Epsilon { .. } => return TypeCounts::NODE,
        TypeExpr::Atom { .. } => return TypeCounts::NODE,
        TypeExpr::Union { parts } => return count_parts(parts.as_slice()),
        TypeExpr::Product { parts, .. } => return count_parts(parts.as_slice()),
        TypeExpr::Coll {
            kind,
            part,
            bound,
            ..
        } => return count_collection(*kind, part.get(), *bound),
    }
}

// Counts in a union or product of these parts.
#[cycle(counts)]
fn count_parts(parts: &[TypeExpr]) -> TypeCounts
    ensures nodes { result.nodes ≡ capped (suc (sum_by nodes_in parts.now)) }
    ensures multisets { result.multisets ≡ capped (sum_by multisets_in parts.now) }
    ensures parts { result.parts ≡ max (length parts.now) (greatest_by parts_in parts.now) }
    ensures bound { result.bound ≡ greatest_by bound_in parts.now }
{
    let node = TypeCounts {
        parts: parts.len(),
        ..TypeCounts::NODE
    };
    node.beside(count_exprs(parts))
}

// Counts in a collection.
#[cycle(counts)]
fn count_collection(kind: Kind, part: &TypeExpr, bound: Option<Bound>) -> TypeCounts
    ensures nodes { result.nodes ≡ capped (suc (nodes_in part.now)) }
    ensures multisets { result.multisets ≡ capped (multiset_of kind + multisets_in part.now) }
    ensures parts { result.parts ≡ parts_in part.now }
    ensures bound { result.bound ≡ max (bound_in part.now) (greatest_of bound) }
{
    let node = TypeCounts {
        multisets: multiset_count(kind),
        bound: greatest_number(bound),
        ..TypeCounts::NODE
    };
    node.beside(count_expr(part))
}

// Counts in type expressions beside each other.
#[cycle(counts)]
fn count_exprs(exprs: &[TypeExpr]) -> TypeCounts
    ensures nodes { result.nodes ≡ capped (sum_by nodes_in exprs.now) }
    ensures multisets { result.multisets ≡ capped (sum_by multisets_in exprs.now) }
    ensures parts { result.parts ≡ greatest_by parts_in exprs.now }
    ensures bound { result.bound ≡ greatest_by bound_in exprs.now }
{
    let mut all = TypeCounts::NOTHING;
    for expr in exprs {
        all = all.beside(count_expr(expr));
    }
    all
}
