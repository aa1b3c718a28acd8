// Equations between series.
use luo_model::Kind;
use luo_num::{Boxed, Items};

/// An expression over the series of definitions and the descriptors of procedures.
#[derive(Debug, Drop)]
pub enum Expr {
    /// A number.
    Number(u128),
    /// A power of the variable `z`, which stands for an atom of this weight.
    Power(u32),
    /// The series of a definition.
    Series(usize),
    /// The descriptor of a procedure.
    Tau(usize),
    /// The sum of its terms.
    Sum(Items<Expr>),
    /// The product of its factors.
    Prod(Items<Expr>),
    /// The collections of components, their number at least `low`, and at most `high` where there is one.
    Coll {
        kind: Kind,
        inner: Boxed<Expr>,
        low: u32,
        high: Option<u32>,
    },
    /// A walk with this body over such collections: each component is marked in turn, and the body stands in its place.
    Point {
        kind: Kind,
        inner: Boxed<Expr>,
        low: u32,
        high: Option<u32>,
        body: Boxed<Expr>,
    },
}

/// What an equation defines: the series of a definition, or the descriptor of a procedure.
#[derive(Clone, Copy, Debug, PartialEq, Eq)]
pub enum Left {
    Series(usize),
    Tau(usize),
}

/// An equation: what is on the left equals the expression on the right.
#[derive(Debug, Drop)]
pub struct Equation {
    pub left: Left,
    pub right: Expr,
}
