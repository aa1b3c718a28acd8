// Type expressions and what defines by them.
use crate::names::Name;
use luo_model::Kind;
use luo_num::{Boxed, Items};

/// The numbers of components that a bound allows.
#[derive(Clone, Copy, Debug, PartialEq, Eq)]
pub enum Range {
    /// This number.
    Exactly(u128),
    /// This number and all below.
    AtMost(u128),
    /// This number and all above.
    AtLeast(u128),
    /// From the first number to the second, with both.
    Between(u128, u128),
}

/// A bound on a collection. `at` is the word `card`.
#[derive(Clone, Copy, Debug, PartialEq, Eq)]
pub struct Bound {
    pub range: Range,
    pub at: usize,
}

/// A type expression.
#[derive(Debug, Drop)]
#[cycle(types)]
pub enum TypeExpr {
    /// The type that this name is defined to be.
    Named(Name),
    /// The empty structure. `at` is the word `epsilon`.
    Epsilon {
        at: usize,
    },
    /// An atom. `weight_at` is the number, `at` the word `atom`.
    Atom {
        weight: u128,
        weight_at: usize,
        at: usize,
    },
    /// One of the branches. There are at least two.
    Union {
        parts: Items<TypeExpr>,
    },
    /// One of each factor. There are at least two. `at` is the word `product`.
    Product {
        parts: Items<TypeExpr>,
        at: usize,
    },
    /// A collection of components. `at` is the word of its kind.
    Coll {
        kind: Kind,
        part: Boxed<TypeExpr>,
        bound: Option<Bound>,
        at: usize,
    },
}

/// Names that are defined to be one type.
#[derive(Debug, Drop)]
pub struct TypeDef {
    pub names: Items<Name>,
    pub body: TypeExpr,
}

/// Names of measures of one value.
#[derive(Debug, Drop)]
pub struct MeasureDef {
    pub names: Items<Name>,
    pub value: u128,
}
