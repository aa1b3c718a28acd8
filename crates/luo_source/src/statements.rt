// Patterns and statements.
use crate::names::Name;
use luo_num::{Boxed, Items};

/// A branch of a case, and the names that it binds.
#[derive(Debug, Drop)]
pub enum Pattern {
    /// The branch of this name.
    Named(Name),
    /// The branch of the first name; the second is bound to the structure inside.
    NamedWhole(Name, Name),
    /// The branch of the first name; the others are bound to the factors inside.
    NamedParts(Name, Items<Name>),
    /// The next branch or a product; the names are bound to its factors. `at` is the mark `(`.
    Parts { names: Items<Name>, at: usize },
    /// The next branch. `at` is the mark `_`.
    Any { at: usize },
    /// The next branch; the name is bound to the structure inside. `at` is the mark `_`.
    AnyWhole { name: Name, at: usize },
}

/// An arm of a case.
#[derive(Debug, Drop)]
#[cycle(statements)]
pub struct SourceArm {
    pub pattern: Pattern,
    pub body: Stmt,
}

/// A statement.
#[derive(Debug, Drop)]
#[cycle(statements)]
pub enum Stmt {
    /// Nothing is done.
    Skip,
    /// The measure of this name is charged.
    Charge(Name),
    /// A procedure is called on a variable.
    Call {
        callee: Name,
        arg: Name,
    },
    /// The statements, one after another.
    Block(Items<Stmt>),
    /// The arm of the variable's branch.
    Case {
        var: Name,
        arms: Items<SourceArm>,
    },
    /// The body, once for each component of the collection `source`.
    Forall {
        var: Name,
        source: Name,
        body: Boxed<Stmt>,
    },
}
