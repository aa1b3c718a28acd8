// What a procedure does, in the core form.
use luo_num::Items;

/// What an arm of a case binds.
#[derive(Clone, Copy, Debug, PartialEq, Eq)]
pub enum Bind {
    /// No variable.
    Nothing,
    /// One variable, the structure inside the branch.
    Whole,
    /// So many variables, the factors of the product.
    Parts(usize),
}

/// An arm of a case: what it binds, and what it does.
#[derive(Debug, Drop)]
#[cycle(body)]
pub struct Arm {
    pub bind: Bind,
    pub body: Body,
}

/// A call, a case or a walk, on a variable of its scope, by its place there from 0.
#[derive(Debug, Drop)]
#[cycle(body)]
pub enum Item {
    /// A procedure is called on the variable.
    Call {
        var: usize,
        callee: usize,
        site: usize,
    },
    /// The arm of the variable's branch, or the one arm of a product.
    Case {
        var: usize,
        arms: Items<Arm>,
        site: usize,
    },
    /// The body, once for each component of the variable's collection.
    Forall {
        var: usize,
        body: Body,
        body_site: usize,
        site: usize,
    },
}

/// The body of a scope: what it charges itself, and its items in text order.
#[derive(Debug, Drop)]
#[cycle(body)]
pub struct Body {
    pub own: u128,
    pub items: Items<Item>,
}
