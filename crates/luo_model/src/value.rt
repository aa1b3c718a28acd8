// What a procedure with a result makes.
use crate::{Bind, Part};
use luo_num::{Boxed, Items};

/// The result of a procedure: its type, and the value that it makes.
#[derive(Debug, Drop)]
pub struct Made {
    pub on: Part,
    pub value: Value,
}

/// A value of a scope.
#[derive(Debug, Drop)]
#[cycle(value)]
pub enum Value {
    /// The structure of a variable.
    Given(usize),
    /// What a procedure with a result makes on a variable.
    Call { var: usize, callee: usize },
    /// An atom of this weight, which charges `own`.
    Atom { weight: u32, own: u128 },
    /// A tuple of a product.
    Tuple(Items<Value>),
    /// A structure of a branch of a union, from 1.
    Branch { number: u32, inner: Boxed<Value> },
    /// What the arm of the variable's branch makes.
    Case { var: usize, arms: Items<ValueArm> },
}

/// An arm of a case in a value.
#[derive(Debug, Drop)]
#[cycle(value)]
pub struct ValueArm {
    pub bind: Bind,
    pub value: Value,
}
