// Values, which procedures with a result make.
use crate::names::Name;
use crate::statements::Pattern;
use luo_num::{Boxed, Items};

/// A value. Round brackets leave no trace in it.
#[derive(Debug, Drop)]
#[cycle(values)]
pub enum SourceValue {
    /// The structure of a variable.
    Given(Name),
    /// What a procedure with a result makes on a variable.
    Made {
        callee: Name,
        arg: Name,
    },
    /// An atom, and the measure charged at it. `at` is the word `atom`.
    Atom {
        charge: Option<Name>,
        at: usize,
    },
    /// A tuple. It has at least two parts. `at` is the word `product`.
    Tuple {
        parts: Items<SourceValue>,
        at: usize,
    },
    /// A structure of a branch of a union, from 1. `at` is the branch's number.
    Branch {
        number: u128,
        at: usize,
        inner: Boxed<SourceValue>,
    },
    /// What the arm of the variable's branch makes.
    Case {
        var: Name,
        arms: Items<SourceValueArm>,
    },
}

/// An arm of a case in a value.
#[derive(Debug, Drop)]
#[cycle(values)]
pub struct SourceValueArm {
    pub pattern: Pattern,
    pub body: SourceValue,
}
