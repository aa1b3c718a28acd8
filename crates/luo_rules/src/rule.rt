// The rules of names and types, and what breaks them.
ghost use Rattle.std.specs.Prelude.{◌≡◌};
ghost use Rattle.luo_rules.specs.declared.rule.Stop.TheVariants.{NoMemory};

use luo_num::{Items, Text};
use std::alloc::{AllocError, AllocFailed};

/// A rule of names and types.
#[derive(Clone, Copy, Debug, PartialEq, Eq)]
pub enum Rule {
    /// A name is defined once, and a variable stands once in a pattern.
    Y1,
    /// Each name that is used is defined.
    Y2,
    /// Each name is used as what it is: a type, a measure or a procedure.
    Y3,
    /// Definitions that are names don't lead back to themselves.
    Y4,
    /// Sets are labelled, multisets and powersets are unlabelled.
    Y5,
    /// Cycles are labelled.
    Y6,
    /// Bounds are not empty, a cycle has at least one component, and the low bound of a powerset is at most 1.
    Y7,
    /// The weight of an atom is at most 1 in the labelled universe, and at most 16 in the unlabelled one.
    Y8,
    /// The argument of a call is of the parameter's type.
    Y9,
    /// A case is on a union, with an arm for each branch, or on a product, with one arm.
    Y10,
    /// A pattern fits what its arm stands for.
    Y11,
    /// A walk goes over a collection.
    Y12,
    /// A variable is bound by the innermost scope.
    Y13,
    /// Only an unlabelled program has procedures with results.
    Y14,
    /// A value fits the type that is expected of it.
    Y15,
}

/// A breach of a rule: the token at which it stands, and what it is about.
#[derive(Debug, Drop)]
pub struct Breach {
    pub rule: Rule,
    pub token: usize,
    pub names: Items<Text>,
}

/// Why a check stops: at the first breach, or because memory is refused.
#[derive(Debug, Drop)]
pub enum Stop {
    Breach(Breach),
    NoMemory,
}

impl From<AllocError> for Stop {
    ghost from_gives = { λ _ e. e ≡ NoMemory };

    fn from(_: AllocError) -> Self {
        Stop::NoMemory
    }
}

impl<T: Drop> From<AllocFailed<T>> for Stop {
    ghost from_gives = { λ _ e. e ≡ NoMemory };

    fn from(_: AllocFailed<T>) -> Self {
        Stop::NoMemory
    }
}

impl From<luo_num::NoMemory> for Stop {
    ghost from_gives = { λ _ e. e ≡ NoMemory };

    fn from(_: luo_num::NoMemory) -> Self {
        Stop::NoMemory
    }
}
