// What a table is made for.
ghost use Rattle.std.specs.Prelude.{IsTrue, None, ◌≡◌};
ghost use Rattle.luo_labelled.specs.Calls as labelled;
ghost use Rattle.luo_unlabelled.specs.Calls as unlabelled;

use crate::components::Components;
use luo_model::Kind;
use luo_num::limits::{BOUND_LIMIT, SIZE_LIMIT};

/// A table for the collections of a kind of so many components at least, and at most where there is such a bound, of sizes up to
/// the last one.
#[derive(Clone, Copy)]
pub struct Plan {
    pub kind: Kind,
    pub low: u32,
    pub high: Option<u32>,
    pub of: Components,
    pub last: u32,
}

impl Plan {
    /// Any number of components.
    pub fn any(kind: Kind, of: Components, last: u32) -> Plan
        ensures { result ≡ record { kind = kind; low = 0; high = None; «of» = «of»; last = last } }
    {
        Plan {
            kind,
            low: 0,
            high: None,
            of,
            last,
        }
    }

    /// So many components.
    pub fn exactly(number: u32, kind: Kind, of: Components, last: u32) -> Plan {
        Plan {
            kind,
            low: number,
            high: Some(number),
            of,
            last,
        }
    }

    // Whether the bounds are in order, and the bounds and the last size within the limits.
    fn is_bounded(self) -> bool
        ensures { IsTrue result → unlabelled.AreBounds self.low self.high self.last }
    {
        let high = match self.high {
            Some(high) => self.low <= high && u128::from(high) <= BOUND_LIMIT,
            None => true,
        };
        high && u128::from(self.low) <= BOUND_LIMIT && u64::from(self.last) <= SIZE_LIMIT
    }

    /// Whether it is one of labelled collections.
    pub fn is_labelled(self) -> bool
        ensures { IsTrue result → labelled.AreBounds self.kind self.low self.high self.last }
    {
        let suits = match self.kind {
            Kind::Sequence | Kind::Set => true,
            Kind::Cycle => self.low >= 1,
            Kind::Multiset | Kind::Powerset => false,
        };
        suits && self.is_bounded()
    }

    /// Whether it is one of unlabelled sequences.
    pub fn is_line(self) -> bool
        ensures { IsTrue result → unlabelled.AreBounds self.low self.high self.last }
    {
        self.kind == Kind::Sequence && self.is_bounded()
    }

    /// Whether it is one of multisets or powersets.
    pub fn is_parts(self) -> bool
        ensures kind { IsTrue result → unlabelled.IsOfParts self.kind }
        ensures bounds { IsTrue result → unlabelled.AreBounds self.low self.high self.last }
    {
        let parts = match self.kind {
            Kind::Multiset | Kind::Powerset => true,
            Kind::Sequence | Kind::Set | Kind::Cycle => false,
        };
        parts && self.is_bounded()
    }
}
