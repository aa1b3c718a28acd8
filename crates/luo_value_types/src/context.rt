// What checks ask, and what they make.
ghost use Rattle.std.specs.Prelude.{◌≡◌, []};
ghost use Rattle.luo_value_types.specs.inner.Room.{HasMeasuresWithin, HasFewBranches};

use luo_model::Body;
use luo_num::Items;
use luo_rules::{Setting, Variable};
use std::alloc::Global;

/// What each check of a part of a body asks: the setting, and the variables that are bound there.
///
/// The setting's measures are within their limit, and the branches of its unions have numbers of 32 bits.
#[derive(Drop)]
pub struct Context<'s> {
    pub alloc: Global,
    pub setting: &'s Setting,
    pub scope: &'s [Variable],
    pub ghost measures: { HasMeasuresWithin setting.now },
    pub ghost branches: { HasFewBranches setting.now },
}

/// What checks make: a body, and the site that comes next.
#[derive(Drop)]
pub struct Maker {
    pub body: Body,
    pub next: usize,
}

impl Maker {
    /// A maker of a body in which nothing is done yet, with sites from this number on.
    pub fn new(alloc: Global, next: usize) -> Maker
        ensures { result ≡ record { body = record { own = 0; items = [] }; next = next } }
    {
        Maker {
            body: Body {
                own: 0,
                items: Items::new(alloc),
            },
            next,
        }
    }
}
