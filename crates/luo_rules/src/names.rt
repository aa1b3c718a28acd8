// What names mean.
ghost use Rattle.std.specs.Prelude.{◌≡◌, [], OnOk};
ghost use Rattle.luo_rules.specs.Meanings.{meaning, with_name};

use indexmap::IndexMap;
use luo_num::NoMemory;
use std::alloc::Global;
use std::marker::Model;

/// What a name means, by its number among the things of its kind, from 0.
#[derive(Clone, Copy, Debug, PartialEq, Eq)]
pub enum Meaning {
    /// A type, by its definition.
    Definition(usize),
    /// A measure with its value.
    Measure { number: usize, value: u128 },
    Procedure(usize),
}

/// Names with their meanings, in the order of their first definitions.
#[derive(Drop)]
pub struct Names {
    known: IndexMap<Vec<u8>, Meaning>,
}

impl Model for Names {
    ghost use Rattle.std.specs.Prelude.{ℕ, List, map};
    ghost use Rattle.luo_rules.specs.declared.names.Meaning.{Meaning};

    ghost Value = { List (List ℕ × Meaning) };

    ghost view = { λ n. map (λ e. (e.0.items, e.1)) n.known.entries };
}

impl Names {
    /// No names.
    pub fn new(alloc: Global) -> Names
        ensures { result ≡ [] }
    {
        Names {
            known: IndexMap::new(alloc),
        }
    }

    /// What a name means, if anything.
    pub fn meaning(&self, name: &[u8]) -> Option<Meaning>
        ensures { result ≡ meaning self.now name.now }
    {
        self.known.get(name).copied()
    }

    /// Gives a name this meaning, unless it has one already.
    pub fn add(&mut self, alloc: Global, name: &[u8], what: Meaning) -> Result<(), NoMemory>
        ensures { OnOk result (self.new ≡ with_name self.old (name.now, what)) }
    {
        if self.meaning(name).is_none() {
            let key = Vec::from_slice(alloc, name)?;
            self.known.insert(key, what)?;
        }
        Ok(())
    }
}
