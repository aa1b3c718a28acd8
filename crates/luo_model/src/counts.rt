// The counts of a program, kept for those who look up structures by their places.
ghost use Rattle.std.specs.Prelude.{◌≡◌, ◌<◌, ◌≤◌, ℕ, length};
ghost use Rattle.luo_model.specs.View.{plain_of};
ghost use Rattle.luo_model.specs.Tables.{IsCount};
ghost use Rattle.luo_model.specs.Counted.{AreCounts, last_of};
ghost use Rattle.luo_num.specs.declared.TheConstants.{MAX};

use crate::program::Program;
use luo_num::Items;
use std::marker::Model;

/// The number of structures of each node of a program at each size from 0 to a last one. Each is at
/// most `MAX`. Contracts see the program and the last size.
#[derive(Drop)]
pub struct Counts<'p> {
    program: &'p Program,
    rows: Items<Items<u128>>,
}

impl<'p> Model for Counts<'p> {
    ghost use Rattle.luo_model.specs.Counted.{Counted, AreCounts, last_of};
    ghost use Rattle.luo_model.specs.View.{plain_of};
    ghost use Rattle.luo_model.specs.contracts.body.Item as done;
    ghost use Rattle.luo_model.specs.contracts.value.Value as made;
    ghost use Rattle.std.specs.Coded.{codes};

    ghost Value = { Counted };

    ghost coded = { Prim.hlevel (codes, done.the_row.coded, made.the_row.coded) };

    ghost view = { λ c. record { program = c.program.now; last = last_of c.rows } };

    ghost invariant = { λ c. AreCounts (plain_of c.program.now) c.rows };
}

impl<'p> Counts<'p> {
    /// Keeps the counts of a program, size by size from 0: a row has the count of each node.
    pub fn new(program: &'p Program, rows: Items<Items<u128>>) -> Counts<'p>
        requires right { AreCounts (plain_of program.now) rows }
        ensures { result ≡ record { program = program.now; last = last_of rows } }
    {
        Counts { program, rows }
    }

    /// The number of structures of a node of size `n`.
    pub fn at(&self, node: usize, n: u32) -> u128
        requires there { node < length self.now.program.nodes }
        requires size { n ≤ self.now.last }
        ensures count { IsCount (plain_of self.now.program) node n result }
        ensures small { result ≤ MAX }
    {
        let row = &self.rows.as_slice()[n as usize];
        row.as_slice()[node]
    }

    /// The last size whose counts are kept.
    pub fn last(&self) -> u32
        ensures { result ≡ self.now.last }
    {
        (self.rows.as_slice().len() - 1) as u32
    }
}
