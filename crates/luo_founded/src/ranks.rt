// What is known of the nodes and the sites of a well-founded program.
ghost use Rattle.std.specs.Prelude.{◌≡◌, ◌<◌, length};
ghost use Rattle.luo_num.specs.declared.limits.TheConstants.{SIZE_LIMIT};
ghost use Rattle.luo_model.specs.View.{plain_of};
ghost use Rattle.luo_model.specs.Invariant.{IsProgram};
ghost use Rattle.luo_model.specs.Founded.{IsFounded};
ghost use Rattle.luo_model.specs.Levels.{IsRank, IsLevel, IsLeastSizeUpTo};

use luo_model::Program;
use luo_num::Items;
use std::marker::Model;

/// Ranks, levels and least sizes of a program in which no rule of well-foundedness is broken.
/// Contracts see the program.
#[derive(Drop)]
pub struct Ranks<'a> {
    pub(crate) program: &'a Program,
    pub(crate) node_ranks: Items<u32>,
    pub(crate) site_levels: Items<u32>,
    pub(crate) least_sizes: Items<u32>,
}

impl<'a> Model for Ranks<'a> {
    ghost use Rattle.luo_model.specs.View.{Held};
    ghost use Rattle.luo_founded.specs.inner.Ranked.{IsRanked};
    ghost use Rattle.luo_model.specs.contracts.body.Item as done;
    ghost use Rattle.luo_model.specs.contracts.value.Value as made;
    ghost use Rattle.std.specs.Coded.{codes};

    ghost Value = { Held };

    ghost coded = { Prim.hlevel (codes, done.the_row.coded, made.the_row.coded) };

    ghost view = { λ r. r.program.now };

    ghost invariant = { λ r. IsRanked r.program.now r.node_ranks r.site_levels r.least_sizes };
}

impl<'a> Ranks<'a> {
    /// The program, which is well-founded. So ranks alone tell of a well-founded program.
    pub fn program(&self) -> &'a Program
        ensures same { result.now ≡ self.now }
        ensures proper { IsProgram (plain_of self.now) }
        ensures founded { IsFounded (plain_of self.now) }
    {
        let program = self.program;
        program.known();
        program
    }

    /// The rank of a node: the number of same-size steps of the longest chain of them from it. A
    /// structure of a node is made of structures of its own size only at nodes of less rank.
    pub fn node_rank(&self, node: usize) -> u32
        requires there { node < length self.now.nodes }
        ensures { IsRank (plain_of self.now) node result }
    {
        self.node_ranks.as_slice()[node]
    }

    /// The level of a site: 0 for a case or a walk, 1 more than that of the called procedure's
    /// whole for a call, and for a whole or a walk's body 1 more than the greatest level of its
    /// items, or 0 without items.
    pub fn site_level(&self, site: usize) -> u32
        requires there { site < length self.now.sites }
        ensures { IsLevel (plain_of self.now) site result }
    {
        self.site_levels.as_slice()[site]
    }

    /// The least size of a structure of a node, and one more than `SIZE_LIMIT` where that is above the limit.
    pub fn least(&self, node: usize) -> u32
        requires there { node < length self.now.nodes }
        ensures { IsLeastSizeUpTo (plain_of self.now) SIZE_LIMIT node result }
    {
        self.least_sizes.as_slice()[node]
    }
}
