// The branch of a union in which a place lies.
ghost use Rattle.std.specs.Prelude.{◌≡◌, ◌<◌, ◌≤◌, length};
ghost use Rattle.luo_finite.specs.Range.{sum_below};
ghost use Rattle.luo_rank.specs.inner.Lookup.{part_entry, AreThere, IsFound};

use crate::tables::Tables;
use luo_model::Part;

// A group, and the place within it.
#[derive(Clone, Copy)]
pub struct Found {
    pub group: usize,
    pub rest: u128,
}

// The branch in which a place lies.
pub fn branch_of(tables: &Tables<'_>, parts: &[Part], n: usize, rank: u128) -> Found
    requires there { AreThere parts.now (length tables.now.program.nodes) }
    requires size { n ≤ tables.now.last }
    requires rank { rank < sum_below (part_entry tables.now.counts parts.now n) (length parts.now) }
    ensures { IsFound (part_entry tables.now.counts parts.now n)
        (length parts.now) rank result.group result.rest }
{
    let mut group = 0;
    let mut rest = rank;
    while group < parts.len() && tables.entry(parts[group].node, n) <= rest {
        rest -= tables.entry(parts[group].node, n);
        group += 1;
    }
    Found { group, rest }
}
