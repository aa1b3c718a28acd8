// The first of what is left at a place.
ghost use Rattle.std.specs.Prelude.{◌≡◌, ◌+◌, ◌*◌, ◌-◌, ◌<◌, ◌≤◌, suc, length};
ghost use Rattle.luo_finite.specs.Range.{sum_below};
ghost use Rattle.luo_num.specs.Mark.{capped};
ghost use Rattle.luo_num.specs.declared.TheConstants.{MAX};
ghost use Rattle.luo_model.specs.Program.{shape_of};
ghost use Rattle.luo_model.specs.View.{plain_of};
ghost use Rattle.luo_places.specs.Tails.{IsSpread, GoesOn};
ghost use Rattle.luo_rank.specs.inner.Lookup.{IsLooked, tail_at, IsLeft, Stands, IsFirstOf, left_count};

use crate::bags::bag_first;
use crate::shares::share_first;
use crate::tables::Tables;

// The size of the first, the place of its labels, its place, and that of the rest.
#[derive(Clone, Copy)]
pub struct First {
    pub size: usize,
    pub labels: u128,
    pub place: u128,
    pub back: u128,
}

// The first of what is left after f parts at a place.
pub fn first_of(tables: &Tables<'_>, x: usize, f: usize, n: usize, rank: u128) -> First
    requires tables { IsLooked tables.now }
    requires node { x < length tables.now.program.nodes }
    requires stands { Stands (shape_of (plain_of tables.now.program) x) tables.now.last f n }
    requires left { IsLeft (tail_at (plain_of tables.now.program) x f) n }
    requires size { n ≤ tables.now.last }
    requires rank { rank < left_count tables.now x f n }
    requires small { rank ≤ MAX }
    ensures first { IsFirstOf tables.now x f n rank result.size result.labels result.place
        result.back }
    ensures small { result.back ≤ MAX }
{
    if tables.is_bag(x, f) {
        bag_first(tables, x, f, n, rank)
    } else {
        share_first(tables, x, f, n, rank)
    }
}
