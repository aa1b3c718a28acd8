// The first of what doesn't stand by the order, at a place.
ghost use Rattle.std.specs.Prelude.{◌≡◌, ◌+◌, ◌*◌, ◌-◌, ◌<◌, ◌≤◌, suc, length};
ghost use Rattle.luo_finite.specs.Range.{sum_below};
ghost use Rattle.luo_num.specs.Mark.{capped};
ghost use Rattle.luo_num.specs.declared.TheConstants.{MAX};
ghost use Rattle.luo_model.specs.Program.{shape_of};
ghost use Rattle.luo_model.specs.View.{plain_of};
ghost use Rattle.luo_places.specs.Tails.{IsSpread};
ghost use Rattle.luo_rank.specs.inner.Lookup.{IsLooked, IsCounted, IsRow, tail_at, IsLeft, Stands, IsFirstOf, left_count, term_of, IsFound};

use crate::branches::Found;
use crate::firsts::First;
use crate::tables::Tables;
use luo_num::{marked_add, marked_mul};

// How many have a first of size k, marked: `behind` has how many there are after one part more.
fn term(tables: &Tables<'_>, x: usize, f: usize, behind: &[u128], n: usize, k: usize) -> u128
    requires tables { IsCounted tables.now }
    requires node { x < length tables.now.program.nodes }
    requires stands { Stands (shape_of (plain_of tables.now.program) x) tables.now.last f n }
    requires left { IsLeft (tail_at (plain_of tables.now.program) x f) n }
    requires spread { IsSpread (tail_at (plain_of tables.now.program) x f) }
    requires size { n ≤ tables.now.last }
    requires within { k ≤ n }
    requires behind { IsRow tables.now x (f + 1) behind.now }
    ensures { result ≡ capped (term_of tables.now x f n k) }
{
    let first = tables.entry(tables.first_node(x, f, n), k);
    if first == 0 {
        0
    } else {
        let both = marked_mul(first, behind[n - k]);
        marked_mul(both, tables.ways(x, f, n, k))
    }
}

// The size of the first at a place, and the place among those whose first has this size.
fn size_at(tables: &Tables<'_>, x: usize, f: usize, behind: &[u128], n: usize, rank: u128) -> Found
    requires tables { IsCounted tables.now }
    requires node { x < length tables.now.program.nodes }
    requires stands { Stands (shape_of (plain_of tables.now.program) x) tables.now.last f n }
    requires left { IsLeft (tail_at (plain_of tables.now.program) x f) n }
    requires spread { IsSpread (tail_at (plain_of tables.now.program) x f) }
    requires size { n ≤ tables.now.last }
    requires behind { IsRow tables.now x (f + 1) behind.now }
    requires rank { rank < sum_below (term_of tables.now x f n) (suc n) }
    requires small { rank ≤ MAX }
    ensures { IsFound (term_of tables.now x f n) (suc n) rank result.group result.rest }
{
    let mut group = 0;
    let mut rest = rank;
    while group <= n && term(tables, x, f, behind, n, group) <= rest {
        rest -= term(tables, x, f, behind, n, group);
        group += 1;
    }
    Found { group, rest }
}

// How many there are, where something is left and the bounds allow it, marked.
pub fn all_shared(tables: &Tables<'_>, x: usize, f: usize, behind: &[u128], n: usize) -> u128
    requires tables { IsCounted tables.now }
    requires node { x < length tables.now.program.nodes }
    requires stands { Stands (shape_of (plain_of tables.now.program) x) tables.now.last f n }
    requires left { IsLeft (tail_at (plain_of tables.now.program) x f) n }
    requires spread { IsSpread (tail_at (plain_of tables.now.program) x f) }
    requires size { n ≤ tables.now.last }
    requires behind { IsRow tables.now x (f + 1) behind.now }
    ensures { result ≡ capped (sum_below (term_of tables.now x f n) (suc n)) }
{
    let mut sum = 0;
    for k in 0..n + 1 {
        sum = marked_add(sum, term(tables, x, f, behind, n, k));
    }
    sum
}

// The first at a place, where the components don't stand by the order.
pub fn share_first(tables: &Tables<'_>, x: usize, f: usize, n: usize, rank: u128) -> First
    requires tables { IsLooked tables.now }
    requires node { x < length tables.now.program.nodes }
    requires stands { Stands (shape_of (plain_of tables.now.program) x) tables.now.last f n }
    requires left { IsLeft (tail_at (plain_of tables.now.program) x f) n }
    requires spread { IsSpread (tail_at (plain_of tables.now.program) x f) }
    requires size { n ≤ tables.now.last }
    requires rank { rank < left_count tables.now x f n }
    requires small { rank ≤ MAX }
    ensures first { IsFirstOf tables.now x f n rank result.size result.labels result.place
        result.back }
    ensures small { result.back ≤ MAX }
{
    let behind = tables.rest(x, f + 1);
    let found = size_at(tables, x, f, behind, n, rank);
    let size = found.group;
    let width = behind[n - size];
    let both = marked_mul(tables.entry(tables.first_node(x, f, n), size), width);
    let within = found.rest % both;
    First {
        size,
        labels: found.rest / both,
        place: within / width,
        back: within % width,
    }
}
