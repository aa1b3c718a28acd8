// The first component of a multiset or a powerset at a place.
ghost use Rattle.std.specs.Prelude.{◌≡◌, ◌+◌, ◌-◌, ◌<◌, ◌≤◌, length};
ghost use Rattle.luo_num.specs.Mark.{capped};
ghost use Rattle.luo_num.specs.declared.TheConstants.{MAX};
ghost use Rattle.luo_model.specs.Program.{shape_of};
ghost use Rattle.luo_model.specs.View.{plain_of};
ghost use Rattle.luo_places.specs.Tails.{first_node};
ghost use Rattle.luo_rank.specs.inner.Lookup.{IsLooked, entry_of, tail_at, IsLeft, Stands, IsFirstOf, left_count, IsBagTail, below_of, less_by, most_of};

use crate::choices::ways_at;
use crate::firsts::First;
use crate::planes::copies_within;
use crate::tables::Tables;
use luo_model::Shape;

// How many have only components before place i of size d, marked.
fn below(tables: &Tables<'_>, x: usize, f: usize, n: usize, d: usize, i: u128) -> u128
    requires tables { IsLooked tables.now }
    requires node { x < length tables.now.program.nodes }
    requires bag { IsBagTail (tail_at (plain_of tables.now.program) x f) }
    requires size { n ≤ tables.now.last }
    requires within { d ≤ n }
    requires some { 1 ≤ d }
    requires place { i ≤ MAX }
    ensures { result ≡ capped (below_of tables.now x f n d i) }
{
    match tables.shape(x) {
        Shape::Coll {
            kind,
            low,
            high,
            ..
        } => {
            let ways = ways_at(*kind, i, d, n);
            let least = (*low as usize).saturating_sub(f);
            copies_within(
                &ways,
                tables.plane(x, d - 1),
                d,
                least,
                most_left(*high, f, n),
                n,
            )
        }
        _ => 0,
    }
}

// The greatest number of components that is left after f of them, of size n.
fn most_left(high: Option<u32>, f: usize, n: usize) -> usize
    ensures { result ≡ most_of (less_by f high) n }
{
    match high {
        Some(high) => (high as usize).saturating_sub(f).min(n),
        None => n,
    }
}

// The size of the first component at a place.
fn size_of_first(tables: &Tables<'_>, x: usize, f: usize, n: usize, rank: u128) -> usize
    requires tables { IsLooked tables.now }
    requires node { x < length tables.now.program.nodes }
    requires bag { IsBagTail (tail_at (plain_of tables.now.program) x f) }
    requires size { n ≤ tables.now.last }
    requires some { 1 ≤ n }
    requires rank { rank < left_count tables.now x f n }
    requires small { rank ≤ MAX }
    ensures some { 1 ≤ result }
    ensures within { result ≤ n }
    ensures from { below_of tables.now x f n result 0 ≤ rank }
    ensures to { rank < below_of tables.now x f n result
        (entry_of tables.now.counts
        (first_node (tail_at (plain_of tables.now.program) x f)) result) }
{
    let mut d = 1;
    while d < n && below(tables, x, f, n, d + 1, 0) <= rank {
        d += 1;
    }
    d
}

// The place of the first component among those of its size, of which there are `all`.
fn place_of_first(
    tables: &Tables<'_>,
    x: usize,
    f: usize,
    n: usize,
    d: usize,
    all: u128,
    rank: u128,
) -> u128
    requires tables { IsLooked tables.now }
    requires node { x < length tables.now.program.nodes }
    requires bag { IsBagTail (tail_at (plain_of tables.now.program) x f) }
    requires size { n ≤ tables.now.last }
    requires within { d ≤ n }
    requires some { 1 ≤ d }
    requires small { rank ≤ MAX }
    requires few { all ≤ MAX }
    requires from { below_of tables.now x f n d 0 ≤ rank }
    requires to { rank < below_of tables.now x f n d all }
    ensures there { result < all }
    ensures from { below_of tables.now x f n d result ≤ rank }
    ensures to { rank < below_of tables.now x f n d (result + 1) }
{
    let mut low = 0;
    let mut high = all;
    while high - low > 1 {
        let middle = low + (high - low) / 2;
        if below(tables, x, f, n, d, middle) <= rank {
            low = middle;
        } else {
            high = middle;
        }
    }
    low
}

// The first component of a multiset or a powerset at a place.
pub fn bag_first(tables: &Tables<'_>, x: usize, f: usize, n: usize, rank: u128) -> First
    requires tables { IsLooked tables.now }
    requires node { x < length tables.now.program.nodes }
    requires stands { Stands (shape_of (plain_of tables.now.program) x) tables.now.last f n }
    requires left { IsLeft (tail_at (plain_of tables.now.program) x f) n }
    requires bag { IsBagTail (tail_at (plain_of tables.now.program) x f) }
    requires size { n ≤ tables.now.last }
    requires some { 1 ≤ n }
    requires rank { rank < left_count tables.now x f n }
    requires small { rank ≤ MAX }
    ensures first { IsFirstOf tables.now x f n rank result.size result.labels result.place
        result.back }
    ensures small { result.back ≤ MAX }
{
    let size = size_of_first(tables, x, f, n, rank);
    let all = tables.entry(tables.first_node(x, f, n), size);
    let place = place_of_first(tables, x, f, n, size, all, rank);
    First {
        size,
        labels: 0,
        place,
        back: rank - below(tables, x, f, n, size, place),
    }
}
