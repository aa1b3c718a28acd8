// Charged products of all cases over products, by factors.
ghost use Rattle.std.specs.Prelude.{◌≡◌, ◌<◌, ◌≤◌, ◌+◌, ℕ, List, length, drop, sum_by, slice_index, slice_get, Some, None};
ghost use Rattle.luo_num.specs.declared.limits.TheConstants.{SIZE_LIMIT};
ghost use Rattle.luo_finite.specs.Listing.{In};
ghost use Rattle.luo_num.specs.Mark.{capped};
ghost use Rattle.luo_engine.specs.inner.Grid.{entry_of, Reaches, SameShape};
ghost use Rattle.luo_recipes.specs.Shares.{inner};
ghost use Rattle.luo_engine.specs.inner.Partial.{closing};
ghost use Rattle.luo_engine.specs.inner.Points.{point_of, open_point, ArePointsBelow, ArePointsOpen, ArePointsClosed};

use crate::numbers::{closing_at, inner_at};
use crate::table::Table;
use luo_binom::Pascal;
use luo_model::Universe;
use luo_num::{Items, marked_add};

// A factor of a product that a case goes into: its node, the row of the factors after it, and the sites on it.
#[derive(Drop)]
pub struct Link {
    pub node: usize,
    pub behind: usize,
    pub sites: Items<usize>,
}

// What the sites' totals of smaller sizes give, shared with a row.
fn inner_sum(
    universe: Universe,
    pascal: &Pascal,
    totals: &Table,
    sites: &[usize],
    rest: &[u128],
    n: usize,
) -> u128
    requires small { n ≤ SIZE_LIMIT }
    requires reached { n ≤ pascal.now }
    requires there { (s : ℕ) → In s sites.now → s < length totals.now }
    requires reach { Reaches n totals.now }
    requires rest { n < length rest.now }
    ensures { result ≡ capped (sum_by
        (λ s. inner universe (entry_of totals.now s) (slice_index rest.now) n) sites.now) }
{
    let mut sum = 0;
    for s in sites {
        sum = marked_add(sum, inner_at(universe, pascal, totals.row(*s), rest, n));
    }
    sum
}

// What the sites' totals give where one of the two gets all.
fn outer_sum(totals: &Table, sites: &[usize], rest: &[u128], n: usize) -> u128
    requires there { (s : ℕ) → In s sites.now → s < length totals.now }
    requires reach { Reaches n totals.now }
    requires rest { n < length rest.now }
    ensures { result
        ≡ capped (sum_by (λ s. closing 0 (entry_of totals.now s) (slice_index rest.now) n
        (slice_index rest.now n)) sites.now) }
{
    let mut sum = 0;
    for s in sites {
        sum = marked_add(sum, closing_at(0, totals.row(*s), rest, n, rest[n]));
    }
    sum
}

// The open entry of row r at size n.
fn open_point_at(
    universe: Universe,
    pascal: &Pascal,
    counts: &Table,
    totals: &Table,
    partials: &Table,
    link: &Link,
    next: &[u128],
    n: usize,
) -> u128
    requires small { n ≤ SIZE_LIMIT }
    requires reached { n ≤ pascal.now }
    requires node { link.now.node < length counts.now }
    requires behind { link.now.behind < length partials.now }
    requires sites { (s : ℕ) → In s link.now.sites → s < length totals.now }
    requires counts_reach { Reaches n counts.now }
    requires totals_reach { Reaches n totals.now }
    requires partials_reach { Reaches n partials.now }
    requires next { n < length next.now }
    ensures { result
        ≡ capped
        (sum_by (λ s. inner universe (entry_of totals.now s)
        (entry_of partials.now link.now.behind) n) link.now.sites
        + inner universe (entry_of counts.now link.now.node) (slice_index next.now) n) }
{
    let sum = inner_sum(
        universe,
        pascal,
        totals,
        link.sites.as_slice(),
        partials.row(link.behind),
        n,
    );
    marked_add(
        sum,
        inner_at(universe, pascal, counts.row(link.node), next, n),
    )
}

// What the entries of size n add to an open entry; `whole` is the next row's entry.
fn point_ends_at(
    counts: &Table,
    totals: &Table,
    partials: &Table,
    link: &Link,
    next: &[u128],
    n: usize,
    whole: u128,
) -> u128
    requires node { link.now.node < length counts.now }
    requires behind { link.now.behind < length partials.now }
    requires sites { (s : ℕ) → In s link.now.sites → s < length totals.now }
    requires counts_reach { Reaches n counts.now }
    requires totals_reach { Reaches n totals.now }
    requires partials_reach { Reaches n partials.now }
    requires next { n < length next.now }
    ensures { result
        ≡ capped
        (sum_by
        (λ s. closing 0 (entry_of totals.now s) (entry_of partials.now link.now.behind) n
        (entry_of partials.now link.now.behind n))
        link.now.sites
        + closing 0 (entry_of counts.now link.now.node) (slice_index next.now) n whole) }
{
    let sum = outer_sum(totals, link.sites.as_slice(), partials.row(link.behind), n);
    marked_add(sum, closing_at(0, counts.row(link.node), next, n, whole))
}

// The open entry of row r at size n.
fn open_at(
    universe: Universe,
    pascal: &Pascal,
    counts: &Table,
    totals: &Table,
    factors: &[Option<usize>],
    partials: &Table,
    links: &[Option<Link>],
    points: &Table,
    r: usize,
    n: usize,
) -> u128
    requires small { n ≤ SIZE_LIMIT }
    requires reached { n ≤ pascal.now }
    requires below { ArePointsBelow universe counts.now totals.now factors.now partials.now
        links.now points.now n }
    requires row { r < length links.now }
    ensures { result
        ≡ capped (open_point universe (entry_of counts.now) (entry_of totals.now) factors.now
        (drop r links.now) n) }
{
    match &links[r] {
        None => 0,
        Some(link) => open_point_at(
            universe,
            pascal,
            counts,
            totals,
            partials,
            link,
            points.row(r + 1),
            n,
        ),
    }
}

// Opens size n: each row gets what reads smaller sizes alone.
pub fn open_points(
    universe: Universe,
    pascal: &Pascal,
    counts: &Table,
    totals: &Table,
    factors: &[Option<usize>],
    partials: &Table,
    links: &[Option<Link>],
    points: &mut Table,
    n: usize,
)
    requires small { n ≤ SIZE_LIMIT }
    requires reached { n ≤ pascal.now }
    requires below { ArePointsBelow universe counts.now totals.now factors.now partials.now
        links.now points.old n }
    ensures open_rows { ArePointsOpen universe counts.now totals.now factors.now partials.now
        links.now points.new n (length links.now) }
    ensures shape { SameShape points.old points.new }
{
    for r in 0..links.len() {
        let value = open_at(
            universe, pascal, counts, totals, factors, partials, links, points, r, n,
        );
        points.set(r, n, value);
    }
}

// The entry of row r at size n, from its open entry and the next row's entry `whole`.
fn closed_at(
    universe: Universe,
    counts: &Table,
    totals: &Table,
    factors: &[Option<usize>],
    partials: &Table,
    links: &[Option<Link>],
    points: &Table,
    r: usize,
    n: usize,
    whole: u128,
) -> u128
    requires open_row { ArePointsOpen universe counts.now totals.now factors.now partials.now
        links.now points.now n (r + 1) }
    requires row { r < length links.now }
    requires whole { whole
        ≡ capped (point_of universe (entry_of counts.now) (entry_of totals.now) factors.now
        (drop (r + 1) links.now) n) }
    ensures { result
        ≡ capped (point_of universe (entry_of counts.now) (entry_of totals.now) factors.now
        (drop r links.now) n) }
{
    match &links[r] {
        None => 0,
        Some(link) => {
            let ends = point_ends_at(counts, totals, partials, link, points.row(r + 1), n, whole);
            marked_add(points.entry(r, n), ends)
        }
    }
}

// Closes size n, once its totals are known.
pub fn close_points(
    universe: Universe,
    counts: &Table,
    totals: &Table,
    factors: &[Option<usize>],
    partials: &Table,
    links: &[Option<Link>],
    points: &mut Table,
    n: usize,
)
    requires { ArePointsOpen universe counts.now totals.now factors.now partials.now links.now
        points.old n (length links.now) }
    ensures closed_rows { ArePointsClosed universe counts.now totals.now factors.now partials.now
        links.now points.new n 0 }
    ensures shape { SameShape points.old points.new }
{
    let mut whole = 0;
    for r in (0..links.len()).rev() {
        whole = closed_at(
            universe, counts, totals, factors, partials, links, points, r, n, whole,
        );
        points.set(r, n, whole);
    }
}

// The charges of a case over a product, from its rows: `arity` from `start` on.
pub fn point_at(
    universe: Universe,
    counts: &Table,
    totals: &Table,
    factors: &[Option<usize>],
    partials: &Table,
    links: &[Option<Link>],
    points: &Table,
    start: usize,
    arity: usize,
    n: usize,
) -> u128
    requires open_rows { ArePointsOpen universe counts.now totals.now factors.now partials.now
        links.now points.now n (length links.now) }
    requires room { start + arity < length links.now }
    requires end { slice_get links.now (start + arity) ≡ Some None }
    ensures { result
        ≡ capped (point_of universe (entry_of counts.now) (entry_of totals.now) factors.now
        (drop start links.now) n) }
{
    let mut whole = 0;
    for i in (0..arity).rev() {
        whole = closed_at(
            universe,
            counts,
            totals,
            factors,
            partials,
            links,
            points,
            start + i,
            n,
            whole,
        );
    }
    whole
}
