// What the total of each site is made of, and the totals of scopes at one size.
ghost use Rattle.std.specs.Prelude.{◌≡◌, ◌<◌, ◌≤◌, ◌+◌, ◌*◌, ℕ, List, length, drop, sum_by, slice_get, Some, None};
ghost use Rattle.luo_finite.specs.Listing.{In};
ghost use Rattle.luo_num.specs.Mark.{capped};
ghost use Rattle.luo_engine.specs.declared.tasks.Scope.{Scope as Scoped};
ghost use Rattle.luo_engine.specs.inner.Grid.{entry_of, Reaches};
ghost use Rattle.luo_engine.specs.inner.Points.{ArePointsOpen};
ghost use Rattle.luo_engine.specs.inner.Laid.{laid_number, IsScopeThere};

use crate::points::{Link, point_at};
use crate::table::Table;
use luo_model::Universe;
use luo_num::{Items, marked_add, marked_mul};

/// What is charged in a scope: its own on each structure of a node, the totals of the sites on that
/// structure, and of those on its factors, in rows of charged products, `arity` from `start` on.
#[derive(Drop)]
pub struct Scope {
    pub own: u128,
    pub node: usize,
    pub sites: Items<usize>,
    pub start: usize,
    pub arity: usize,
}

/// What the total of a site is made of.
#[derive(Drop)]
pub enum Task {
    /// The charges of scopes.
    Scopes { scopes: Items<Scope> },
    /// A walk over the collections of a node, and the site of its body.
    Walk { collection: usize, body: usize },
}

/// What is fixed of the sites: the ranks of their nodes, their levels, their order, and what their
/// totals are made of.
#[derive(Drop)]
pub struct Sites {
    pub ranks: Items<u32>,
    pub levels: Items<u32>,
    pub order: Items<usize>,
    pub tasks: Items<Task>,
    pub links: Items<Option<Link>>,
}

// The sum of the sites' totals of size n.
fn sites_sum(totals: &Table, sites: &[usize], n: usize) -> u128
    requires there { (s : ℕ) → In s sites.now → s < length totals.now }
    requires reach { Reaches n totals.now }
    ensures { result ≡ capped (sum_by (λ s. entry_of totals.now s n) sites.now) }
{
    let mut sum = 0;
    for s in sites {
        sum = marked_add(sum, totals.entry(*s, n));
    }
    sum
}

// What a scope charges over the structures of size n.
fn scope_at(
    universe: Universe,
    counts: &Table,
    totals: &Table,
    factors: &[Option<usize>],
    partials: &Table,
    links: &[Option<Link>],
    points: &Table,
    scope: &Scope,
    n: usize,
) -> u128
    requires open_rows { ArePointsOpen universe counts.now totals.now factors.now partials.now
        links.now points.now n (length links.now) }
    requires there { IsScopeThere (length counts.now) (length totals.now) links.now scope.now }
    ensures { result ≡ capped (laid_number universe (entry_of counts.now) (entry_of totals.now)
        factors.now links.now n scope.now) }
{
    let own = marked_mul(scope.own, counts.entry(scope.node, n));
    let sites = sites_sum(totals, scope.sites.as_slice(), n);
    let point = point_at(
        universe,
        counts,
        totals,
        factors,
        partials,
        links,
        points,
        scope.start,
        scope.arity,
        n,
    );
    marked_add(own, marked_add(sites, point))
}

// What scopes charge over the structures of size n.
pub fn scopes_sum(
    universe: Universe,
    counts: &Table,
    totals: &Table,
    factors: &[Option<usize>],
    partials: &Table,
    links: &[Option<Link>],
    points: &Table,
    scopes: &[Scope],
    n: usize,
) -> u128
    requires open_rows { ArePointsOpen universe counts.now totals.now factors.now partials.now
        links.now points.now n (length links.now) }
    requires there { (scope : Scoped) → In scope scopes.now
        → IsScopeThere (length counts.now) (length totals.now) links.now scope }
    ensures { result ≡ capped (sum_by (laid_number universe (entry_of counts.now)
        (entry_of totals.now) factors.now links.now n) scopes.now) }
{
    let mut sum = 0;
    for scope in scopes {
        let value = scope_at(
            universe, counts, totals, factors, partials, links, points, scope, n,
        );
        sum = marked_add(sum, value);
    }
    sum
}
