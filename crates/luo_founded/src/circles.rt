// The circle that is named in a graph, held as the targets of each number.
ghost use Rattle.std.specs.Prelude.{◌≡◌, ◌↔◌, ◌<◌, ◌+◌, ℕ, suc, IsTrue, IfOk, MatchOption, length};
ghost use Rattle.luo_finite.specs.Listing.{In};
ghost use Rattle.luo_founded.specs.inner.Marks.{Marked};
ghost use Rattle.luo_founded.specs.inner.Graph.{Edge, IsGraph, IsLayer, IsLeastMarked, IsLeastStep, IsFirstWay, IsShortCircle};
ghost use Rattle.luo_founded.specs.inner.Peeling.{IsPeeled};
ghost use Rattle.luo_founded.specs.inner.Layers.{AreLayers};
ghost use Rattle.luo_finite.specs.Walk.{Walk, OnCircle, IsNamedCircle};

use crate::made::is_marked;
use crate::peeling::peeled;
use luo_num::{Items, NoMemory};
use std::alloc::Global;

// Whether one of these targets is marked.
fn leads(targets: &[usize], table: &[bool]) -> bool
    ensures { IsTrue result ↔ ((y : ℕ) × In y targets.now × Marked table.now y) }
{
    for y in targets {
        if is_marked(table, *y) {
            return true;
        }
    }
    false
}

// Whether a number is one of these.
fn is_among(targets: &[usize], y: usize) -> bool
    ensures { IsTrue result ↔ In y targets.now }
{
    for target in targets {
        if *target == y {
            return true;
        }
    }
    false
}

// The least of these targets that is marked.
fn least_marked(targets: &[usize], table: &[bool]) -> Option<usize>
    ensures { MatchOption result ((y : ℕ) → In y targets.now → Marked table.now y → ⊥)
        (IsLeastMarked targets.now table.now) }
{
    for y in 0..table.len() {
        if is_marked(table, y) && is_among(targets, y) {
            return Some(y);
        }
    }
    None
}

// The layer of no step: home alone.
fn first_layer(alloc: Global, many: usize, home: usize) -> Result<Items<bool>, NoMemory>
    requires { home < many }
    ensures { IfOk result (λ table. (x : ℕ) → Marked table x ↔ (x ≡ home)) }
{
    let mut table = Items::new(alloc);
    for x in 0..many {
        table.push(x == home)?;
    }
    Ok(table)
}

// The layer of one step more.
fn next_layer(
    alloc: Global,
    edges: &[Items<usize>],
    layer: &[bool],
) -> Result<Items<bool>, NoMemory>
    ensures { IfOk result (λ table. (x : ℕ) → Marked table x ↔
        ((y : ℕ) × Edge edges.now x y × Marked layer.now y)) }
{
    let mut table = Items::new(alloc);
    for targets in edges {
        table.push(leads(targets.as_slice(), layer))?;
    }
    Ok(table)
}

// The least number that is marked and to which an edge leads from this one.
fn next_step(edges: &[Items<usize>], at: usize, table: &[bool]) -> Option<usize>
    ensures { MatchOption result ((y : ℕ) → Edge edges.now at y → Marked table.now y → ⊥)
        (IsLeastStep edges.now table.now at) }
{
    let targets = edges.get(at)?;
    least_marked(targets.as_slice(), table)
}

// The first way of as many steps as there are layers from home round to home.
fn first_way(
    alloc: Global,
    edges: &[Items<usize>],
    home: usize,
    layers: &[Items<bool>],
) -> Result<Items<usize>, NoMemory>
    requires layers { AreLayers edges.now home (length layers.now) layers.now }
    requires leads { Walk (Edge edges.now) (length layers.now) home home }
    ensures { IfOk result (λ way. IsFirstWay (Edge edges.now) home (length layers.now) home way) }
{
    let mut way = Items::new(alloc);
    way.push(home)?;
    let mut at = home;
    let mut left = layers.len();
    while left > 0 {
        left -= 1;
        let Some(layer) = layers.get(left) else {
            return Ok(way);
        };
        let Some(y) = next_step(edges, at, layer.as_slice()) else {
            return Ok(way);
        };
        way.push(y)?;
        at = y;
    }
    Ok(way)
}

// The shortest circle through home, and the first among these, or `None` where there is none.
fn circle_at(
    alloc: Global,
    edges: &[Items<usize>],
    home: usize,
) -> Result<Option<Items<usize>>, NoMemory>
    requires there { home < length edges.now }
    ensures { IfOk result (λ found. MatchOption found (OnCircle (Edge edges.now) home → ⊥)
        (IsShortCircle (Edge edges.now) home)) }
{
    let mut layers = Items::new(alloc);
    layers.push(first_layer(alloc, edges.len(), home)?)?;
    for k in 0..edges.len() + 1 {
        let Some(last) = layers.get(k) else {
            return Ok(None);
        };
        let next = next_layer(alloc, edges, last.as_slice())?;
        if is_marked(next.as_slice(), home) {
            return Ok(Some(first_way(alloc, edges, home, layers.as_slice())?));
        }
        layers.push(next)?;
    }
    Ok(None)
}

// The same, where it is known of some numbers that they lie on no circle.
fn circle_past(
    alloc: Global,
    edges: &[Items<usize>],
    gone: &[bool],
    home: usize,
) -> Result<Option<Items<usize>>, NoMemory>
    requires gone { IsPeeled edges.now gone.now }
    requires there { home < length edges.now }
    ensures { IfOk result (λ found. MatchOption found (OnCircle (Edge edges.now) home → ⊥)
        (IsShortCircle (Edge edges.now) home)) }
{
    if is_marked(gone, home) {
        return Ok(None);
    }
    circle_at(alloc, edges, home)
}

/// The circle of the least number that lies on one: a shortest one through it, and the first among
/// these.
pub(crate) fn least_circle(
    alloc: Global,
    edges: &[Items<usize>],
) -> Result<Option<Items<usize>>, NoMemory>
    ensures { IfOk result (λ found. MatchOption found ((x : ℕ) → OnCircle (Edge edges.now) x → ⊥)
        (λ chain. (x : ℕ) × IsNamedCircle (Edge edges.now) x chain)) }
{
    let gone = peeled(alloc, edges)?;
    for home in 0..edges.len() {
        if let Some(chain) = circle_past(alloc, edges, gone.as_slice(), home)? {
            return Ok(Some(chain));
        }
    }
    Ok(None)
}
