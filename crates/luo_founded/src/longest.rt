// Longest walks in a graph without circles.
ghost use Rattle.std.specs.Prelude.{◌≡◌, ◌<◌, ◌+◌, ◌≤◌, ℕ, List, Some, max, IfOk, length, slice_get};
ghost use Rattle.luo_finite.specs.Listing.{In};
ghost use Rattle.luo_founded.specs.inner.Graph.{Edge};
ghost use Rattle.luo_founded.specs.inner.Longest.{past, AreUpTo, IsMost, AreLongestTo, AreLongest};
ghost use Rattle.luo_finite.specs.Walk.{OnCircle};

use luo_num::{Items, NoMemory};
use std::alloc::Global;

// 1 more than the rank that is there, else 0.
pub(crate) fn past(ranks: &[u32], y: usize) -> u32
    requires small { AreUpTo 1000000 ranks.now }
    ensures { result ≡ past (slice_get ranks.now y) }
{
    match ranks.get(y) {
        Some(rank) => *rank + 1,
        None => 0,
    }
}

pub(crate) fn larger(a: u32, b: u32) -> u32
    ensures { result ≡ max a b }
{
    if a <= b { b } else { a }
}

// The greatest of these, and 0 of none.
fn most(targets: &[usize], ranks: &[u32]) -> u32
    requires small { AreUpTo 1000000 ranks.now }
    ensures { IsMost targets.now ranks.now result }
{
    let mut most = 0;
    for y in targets {
        most = larger(most, past(ranks, *y));
    }
    most
}

// One round more.
fn longer(alloc: Global, edges: &[Items<usize>], ranks: &[u32]) -> Result<Items<u32>, NoMemory>
    requires small { AreUpTo 1000000 ranks.now }
    ensures { IfOk result (λ more. (length more ≡ length edges.now) ×
        ((x r : ℕ) (targets : List ℕ) → slice_get edges.now x ≡ Some targets
        → slice_get more x ≡ Some r → IsMost targets ranks.now r)) }
{
    let mut more = Items::new(alloc);
    for targets in edges {
        more.push(most(targets.as_slice(), ranks))?;
    }
    Ok(more)
}

/// The length of the longest walk from each number.
pub(crate) fn longest(alloc: Global, edges: &[Items<usize>]) -> Result<Items<u32>, NoMemory>
    requires few { length edges.now < 1000000 }
    requires within { (x y : ℕ) → Edge edges.now x y → y < length edges.now }
    requires no_circle { (x : ℕ) → OnCircle (Edge edges.now) x → ⊥ }
    ensures { IfOk result (AreLongest edges.now) }
{
    let mut ranks = Items::new(alloc);
    for _ in 0..edges.len() {
        ranks.push(0)?;
    }
    for _ in 0..edges.len() {
        ranks = longer(alloc, edges, ranks.as_slice())?;
    }
    Ok(ranks)
}
