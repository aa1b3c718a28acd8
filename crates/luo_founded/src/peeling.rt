// Numbers that lie on no circle of a graph, peeled off from the ends: those without targets, then
// those whose targets are all gone.
ghost use Rattle.std.specs.Prelude.{◌≡◌, ◌↔◌, ℕ, IsTrue, IfOk, IfSome, length};
ghost use Rattle.luo_finite.specs.Listing.{In};
ghost use Rattle.luo_founded.specs.inner.Marks.{Marked};
ghost use Rattle.luo_founded.specs.inner.Peeling.{IsLoose, IsPeeled};

use crate::made::is_marked;
use luo_num::{Items, NoMemory};
use std::alloc::Global;

// Whether each of these targets is marked.
fn all_gone(targets: &[usize], gone: &[bool]) -> bool
    ensures { IsTrue result ↔ ((y : ℕ) → In y targets.now → Marked gone.now y) }
{
    for y in targets {
        if !is_marked(gone, *y) {
            return false;
        }
    }
    true
}

// A number that is left, and of which no target is.
fn next_loose(edges: &[Items<usize>], gone: &[bool]) -> Option<usize>
    requires { length gone.now ≡ length edges.now }
    ensures { IfSome result (IsLoose edges.now gone.now) }
{
    for (x, targets) in edges.iter().enumerate() {
        if !is_marked(gone, x) && all_gone(targets.as_slice(), gone) {
            return Some(x);
        }
    }
    None
}

/// A table of numbers that lie on no circle. Where no circle is, all are marked.
pub(crate) fn peeled(alloc: Global, edges: &[Items<usize>]) -> Result<Items<bool>, NoMemory>
    ensures { IfOk result (IsPeeled edges.now) }
{
    let mut gone = Items::new(alloc);
    for _ in 0..edges.len() {
        gone.push(false)?;
    }
    while let Some(x) = next_loose(edges, gone.as_slice()) {
        gone.set(x, true);
    }
    Ok(gone)
}
