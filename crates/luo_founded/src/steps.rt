// The same-size steps of a program as a graph.
ghost use Rattle.std.specs.Prelude.{◌≡◌, ◌↔◌, ◌<◌, ◌+◌, ◌≤◌, ℕ, suc, Some, IsTrue, IfOk, MatchOption, length, slice_get};
ghost use Rattle.luo_finite.specs.Listing.{In};
ghost use Rattle.luo_model.specs.declared.program.Part.{Part};
ghost use Rattle.luo_model.specs.View.{plain_of};
ghost use Rattle.luo_model.specs.Member.{IsWithin};
ghost use Rattle.luo_founded.specs.inner.Marks.{Marked, Marks};
ghost use Rattle.luo_founded.specs.inner.Graph.{IsGraph};
ghost use Rattle.luo_model.specs.Founded.{KeepsSize, SameSize, HasZero};

use crate::made::is_marked;
use luo_model::{Part, Program, Shape};
use luo_num::{Items, NoMemory};
use std::alloc::Global;

// Whether each part but the one at this place is marked.
fn others_marked(parts: &[Part], table: &[bool], at: usize) -> bool
    ensures { IsTrue result ↔
        ((k : ℕ) (other : Part) → slice_get parts.now k ≡ Some other → (k ≡ at → ⊥)
        → Marked table.now other.node) }
{
    for (k, part) in parts.iter().enumerate() {
        if k != at && !is_marked(table, part.node) {
            return false;
        }
    }
    true
}

// The nodes of these parts.
fn branches(alloc: Global, parts: &[Part]) -> Result<Items<usize>, NoMemory>
    ensures { IfOk result (λ nodes. (y : ℕ) → In y nodes ↔
        ((part : Part) × In part parts.now × (part.node ≡ y))) }
{
    let mut nodes = Items::new(alloc);
    for part in parts {
        nodes.push(part.node)?;
    }
    Ok(nodes)
}

// The nodes of those parts for which each other one is marked.
fn lone_parts(alloc: Global, parts: &[Part], table: &[bool]) -> Result<Items<usize>, NoMemory>
    ensures { IfOk result (λ nodes. (y : ℕ) → In y nodes ↔
        ((i : ℕ) × (part : Part) × (slice_get parts.now i ≡ Some part) × (part.node ≡ y) ×
        ((k : ℕ) (other : Part) → slice_get parts.now k ≡ Some other → (k ≡ i → ⊥)
        → Marked table.now other.node))) }
{
    let mut nodes = Items::new(alloc);
    for (i, part) in parts.iter().enumerate() {
        if others_marked(parts, table, i) {
            nodes.push(part.node)?;
        }
    }
    Ok(nodes)
}

// Whether there may be one component.
fn allows_one(low: u32, high: Option<u32>) -> bool
    ensures { IsTrue result ↔ IsWithin low high 1 }
{
    low <= 1
        && match high {
            Some(most) => 1 <= most,
            None => true,
        }
}

// The parts whose size a structure of this construct may have, where the marked nodes have
// structures of size 0.
fn targets(alloc: Global, shape: &Shape, zero: &[bool]) -> Result<Items<usize>, NoMemory>
    ensures { IfOk result (λ nodes. (y : ℕ) → In y nodes ↔ KeepsSize
        (Marked zero.now) shape.now y) }
{
    match shape {
        Shape::Atom { .. } => Ok(Items::new(alloc)),
        Shape::Union { parts } => branches(alloc, parts.as_slice()),
        Shape::Product { parts } => lone_parts(alloc, parts.as_slice(), zero),
        Shape::Coll {
            part,
            low,
            high,
            ..
        } => {
            let mut nodes = Items::new(alloc);
            if allows_one(*low, *high) {
                nodes.push(part.node)?;
            }
            Ok(nodes)
        }
    }
}

/// The same-size steps.
pub(crate) fn steps(
    alloc: Global,
    program: &Program,
    zero: &[bool],
) -> Result<Items<Items<usize>>, NoMemory>
    requires zero { Marks (HasZero (plain_of program.now)) (length program.now.nodes) zero.now }
    ensures { IfOk result (λ edges. IsGraph (SameSize (plain_of program.now))
        (length program.now.nodes) edges) }
{
    let mut edges = Items::new(alloc);
    for node in program.nodes.as_slice() {
        edges.push(targets(alloc, &node.shape, zero)?)?;
    }
    Ok(edges)
}
