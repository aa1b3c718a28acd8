// What the rules make, as tables of marks.
ghost use Rattle.std.specs.Prelude.{◌≡◌, ◌↔◌, ◌<◌, ◌⊎◌, ℕ, IsTrue, IfOk, MatchOption, length};
ghost use Rattle.luo_finite.specs.Listing.{In};
ghost use Rattle.luo_model.specs.declared.program.Part.{Part};
ghost use Rattle.luo_model.specs.View.{plain_of};
ghost use Rattle.luo_founded.specs.inner.Marks.{Marked, Starts, Marks, IsNext, IsClosed};
ghost use Rattle.luo_model.specs.Founded.{IsBuilt, Built};

use luo_model::{Node, Part, Program, Shape};
use luo_num::{Items, NoMemory};
use std::alloc::Global;

/// Whether the table marks a number.
pub(crate) fn is_marked(table: &[bool], at: usize) -> bool
    ensures { IsTrue result ↔ Marked table.now at }
{
    match table.get(at) {
        Some(mark) => *mark,
        None => false,
    }
}

// Whether each of these parts is marked.
fn all_marked(parts: &[Part], table: &[bool]) -> bool
    ensures { IsTrue result ↔ ((part : Part) → In part parts.now → Marked table.now part.node) }
{
    for part in parts {
        if !is_marked(table, part.node) {
            return false;
        }
    }
    true
}

// Whether one of these parts is marked.
fn one_marked(parts: &[Part], table: &[bool]) -> bool
    ensures { IsTrue result ↔ ((part : Part) × In part parts.now × Marked table.now part.node) }
{
    for part in parts {
        if is_marked(table, part.node) {
            return true;
        }
    }
    false
}

// Whether what is marked makes this construct; with `empty`, from atoms of weight 0 alone.
fn is_made(shape: &Shape, table: &[bool], empty: bool) -> bool
    ensures { IsTrue result ↔ IsBuilt (Starts empty) (Marked table.now) shape.now }
{
    match shape {
        Shape::Atom { weight } => !empty || *weight == 0,
        Shape::Union { parts } => one_marked(parts.as_slice(), table),
        Shape::Product { parts } => all_marked(parts.as_slice(), table),
        Shape::Coll { part, low, .. } => *low == 0 || is_marked(table, part.node),
    }
}

// The first node that isn't marked, and that the marked ones make.
fn next_made(nodes: &[Node], table: &[bool], empty: bool) -> Option<usize>
    requires { length table.now ≡ length nodes.now }
    ensures { MatchOption result (IsClosed (Starts empty) nodes.now table.now)
        (IsNext (Starts empty) nodes.now table.now) }
{
    for (x, node) in nodes.iter().enumerate() {
        if !is_marked(table, x) && is_made(&node.shape, table, empty) {
            return Some(x);
        }
    }
    None
}

/// The nodes that the rules make: those that are inhabited, or with `empty` those with a structure
/// of size 0.
pub(crate) fn made(alloc: Global, program: &Program, empty: bool) -> Result<Items<bool>, NoMemory>
    ensures { IfOk result (λ table. Marks (Built (Starts empty) (plain_of program.now))
        (length program.now.nodes) table) }
{
    let nodes = program.nodes.as_slice();
    let mut table = Items::new(alloc);
    for _ in 0..nodes.len() {
        table.push(false)?;
    }
    while let Some(x) = next_made(nodes, table.as_slice(), empty) {
        table.set(x, true);
    }
    Ok(table)
}
