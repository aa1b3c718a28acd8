// Least sizes.
ghost use Rattle.std.specs.Prelude.{◌≡◌, ◌<◌, ◌≤◌, ◌*◌, ℕ, min, sum_by, IfOk, MatchOption, length};
ghost use Rattle.luo_model.specs.declared.program.Part.{Part};
ghost use Rattle.luo_model.specs.View.{plain_of};
ghost use Rattle.luo_founded.specs.inner.Least.{past_last, least_part, least_by, size_at, IsCapped, IsLess, NoneLess, IsLesser, AreLeast};
ghost use Rattle.luo_model.specs.Founded.{IsFounded};

use luo_model::{Node, Part, Program, Shape};
use luo_num::limits::SIZE_LIMIT;
use luo_num::{Items, NoMemory};
use std::alloc::Global;

// Stands for sizes past the last of a table.
const PAST: u32 = SIZE_LIMIT as u32 + 1;

fn smaller(a: u32, b: u32) -> u32
    ensures { result ≡ min a b }
{
    if a <= b { a } else { b }
}

// The number of a table for a node.
fn size_at(table: &[u32], y: usize) -> u32
    requires { IsCapped table.now }
    ensures value { result ≡ size_at table.now y }
    ensures capped { result ≤ past_last }
{
    match table.get(y) {
        Some(size) => *size,
        None => PAST,
    }
}

fn least_part(parts: &[Part], table: &[u32]) -> u32
    requires { IsCapped table.now }
    ensures { result ≡ least_part (size_at table.now) parts.now }
{
    let mut least = PAST;
    for part in parts {
        least = smaller(least, size_at(table, part.node));
    }
    least
}

fn sum_of(parts: &[Part], table: &[u32]) -> u32
    requires { IsCapped table.now }
    ensures { result ≡ min past_last
        (sum_by (λ (part : Part). size_at table.now part.node) parts.now) }
{
    let mut sum = 0;
    for part in parts {
        sum = smaller(PAST, sum + size_at(table, part.node));
    }
    sum
}

fn product(low: u32, size: u32) -> u32
    requires { size ≤ past_last }
    ensures { result ≡ min past_last (low * size) }
{
    let all = low as u64 * size as u64;
    if all <= PAST as u64 { all as u32 } else { PAST }
}

// The size of a least structure of this construct by the table.
fn size_by(shape: &Shape, table: &[u32]) -> u32
    requires { IsCapped table.now }
    ensures { result ≡ min past_last (least_by (size_at table.now) shape.now) }
{
    match shape {
        Shape::Atom { weight } => smaller(PAST, *weight),
        Shape::Union { parts } => smaller(PAST, least_part(parts.as_slice(), table)),
        Shape::Product { parts } => sum_of(parts.as_slice(), table),
        Shape::Coll { part, low, .. } => product(*low, size_at(table, part.node)),
    }
}

// The one of these with the lesser size: what was found so far, and a node with a size that is less
// than its old one.
fn lesser(next: Option<(usize, u32)>, node: usize, size: u32, old: u32) -> Option<(usize, u32)>
    ensures { IsLesser next (node, size) old result }
{
    if old <= size {
        return next;
    }
    match next {
        Some((at, least)) if least <= size => Some((at, least)),
        _ => Some((node, size)),
    }
}

// Of the nodes that are made of less than the table has, one that is made of least. So the numbers
// that are set never fall, and each is set once, as in Knuth's form of Dijkstra's algorithm (1977).
fn next_less(nodes: &[Node], table: &[u32]) -> Option<(usize, u32)>
    requires { IsCapped table.now }
    ensures { MatchOption result (NoneLess nodes.now table.now) (IsLess nodes.now table.now) }
{
    let mut next = None;
    for (x, node) in nodes.iter().enumerate() {
        next = lesser(next, x, size_by(&node.shape, table), size_at(table, x));
    }
    next
}

/// The least sizes of all nodes.
pub(crate) fn least_sizes(alloc: Global, program: &Program) -> Result<Items<u32>, NoMemory>
    requires { IsFounded (plain_of program.now) }
    ensures { IfOk result (AreLeast (plain_of program.now)) }
{
    let nodes = program.nodes.as_slice();
    let mut table = Items::new(alloc);
    for _ in 0..nodes.len() {
        table.push(PAST)?;
    }
    while let Some((x, size)) = next_less(nodes, table.as_slice()) {
        table.set(x, size);
    }
    Ok(table)
}
