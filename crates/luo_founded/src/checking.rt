// The check of well-foundedness.
ghost use Rattle.std.specs.Prelude.{◌≡◌, ◌<◌, ◌↔◌, ℕ, IsTrue, IfOk, IfErr, MatchOption, MatchResult, length};
ghost use Rattle.luo_model.specs.View.{plain_of};
ghost use Rattle.luo_model.specs.Founded.{IsFounded, BreaksW2, HasZero, IsLeast};
ghost use Rattle.luo_founded.specs.inner.Marks.{Marked, Marks, MarkedComponent, ComponentAt};
ghost use Rattle.luo_founded.specs.Found.{Breaks, Refuses, WantsMemory, Answers};
ghost use Rattle.luo_founded.specs.declared.checking.NotFounded.{NotFounded};

use crate::calls::own_calls;
use crate::circles::least_circle;
use crate::least::least_sizes;
use crate::levels::wholes;
use crate::longest::longest;
use crate::made::{is_marked, made};
use crate::ranks::Ranks;
use crate::sites::site_levels;
use crate::steps::steps;
use luo_model::{Node, Program, Shape};
use luo_num::{Items, NoMemory};
use std::alloc::Global;

/// Why a program is not well-founded.
#[derive(Debug, Drop)]
pub enum NotFounded {
    /// This node isn't inhabited.
    W1 { node: usize },
    /// The component of this collection has a structure of size 0.
    W2 { node: usize },
    /// Same-size steps lead round these nodes.
    W3 { chain: Items<usize> },
    /// Each of these procedures calls the next on its own parameter.
    W4 { chain: Items<usize> },
    NoMemory,
}

impl From<NoMemory> for NotFounded {
    ghost use Rattle.luo_founded.specs.declared.checking.NotFounded.TheVariants.{NoMemory};

    ghost from_gives = { λ _ e. e ≡ NoMemory };

    fn from(_: NoMemory) -> Self {
        NotFounded::NoMemory
    }
}

// The least number below `many` that isn't marked.
fn first_unmarked(table: &[bool]) -> Option<usize>
    ensures { MatchOption result ((x : ℕ) → x < length table.now → Marked table.now x)
        (IsLeast (λ x. (x < length table.now) × (Marked table.now x → ⊥))) }
{
    for x in 0..table.len() {
        if !is_marked(table, x) {
            return Some(x);
        }
    }
    None
}

// Whether this is a collection whose component is marked.
fn has_empty_component(shape: &Shape, zero: &[bool]) -> bool
    ensures { IsTrue result ↔ MarkedComponent zero.now shape.now }
{
    match shape {
        Shape::Coll { part, .. } => is_marked(zero, part.node),
        _ => false,
    }
}

// The first collection whose component is marked.
fn first_empty(nodes: &[Node], zero: &[bool]) -> Option<usize>
    ensures { MatchOption result ((x : ℕ) → ComponentAt nodes.now zero.now x → ⊥)
        (IsLeast (ComponentAt nodes.now zero.now)) }
{
    for (x, node) in nodes.iter().enumerate() {
        if has_empty_component(&node.shape, zero) {
            return Some(x);
        }
    }
    None
}

// The ranks of a program in which no rule is broken, or the first rule that is.
fn checked<'a>(alloc: Global, program: &'a Program) -> Result<Ranks<'a>, NotFounded>
    ensures ranks { MatchResult result (λ ranks. ranks ≡ program.now)
        (Refuses (plain_of program.now)) }
    ensures founded { IfOk result (λ _. IsFounded (plain_of program.now)) }
{
    let inhabited = made(alloc, program, false)?;
    if let Some(node) = first_unmarked(inhabited.as_slice()) {
        return Err(NotFounded::W1 { node });
    }
    let zero = made(alloc, program, true)?;
    if let Some(node) = first_empty(program.nodes.as_slice(), zero.as_slice()) {
        return Err(NotFounded::W2 { node });
    }
    let edges = steps(alloc, program, zero.as_slice())?;
    if let Some(chain) = least_circle(alloc, edges.as_slice())? {
        return Err(NotFounded::W3 { chain });
    }
    let calls = own_calls(alloc, program)?;
    if let Some(chain) = least_circle(alloc, calls.as_slice())? {
        return Err(NotFounded::W4 { chain });
    }
    let node_ranks = longest(alloc, edges.as_slice())?;
    let wholes = wholes(alloc, program)?;
    let site_levels = site_levels(alloc, program, wholes.as_slice())?;
    let least_sizes = least_sizes(alloc, program)?;
    Ok(Ranks {
        program,
        node_ranks,
        site_levels,
        least_sizes,
    })
}

/// The ranks of a program in which no rule of well-foundedness is broken. Exactly where one is, the
/// answer is the first of the four rules that is broken, with the least node or the circle that it
/// names; or memory was refused.
pub fn found<'a>(alloc: Global, program: &'a Program) -> Result<Ranks<'a>, NotFounded>
    ensures ok { IfOk result (λ ranks. (ranks ≡ program.now) × IsFounded (plain_of program.now)) }
    ensures err { IfErr result (Refuses (plain_of program.now)) }
    ensures always { IsFounded (plain_of program.now) → IfErr result WantsMemory }
    ensures first { (e : NotFounded) → Breaks (plain_of program.now) e → MatchResult result
        (λ _. ⊥) (Answers e) }
{
    checked(alloc, program)
}
