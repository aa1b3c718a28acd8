// `run FILE PROC STRUCTURE` from the program on.
ghost use Rattle.std.specs.Prelude.{◌≡◌, ◌<◌, length, IfOk, OnOk};
ghost use Rattle.luo_interp.specs.Takes.{Takes};
ghost use Rattle.luo_model.specs.View.{plain_of};
ghost use Rattle.luo_struct.specs.View.{tree_of};
ghost use Rattle.luo_answer.specs.Commands.Run as steps;
ghost use Rattle.luo_answer.specs.inner.Found.{IsThere, has_result, AddsTail};
ghost use Rattle.luo_answer.specs.inner.Passes.{Passes, itself};

use crate::refusal::{Line, Refusal};
use crate::steps::{founded, procedure_of, structure_of};
use itoa::Buffer;
use luo_founded::Ranks;
use luo_interp::{charge, make};
use luo_model::Program;
use luo_num::{Items, NoMemory, Text};
use luo_struct::{Structure, write_structure};
use std::alloc::Global;

// What a procedure charges on a structure.
fn charge_of(ranks: &Ranks<'_>, procedure: usize, s: &Structure) -> Result<u128, Refusal>
    requires takes { Takes (plain_of ranks.now) procedure (tree_of s.now) }
    ensures { Passes itself (steps.charge_of (plain_of ranks.now) procedure
        (tree_of s.now)) result }
{
    match charge(ranks.program(), ranks, procedure, s) {
        Ok(charge) => Ok(charge),
        Err(_) => Err(Refusal::Overflow(Line::Fixed(b"overflow: charge\n"))),
    }
}

// Whether a procedure has a result.
fn has_result(program: &Program, procedure: usize) -> bool
    ensures { result ≡ has_result (plain_of program.now) procedure }
{
    match program.procs.get(procedure) {
        Some(there) => there.result.is_some(),
        None => false,
    }
}

// Puts what the procedure makes of the structure behind the text, as a line, where it has a result.
fn put_made(
    alloc: Global,
    text: &mut Vec<u8>,
    ranks: &Ranks<'_>,
    procedure: usize,
    s: &Structure,
) -> Result<(), NoMemory>
    requires takes { Takes (plain_of ranks.now) procedure (tree_of s.now) }
    ensures { OnOk result (AddsTail (plain_of ranks.now) procedure (tree_of s.now)
        text.old.items text.new.items) }
{
    let program = ranks.program();
    if !has_result(program, procedure) {
        return Ok(());
    }
    let made = make(alloc, program, ranks, procedure, s)?;
    let written = write_structure(alloc, &made)?;
    text.extend_from_slice(written.as_slice())?;
    text.push(b'\n')?;
    Ok(())
}

// The charge in a line, and what is made of the structure in a second one.
fn run_bytes(
    alloc: Global,
    ranks: &Ranks<'_>,
    procedure: usize,
    s: &Structure,
    charge: u128,
) -> Result<Vec<u8>, NoMemory>
    requires takes { Takes (plain_of ranks.now) procedure (tree_of s.now) }
    ensures { IfOk result (λ text. steps.IsRunText (plain_of ranks.now) procedure
        (tree_of s.now) charge text.items) }
{
    let mut buffer = Buffer::new();
    let mut text = Vec::from_slice(alloc, buffer.format(charge).as_bytes())?;
    text.push(b'\n')?;
    put_made(alloc, &mut text, ranks, procedure, s)?;
    Ok(text)
}

// The text of a run.
fn run_text(
    alloc: Global,
    ranks: &Ranks<'_>,
    procedure: usize,
    s: &Structure,
    charge: u128,
) -> Result<Text, Refusal>
    requires takes { Takes (plain_of ranks.now) procedure (tree_of s.now) }
    ensures { Passes itself (steps.run_text (plain_of ranks.now) procedure
        (tree_of s.now) charge) result }
{
    let text = run_bytes(alloc, ranks, procedure, s, charge)?;
    Ok(Items::from_vec(text))
}

// The run of a procedure that is there, on the structure of this text.
fn run_on(
    alloc: Global,
    ranks: &Ranks<'_>,
    procedure: usize,
    structure: &str,
) -> Result<Text, Refusal>
    requires there { IsThere (plain_of ranks.now) procedure }
    requires within { steps.parameter_node (plain_of ranks.now) procedure
        < length ranks.now.nodes }
    ensures { Passes itself
        (steps.run_on (plain_of ranks.now) structure.now procedure) result }
{
    let s = structure_of(alloc, ranks.program(), procedure, structure)?;
    let charge = charge_of(ranks, procedure, &s)?;
    run_text(alloc, ranks, procedure, &s, charge)
}

/// What the procedure of this name charges on the structure of this text, and what it makes of it.
///
/// Refused are a program that is not well-founded, a name of no procedure, a text that gives no structure of its
/// parameter's type, and a charge above `MAX`, in this order; `NoMemory` comes where memory is refused.
pub fn run_named(
    alloc: Global,
    program: &Program,
    procedure: &str,
    structure: &str,
) -> Result<Text, Refusal>
    ensures { Passes itself
        (steps.run_named procedure.now structure.now (plain_of program.now)) result }
{
    let ranks = founded(alloc, program)?;
    let place = procedure_of(alloc, program, procedure)?;
    run_on(alloc, &ranks, place, structure)
}
