// What words name in a program: a procedure, and a structure by its text.
ghost use Rattle.std.specs.Prelude.{◌≡◌, ◌<◌, ◌++◌, ℕ, List, length, codes, decimal, IfOk};
ghost use Rattle.luo_model.specs.Program as plain;
ghost use Rattle.luo_model.specs.View.{plain_of};
ghost use Rattle.luo_read.specs.Reading.{Refuses};
ghost use Rattle.luo_struct.specs.View.{tree_of};
ghost use Rattle.luo_answer.specs.Commands.Run as run;
ghost use Rattle.luo_answer.specs.Lines.{line};
ghost use Rattle.luo_answer.specs.WordRefusals.{unknown_line};
ghost use Rattle.luo_answer.specs.inner.Found.{place_of};
ghost use Rattle.luo_answer.specs.inner.Passes.{Passes, RefusedBy, itself};

use crate::lines::line_at;
use crate::refusal::{Line, Refusal};
use itoa::Buffer;
use luo_model::{Proc, Program};
use luo_num::NoMemory;
use luo_num::limits::{NESTING_LIMIT_HEAD, STRUCTURE_TEXT_LIMIT_LINE};
use luo_read::{StructError, read_structure};
use luo_struct::Structure;
use std::alloc::Global;

/// The line of a word that names nothing of the kind that is asked for.
pub fn unknown_line(alloc: Global, word: &[u8]) -> Result<Vec<u8>, NoMemory>
    ensures { IfOk result (λ text. text.items ≡ unknown_line word.now) }
{
    let mut text = Vec::from_slice(alloc, b"refused: U1: ")?;
    text.extend_from_slice(word)?;
    text.push(b'\n')?;
    Ok(text)
}

// The place of the first procedure of this name.
fn place_of(procs: &[Proc], name: &[u8]) -> Option<usize>
    ensures { result ≡ place_of procs.now name.now }
{
    for (f, procedure) in procs.iter().enumerate() {
        if procedure.name.as_slice() == name {
            return Some(f);
        }
    }
    None
}

/// The procedure of this name.
pub fn procedure_of(alloc: Global, program: &Program, name: &str) -> Result<usize, Refusal>
    ensures passes { Passes itself (run.procedure_of (plain_of program.now) name.now) result }
    ensures within { IfOk result (λ f. run.parameter_node (plain_of program.now) f
        < length program.now.nodes) }
{
    let name = name.as_bytes();
    match place_of(program.procs.as_slice(), name) {
        Some(f) => Ok(f),
        None => match unknown_line(alloc, name) {
            Ok(text) => Err(Refusal::Refused(Line::Made(text))),
            Err(_) => Err(Refusal::NoMemory),
        },
    }
}

// The line of a structure that is too large.
fn size_line(alloc: Global, size: u64) -> Result<Vec<u8>, NoMemory>
    ensures { IfOk result (λ text. text.items ≡ line (codes "refused: S3: size " ++ decimal size)) }
{
    let mut buffer = Buffer::new();
    let mut text = Vec::from_slice(alloc, b"refused: S3: size ")?;
    text.extend_from_slice(buffer.format(size).as_bytes())?;
    text.push(b'\n')?;
    Ok(text)
}

// The refusal of a text that gives no structure.
fn structure_refusal(alloc: Global, error: StructError) -> Refusal
    ensures { (p : plain.Program) (x : ℕ) (word : List ℕ) → Refuses p x word error
        → RefusedBy (run.StructureRefusal p x word) result }
{
    match error {
        StructError::Long { .. } => Refusal::Limit(Line::Fixed(STRUCTURE_TEXT_LIMIT_LINE)),
        StructError::S1 { at } => match line_at(alloc, b"refused: S1", at) {
            Ok(text) => Refusal::Refused(Line::Made(text)),
            Err(_) => Refusal::NoMemory,
        },
        StructError::Deep { at } => match line_at(alloc, NESTING_LIMIT_HEAD, at) {
            Ok(text) => Refusal::Limit(Line::Made(text)),
            Err(_) => Refusal::NoMemory,
        },
        StructError::S2 => Refusal::Refused(Line::Fixed(b"refused: S2\n")),
        StructError::S3 { size } => match size_line(alloc, size) {
            Ok(text) => Refusal::Refused(Line::Made(text)),
            Err(_) => Refusal::NoMemory,
        },
        StructError::NoMemory => Refusal::NoMemory,
    }
}

// The node of a procedure's parameter.
fn parameter_node(program: &Program, procedure: usize) -> usize
    ensures { result ≡ run.parameter_node (plain_of program.now) procedure }
{
    match program.procs.get(procedure) {
        Some(procedure) => procedure.on.node,
        None => 0,
    }
}

/// The structure of a procedure's parameter that has this text.
pub fn structure_of(
    alloc: Global,
    program: &Program,
    procedure: usize,
    text: &str,
) -> Result<Structure, Refusal>
    requires within { run.parameter_node (plain_of program.now) procedure
        < length program.now.nodes }
    ensures { Passes tree_of (run.structure_of (plain_of program.now)
        (run.parameter_node (plain_of program.now) procedure) text.now) result }
{
    let node = parameter_node(program, procedure);
    match read_structure(alloc, program, node, text.as_bytes()) {
        Ok(s) => Ok(s),
        Err(error) => Err(structure_refusal(alloc, error)),
    }
}
