// Structures of a node, read from their texts.
ghost use Rattle.std.specs.Prelude.{◌≡◌, ◌<◌, ◌^◌, ◌-◌, ◌↔◌, IsTrue, IfOk, IfErr, MatchResult, length};
ghost use Rattle.luo_model.specs.Invariant.{IsProgram};
ghost use Rattle.luo_model.specs.Structures.{IsStructure};
ghost use Rattle.luo_model.specs.Tree.{Tree, size_of};
ghost use Rattle.luo_model.specs.View.{plain_of};
ghost use Rattle.luo_struct.specs.View.{tree_of};
ghost use Rattle.luo_read.specs.declared.answers.StructError.{StructError};
ghost use Rattle.luo_read.specs.Reading.{Reads, Refusal, Refuses, WantsMemory, Answers};
ghost use Rattle.luo_read.specs.inner.Readers.{IsRead, Stops, stopped_as};

use crate::StructError;
use crate::marking::has_each_label;
use crate::reader::{Reader, Stage, Stop};
use crate::steps::{finished, step};
use luo_model::{Program, Universe};
use luo_num::limits::{STRUCTURE_SIZE_LIMIT, STRUCTURE_TEXT_LIMIT};
use luo_num::{Items, NoMemory};
use luo_struct::{Structure, member};
use std::alloc::Global;

// The answer where reading stops at a byte.
fn stopped(stop: Stop, at: usize) -> StructError
    ensures { result ≡ stopped_as stop at }
{
    match stop {
        Stop::Unreadable => StructError::S1 { at },
        Stop::Deep => StructError::Deep { at },
        Stop::NoMemory => StructError::NoMemory,
    }
}

// The structure of a text, where it is one of a structure and nests within the limit.
fn read_text(alloc: Global, text: &[u8]) -> Result<Structure, StructError>
    ensures { MatchResult result (λ s. IsRead text.now (tree_of s)) (Stops text.now) }
{
    let mut reader = Reader {
        frames: Items::new(alloc),
        stage: Stage::Begin,
    };
    for (at, byte) in text.iter().enumerate() {
        match step(alloc, reader, *byte) {
            Ok(next) => reader = next,
            Err(stop) => return Err(stopped(stop, at)),
        }
    }
    match finished(alloc, reader) {
        Ok(s) => Ok(s),
        Err(stop) => Err(stopped(stop, text.len())),
    }
}

// Whether the structure is one of the node, with what its caller needs to know of the program.
fn is_structure(
    alloc: Global,
    program: &Program,
    node: usize,
    s: &Structure,
) -> Result<bool, NoMemory>
    requires small { size_of (tree_of s.now) < 2 ^ 64 - 1 }
    ensures of_program { IsProgram (plain_of program.now) }
    ensures is { IfOk result (λ is. IsTrue is ↔ IsStructure (plain_of program.now) node
        (size_of (tree_of s.now)) (tree_of s.now)) }
{
    let universe = program.universe;
    if !member(program, node, s) {
        return Ok(false);
    }
    match universe {
        Universe::Unlabelled => Ok(true),
        Universe::Labelled => has_each_label(alloc, s, s.size() as usize),
    }
}

/// The structure of the node that has this text. The errors come in the order of their variants, and of `S1` and
/// `Deep` the one at the lesser byte.
pub fn read_structure(
    alloc: Global,
    program: &Program,
    node: usize,
    text: &[u8],
) -> Result<Structure, StructError>
    requires there { node < length program.now.nodes }
    ensures ok { IfOk result (λ s. Reads (plain_of program.now) node text.now (tree_of s)) }
    ensures err { IfErr result (Refuses (plain_of program.now) node text.now) }
    ensures always { (t : Tree) → Reads (plain_of program.now) node text.now t
        → MatchResult result (λ s. tree_of s ≡ t) WantsMemory }
    ensures first { (e : StructError) → Refusal (plain_of program.now) node text.now e
        → MatchResult result (λ _. ⊥) (Answers e) }
{
    if text.len() > STRUCTURE_TEXT_LIMIT {
        return Err(StructError::Long { len: text.len() });
    }
    let s = read_text(alloc, text)?;
    if !is_structure(alloc, program, node, &s)? {
        return Err(StructError::S2);
    }
    let size = s.size();
    if size > STRUCTURE_SIZE_LIMIT {
        return Err(StructError::S3 { size });
    }
    Ok(s)
}
