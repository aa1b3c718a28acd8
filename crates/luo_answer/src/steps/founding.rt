// From a program to what is known of it where it is well-founded.
ghost use Rattle.std.specs.Prelude.{◌≡◌, [], ◌∷◌, ◌++◌, IfOk, OnOk};
ghost use Rattle.luo_model.specs.View.{plain_of};
ghost use Rattle.luo_answer.specs.Names.{node_name, procedure_name};
ghost use Rattle.luo_founded.specs.declared.checking.NotFounded.TheVariants.{W3, W4};
ghost use Rattle.luo_answer.specs.FoundedRefusals.{first_of, chain_text, founded_line, FoundedRefusal};
ghost use Rattle.luo_founded.specs.Found.{Refuses, WantsMemory};
ghost use Rattle.luo_answer.specs.Steps as steps;
ghost use Rattle.luo_answer.specs.inner.Passes.{RefusedBy, Passes, none};

use crate::names::{put_node, put_procedure};
use crate::refusal::{Line, Refusal};
use luo_founded::{NotFounded, Ranks, found};
use luo_model::Program;
use luo_num::NoMemory;
use std::alloc::Global;

// Puts the names of nodes behind the text, each with a space before it.
fn put_nodes(text: &mut Vec<u8>, program: &Program, chain: &[usize]) -> Result<(), NoMemory>
    ensures { OnOk result (text.new.items ≡ text.old.items ++ chain_text
        (node_name (plain_of program.now)) chain.now) }
{
    for node in chain {
        text.push(b' ')?;
        put_node(text, program, *node)?;
    }
    Ok(())
}

// Puts the names of procedures behind the text, each with a space before it.
fn put_procedures(text: &mut Vec<u8>, program: &Program, chain: &[usize]) -> Result<(), NoMemory>
    ensures { OnOk result (text.new.items ≡ text.old.items ++ chain_text
        (procedure_name (plain_of program.now)) chain.now) }
{
    for procedure in chain {
        text.push(b' ')?;
        put_procedure(text, program, *procedure)?;
    }
    Ok(())
}

// The first of some numbers, or 0.
fn first_of(chain: &[usize]) -> usize
    ensures { result ≡ first_of chain.now }
{
    match chain.get(0) {
        Some(first) => *first,
        None => 0,
    }
}

// The line that names a node.
fn node_line(
    alloc: Global,
    program: &Program,
    head: &[u8],
    node: usize,
) -> Result<Vec<u8>, NoMemory>
    ensures { IfOk result (λ text. text.items ≡
        (head.now ++ node_name (plain_of program.now) node) ++ 10 ∷ []) }
{
    let mut text = Vec::from_slice(alloc, head)?;
    put_node(&mut text, program, node)?;
    text.push(b'\n')?;
    Ok(text)
}

// The line that names a circle of nodes.
fn nodes_line(alloc: Global, program: &Program, chain: &[usize]) -> Result<Vec<u8>, NoMemory>
    ensures { IfOk result (λ text. text.items ≡ founded_line (plain_of program.now)
        (W3 chain.now)) }
{
    let mut text = Vec::from_slice(alloc, b"refused: W3 at ")?;
    put_node(&mut text, program, first_of(chain))?;
    text.push(b':')?;
    put_nodes(&mut text, program, chain)?;
    text.push(b'\n')?;
    Ok(text)
}

// The line that names a circle of procedures.
fn procedures_line(alloc: Global, program: &Program, chain: &[usize]) -> Result<Vec<u8>, NoMemory>
    ensures { IfOk result (λ text. text.items ≡ founded_line (plain_of program.now)
        (W4 chain.now)) }
{
    let mut text = Vec::from_slice(alloc, b"refused: W4 at ")?;
    put_procedure(&mut text, program, first_of(chain))?;
    text.push(b':')?;
    put_procedures(&mut text, program, chain)?;
    text.push(b'\n')?;
    Ok(text)
}

// The line of a program that is not well-founded.
fn founded_line(alloc: Global, program: &Program, error: &NotFounded) -> Result<Vec<u8>, NoMemory>
    ensures line { IfOk result (λ text. text.items ≡ founded_line
        (plain_of program.now) error.now) }
    ensures told { IfOk result (λ _. WantsMemory error.now → ⊥) }
{
    match error {
        NotFounded::W1 { node } => node_line(alloc, program, b"refused: W1 at ", *node),
        NotFounded::W2 { node } => node_line(alloc, program, b"refused: W2 at ", *node),
        NotFounded::W3 { chain } => nodes_line(alloc, program, chain.as_slice()),
        NotFounded::W4 { chain } => procedures_line(alloc, program, chain.as_slice()),
        NotFounded::NoMemory => Err(NoMemory),
    }
}

// The refusal of a program that is not well-founded.
fn founded_refusal(alloc: Global, program: &Program, error: &NotFounded) -> Refusal
    requires { Refuses (plain_of program.now) error.now }
    ensures { RefusedBy (FoundedRefusal (plain_of program.now)) result }
{
    match founded_line(alloc, program, error) {
        Ok(text) => Refusal::Refused(Line::Made(text)),
        Err(_) => Refusal::NoMemory,
    }
}

/// What is known of a well-founded program.
pub fn founded<'a>(alloc: Global, program: &'a Program) -> Result<Ranks<'a>, Refusal>
    ensures passes { Passes none (steps.founded (plain_of program.now)) result }
    ensures same { IfOk result (λ ranks. ranks ≡ program.now) }
{
    match found(alloc, program) {
        Ok(ranks) => Ok(ranks),
        Err(error) => Err(founded_refusal(alloc, program, &error)),
    }
}
