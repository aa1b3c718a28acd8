// `list FILE TYPE N START COUNT` from the program on.
ghost use Rattle.std.specs.Prelude.{◌≡◌, ◌<◌, ◌≤◌, ◌+◌, ◌++◌, ℕ, List, length, map, min, codes, decimal, IfOk, OnOk};
ghost use Rattle.luo_list.specs.Span.{Walk};
ghost use Rattle.luo_num.specs.declared.TheConstants.{MAX};
ghost use Rattle.luo_num.specs.declared.limits.TheConstants.{LIST_SIZE_LIMIT};
ghost use Rattle.luo_model.specs.View.{plain_of};
ghost use Rattle.luo_model.specs.declared.table.Fill.TheVariants.{Counts};
ghost use Rattle.luo_struct.specs.declared.structure.Structure.{Structure};
ghost use Rattle.luo_struct.specs.Text.{structure_text};
ghost use Rattle.luo_struct.specs.View.{tree_of};
ghost use Rattle.luo_answer.specs.declared.words.TheConstants.{NUMBER_CAP};
ghost use Rattle.luo_answer.specs.Commands.List as steps;
ghost use Rattle.luo_answer.specs.Lines.{line};
ghost use Rattle.luo_answer.specs.inner.Filled.{full};
ghost use Rattle.luo_answer.specs.inner.Listed.{Shows};
ghost use Rattle.luo_answer.specs.inner.Passes.{Passes, itself};

use crate::refusal::Refusal;
use crate::steps::{counted, founded, list_sized, tables, type_of};
use itoa::Buffer;
use luo_engine::Engine;
use luo_founded::Ranks;
use luo_list::Cursor;
use luo_model::{Fill, Program};
use luo_num::{Items, NoMemory, Text};
use luo_rank::Ranker;
use luo_struct::{Structure, write_structure};
use std::alloc::Global;

// Puts a place and the text of the structure that stands there behind the text, as a line.
fn put_line(alloc: Global, text: &mut Vec<u8>, place: u128, s: &Structure) -> Result<(), NoMemory>
    ensures { OnOk result (text.new.items ≡ text.old.items ++ line (decimal place
        ++ codes " " ++ structure_text (tree_of s.now))) }
{
    let mut buffer = Buffer::new();
    let written = write_structure(alloc, s)?;
    text.extend_from_slice(buffer.format(place).as_bytes())?;
    text.push(b' ')?;
    text.extend_from_slice(written.as_slice())?;
    text.push(b'\n')?;
    Ok(())
}

// Puts the line of what a cursor answers next behind the text, and gives that back to it.
fn put_next(
    alloc: Global,
    cursor: &mut Cursor<'_>,
    text: &mut Vec<u8>,
    place: u128,
) -> Result<(), NoMemory>
    requires left { cursor.old.place < cursor.old.end }
    ensures { OnOk result (Shows cursor.old cursor.new place text.old.items text.new.items) }
{
    match cursor.next(alloc)? {
        Some(s) => {
            put_line(alloc, text, place, &s)?;
            cursor.step_from(s);
            Ok(())
        }
        None => Ok(()),
    }
}

// The lines of what a cursor answers up to its end: so many, the first of which has this place.
fn lines(
    alloc: Global,
    cursor: &mut Cursor<'_>,
    start: u128,
    many: u32,
) -> Result<Vec<u8>, NoMemory>
    requires start { cursor.old.place ≡ start }
    requires many { start + many ≡ cursor.old.end }
    requires small { start + many ≤ MAX }
    ensures { IfOk result (λ text. (ss : List Structure) × Walk cursor.old ss
        × (text.items ≡ steps.list_lines start (map tree_of ss))) }
{
    let mut text = Vec::new(alloc);
    for i in 0..many {
        put_next(alloc, cursor, &mut text, start + u128::from(i))?;
    }
    Ok(text)
}

// The lines of the structures of a node of a size from a place on, and at most so many.
fn list_bytes<'p>(
    alloc: Global,
    ranks: &'p Ranks<'p>,
    engine: &Engine<'p>,
    node: usize,
    size: u32,
    start: u128,
    most: u32,
) -> Result<Vec<u8>, NoMemory>
    requires full { engine.now ≡ full ranks.now Counts size }
    requires node { node < length ranks.now.nodes }
    requires size { size ≤ LIST_SIZE_LIMIT }
    ensures { IfOk result (λ text. (s : ℕ) → start ≡ min s NUMBER_CAP
        → steps.IsListText (plain_of ranks.now) node size s most text.items) }
{
    let counts = engine.counts(alloc)?;
    let ranker = Ranker::new(alloc, ranks, &counts, node, size)?;
    let count = ranker.count();
    let first = start.min(count);
    let many = (count - first).min(u128::from(most)) as u32;
    let mut cursor = Cursor::new(ranker, first, first + u128::from(many));
    let text = lines(alloc, &mut cursor, first, many);
    drop(cursor);
    text
}

// The same as a step.
fn listed<'p>(
    alloc: Global,
    ranks: &'p Ranks<'p>,
    engine: &Engine<'p>,
    node: usize,
    size: u32,
    start: u128,
    most: u32,
) -> Result<Text, Refusal>
    requires full { engine.now ≡ full ranks.now Counts size }
    requires node { node < length ranks.now.nodes }
    requires size { size ≤ LIST_SIZE_LIMIT }
    ensures { (s : ℕ) → start ≡ min s NUMBER_CAP → Passes itself
        (steps.listed (plain_of ranks.now) node size s most) result }
{
    let text = list_bytes(alloc, ranks, engine, node, size, start, most)?;
    Ok(Items::from_vec(text))
}

// The structures of a node, where the size and how many there are keep within the limits of listings.
fn list_node<'p>(
    alloc: Global,
    program: &'p Program,
    ranks: &'p Ranks<'p>,
    node: usize,
    last: u128,
    start: u128,
    most: u128,
) -> Result<Text, Refusal>
    requires ranks { ranks.now ≡ program.now }
    requires node { node < length program.now.nodes }
    ensures { (n s k : ℕ) → last ≡ min n NUMBER_CAP → start ≡ min s NUMBER_CAP
        → most ≡ min k NUMBER_CAP
        → Passes itself (steps.list_of (plain_of program.now) n s k node) result }
{
    let size = list_sized(last)?;
    let count = counted(most)?;
    let engine = tables(alloc, program, ranks, size, Fill::Counts)?;
    let text = listed(alloc, ranks, &engine, node, size, start, count);
    drop(engine);
    text
}

/// The structures of the type of this name of size `last`, from the place `start` on, and at most `most` of them. The
/// three numbers are told up to `NUMBER_CAP`; places begin with 0.
///
/// Refused are a program that is not well-founded, a name of no type, a size above `LIST_SIZE_LIMIT`, more than
/// `COUNT_LIMIT` structures, and a count up to that size above `MAX`, in this order; `NoMemory` comes where memory is
/// refused.
pub fn list_named(
    alloc: Global,
    program: &Program,
    name: &str,
    last: u128,
    start: u128,
    most: u128,
) -> Result<Text, Refusal>
    ensures { (n s k : ℕ) → last ≡ min n NUMBER_CAP → start ≡ min s NUMBER_CAP
        → most ≡ min k NUMBER_CAP
        → Passes itself (steps.list_named name.now n s k (plain_of program.now)) result }
{
    let ranks = founded(alloc, program)?;
    let node = type_of(alloc, program, name)?;
    list_node(alloc, program, &ranks, node, last, start, most)
}
