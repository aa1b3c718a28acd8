// `sample NUMBER N` from the program of the number on.
ghost use Rattle.std.specs.Prelude.{◌≡◌, ◌<◌, ◌≤◌, ◌++◌, length, slice_get, Some, IfOk, OnOk};
ghost use Rattle.luo_model.specs.View.{plain_of};
ghost use Rattle.luo_model.specs.declared.table.Fill.TheVariants.{All};
ghost use Rattle.luo_num.specs.declared.limits.TheConstants.{SIZE_LIMIT};
ghost use Rattle.luo_answer.specs.Commands.Sample as steps;
ghost use Rattle.luo_answer.specs.inner.Filled.{full};
ghost use Rattle.luo_answer.specs.inner.Passes.{Passes, itself};

use crate::names::put_procedure;
use crate::refusal::Refusal;
use crate::rows::row_at;
use crate::steps::{founded, tables};
use itoa::Buffer;
use luo_engine::Engine;
use luo_model::{Fill, Program, Row, Universe};
use luo_num::{Items, NoMemory, Text};
use luo_report::{put_row, universe_line};
use std::alloc::Global;

// The row of size n of each analyze line.
fn rows_at(
    alloc: Global,
    program: &Program,
    engine: &Engine<'_>,
    n: u32,
) -> Result<Items<Row>, NoMemory>
    requires full { engine.now ≡ full program.now All n }
    ensures { IfOk result (steps.AreRowsAt (plain_of program.now) n program.now.analyses) }
{
    let mut rows = Items::new(alloc);
    for f in program.analyses.as_slice() {
        rows.push(row_at(program, engine, n, *f, n))?;
    }
    Ok(rows)
}

// The lines before those of the rows.
fn head(alloc: Global, number: u64, universe: Universe, bytes: usize) -> Result<Vec<u8>, NoMemory>
    ensures { IfOk result (λ text. text.items ≡ steps.head_text number universe bytes) }
{
    let mut buffer = Buffer::new();
    let mut text = Vec::from_slice(alloc, b"number ")?;
    text.extend_from_slice(buffer.format(number).as_bytes())?;
    text.push(b'\n')?;
    text.extend_from_slice(universe_line(universe))?;
    text.extend_from_slice(b"bytes ")?;
    text.extend_from_slice(buffer.format(bytes).as_bytes())?;
    text.push(b'\n')?;
    Ok(text)
}

// Row i.
fn row_of(rows: &[Row], i: usize) -> &Row
    requires { i < length rows.now }
    ensures { slice_get rows.now i ≡ Some result.now }
{
    &rows[i]
}

// Puts the row of each analyze line behind the text.
fn put_rows(text: &mut Vec<u8>, program: &Program, rows: &[Row]) -> Result<(), NoMemory>
    requires { length rows.now ≡ length program.now.analyses }
    ensures { OnOk result (text.new.items ≡ text.old.items ++ steps.row_lines
        (plain_of program.now) program.now.analyses rows.now) }
{
    for (i, callee) in program.analyses.as_slice().iter().enumerate() {
        put_procedure(text, program, *callee)?;
        text.push(b' ')?;
        put_row(text, row_of(rows, i))?;
    }
    Ok(())
}

// The text of a summary.
fn summary(
    alloc: Global,
    number: u64,
    bytes: usize,
    program: &Program,
    rows: &[Row],
) -> Result<Vec<u8>, NoMemory>
    requires { length rows.now ≡ length program.now.analyses }
    ensures { IfOk result (λ text. text.items ≡ steps.summary_text
        number bytes (plain_of program.now) rows.now) }
{
    let mut text = head(alloc, number, program.universe, bytes)?;
    put_rows(&mut text, program, rows)?;
    Ok(text)
}

// The summary of a program whose text has so many bytes.
fn summed(
    alloc: Global,
    number: u64,
    bytes: usize,
    program: &Program,
    engine: &Engine<'_>,
    n: u32,
) -> Result<Text, Refusal>
    requires full { engine.now ≡ full program.now All n }
    ensures { Passes itself (steps.summary number bytes (plain_of program.now) n) result }
{
    let rows = rows_at(alloc, program, engine, n)?;
    let text = summary(alloc, number, bytes, program, rows.as_slice())?;
    Ok(Items::from_vec(text))
}

/// The summary at size `n` of the program of a number, whose text has so many bytes.
///
/// Refused are a program that is not well-founded, and a count or a total of a size up to `n` that is above `MAX`, in this
/// order; `NoMemory` comes where memory is refused.
pub fn sample_of(
    alloc: Global,
    number: u64,
    bytes: usize,
    program: &Program,
    n: u32,
) -> Result<Text, Refusal>
    requires size { n ≤ SIZE_LIMIT }
    ensures { Passes itself (steps.sample_of number bytes n (plain_of program.now)) result }
{
    let ranks = founded(alloc, program)?;
    let engine = tables(alloc, program, &ranks, n, Fill::All)?;
    let text = summed(alloc, number, bytes, program, &engine, n);
    drop(engine);
    text
}
