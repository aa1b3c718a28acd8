// The text of a report.
ghost use Rattle.std.specs.Prelude.{◌≡◌, ℕ, List, ◌++◌, ◌<◌, length, IfOk, OnOk, flat_map, map};
ghost use Rattle.luo_finite.specs.Listing.{In};
ghost use Rattle.luo_model.specs.View.{plain_of};
ghost use Rattle.luo_equation.specs.View.{equation_of};
ghost use Rattle.luo_report.specs.Average.{fraction_text, average_text};
ghost use Rattle.luo_report.specs.Report.{row_text, equation_line, name_of, heading, section, universe_text, report_text};

use crate::Table;
use luo_equation::{Equation, write_equation};
use luo_fraction::{Average, average};
use luo_model::{Program, Row, Universe};
use luo_num::NoMemory;
use luo_num::text::put_number;
use std::alloc::Global;

// Appends a fraction to the text.
fn put_fraction(text: &mut Vec<u8>, average: Average) -> Result<(), NoMemory>
    ensures { OnOk result (text.new.items ≡ text.old.items ++ fraction_text average) }
{
    match average {
        Average::Absent => text.push(b'-')?,
        Average::Value { p, q } => {
            put_number(text, p)?;
            if q != 1 {
                text.push(b'/')?;
                put_number(text, q)?;
            }
        }
    }
    Ok(())
}

// Appends an average to the text.
fn put_average(text: &mut Vec<u8>, total: u128, count: u128) -> Result<(), NoMemory>
    ensures { OnOk result (text.new.items ≡ text.old.items ++ average_text total count) }
{
    put_fraction(text, average(total, count))?;
    Ok(())
}

/// Appends the line of a row to the text: the size, the count, the total, and the average in lowest terms.
pub fn put_row(text: &mut Vec<u8>, row: &Row) -> Result<(), NoMemory>
    ensures { OnOk result (text.new.items ≡ text.old.items ++ row_text row.now) }
{
    put_number(text, row.n as u128)?;
    text.push(b' ')?;
    put_number(text, row.count)?;
    text.push(b' ')?;
    put_number(text, row.total)?;
    text.push(b' ')?;
    put_average(text, row.total, row.count)?;
    text.push(b'\n')?;
    Ok(())
}

// Appends rows to the text.
fn put_rows(text: &mut Vec<u8>, rows: &[Row]) -> Result<(), NoMemory>
    ensures { OnOk result (text.new.items ≡ text.old.items ++ flat_map row_text rows.now) }
{
    for row in rows {
        put_row(text, row)?;
    }
    Ok(())
}

// Appends the name of a definition to the text.
fn put_name(text: &mut Vec<u8>, program: &Program, name: Option<usize>) -> Result<(), NoMemory>
    ensures { OnOk result (text.new.items ≡ text.old.items ++ name_of (plain_of program.now) name) }
{
    let Some(at) = name else {
        return Ok(());
    };
    if let Some(def) = program.defs.get(at) {
        text.extend_from_slice(def.name.as_slice())?;
    }
    Ok(())
}

// Appends the heading of a procedure to the text.
fn put_heading(text: &mut Vec<u8>, program: &Program, callee: usize) -> Result<(), NoMemory>
    requires { callee < length program.now.procs }
    ensures { OnOk result
        (text.new.items ≡ text.old.items ++ heading (plain_of program.now) callee) }
{
    let procedure = &program.procs.as_slice()[callee];
    text.extend_from_slice(b"analyze ")?;
    text.extend_from_slice(procedure.name.as_slice())?;
    text.extend_from_slice(b" on ")?;
    put_name(text, program, procedure.on.name)?;
    text.push(b'\n')?;
    Ok(())
}

// Appends the lines of equations to the text.
fn put_equations(
    alloc: Global,
    text: &mut Vec<u8>,
    program: &Program,
    equations: &[Equation],
) -> Result<(), NoMemory>
    ensures { OnOk result (text.new.items ≡ text.old.items
        ++ flat_map (λ e. equation_line (plain_of program.now) (equation_of e)) equations.now) }
{
    for equation in equations {
        let line = write_equation(alloc, program, equation)?;
        text.extend_from_slice(&line)?;
        text.push(b'\n')?;
    }
    Ok(())
}

// Appends the headings and rows of tables to the text.
fn put_tables(text: &mut Vec<u8>, program: &Program, tables: &[Table]) -> Result<(), NoMemory>
    requires named { (t : _) → In t tables.now → t.callee < length program.now.procs }
    ensures { OnOk result (text.new.items ≡ text.old.items
        ++ flat_map (λ t. section (plain_of program.now) t) tables.now) }
{
    for table in tables {
        put_heading(text, program, table.callee)?;
        put_rows(text, table.rows.as_slice())?;
    }
    Ok(())
}

/// The line of a universe.
pub fn universe_line(universe: Universe) -> &'static [u8]
    ensures { result.now ≡ universe_text universe }
{
    match universe {
        Universe::Unlabelled => b"universe unlabelled\n",
        Universe::Labelled => b"universe labelled\n",
    }
}

// Appends the report of a program to the text.
fn put_report(
    alloc: Global,
    text: &mut Vec<u8>,
    program: &Program,
    equations: &[Equation],
    tables: &[Table],
) -> Result<(), NoMemory>
    requires named { (t : _) → In t tables.now → t.callee < length program.now.procs }
    ensures { OnOk result (text.new.items ≡ text.old.items
        ++ report_text (plain_of program.now) (map equation_of equations.now) tables.now) }
{
    text.extend_from_slice(universe_line(program.universe))?;
    put_equations(alloc, text, program, equations)?;
    put_tables(text, program, tables)?;
    Ok(())
}

/// The report of a program: its universe, one line for each equation, and for each table its heading and one line for each row,
/// with the size, the count, the total, and the average in lowest terms. The tables are of procedures of the program.
pub fn report(
    alloc: Global,
    program: &Program,
    equations: &[Equation],
    tables: &[Table],
) -> Result<Vec<u8>, NoMemory>
    requires named { (t : _) → In t tables.now → t.callee < length program.now.procs }
    ensures { IfOk result (λ text. text.items
        ≡ report_text (plain_of program.now) (map equation_of equations.now) tables.now) }
{
    let mut text = Vec::new(alloc);
    put_report(alloc, &mut text, program, equations, tables)?;
    Ok(text)
}
