// The tables of the analyze lines, found by workers that walk the structures.
ghost use Rattle.std.specs.Prelude.{◌≡◌, ◌<◌, ◌≤◌, ℕ, length, IfOk};
ghost use Rattle.luo_finite.specs.Listing.{In};
ghost use Rattle.luo_num.specs.declared.limits.TheConstants.{LIST_SIZE_LIMIT, WORKER_LIMIT};
ghost use Rattle.luo_num.specs.declared.limits.TheConstants.{WALKED_LIMIT};
ghost use Rattle.luo_model.specs.View.{plain_of};
ghost use Rattle.luo_audit.specs.Audit.{CountIs, Explains};
ghost use Rattle.luo_answer.specs.Commands.Audit as audit;
ghost use Rattle.luo_answer.specs.Names.{procedure_name};
ghost use Rattle.luo_answer.specs.Overflows.{audit_line};
ghost use Rattle.luo_answer.specs.Report.{AreTables};
ghost use Rattle.luo_answer.specs.inner.Audited.{AreFew, Names, AuditsRow, AuditsRows};
ghost use Rattle.luo_answer.specs.inner.Passes.{RefusedBy, Passes, none};

use crate::names::put_procedure;
use crate::refusal::{Line, Refusal};
use itoa::Buffer;
use luo_audit::{AuditError, audit};
use luo_founded::Ranks;
use luo_model::{Counts, Program, Row};
use luo_num::limits::WALKED_LIMIT_LINE;
use luo_num::{Items, NoMemory};
use luo_outside::Gate;
use luo_report::Table;
use std::alloc::Global;
use std::thread::Threads;

// The line of a total that overflows.
fn over_bytes(alloc: Global, program: &Program, f: usize, n: u32) -> Result<Vec<u8>, NoMemory>
    ensures { IfOk result (λ text. text.items ≡ audit_line
        (procedure_name (plain_of program.now) f) n) }
{
    let mut buffer = Buffer::new();
    let mut text = Vec::from_slice(alloc, b"overflow: audit of ")?;
    put_procedure(&mut text, program, f)?;
    text.extend_from_slice(b" at size ")?;
    text.extend_from_slice(buffer.format(n).as_bytes())?;
    text.push(b'\n')?;
    Ok(text)
}

// Its refusal.
fn over_refusal(alloc: Global, program: &Program, f: usize, n: u32) -> Refusal
    ensures { RefusedBy (Names (plain_of program.now) f n) result }
{
    match over_bytes(alloc, program, f, n) {
        Ok(text) => Refusal::Overflow(Line::Made(text)),
        Err(_) => Refusal::NoMemory,
    }
}

// The refusal that an error of an audit stands for, where there are few structures.
fn audit_refusal(alloc: Global, program: &Program, f: usize, n: u32, error: AuditError) -> Refusal
    requires cause { Explains (plain_of program.now) f n error }
    requires few { (c : ℕ) → CountIs (plain_of program.now) f n c → c ≤ WALKED_LIMIT }
    ensures { RefusedBy (λ a. audit.IsOverAt (plain_of program.now) f n
        × Names (plain_of program.now) f n a) result }
{
    match error {
        AuditError::Over => over_refusal(alloc, program, f, n),
        AuditError::TooMany { .. } => Refusal::Limit(Line::Fixed(WALKED_LIMIT_LINE)),
        AuditError::NoMemory => Refusal::NoMemory,
    }
}

// The row of procedure f of size n, or the refusal of its total.
fn row_of<'p, R: Threads + Sync, G: Gate>(
    rt: &R,
    alloc: Global,
    program: &Program,
    ranks: &'p Ranks<'p>,
    counts: &Counts<'p>,
    f: usize,
    n: u32,
    workers: u32,
    gate: &G,
) -> Result<Row, Refusal>
    requires same { ranks.now ≡ program.now }
    requires counted { counts.now.program ≡ program.now }
    requires there { f < length program.now.procs }
    requires size { n ≤ counts.now.last }
    requires small { n ≤ LIST_SIZE_LIMIT }
    requires few { (c : ℕ) → CountIs (plain_of program.now) f n c → c ≤ WALKED_LIMIT }
    requires some { 1 ≤ workers }
    requires most { workers ≤ WORKER_LIMIT }
    ensures { AuditsRow (plain_of program.now) f n result }
{
    match audit(rt, alloc, program, ranks, counts, f, n, workers, gate) {
        Ok(found) => Ok(found.row),
        Err(error) => Err(audit_refusal(alloc, program, f, n, error)),
    }
}

// The rows of procedure f for the sizes up to `last`, or the refusal of the first total that
// overflows.
fn rows_of<'p, R: Threads + Sync, G: Gate>(
    rt: &R,
    alloc: Global,
    program: &Program,
    ranks: &'p Ranks<'p>,
    counts: &Counts<'p>,
    f: usize,
    last: u32,
    workers: u32,
    gate: &G,
) -> Result<Items<Row>, Refusal>
    requires same { ranks.now ≡ program.now }
    requires counted { counts.now.program ≡ program.now }
    requires there { f < length program.now.procs }
    requires size { last ≤ counts.now.last }
    requires small { last ≤ LIST_SIZE_LIMIT }
    requires few { AreFew (plain_of program.now) f last }
    requires some { 1 ≤ workers }
    requires most { workers ≤ WORKER_LIMIT }
    ensures { AuditsRows (plain_of program.now) f last result }
{
    // A field that is read gives what holds of every program.
    let _universe = program.universe;
    let mut rows = Items::new(alloc);
    for n in 0..last + 1 {
        let row = row_of(rt, alloc, program, ranks, counts, f, n, workers, gate)?;
        rows.push(row)?;
    }
    Ok(rows)
}

/// The table of each analyze line for the sizes up to `last`, each of a procedure of the program, or the
/// refusal of the first total that overflows.
pub fn audited_tables<'p, R: Threads + Sync, G: Gate>(
    rt: &R,
    alloc: Global,
    program: &Program,
    ranks: &'p Ranks<'p>,
    counts: &Counts<'p>,
    last: u32,
    workers: u32,
    gate: &G,
) -> Result<Items<Table>, Refusal>
    requires same { ranks.now ≡ program.now }
    requires counted { counts.now.program ≡ program.now }
    requires size { last ≤ counts.now.last }
    requires small { last ≤ LIST_SIZE_LIMIT }
    requires few { (f : ℕ) → In f program.now.analyses → AreFew (plain_of program.now) f last }
    requires some { 1 ≤ workers }
    requires most { workers ≤ WORKER_LIMIT }
    ensures passes { Passes none (audit.audited (plain_of program.now) last) result }
    ensures right { IfOk result (AreTables (plain_of program.now) last program.now.analyses) }
    ensures named { IfOk result (λ tables. (t : _) → In t tables
        → t.callee < length program.now.procs) }
{
    let mut tables = Items::new(alloc);
    for f in program.analyses.as_slice() {
        let rows = rows_of(rt, alloc, program, ranks, counts, *f, last, workers, gate)?;
        tables.push(Table { callee: *f, rows })?;
    }
    Ok(tables)
}
