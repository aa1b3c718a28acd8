// `audit FILE N WORKERS` from the program on.
ghost use Rattle.std.specs.Prelude.{◌≡◌, ◌≤◌, ℕ, min};
ghost use Rattle.luo_num.specs.declared.limits.TheConstants.{LIST_SIZE_LIMIT, WORKER_LIMIT};
ghost use Rattle.luo_model.specs.View.{plain_of};
ghost use Rattle.luo_model.specs.declared.table.Fill.TheVariants as fill;
ghost use Rattle.luo_answer.specs.declared.words.TheConstants.{NUMBER_CAP};
ghost use Rattle.luo_answer.specs.Commands.Audit as steps;
ghost use Rattle.luo_answer.specs.inner.Filled.{full};
ghost use Rattle.luo_answer.specs.inner.Passes.{Passes, itself};

use crate::audited::audited_tables;
use crate::refusal::Refusal;
use crate::steps::{few, founded, list_sized, reported, tables, workers_of};
use luo_engine::Engine;
use luo_founded::Ranks;
use luo_model::{Fill, Program};
use luo_num::Text;
use luo_outside::Gate;
use std::alloc::Global;
use std::thread::Threads;

// The report with what the workers find, where there are few structures and no total
// overflows.
fn audit_counted<'p, R: Threads + Sync, G: Gate>(
    rt: &R,
    alloc: Global,
    program: &Program,
    ranks: &'p Ranks<'p>,
    engine: &Engine<'p>,
    size: u32,
    workers: u32,
    gate: &G,
) -> Result<Text, Refusal>
    requires ranks { ranks.now ≡ program.now }
    requires full { engine.now ≡ full program.now fill.Counts size }
    requires small { size ≤ LIST_SIZE_LIMIT }
    requires some { 1 ≤ workers }
    requires most { workers ≤ WORKER_LIMIT }
    ensures { Passes itself (steps.audit_counted (plain_of program.now) size) result }
{
    let counts = engine.counts(alloc)?;
    few(program, &counts, size)?;
    let found = audited_tables(rt, alloc, program, ranks, &counts, size, workers, gate)?;
    reported(alloc, program, ranks, found.as_slice(), size)
}

// The report, where the size and the number of workers keep within their limits.
fn audit_of<'p, R: Threads + Sync, G: Gate>(
    rt: &R,
    alloc: Global,
    program: &'p Program,
    ranks: &'p Ranks<'p>,
    last: u128,
    workers: u128,
    gate: &G,
) -> Result<Text, Refusal>
    requires ranks { ranks.now ≡ program.now }
    ensures { (n w : ℕ) → last ≡ min n NUMBER_CAP → workers ≡ min w NUMBER_CAP
        → Passes itself (steps.audit_of (plain_of program.now) n w) result }
{
    let size = list_sized(last)?;
    let many = workers_of(workers)?;
    let engine = tables(alloc, program, ranks, size, Fill::Counts)?;
    let text = audit_counted(rt, alloc, program, ranks, &engine, size, many, gate);
    drop(engine);
    text
}

/// The report of a program for the sizes up to `last`, with what so many workers find that walk the structures. The two
/// numbers are told up to `NUMBER_CAP`.
///
/// Refused are a program that is not well-founded, a size above `LIST_SIZE_LIMIT`, a number of workers that is none of 1
/// to `WORKER_LIMIT`, a count up to that size above `MAX`, a procedure of an analyze line with more than `WALKED_LIMIT`
/// structures of a size, and a total of one above `MAX`, in this order; `NoMemory` comes where memory is refused.
pub fn audit_program<R: Threads + Sync, G: Gate>(
    rt: &R,
    alloc: Global,
    program: &Program,
    last: u128,
    workers: u128,
    gate: &G,
) -> Result<Text, Refusal>
    ensures { (n w : ℕ) → last ≡ min n NUMBER_CAP → workers ≡ min w NUMBER_CAP
        → Passes itself (steps.audit_program n w (plain_of program.now)) result }
{
    let ranks = founded(alloc, program)?;
    audit_of(rt, alloc, program, &ranks, last, workers, gate)
}
