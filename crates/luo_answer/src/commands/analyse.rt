// `analyse FILE N` from the program on.
ghost use Rattle.std.specs.Prelude.{◌≡◌, ◌≤◌, ℕ, min};
ghost use Rattle.luo_model.specs.View.{plain_of};
ghost use Rattle.luo_model.specs.declared.table.Fill.TheVariants.{All};
ghost use Rattle.luo_num.specs.declared.limits.TheConstants.{SIZE_LIMIT};
ghost use Rattle.luo_answer.specs.declared.words.TheConstants.{NUMBER_CAP};
ghost use Rattle.luo_answer.specs.Commands.Analyse as steps;
ghost use Rattle.luo_answer.specs.inner.Filled.{full};
ghost use Rattle.luo_answer.specs.inner.Passes.{Passes, itself};

use crate::refusal::Refusal;
use crate::rows::tables_of;
use crate::steps::{founded, reported, sized, tables};
use luo_engine::Engine;
use luo_founded::Ranks;
use luo_model::{Fill, Program};
use luo_num::Text;
use std::alloc::Global;

// The report of filled tables, for the sizes up to `last`.
fn analysed(
    alloc: Global,
    program: &Program,
    ranks: &Ranks<'_>,
    engine: &Engine<'_>,
    last: u32,
) -> Result<Text, Refusal>
    requires ranks { ranks.now ≡ program.now }
    requires size { last ≤ SIZE_LIMIT }
    requires full { engine.now ≡ full program.now All last }
    ensures { Passes itself (steps.report (plain_of program.now) last) result }
{
    let tables = tables_of(alloc, program, engine, last)?;
    reported(alloc, program, ranks, tables.as_slice(), last)
}

// The report of a program that has ranks.
fn analyse_founded(
    alloc: Global,
    program: &Program,
    ranks: &Ranks<'_>,
    last: u128,
) -> Result<Text, Refusal>
    requires ranks { ranks.now ≡ program.now }
    ensures { (n : ℕ) → last ≡ min n NUMBER_CAP
        → Passes itself (steps.analyse_founded (plain_of program.now) n) result }
{
    let size = sized(last)?;
    let engine = tables(alloc, program, ranks, size, Fill::All)?;
    let text = analysed(alloc, program, ranks, &engine, size);
    drop(engine);
    text
}

/// The report of a program for the sizes up to `last`, which is told up to `NUMBER_CAP`.
///
/// Refused are a program that is not well-founded, a size above `SIZE_LIMIT`, and a count or a total of a size up to it
/// that is above `MAX`, in this order; `NoMemory` comes where memory is refused.
pub fn analyse_program(alloc: Global, program: &Program, last: u128) -> Result<Text, Refusal>
    ensures { (n : ℕ) → last ≡ min n NUMBER_CAP
        → Passes itself (steps.analyse_program n (plain_of program.now)) result }
{
    let ranks = founded(alloc, program)?;
    analyse_founded(alloc, program, &ranks, last)
}
