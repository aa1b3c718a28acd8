// From tables to the report.
ghost use Rattle.std.specs.Prelude.{◌≡◌, ◌<◌, length};
ghost use Rattle.luo_finite.specs.Listing.{In};
ghost use Rattle.luo_model.specs.View.{plain_of};
ghost use Rattle.luo_answer.specs.Commands.Analyse as steps;
ghost use Rattle.luo_answer.specs.Report.{AreTables};
ghost use Rattle.luo_answer.specs.inner.Passes.{Passes, itself};

use crate::refusal::Refusal;
use luo_compile::descriptors;
use luo_founded::Ranks;
use luo_model::Program;
use luo_num::{Items, Text};
use luo_report::{Table, report};
use std::alloc::Global;

/// The report of a program with these tables, which are those of its analyze lines for the sizes up to
/// `_last`.
pub fn reported(
    alloc: Global,
    program: &Program,
    ranks: &Ranks<'_>,
    tables: &[Table],
    _last: u32,
) -> Result<Text, Refusal>
    requires ranks { ranks.now ≡ program.now }
    requires right { AreTables (plain_of program.now) _last program.now.analyses tables.now }
    requires named { (t : _) → In t tables.now → t.callee < length program.now.procs }
    ensures { Passes itself (steps.report (plain_of program.now) _last) result }
{
    // Only a well-founded program has ranks.
    let _founded = ranks.program();
    let equations = descriptors(alloc, program)?;
    let text = report(alloc, program, &equations, tables)?;
    Ok(Items::from_vec(text))
}
