// `run FILE PROC STRUCTURE`
ghost use Rattle.std.specs.Prelude.{[], ◌∷◌};
ghost use Rattle.luo_answer.specs.inner.Passes.{PassesOver, seen, itself};
ghost use Rattle.luo_top.specs.Commands.Run as steps;

use crate::steps::file_program;
use luo_answer::{Refusal, run_named};
use luo_num::Text;
use luo_outside::Files;
use std::alloc::Global;

/// What the procedure of this name charges on the structure of this text, and what it makes of it.
pub fn run_procedure<F: Files>(
    alloc: Global,
    files: &mut F,
    file: &str,
    procedure: &str,
    structure: &str,
) -> Result<Text, Refusal>
    ensures { PassesOver itself (file.now ∷ [])
        (steps.run file.now procedure.now structure.now)
        (seen F.named F.faults files.old files.new) result }
{
    let program = file_program(alloc, files, file)?;
    run_named(alloc, &program, procedure, structure)
}
