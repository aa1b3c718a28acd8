// `analyse FILE N`
ghost use Rattle.std.specs.Prelude.{◌≡◌, ℕ, min, [], ◌∷◌};
ghost use Rattle.luo_answer.specs.declared.words.TheConstants.{NUMBER_CAP};
ghost use Rattle.luo_answer.specs.inner.Passes.{PassesOver, seen, itself};
ghost use Rattle.luo_top.specs.Commands.Analyse as steps;

use crate::steps::file_program;
use luo_answer::{Refusal, analyse_program};
use luo_num::Text;
use luo_outside::Files;
use std::alloc::Global;

/// The report of a file for the sizes up to `last`, which is told up to `NUMBER_CAP`.
pub fn analyse_file<F: Files>(
    alloc: Global,
    files: &mut F,
    file: &str,
    last: u128,
) -> Result<Text, Refusal>
    ensures { (n : ℕ) → last ≡ min n NUMBER_CAP → PassesOver itself (file.now ∷ [])
        (steps.analyse file.now n) (seen F.named F.faults files.old files.new) result }
{
    let program = file_program(alloc, files, file)?;
    analyse_program(alloc, &program, last)
}
