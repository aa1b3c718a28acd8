// `list FILE TYPE N START COUNT`
ghost use Rattle.std.specs.Prelude.{◌≡◌, ℕ, min, [], ◌∷◌};
ghost use Rattle.luo_answer.specs.declared.words.TheConstants.{NUMBER_CAP};
ghost use Rattle.luo_answer.specs.inner.Passes.{PassesOver, seen, itself};
ghost use Rattle.luo_top.specs.Commands.List as steps;

use crate::steps::file_program;
use luo_answer::{Refusal, list_named};
use luo_num::Text;
use luo_outside::Files;
use std::alloc::Global;

/// The structures of the type of this name of size `last`, from the place `start` on, and at most `most` of them. The
/// three numbers are told up to `NUMBER_CAP`.
pub fn list_structures<F: Files>(
    alloc: Global,
    files: &mut F,
    file: &str,
    name: &str,
    last: u128,
    start: u128,
    most: u128,
) -> Result<Text, Refusal>
    ensures { (n s k : ℕ) → last ≡ min n NUMBER_CAP → start ≡ min s NUMBER_CAP
        → most ≡ min k NUMBER_CAP → PassesOver itself (file.now ∷ [])
        (steps.list file.now name.now n s k) (seen F.named F.faults files.old files.new) result }
{
    let program = file_program(alloc, files, file)?;
    list_named(alloc, &program, name, last, start, most)
}
