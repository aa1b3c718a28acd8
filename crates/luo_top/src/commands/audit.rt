// `audit FILE N WORKERS`
ghost use Rattle.std.specs.Prelude.{◌≡◌, ℕ, min, [], ◌∷◌};
ghost use Rattle.luo_answer.specs.declared.words.TheConstants.{NUMBER_CAP};
ghost use Rattle.luo_answer.specs.inner.Passes.{PassesOver, seen, itself};
ghost use Rattle.luo_top.specs.Commands.Audit as steps;

use crate::steps::file_program;
use luo_answer::{Refusal, audit_program};
use luo_num::Text;
use luo_outside::{Files, Gate};
use std::alloc::Global;
use std::thread::Threads;

/// The report of a file for the sizes up to `last`, with what so many workers find that walk the
/// structures. The two numbers are told up to `NUMBER_CAP`.
pub fn audit_file<R: Threads + Sync, F: Files, G: Gate>(
    rt: &R,
    alloc: Global,
    files: &mut F,
    file: &str,
    last: u128,
    workers: u128,
    gate: &G,
) -> Result<Text, Refusal>
    ensures { (n w : ℕ) → last ≡ min n NUMBER_CAP → workers ≡ min w NUMBER_CAP
        → PassesOver itself (file.now ∷ []) (steps.audit file.now n w)
        (seen F.named F.faults files.old files.new) result }
{
    let program = file_program(alloc, files, file)?;
    audit_program(rt, alloc, &program, last, workers, gate)
}
