// The answer to the words.
ghost use Rattle.luo_answer.specs.inner.Passes.{seen};
ghost use Rattle.luo_answer.specs.Words.{texts};
ghost use Rattle.luo_top.specs.inner.Answered.{IsAnswer};

use crate::commands;
use luo_answer::{Refusal, Request, asked};
use luo_num::Text;
use luo_outside::{Files, Gate};
use std::alloc::Global;
use std::thread::Threads;

/// The output that the words ask for, or why there is none.
pub fn answer<R: Threads + Sync, F: Files, G: Gate>(
    rt: &R,
    alloc: Global,
    words: &[String],
    files: &mut F,
    gate: &G,
) -> Result<Text, Refusal>
    ensures { IsAnswer (texts words.now) (seen F.named F.faults files.old files.new) result }
{
    let request = asked(words)?;
    match request {
        Request::Analyse { file, last } => commands::analyse_file(alloc, files, file, last),
        Request::Format { file } => commands::format_file(alloc, files, file),
        Request::Run {
            file,
            procedure,
            structure,
        } => commands::run_procedure(alloc, files, file, procedure, structure),
        Request::Sample { number, last } => commands::sample_summary(alloc, number, last),
        Request::Listing {
            file,
            name,
            last,
            start,
            most,
        } => commands::list_structures(alloc, files, file, name, last, start, most),
        Request::Audit {
            file,
            last,
            workers,
        } => commands::audit_file(rt, alloc, files, file, last, workers, gate),
    }
}
