// A run over a text that is there, with sinks that take everything.
ghost use Rattle.std.specs.Prelude.{◌≡◌, ◌⊎◌, ℕ, List};
ghost use Rattle.luo_answer.specs.declared.status.Status.{Status};
ghost use Rattle.luo_answer.specs.declared.status.Status.TheVariants.{Done, ReadFault, WriteFault, NoMemory};
ghost use Rattle.luo_answer.specs.Answer.{Output, Refusal};
ghost use Rattle.luo_answer.specs.Words.{texts};
ghost use Rattle.luo_top.specs.AsWritten.Outcome.{OutcomeAsWritten};
ghost use Rattle.luo_top.specs.Sure.{everywhere, IsTooLong};

use crate::luo;
use luo_answer::Status;
use luo_outside::{OpenGate, SureFiles, SureSink};
use std::alloc::Global;
use std::thread::Threads;

/// What the top call answers over this text under every name, with sinks that take everything: no fault; `Done` where the
/// outcome is an output, and where it is a refusal its status, but for `NoMemory`.
pub fn luo_sure<R: Threads + Sync>(rt: &R, alloc: Global, words: &[String], text: Vec<u8>) -> Status
    ensures no_read_fault { result ≡ ReadFault → ⊥ }
    ensures no_write_fault { result ≡ WriteFault → ⊥ }
    ensures output { (bytes : List ℕ)
        → OutcomeAsWritten (everywhere text.items) (texts words.now) (Output bytes)
        → (result ≡ Done) ⊎ (result ≡ NoMemory) }
    ensures refusal { (status : Status) (bytes : List ℕ)
        → OutcomeAsWritten (everywhere text.items) (texts words.now) (Refusal status bytes)
        → (result ≡ status) ⊎ (result ≡ NoMemory) }
    ensures long { IsTooLong (texts words.now) text.items }
{
    let mut files = SureFiles::new(text);
    let mut out = SureSink::new();
    let mut err = SureSink::new();
    luo(rt, alloc, words, &mut files, &mut out, &mut err, &OpenGate)
}
