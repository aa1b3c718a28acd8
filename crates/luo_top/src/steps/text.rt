// From a file to its text.
ghost use Rattle.std.specs.Prelude.{◌≤◌, [], ◌∷◌, length, IfOk};
ghost use Rattle.luo_num.specs.declared.limits.TheConstants.{TEXT_LIMIT};
ghost use Rattle.luo_answer.specs.inner.Passes.{PassesOver, seen, itself};
ghost use Rattle.luo_top.specs.Steps as steps;

use luo_answer::{Line, Refusal};
use luo_num::limits::TEXT_LIMIT_LINE;
use luo_num::{Items, Text};
use luo_outside::{Files, ReadError, read_all};
use std::alloc::Global;

/// The text of a file.
pub fn text_of<F: Files>(alloc: Global, files: &mut F, file: &str) -> Result<Text, Refusal>
    ensures passes { PassesOver itself (file.now ∷ []) (steps.text_of file.now)
        (seen F.named F.faults files.old files.new) result }
    ensures short { IfOk result (λ text. length text ≤ TEXT_LIMIT) }
{
    match read_all(alloc, files, file) {
        Ok(text) => Ok(Items::from_vec(text)),
        Err(ReadError::TooLong) => Err(Refusal::Limit(Line::Fixed(TEXT_LIMIT_LINE))),
        Err(ReadError::ReadFault) => Err(Refusal::ReadFault),
        Err(ReadError::NoMemory) => Err(Refusal::NoMemory),
    }
}
