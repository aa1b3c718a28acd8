// `format FILE`
ghost use Rattle.std.specs.Prelude.{[], ◌∷◌};
ghost use Rattle.luo_answer.specs.inner.Passes.{PassesOver, seen, itself};
ghost use Rattle.luo_top.specs.Commands.Format as steps;

use crate::steps::file_source;
use luo_answer::Refusal;
use luo_num::{Items, Text};
use luo_outside::Files;
use luo_print::print_source;
use std::alloc::Global;

/// The canonical text of a file.
pub fn format_file<F: Files>(alloc: Global, files: &mut F, file: &str) -> Result<Text, Refusal>
    ensures { PassesOver itself (file.now ∷ []) (steps.format file.now)
        (seen F.named F.faults files.old files.new) result }
{
    let source = file_source(alloc, files, file)?;
    let text = print_source(alloc, &source)?;
    Ok(Items::from_vec(text))
}
