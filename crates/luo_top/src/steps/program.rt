// From a source to its program.
ghost use Rattle.std.specs.Prelude.{[], ◌∷◌};
ghost use Rattle.luo_model.specs.View.{plain_of};
ghost use Rattle.luo_scan.specs.Tokens.{Tokens};
ghost use Rattle.luo_source.specs.View.{plain_source};
ghost use Rattle.luo_answer.specs.inner.Passes.{Passes, PassesOver, seen};
ghost use Rattle.luo_top.specs.Steps as steps;

use crate::lines::check_refusal;
use crate::steps::source::{source_of, tokens_of};
use crate::steps::text::text_of;
use luo_answer::Refusal;
use luo_model::Program;
use luo_num::{Items, Text};
use luo_outside::Files;
use luo_scan::Token;
use luo_source::Source;
use luo_types::check;
use std::alloc::Global;

/// The program of a source.
pub fn core_of(
    alloc: Global,
    text: &Text,
    tokens: &Items<Token>,
    source: &Source,
) -> Result<Program, Refusal>
    requires scanned { Tokens text.now tokens.now }
    requires derived { steps.IsRead text.now tokens.now (plain_source source.now) }
    ensures { Passes plain_of (steps.core_of text.now tokens.now (plain_source source.now)) result }
{
    match check(alloc, source) {
        Ok(program) => Ok(program),
        Err(error) => Err(check_refusal(alloc, text, tokens, error)),
    }
}

/// The program of a file.
pub fn file_program<F: Files>(alloc: Global, files: &mut F, file: &str) -> Result<Program, Refusal>
    ensures { PassesOver plain_of (file.now ∷ []) (steps.file_program file.now)
        (seen F.named F.faults files.old files.new) result }
{
    let text = text_of(alloc, files, file)?;
    let tokens = tokens_of(alloc, &text)?;
    let source = source_of(alloc, &text, &tokens)?;
    core_of(alloc, &text, &tokens, &source)
}
