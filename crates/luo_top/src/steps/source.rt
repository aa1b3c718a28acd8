// From a text to its source.
ghost use Rattle.std.specs.Prelude.{◌≤◌, [], ◌∷◌, length};
ghost use Rattle.luo_num.specs.declared.limits.TheConstants.{TEXT_LIMIT};
ghost use Rattle.luo_scan.specs.Tokens.{Tokens};
ghost use Rattle.luo_source.specs.View.{plain_source};
ghost use Rattle.luo_answer.specs.inner.Passes.{Passes, PassesOver, seen, itself};
ghost use Rattle.luo_top.specs.Steps as steps;

use crate::lines::{fault_refusal, syntax_refusal};
use crate::steps::text::text_of;
use luo_answer::Refusal;
use luo_num::{Items, Text};
use luo_outside::Files;
use luo_scan::{Token, scan};
use luo_source::Source;
use luo_syntax::parse;
use std::alloc::Global;

/// The tokens of a text.
pub fn tokens_of(alloc: Global, text: &Text) -> Result<Items<Token>, Refusal>
    requires short { length text.now ≤ TEXT_LIMIT }
    ensures { Passes itself (steps.tokens_of text.now) result }
{
    match scan(alloc, text.as_slice()) {
        Ok(tokens) => Ok(Items::from_vec(tokens)),
        Err(error) => Err(fault_refusal(alloc, text.as_slice(), error)),
    }
}

/// The source of tokens.
pub fn source_of(alloc: Global, text: &Text, tokens: &Items<Token>) -> Result<Source, Refusal>
    requires scanned { Tokens text.now tokens.now }
    ensures { Passes plain_source (steps.source_of text.now tokens.now) result }
{
    match parse(alloc, text.as_slice(), tokens.as_slice()) {
        Ok(source) => Ok(source),
        Err(error) => Err(syntax_refusal(alloc, text.as_slice(), tokens.as_slice(), error)),
    }
}

/// The source of a file.
pub fn file_source<F: Files>(alloc: Global, files: &mut F, file: &str) -> Result<Source, Refusal>
    ensures { PassesOver plain_source (file.now ∷ []) (steps.file_source file.now)
        (seen F.named F.faults files.old files.new) result }
{
    let text = text_of(alloc, files, file)?;
    let tokens = tokens_of(alloc, &text)?;
    source_of(alloc, &text, &tokens)
}
