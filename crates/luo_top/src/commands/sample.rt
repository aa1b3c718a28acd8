// `sample NUMBER N`
ghost use Rattle.std.specs.Prelude.{◌≡◌, ◌≤◌, length, IfOk};
ghost use Rattle.luo_model.specs.View.{plain_of};
ghost use Rattle.luo_num.specs.declared.limits.TheConstants.{SAMPLE_LIMIT, SIZE_LIMIT, TEXT_LIMIT};
ghost use Rattle.luo_sample.specs.Number.{Sample};
ghost use Rattle.luo_answer.specs.inner.Passes.{Passes, itself};
ghost use Rattle.luo_top.specs.Commands.Sample as steps;

use crate::steps::{core_of, source_of, tokens_of};
use luo_answer::{Refusal, sample_of};
use luo_model::Program;
use luo_num::{Items, NoMemory, Text};
use luo_sample::sample;
use std::alloc::Global;

// The text of a sample.
fn sample_text(alloc: Global, number: u64) -> Result<Text, NoMemory>
    ensures { IfOk result (λ text. text ≡ Sample number) }
{
    let text = sample(alloc, number)?;
    Ok(Items::from_vec(text))
}

// The program of a text.
fn text_program(alloc: Global, text: &Text) -> Result<Program, Refusal>
    requires short { length text.now ≤ TEXT_LIMIT }
    ensures { Passes plain_of (steps.text_program text.now) result }
{
    let tokens = tokens_of(alloc, text)?;
    let source = source_of(alloc, text, &tokens)?;
    core_of(alloc, text, &tokens, &source)
}

/// The summary of the sample of a number at size n.
pub fn sample_summary(alloc: Global, number: u128, n: u128) -> Result<Text, Refusal>
    requires number { number ≤ SAMPLE_LIMIT }
    requires size { n ≤ SIZE_LIMIT }
    ensures { Passes itself (steps.sample number n) result }
{
    let text = sample_text(alloc, number as u64)?;
    let program = text_program(alloc, &text)?;
    sample_of(alloc, number as u64, text.len(), &program, n as u32)
}
