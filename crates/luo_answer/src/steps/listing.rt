// What a listing is of: a type, and how many structures.
ghost use Rattle.std.specs.Prelude.{◌≡◌, ◌<◌, ℕ, length, min, IfOk};
ghost use Rattle.luo_model.specs.View.{plain_of};
ghost use Rattle.luo_answer.specs.declared.words.TheConstants.{NUMBER_CAP};
ghost use Rattle.luo_answer.specs.Commands.List as list;
ghost use Rattle.luo_answer.specs.inner.Found.{def_of};
ghost use Rattle.luo_answer.specs.inner.Passes.{Passes, itself};

use crate::refusal::{Line, Refusal};
use crate::steps::structure::unknown_line;
use luo_model::{Def, Program};
use luo_num::limits::{COUNT_LIMIT, COUNT_LIMIT_LINE};
use std::alloc::Global;

// The node of the first type of this name.
fn def_of(defs: &[Def], name: &[u8]) -> Option<usize>
    ensures { result ≡ def_of defs.now name.now }
{
    for definition in defs {
        if definition.name.as_slice() == name {
            return Some(definition.whole.node);
        }
    }
    None
}

/// The node of the type of this name.
pub fn type_of(alloc: Global, program: &Program, name: &str) -> Result<usize, Refusal>
    ensures passes { Passes itself (list.type_of (plain_of program.now) name.now) result }
    ensures there { IfOk result (λ x. x < length program.now.nodes) }
{
    let name = name.as_bytes();
    match def_of(program.defs.as_slice(), name) {
        Some(node) => Ok(node),
        None => match unknown_line(alloc, name) {
            Ok(text) => Err(Refusal::Refused(Line::Made(text))),
            Err(_) => Err(Refusal::NoMemory),
        },
    }
}

/// A number of structures within its limit, from a number that is told up to `NUMBER_CAP`.
pub fn counted(most: u128) -> Result<u32, Refusal>
    ensures { (n : ℕ) → most ≡ min n NUMBER_CAP → Passes itself (list.counted n) result }
{
    if most > u128::from(COUNT_LIMIT) {
        return Err(Refusal::Limit(Line::Fixed(COUNT_LIMIT_LINE)));
    }
    Ok(most as u32)
}
