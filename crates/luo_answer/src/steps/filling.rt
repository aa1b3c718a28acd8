// From a program to its tables.
ghost use Rattle.std.specs.Prelude.{◌≡◌, ◌≤◌, ◌++◌, ℕ, IfOk, OnOk};
ghost use Rattle.luo_num.specs.declared.limits.TheConstants.{SIZE_LIMIT};
ghost use Rattle.luo_model.specs.View.{plain_of};
ghost use Rattle.luo_model.specs.declared.table.Fill.{Fill};
ghost use Rattle.luo_engine.specs.Entries.{IsFirstOver};
ghost use Rattle.luo_answer.specs.Overflows.{entry_text, overflow_line, OverflowRefusal};
ghost use Rattle.luo_answer.specs.Steps as steps;
ghost use Rattle.luo_answer.specs.inner.Filled.{full};
ghost use Rattle.luo_answer.specs.inner.Passes.{RefusedBy, Passes, none};

use crate::names::{put_node, put_site};
use crate::refusal::{Line, Refusal};
use itoa::Buffer;
use luo_engine::{Engine, Overflow};
use luo_founded::Ranks;
use luo_model::{Entry, Fill, Program};
use luo_num::NoMemory;
use std::alloc::Global;

// Puts what an entry is called behind the text.
fn put_entry(text: &mut Vec<u8>, program: &Program, entry: Entry) -> Result<(), NoMemory>
    ensures { OnOk result (text.new.items ≡ text.old.items ++ entry_text
        (plain_of program.now) entry) }
{
    match entry {
        Entry::Count(node) => {
            text.extend_from_slice(b"count of ")?;
            put_node(text, program, node)
        }
        Entry::Total(site) => {
            text.extend_from_slice(b"total of ")?;
            put_site(text, program, site)
        }
    }
}

// The line of an entry that overflows.
fn overflow_bytes(alloc: Global, program: &Program, over: Overflow) -> Result<Vec<u8>, NoMemory>
    ensures { IfOk result (λ text. text.items ≡ overflow_line
        (plain_of program.now) over.entry over.n) }
{
    let mut buffer = Buffer::new();
    let mut text = Vec::from_slice(alloc, b"overflow: ")?;
    put_entry(&mut text, program, over.entry)?;
    text.extend_from_slice(b" at size ")?;
    text.extend_from_slice(buffer.format(over.n).as_bytes())?;
    text.push(b'\n')?;
    Ok(text)
}

// The refusal of the first entry that overflows.
fn overflow_refusal(alloc: Global, program: &Program, over: Overflow) -> Refusal
    ensures { (fill : Fill) (last : ℕ)
        → IsFirstOver (plain_of program.now) last fill over.entry over.n
        → RefusedBy (OverflowRefusal (plain_of program.now) fill last) result }
{
    match overflow_bytes(alloc, program, over) {
        Ok(text) => Refusal::Overflow(Line::Made(text)),
        Err(_) => Refusal::NoMemory,
    }
}

/// The tables of a program for the sizes up to `last`.
pub fn tables<'p>(
    alloc: Global,
    program: &'p Program,
    ranks: &'p Ranks<'p>,
    last: u32,
    fill: Fill,
) -> Result<Engine<'p>, Refusal>
    requires ranks { ranks.now ≡ program.now }
    requires size { last ≤ SIZE_LIMIT }
    ensures passes { Passes none (steps.tables fill (plain_of program.now) last) result }
    ensures full { IfOk result (λ engine. engine ≡ full program.now fill last) }
{
    let mut engine = Engine::start(alloc, program, ranks, last, fill)?;
    for _i in 0..last + 1 {
        if let Err(over) = engine.extend() {
            let refusal = overflow_refusal(alloc, program, over);
            drop(engine);
            return Err(refusal);
        }
    }
    Ok(engine)
}
