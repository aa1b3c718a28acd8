// The lines of a sample program.
ghost use Rattle.std.specs.Prelude.{◌≡◌, ◌<◌, ◌++◌, OnOk, decimal};
ghost use Rattle.luo_print.specs.CanonicalTypes.{kind_text};
ghost use Rattle.luo_print.specs.Canonical.{universe_line};
ghost use Rattle.luo_sample.specs.Text.{type_name, proc_name, kind_chosen, type_line, proc_lines, analyze_line};

use crate::choice::Choice;
use itoa::Buffer;
use luo_model::Universe;
use luo_num::NoMemory;

// The line of the universe.
pub(crate) fn first_line(universe: Universe) -> &'static [u8]
    ensures { result.now ≡ universe_line universe }
{
    match universe {
        Universe::Labelled => b"labelled;\n",
        Universe::Unlabelled => b"unlabelled;\n",
    }
}

// The word of a kind of collection.
fn kind_word(universe: Universe, kind: u32) -> &'static [u8]
    requires { kind < 3 }
    ensures { result.now ≡ kind_text (kind_chosen universe kind) }
{
    match kind {
        0 => b"sequence",
        1 => match universe {
            Universe::Unlabelled => b"multiset",
            Universe::Labelled => b"set",
        },
        _ => match universe {
            Universe::Unlabelled => b"powerset",
            Universe::Labelled => b"cycle",
        },
    }
}

// Appends a number to the text.
fn put_number(text: &mut Vec<u8>, number: u32) -> Result<(), NoMemory>
    ensures { OnOk result (text.new.items ≡ text.old.items ++ decimal number) }
{
    let mut buffer = Buffer::new();
    text.extend_from_slice(buffer.format(number).as_bytes())?;
    Ok(())
}

// Appends the name of definition i to the text.
fn put_type(text: &mut Vec<u8>, i: u32) -> Result<(), NoMemory>
    ensures { OnOk result (text.new.items ≡ text.old.items ++ type_name i) }
{
    text.push(b't')?;
    put_number(text, i)
}

// Appends the name of procedure i to the text.
fn put_proc(text: &mut Vec<u8>, i: u32) -> Result<(), NoMemory>
    ensures { OnOk result (text.new.items ≡ text.old.items ++ proc_name i) }
{
    text.push(b'p')?;
    put_number(text, i)
}

// Appends the line of definition i to the text.
pub(crate) fn put_type_line(
    text: &mut Vec<u8>,
    universe: Universe,
    i: u32,
    choice: Choice,
) -> Result<(), NoMemory>
    requires { choice.kind < 3 }
    ensures { OnOk result (text.new.items ≡ text.old.items ++ type_line universe i choice) }
{
    text.extend_from_slice(b"type ")?;
    put_type(text, i)?;
    text.extend_from_slice(b" = z | product(z, ")?;
    put_type(text, choice.first)?;
    text.extend_from_slice(b", ")?;
    put_type(text, choice.second)?;
    text.extend_from_slice(b") | product(z, ")?;
    text.extend_from_slice(kind_word(universe, choice.kind))?;
    text.push(b'(')?;
    put_type(text, choice.inner)?;
    text.extend_from_slice(b"));\n")?;
    Ok(())
}

// Appends the lines of procedure i to the text.
pub(crate) fn put_proc_lines(text: &mut Vec<u8>, i: u32, choice: Choice) -> Result<(), NoMemory>
    ensures { OnOk result (text.new.items ≡ text.old.items ++ proc_lines i choice) }
{
    text.extend_from_slice(b"procedure ")?;
    put_proc(text, i)?;
    text.extend_from_slice(b"(x : ")?;
    put_type(text, i)?;
    text.extend_from_slice(
        b");\nbegin\n  unit;\n  case x of\n    z : skip;\n    (a, b, c) : begin\n      ",
    )?;
    put_proc(text, choice.first)?;
    text.extend_from_slice(b"(b);\n      ")?;
    put_proc(text, choice.second)?;
    text.extend_from_slice(b"(c)\n    end;\n    (a, b) : begin\n      forall u in b do ")?;
    put_proc(text, choice.inner)?;
    text.extend_from_slice(b"(u)\n    end\n  end\nend;\n")?;
    Ok(())
}

// Appends the analyze line of procedure i to the text.
pub(crate) fn put_analyze_line(text: &mut Vec<u8>, i: u32) -> Result<(), NoMemory>
    ensures { OnOk result (text.new.items ≡ text.old.items ++ analyze_line i) }
{
    text.extend_from_slice(b"analyze ")?;
    put_proc(text, i)?;
    text.extend_from_slice(b";\n")?;
    Ok(())
}
