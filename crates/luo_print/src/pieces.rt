// Names, numbers and new lines.
ghost use Rattle.std.specs.Prelude.{◌≡◌, ◌+◌, ◌++◌, codes, IfOk, OnOk};
ghost use Rattle.luo_print.specs.Layout.{spaces, new_line, name_list};

use luo_num::NoMemory;
use luo_source::Name;

// The indentation of what stands inside. No memory holds a text of an indentation past the last `usize`.
pub(crate) fn deeper(indent: usize) -> Result<usize, NoMemory>
    ensures { IfOk result (λ inner. inner ≡ indent + 2) }
{
    match indent.checked_add(2) {
        Some(inner) => Ok(inner),
        None => Err(NoMemory),
    }
}

// Appends spaces to the text.
fn put_spaces(text: &mut Vec<u8>, count: usize) -> Result<(), NoMemory>
    ensures { OnOk result (text.new.items ≡ text.old.items ++ spaces count) }
{
    for _i in 0..count {
        text.push(b' ')?;
    }
    Ok(())
}

// Appends a line feed and an indentation to the text.
pub(crate) fn put_new_line(text: &mut Vec<u8>, indent: usize) -> Result<(), NoMemory>
    ensures { OnOk result (text.new.items ≡ text.old.items ++ new_line indent) }
{
    text.push(b'\n')?;
    put_spaces(text, indent)?;
    Ok(())
}

// Appends the `end` of a block or a case to the text, on a new line of this indentation.
pub(crate) fn put_end(text: &mut Vec<u8>, indent: usize) -> Result<(), NoMemory>
    ensures { OnOk result (text.new.items ≡ text.old.items ++ new_line indent ++ codes "end") }
{
    put_new_line(text, indent)?;
    text.extend_from_slice(b"end")?;
    Ok(())
}

// Appends names to the text.
pub(crate) fn put_names(text: &mut Vec<u8>, names: &[Name]) -> Result<(), NoMemory>
    ensures { OnOk result (text.new.items ≡ text.old.items ++ name_list names.now) }
{
    let [first, rest @ ..] = names else {
        return Ok(());
    };
    text.extend_from_slice(first.text.as_slice())?;
    for name in rest {
        text.extend_from_slice(b", ")?;
        text.extend_from_slice(name.text.as_slice())?;
    }
    Ok(())
}
