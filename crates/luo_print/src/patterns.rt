// The text of patterns and calls.
ghost use Rattle.std.specs.Prelude.{◌≡◌, ◌++◌, codes, OnOk};
ghost use Rattle.luo_print.specs.Layout.{name_list};
ghost use Rattle.luo_print.specs.CanonicalStatements.{pattern_text, call_text};

use crate::pieces::put_names;
use luo_num::NoMemory;
use luo_source::{Name, Pattern};

// Appends a name to the text.
pub(crate) fn put_name(text: &mut Vec<u8>, name: &Name) -> Result<(), NoMemory>
    ensures { OnOk result (text.new.items ≡ text.old.items ++ name.now.text) }
{
    text.extend_from_slice(name.text.as_slice())?;
    Ok(())
}

// Appends a call to the text.
pub(crate) fn put_call(text: &mut Vec<u8>, callee: &Name, arg: &Name) -> Result<(), NoMemory>
    ensures { OnOk result (text.new.items ≡ text.old.items ++ call_text callee.now arg.now) }
{
    put_name(text, callee)?;
    text.push(b'(')?;
    put_name(text, arg)?;
    text.push(b')')?;
    Ok(())
}

// Appends names in round brackets to the text.
fn put_bracketed(text: &mut Vec<u8>, names: &[Name]) -> Result<(), NoMemory>
    ensures { OnOk result (text.new.items ≡ text.old.items ++ codes "(" ++ name_list names.now
        ++ codes ")") }
{
    text.push(b'(')?;
    put_names(text, names)?;
    text.push(b')')?;
    Ok(())
}

// Appends a pattern to the text.
fn put_pattern(text: &mut Vec<u8>, pattern: &Pattern) -> Result<(), NoMemory>
    ensures { OnOk result (text.new.items ≡ text.old.items ++ pattern_text pattern.now) }
{
    match pattern {
        Pattern::Named(name) => put_name(text, name)?,
        Pattern::NamedWhole(name, inner) => {
            put_name(text, name)?;
            text.extend_from_slice(b" as ")?;
            put_name(text, inner)?;
        }
        Pattern::NamedParts(name, names) => {
            put_name(text, name)?;
            put_bracketed(text, names.as_slice())?;
        }
        Pattern::Parts { names, .. } => put_bracketed(text, names.as_slice())?,
        Pattern::Any { .. } => text.push(b'_')?,
        Pattern::AnyWhole { name, .. } => {
            text.extend_from_slice(b"_ as ")?;
            put_name(text, name)?;
        }
    }
    Ok(())
}

// Appends the pattern of an arm to the text, and the colon after it.
pub(crate) fn put_arm_head(text: &mut Vec<u8>, pattern: &Pattern) -> Result<(), NoMemory>
    ensures { OnOk result (text.new.items ≡ text.old.items ++ pattern_text pattern.now
        ++ codes " : ") }
{
    put_pattern(text, pattern)?;
    text.extend_from_slice(b" : ")?;
    Ok(())
}

// Appends the head of a case to the text.
pub(crate) fn put_case_head(text: &mut Vec<u8>, var: &Name) -> Result<(), NoMemory>
    ensures { OnOk result (text.new.items ≡ text.old.items ++ codes "case " ++ var.now.text
        ++ codes " of") }
{
    text.extend_from_slice(b"case ")?;
    put_name(text, var)?;
    text.extend_from_slice(b" of")?;
    Ok(())
}
