// The text of values.
ghost use Rattle.std.specs.Prelude.{◌≡◌, ◌+◌, ◌++◌, codes, decimal, OnOk};
ghost use Rattle.luo_source.specs.View.{source_value_of, source_value_list, source_value_arm_list};
ghost use Rattle.luo_print.specs.Layout.{joined, lines, new_line};
ghost use Rattle.luo_print.specs.CanonicalStatements.{pattern_text, case_of};
ghost use Rattle.luo_print.specs.CanonicalValues.{charge_text, opening, closing, value_text, value_texts, value_arm_texts};

use crate::patterns::{put_arm_head, put_call, put_case_head, put_name};
use crate::pieces::{deeper, put_end, put_new_line};
use luo_num::NoMemory;
use luo_num::text::put_number;
use luo_source::{Name, SourceValue, SourceValueArm};

// Appends an atom and its charge to the text.
fn put_atom(text: &mut Vec<u8>, charge: &Option<Name>) -> Result<(), NoMemory>
    ensures { OnOk result (text.new.items ≡ text.old.items ++ charge_text charge.now
        ++ codes "atom") }
{
    if let Some(measure) = charge {
        put_name(text, measure)?;
        text.extend_from_slice(b" atom")?;
        return Ok(());
    }
    text.extend_from_slice(b"atom")?;
    Ok(())
}

// What stands before a value directly inside a branch.
fn open_bracket(value: &SourceValue) -> &'static [u8]
    ensures { result.now ≡ opening (source_value_of value.now) }
{
    match value {
        SourceValue::Branch { .. } => b"(",
        _ => b"",
    }
}

// What comes after a value directly inside a branch.
fn close_bracket(value: &SourceValue) -> &'static [u8]
    ensures { result.now ≡ closing (source_value_of value.now) }
{
    match value {
        SourceValue::Branch { .. } => b")",
        _ => b"",
    }
}

// Appends a value to the text, in a line of this indentation.
#[cycle(values)]
pub(crate) fn put_value(
    text: &mut Vec<u8>,
    indent: usize,
    value: &SourceValue,
) -> Result<(), NoMemory>
    ensures { OnOk result (text.new.items ≡ text.old.items ++ value_text indent
        (source_value_of value.now)) }
{
    match value {
        SourceValue::Given(name) => put_name(text, name)?,
        SourceValue::Made { callee, arg } => put_call(text, callee, arg)?,
        SourceValue::Atom { charge, .. } => put_atom(text, charge)?,
        SourceValue::Tuple { parts, .. } => put_tuple(text, indent, parts.as_slice())?,
        SourceValue::Branch { number, inner, .. } => {
            put_branch(text, indent, *number, inner.get())?;
        }
        SourceValue::Case { var, arms } => put_value_case(text, indent, var, arms.as_slice())?,
    }
    Ok(())
}

// Appends a tuple to the text.
#[cycle(values)]
fn put_tuple(text: &mut Vec<u8>, indent: usize, parts: &[SourceValue]) -> Result<(), NoMemory>
    ensures { OnOk result (text.new.items ≡ text.old.items
        ++ (codes "product("
        ++ joined (codes ", ") (value_texts indent (source_value_list parts.now)) ++ codes ")")) }
{
    text.extend_from_slice(b"product(")?;
    put_parts(text, indent, parts)?;
    text.push(b')')?;
    Ok(())
}

// Appends values to the text, with commas between them.
#[cycle(values)]
fn put_parts(text: &mut Vec<u8>, indent: usize, parts: &[SourceValue]) -> Result<(), NoMemory>
    ensures { OnOk result (text.new.items ≡ text.old.items ++ joined (codes ", ")
        (value_texts indent (source_value_list parts.now))) }
{
    let [first, rest @ ..] = parts else {
        return Ok(());
    };
    put_value(text, indent, first)?;
    for part in rest {
        text.extend_from_slice(b", ")?;
        put_value(text, indent, part)?;
    }
    Ok(())
}

// Appends a branch to the text.
#[cycle(values)]
fn put_branch(
    text: &mut Vec<u8>,
    indent: usize,
    number: u128,
    inner: &SourceValue,
) -> Result<(), NoMemory>
    ensures { let value = source_value_of inner.now in OnOk result (text.new.items
        ≡ text.old.items ++ (decimal number ++ codes " : "
        ++ (opening value ++ value_text indent value ++ closing value))) }
{
    put_number(text, number)?;
    text.extend_from_slice(b" : ")?;
    text.extend_from_slice(open_bracket(inner))?;
    put_value(text, indent, inner)?;
    text.extend_from_slice(close_bracket(inner))?;
    Ok(())
}

// Appends a case to the text, in a line of this indentation.
#[cycle(values)]
fn put_value_case(
    text: &mut Vec<u8>,
    indent: usize,
    var: &Name,
    arms: &[SourceValueArm],
) -> Result<(), NoMemory>
    ensures { OnOk result (text.new.items ≡ text.old.items ++ case_of indent var.now
        (value_arm_texts (indent + 2) (source_value_arm_list arms.now))) }
{
    put_case_head(text, var)?;
    let inner = deeper(indent)?;
    put_value_arms(text, inner, arms)?;
    put_end(text, indent)?;
    Ok(())
}

// Appends arms to the text, each on a new line of this indentation.
#[cycle(values)]
fn put_value_arms(
    text: &mut Vec<u8>,
    indent: usize,
    arms: &[SourceValueArm],
) -> Result<(), NoMemory>
    ensures { OnOk result (text.new.items ≡ text.old.items ++ lines indent
        (value_arm_texts indent (source_value_arm_list arms.now))) }
{
    let [first, rest @ ..] = arms else {
        return Ok(());
    };
    put_value_arm(text, indent, first)?;
    for arm in rest {
        text.push(b';')?;
        put_value_arm(text, indent, arm)?;
    }
    Ok(())
}

// Appends an arm to the text, on a new line of this indentation.
#[cycle(values)]
fn put_value_arm(text: &mut Vec<u8>, indent: usize, arm: &SourceValueArm) -> Result<(), NoMemory>
    ensures { OnOk result (text.new.items ≡ text.old.items ++ (new_line indent
        ++ (pattern_text arm.now.pattern ++ codes " : "
        ++ value_text indent (source_value_of arm.now.body)))) }
{
    put_new_line(text, indent)?;
    put_arm_head(text, &arm.pattern)?;
    put_value(text, indent, &arm.body)?;
    Ok(())
}
