// The texts of structures.
ghost use Rattle.std.specs.Prelude.{◌≡◌, ◌++◌, codes, IfOk, OnOk};
ghost use Rattle.luo_model.specs.Tree.{Atom};
ghost use Rattle.luo_struct.specs.Text.{structure_text, joined};
ghost use Rattle.luo_struct.specs.View.{tree_of, tree_list};

use crate::Structure;
use luo_num::NoMemory;
use luo_num::text::put_number;
use std::alloc::Global;

// Appends an atom to the text.
fn put_atom(text: &mut Vec<u8>, weight: u32, label: u32) -> Result<(), NoMemory>
    ensures { OnOk result (text.new.items ≡ text.old.items ++ structure_text (Atom weight label)) }
{
    if label == 0 {
        text.push(b'a')?;
        put_number(text, weight as u128)?;
    } else {
        text.push(b'#')?;
        put_number(text, label as u128)?;
    }
    Ok(())
}

// Appends the parts to the text, with commas between them.
#[cycle(puts)]
fn put_parts(text: &mut Vec<u8>, parts: &[Structure]) -> Result<(), NoMemory>
    ensures { OnOk result (text.new.items ≡ text.old.items ++ joined (tree_list parts.now)) }
{
    let [first, rest @ ..] = parts else {
        return Ok(());
    };
    put_structure(text, first)?;
    for part in rest {
        text.push(b',')?;
        put_structure(text, part)?;
    }
    Ok(())
}

// Appends a structure to the text.
#[cycle(puts)]
fn put_structure(text: &mut Vec<u8>, s: &Structure) -> Result<(), NoMemory>
    ensures { OnOk result (text.new.items ≡ text.old.items ++ structure_text (tree_of s.now)) }
{
    match s {
        Structure::Atom { weight, label } => put_atom(text, *weight, *label)?,
        Structure::Inj { branch, inner } => {
            put_number(text, *branch as u128)?;
            text.push(b':')?;
            put_structure(text, inner.get())?;
        }
        Structure::Tup { parts } => {
            text.push(b'(')?;
            put_parts(text, parts.as_slice())?;
            text.push(b')')?;
        }
        Structure::Coll { parts } => {
            text.push(b'[')?;
            put_parts(text, parts.as_slice())?;
            text.push(b']')?;
        }
    }
    Ok(())
}

/// The text of a structure: `a` and the weight of an atom without a label, `#` and the label of one that has it, the
/// number of a branch, `:` and what is inside, the parts of a tuple in round brackets and the components of a
/// collection in square ones, with commas between them.
pub fn write_structure(alloc: Global, s: &Structure) -> Result<Vec<u8>, NoMemory>
    ensures { IfOk result (λ text. text.items ≡ structure_text (tree_of s.now)) }
{
    let mut text = Vec::new(alloc);
    put_structure(&mut text, s)?;
    Ok(text)
}
