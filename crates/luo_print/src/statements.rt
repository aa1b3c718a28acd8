// The text of statements.
ghost use Rattle.std.specs.Prelude.{◌≡◌, ◌+◌, ◌++◌, codes, OnOk};
ghost use Rattle.luo_source.specs.View.{stmt_of, stmt_list, source_arm_list};
ghost use Rattle.luo_print.specs.Layout.{lines, new_line};
ghost use Rattle.luo_print.specs.CanonicalStatements.{pattern_text, block_of, case_of, stmt_text, stmt_texts, arm_texts};

use crate::patterns::{put_arm_head, put_call, put_case_head, put_name};
use crate::pieces::{deeper, put_end, put_new_line};
use luo_num::NoMemory;
use luo_source::{Name, SourceArm, Stmt};

// Appends a statement to the text, in a line of this indentation.
#[cycle(statements)]
fn put_stmt(text: &mut Vec<u8>, indent: usize, stmt: &Stmt) -> Result<(), NoMemory>
    ensures { OnOk result (text.new.items ≡ text.old.items ++ stmt_text indent (stmt_of stmt.now)) }
{
    match stmt {
        Stmt::Skip => text.extend_from_slice(b"skip")?,
        Stmt::Charge(name) => put_name(text, name)?,
        Stmt::Call { callee, arg } => put_call(text, callee, arg)?,
        Stmt::Block(stmts) => put_block(text, indent, stmts.as_slice())?,
        Stmt::Case { var, arms } => put_case(text, indent, var, arms.as_slice())?,
        Stmt::Forall { var, source, body } => put_forall(text, indent, var, source, body.get())?,
    }
    Ok(())
}

// Appends the head of a forall to the text.
fn put_forall_head(text: &mut Vec<u8>, var: &Name, source: &Name) -> Result<(), NoMemory>
    ensures { OnOk result (text.new.items ≡ text.old.items ++ codes "forall " ++ var.now.text
        ++ codes " in " ++ source.now.text ++ codes " do ") }
{
    text.extend_from_slice(b"forall ")?;
    put_name(text, var)?;
    text.extend_from_slice(b" in ")?;
    put_name(text, source)?;
    text.extend_from_slice(b" do ")?;
    Ok(())
}

// Appends a forall to the text, in a line of this indentation.
#[cycle(statements)]
fn put_forall(
    text: &mut Vec<u8>,
    indent: usize,
    var: &Name,
    source: &Name,
    body: &Stmt,
) -> Result<(), NoMemory>
    ensures { OnOk result (text.new.items ≡ text.old.items
        ++ (codes "forall " ++ var.now.text ++ codes " in " ++ source.now.text ++ codes " do "
        ++ stmt_text indent (stmt_of body.now))) }
{
    put_forall_head(text, var, source)?;
    put_stmt(text, indent, body)?;
    Ok(())
}

// Appends a block to the text, in a line of this indentation.
#[cycle(statements)]
pub(crate) fn put_block(text: &mut Vec<u8>, indent: usize, stmts: &[Stmt]) -> Result<(), NoMemory>
    ensures { OnOk result (text.new.items ≡ text.old.items ++ block_of indent
        (stmt_texts (indent + 2) (stmt_list stmts.now))) }
{
    text.extend_from_slice(b"begin")?;
    let inner = deeper(indent)?;
    put_stmts(text, inner, stmts)?;
    put_end(text, indent)?;
    Ok(())
}

// Appends a case to the text, in a line of this indentation.
#[cycle(statements)]
fn put_case(
    text: &mut Vec<u8>,
    indent: usize,
    var: &Name,
    arms: &[SourceArm],
) -> Result<(), NoMemory>
    ensures { OnOk result (text.new.items ≡ text.old.items ++ case_of indent var.now
        (arm_texts (indent + 2) (source_arm_list arms.now))) }
{
    put_case_head(text, var)?;
    let inner = deeper(indent)?;
    put_arms(text, inner, arms)?;
    put_end(text, indent)?;
    Ok(())
}

// Appends statements to the text, each on a new line of this indentation.
#[cycle(statements)]
fn put_stmts(text: &mut Vec<u8>, indent: usize, stmts: &[Stmt]) -> Result<(), NoMemory>
    ensures { OnOk result (text.new.items ≡ text.old.items ++ lines indent
        (stmt_texts indent (stmt_list stmts.now))) }
{
    let [first, rest @ ..] = stmts else {
        return Ok(());
    };
    put_line(text, indent, first)?;
    for stmt in rest {
        text.push(b';')?;
        put_line(text, indent, stmt)?;
    }
    Ok(())
}

// Appends a statement to the text, on a new line of this indentation.
#[cycle(statements)]
fn put_line(text: &mut Vec<u8>, indent: usize, stmt: &Stmt) -> Result<(), NoMemory>
    ensures { OnOk result (text.new.items ≡ text.old.items ++ (new_line indent
        ++ stmt_text indent (stmt_of stmt.now))) }
{
    put_new_line(text, indent)?;
    put_stmt(text, indent, stmt)?;
    Ok(())
}

// Appends arms to the text, each on a new line of this indentation.
#[cycle(statements)]
fn put_arms(text: &mut Vec<u8>, indent: usize, arms: &[SourceArm]) -> Result<(), NoMemory>
    ensures { OnOk result (text.new.items ≡ text.old.items ++ lines indent
        (arm_texts indent (source_arm_list arms.now))) }
{
    let [first, rest @ ..] = arms else {
        return Ok(());
    };
    put_arm(text, indent, first)?;
    for arm in rest {
        text.push(b';')?;
        put_arm(text, indent, arm)?;
    }
    Ok(())
}

// Appends an arm to the text, on a new line of this indentation.
#[cycle(statements)]
fn put_arm(text: &mut Vec<u8>, indent: usize, arm: &SourceArm) -> Result<(), NoMemory>
    ensures { OnOk result (text.new.items ≡ text.old.items ++ (new_line indent
        ++ (pattern_text arm.now.pattern ++ codes " : "
        ++ stmt_text indent (stmt_of arm.now.body)))) }
{
    put_new_line(text, indent)?;
    put_arm_head(text, &arm.pattern)?;
    put_stmt(text, indent, &arm.body)?;
    Ok(())
}
