// The text of procedures and whole sources.
ghost use Rattle.std.specs.Prelude.{◌≡◌, ◌++◌, map, flat_map, IfOk, OnOk};
ghost use Rattle.luo_source.specs.View.{stmt_list, type_def_of, proc_body_of, proc_def_of, plain_source};
ghost use Rattle.luo_print.specs.CanonicalTypes.{type_def_line, measure_line};
ghost use Rattle.luo_print.specs.CanonicalStatements.{block_of, stmt_texts};
ghost use Rattle.luo_print.specs.Canonical.{universe_line, body_text, proc_text, analyze_line, canonical};

use crate::patterns::put_name;
use crate::statements::put_block;
use crate::types::{put_measure, put_type_def};
use crate::values::put_value;
use luo_model::Universe;
use luo_num::NoMemory;
use luo_source::{MeasureDef, Name, ProcBody, ProcDef, Source, Stmt, TypeDef};
use std::alloc::Global;

fn first_line(universe: Universe) -> &'static [u8]
    ensures { result.now ≡ universe_line universe }
{
    match universe {
        Universe::Labelled => b"labelled;\n",
        Universe::Unlabelled => b"unlabelled;\n",
    }
}

// Appends the lines of definitions to the text.
fn put_type_defs(text: &mut Vec<u8>, defs: &[TypeDef]) -> Result<(), NoMemory>
    ensures { OnOk result (text.new.items ≡ text.old.items ++ flat_map type_def_line
        (map type_def_of defs.now)) }
{
    for def in defs {
        put_type_def(text, def)?;
    }
    Ok(())
}

// Appends the lines of measures to the text.
fn put_measures(text: &mut Vec<u8>, defs: &[MeasureDef]) -> Result<(), NoMemory>
    ensures { OnOk result (text.new.items ≡ text.old.items ++ flat_map measure_line defs.now) }
{
    for def in defs {
        put_measure(text, def)?;
    }
    Ok(())
}

// Appends the block of a procedure to the text.
fn put_statements(text: &mut Vec<u8>, stmts: &[Stmt]) -> Result<(), NoMemory>
    ensures { OnOk result (text.new.items ≡ text.old.items ++ block_of 0
        (stmt_texts 2 (stmt_list stmts.now))) }
{
    put_block(text, 0, stmts)?;
    Ok(())
}

// Appends what comes after the `)` of a procedure to the text.
fn put_body(text: &mut Vec<u8>, body: &ProcBody) -> Result<(), NoMemory>
    ensures { OnOk result (text.new.items ≡ text.old.items ++ body_text (proc_body_of body.now)) }
{
    match body {
        ProcBody::Statements(stmts) => {
            text.extend_from_slice(b";\n")?;
            put_statements(text, stmts.as_slice())?;
        }
        ProcBody::Value { result, value, .. } => {
            text.extend_from_slice(b" : ")?;
            put_name(text, result)?;
            text.extend_from_slice(b";\n")?;
            put_value(text, 0, value)?;
        }
    }
    Ok(())
}

// Appends a procedure to the text.
fn put_proc(text: &mut Vec<u8>, def: &ProcDef) -> Result<(), NoMemory>
    ensures { OnOk result (text.new.items ≡ text.old.items ++ proc_text (proc_def_of def.now)) }
{
    text.extend_from_slice(b"procedure ")?;
    put_name(text, &def.name)?;
    text.push(b'(')?;
    put_name(text, &def.param)?;
    text.extend_from_slice(b" : ")?;
    put_name(text, &def.on)?;
    text.push(b')')?;
    put_body(text, &def.body)?;
    text.extend_from_slice(b";\n")?;
    Ok(())
}

// Appends procedures to the text.
fn put_procs(text: &mut Vec<u8>, defs: &[ProcDef]) -> Result<(), NoMemory>
    ensures { OnOk result (text.new.items ≡ text.old.items ++ flat_map proc_text
        (map proc_def_of defs.now)) }
{
    for def in defs {
        put_proc(text, def)?;
    }
    Ok(())
}

// Appends an analyze line to the text.
fn put_analysis(text: &mut Vec<u8>, name: &Name) -> Result<(), NoMemory>
    ensures { OnOk result (text.new.items ≡ text.old.items ++ analyze_line name.now) }
{
    text.extend_from_slice(b"analyze ")?;
    put_name(text, name)?;
    text.extend_from_slice(b";\n")?;
    Ok(())
}

// Appends analyze lines to the text.
fn put_analyses(text: &mut Vec<u8>, names: &[Name]) -> Result<(), NoMemory>
    ensures { OnOk result (text.new.items ≡ text.old.items ++ flat_map analyze_line names.now) }
{
    for name in names {
        put_analysis(text, name)?;
    }
    Ok(())
}

/// The canonical text of a source, in the layout of the language.
///
/// `NoMemory` says that there was no memory for the text.
pub fn print_source(alloc: Global, source: &Source) -> Result<Vec<u8>, NoMemory>
    ensures { IfOk result (λ text. text.items ≡ canonical (plain_source source.now)) }
{
    let mut text = Vec::new(alloc);
    text.extend_from_slice(first_line(source.universe))?;
    put_type_defs(&mut text, source.types.as_slice())?;
    put_measures(&mut text, source.measures.as_slice())?;
    put_procs(&mut text, source.procs.as_slice())?;
    put_analyses(&mut text, source.analyses.as_slice())?;
    Ok(text)
}
