// The text of type expressions.
ghost use Rattle.std.specs.Prelude.{◌≡◌, ◌++◌, codes, decimal, OnOk};
ghost use Rattle.luo_source.specs.View.{expr_of, expr_list, type_def_of};
ghost use Rattle.luo_print.specs.Layout.{joined};
ghost use Rattle.luo_print.specs.CanonicalTypes.{kind_text, range_text, bound_text, expr_text, expr_texts, type_def_line, measure_line};

use crate::pieces::put_names;
use luo_model::Kind;
use luo_num::NoMemory;
use luo_num::text::put_number;
use luo_source::{Bound, MeasureDef, Range, TypeDef, TypeExpr};

fn word_of(kind: Kind) -> &'static [u8]
    ensures { result.now ≡ kind_text kind }
{
    match kind {
        Kind::Sequence => b"sequence",
        Kind::Set => b"set",
        Kind::Cycle => b"cycle",
        Kind::Multiset => b"multiset",
        Kind::Powerset => b"powerset",
    }
}

// Appends a range to the text.
fn put_range(text: &mut Vec<u8>, range: Range) -> Result<(), NoMemory>
    ensures { OnOk result (text.new.items ≡ text.old.items ++ range_text range) }
{
    match range {
        Range::Exactly(number) => {
            text.extend_from_slice(b"= ")?;
            put_number(text, number)
        }
        Range::AtMost(number) => {
            text.extend_from_slice(b"<= ")?;
            put_number(text, number)
        }
        Range::AtLeast(number) => {
            text.extend_from_slice(b">= ")?;
            put_number(text, number)
        }
        Range::Between(low, high) => {
            text.extend_from_slice(b"in ")?;
            put_number(text, low)?;
            text.extend_from_slice(b"..")?;
            put_number(text, high)
        }
    }
}

// Appends the bound of a collection to the text.
fn put_bound(text: &mut Vec<u8>, bound: Option<Bound>) -> Result<(), NoMemory>
    ensures { OnOk result (text.new.items ≡ text.old.items ++ bound_text bound) }
{
    let Some(bound) = bound else {
        return Ok(());
    };
    text.extend_from_slice(b", card ")?;
    put_range(text, bound.range)
}

// Appends an atom to the text.
fn put_atom(text: &mut Vec<u8>, weight: u128) -> Result<(), NoMemory>
    ensures { OnOk result (text.new.items ≡ text.old.items ++ codes "atom(" ++ decimal weight
        ++ codes ")") }
{
    text.extend_from_slice(b"atom(")?;
    put_number(text, weight)?;
    text.push(b')')?;
    Ok(())
}

// Appends a type expression to the text.
#[cycle(types)]
fn put_expr(text: &mut Vec<u8>, expr: &TypeExpr) -> Result<(), NoMemory>
    ensures { OnOk result (text.new.items ≡ text.old.items ++ expr_text (expr_of expr.now)) }
{
    match expr {
        TypeExpr::Named(name) => {
            text.extend_from_slice(name.text.as_slice())?;
        }
        TypeExpr::Epsilon { .. } => {
            text.extend_from_slice(b"epsilon")?;
        }
        TypeExpr::Atom { weight, .. } => put_atom(text, *weight)?,
        TypeExpr::Union { parts } => put_exprs(text, b" | ", parts.as_slice())?,
        TypeExpr::Product { parts, .. } => put_product(text, parts.as_slice())?,
        TypeExpr::Coll {
            kind,
            part,
            bound,
            ..
        } => put_collection(text, *kind, part.get(), *bound)?,
    }
    Ok(())
}

// Appends a product to the text.
#[cycle(types)]
fn put_product(text: &mut Vec<u8>, parts: &[TypeExpr]) -> Result<(), NoMemory>
    ensures { OnOk result (text.new.items ≡ text.old.items
        ++ (codes "product(" ++ joined (codes ", ") (expr_texts (expr_list parts.now))
        ++ codes ")")) }
{
    text.extend_from_slice(b"product(")?;
    put_exprs(text, b", ", parts)?;
    text.push(b')')?;
    Ok(())
}

// Appends a collection to the text.
#[cycle(types)]
fn put_collection(
    text: &mut Vec<u8>,
    kind: Kind,
    part: &TypeExpr,
    bound: Option<Bound>,
) -> Result<(), NoMemory>
    ensures { OnOk result (text.new.items ≡ text.old.items
        ++ (kind_text kind ++ codes "(" ++ expr_text (expr_of part.now) ++ bound_text bound
        ++ codes ")")) }
{
    text.extend_from_slice(word_of(kind))?;
    text.push(b'(')?;
    put_expr(text, part)?;
    put_bound(text, bound)?;
    text.push(b')')?;
    Ok(())
}

// Appends type expressions to the text, with these bytes between them.
#[cycle(types)]
fn put_exprs(text: &mut Vec<u8>, between: &[u8], exprs: &[TypeExpr]) -> Result<(), NoMemory>
    ensures { OnOk result (text.new.items ≡ text.old.items
        ++ joined between.now (expr_texts (expr_list exprs.now))) }
{
    let [first, rest @ ..] = exprs else {
        return Ok(());
    };
    put_expr(text, first)?;
    for expr in rest {
        text.extend_from_slice(between)?;
        put_expr(text, expr)?;
    }
    Ok(())
}

// Appends the line of a definition to the text.
pub(crate) fn put_type_def(text: &mut Vec<u8>, def: &TypeDef) -> Result<(), NoMemory>
    ensures { OnOk result (text.new.items ≡ text.old.items ++ type_def_line
        (type_def_of def.now)) }
{
    text.extend_from_slice(b"type ")?;
    put_names(text, def.names.as_slice())?;
    text.extend_from_slice(b" = ")?;
    put_expr(text, &def.body)?;
    text.extend_from_slice(b";\n")?;
    Ok(())
}

// Appends the line of measures to the text.
pub(crate) fn put_measure(text: &mut Vec<u8>, def: &MeasureDef) -> Result<(), NoMemory>
    ensures { OnOk result (text.new.items ≡ text.old.items ++ measure_line def.now) }
{
    text.extend_from_slice(b"measure ")?;
    put_names(text, def.names.as_slice())?;
    text.extend_from_slice(b" : ")?;
    put_number(text, def.value)?;
    text.extend_from_slice(b";\n")?;
    Ok(())
}
