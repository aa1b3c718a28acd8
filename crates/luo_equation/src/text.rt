// The texts of equations.
ghost use Rattle.std.specs.Prelude.{◌≡◌, ◌++◌, codes, IfOk, OnOk};
ghost use Rattle.std.specs.List.{join_by};
ghost use Rattle.luo_model.specs.View.{plain_of};
ghost use Rattle.luo_equation.specs.View.{expr_of, equation_of};
ghost use Rattle.luo_equation.specs.Text.{definition_name, procedure_name, series_text, tau_text, left_text, equation_text};
ghost use Rattle.luo_equation.specs.Text.{kind_word, power_text, free_low, least_text, between_text, bounds_text};
ghost use Rattle.luo_equation.specs.Text.{opening, closing, coll_text, marked_text, expr_text, factor_text};

use crate::{Equation, Expr, Left};
use luo_model::{Kind, Program};
use luo_num::NoMemory;
use luo_num::text::put_number;
use std::alloc::Global;

// Which collections: their kind, and the bounds of the number of their components.
#[derive(Clone, Copy)]
struct Frame {
    kind: Kind,
    low: u32,
    high: Option<u32>,
}

// Appends the name of a definition to the text.
fn put_definition(text: &mut Vec<u8>, program: &Program, i: usize) -> Result<(), NoMemory>
    ensures { OnOk result
        (text.new.items ≡ text.old.items ++ definition_name (plain_of program.now) i) }
{
    if let Some(def) = program.defs.get(i) {
        text.extend_from_slice(def.name.as_slice())?;
    }
    Ok(())
}

// Appends the name of a procedure to the text.
fn put_procedure(text: &mut Vec<u8>, program: &Program, f: usize) -> Result<(), NoMemory>
    ensures { OnOk result
        (text.new.items ≡ text.old.items ++ procedure_name (plain_of program.now) f) }
{
    if let Some(procedure) = program.procs.get(f) {
        text.extend_from_slice(procedure.name.as_slice())?;
    }
    Ok(())
}

// Appends the series of a definition to the text.
fn put_series(text: &mut Vec<u8>, program: &Program, i: usize) -> Result<(), NoMemory>
    ensures { OnOk result
        (text.new.items ≡ text.old.items ++ series_text (plain_of program.now) i) }
{
    put_definition(text, program, i)?;
    text.extend_from_slice(b"(z)")?;
    Ok(())
}

// Appends the descriptor of a procedure to the text.
fn put_tau(text: &mut Vec<u8>, program: &Program, f: usize) -> Result<(), NoMemory>
    ensures { OnOk result
        (text.new.items ≡ text.old.items ++ tau_text (plain_of program.now) f) }
{
    text.extend_from_slice(b"tau[")?;
    put_procedure(text, program, f)?;
    text.extend_from_slice(b"](z)")?;
    Ok(())
}

// Appends a power of z to the text.
fn put_power(text: &mut Vec<u8>, weight: u32) -> Result<(), NoMemory>
    ensures { OnOk result (text.new.items ≡ text.old.items ++ power_text weight) }
{
    if weight == 0 {
        text.push(b'1')?;
        return Ok(());
    }
    text.push(b'z')?;
    if weight > 1 {
        text.push(b'^')?;
        put_number(text, weight as u128)?;
    }
    Ok(())
}

fn word_of(kind: Kind) -> &'static [u8]
    ensures { result.now ≡ kind_word kind }
{
    match kind {
        Kind::Sequence => b"Seq",
        Kind::Set => b"Set",
        Kind::Cycle => b"Cyc",
        Kind::Multiset => b"MSet",
        Kind::Powerset => b"PSet",
    }
}

// What stands before a factor.
fn open_bracket(e: &Expr) -> &'static [u8]
    ensures { result.now ≡ opening (expr_of e.now) }
{
    match e {
        Expr::Sum(_) => b"(",
        _ => b"",
    }
}

// What comes after a factor.
fn close_bracket(e: &Expr) -> &'static [u8]
    ensures { result.now ≡ closing (expr_of e.now) }
{
    match e {
        Expr::Sum(_) => b")",
        _ => b"",
    }
}

// Appends a least and a greatest number of components to the text.
fn put_between(text: &mut Vec<u8>, low: u32, high: u32) -> Result<(), NoMemory>
    ensures { OnOk result (text.new.items ≡ text.old.items ++ between_text low high) }
{
    if low == high {
        text.extend_from_slice(b", k=")?;
        put_number(text, high as u128)
    } else if low == 0 {
        text.extend_from_slice(b", k<=")?;
        put_number(text, high as u128)
    } else {
        text.extend_from_slice(b", k in ")?;
        put_number(text, low as u128)?;
        text.extend_from_slice(b"..")?;
        put_number(text, high as u128)
    }
}

// Appends a least number of components to the text, where it isn't that of collections without bounds.
fn put_least(text: &mut Vec<u8>, frame: Frame) -> Result<(), NoMemory>
    ensures { OnOk result
        (text.new.items ≡ text.old.items ++ least_text frame.kind frame.low) }
{
    let free = if frame.kind == Kind::Cycle { 1 } else { 0 };
    if frame.low != free {
        text.extend_from_slice(b", k>=")?;
        put_number(text, frame.low as u128)?;
    }
    Ok(())
}

// Appends the bounds of collections to the text.
fn put_bounds(text: &mut Vec<u8>, frame: Frame) -> Result<(), NoMemory>
    ensures { OnOk result
        (text.new.items ≡ text.old.items ++ bounds_text frame.kind frame.low frame.high) }
{
    match frame.high {
        Some(high) => put_between(text, frame.low, high),
        None => put_least(text, frame),
    }
}

// Appends an expression to the text.
#[cycle(exprs)]
fn put_expr(text: &mut Vec<u8>, program: &Program, e: &Expr) -> Result<(), NoMemory>
    ensures { OnOk result
        (text.new.items ≡ text.old.items ++ expr_text (plain_of program.now) (expr_of e.now)) }
{
    match e {
        Expr::Number(number) => put_number(text, *number)?,
        Expr::Power(weight) => put_power(text, *weight)?,
        Expr::Series(i) => put_series(text, program, *i)?,
        Expr::Tau(f) => put_tau(text, program, *f)?,
        Expr::Sum(terms) => put_terms(text, program, terms.as_slice())?,
        Expr::Prod(factors) => put_factors(text, program, factors.as_slice())?,
        Expr::Coll {
            kind,
            inner,
            low,
            high,
        } => {
            let frame = Frame {
                kind: *kind,
                low: *low,
                high: *high,
            };
            put_collection(text, program, frame, inner.get())?;
        }
        Expr::Point {
            kind,
            inner,
            low,
            high,
            body,
        } => {
            let frame = Frame {
                kind: *kind,
                low: *low,
                high: *high,
            };
            text.extend_from_slice(b"Point[")?;
            put_collection(text, program, frame, inner.get())?;
            put_marked(text, program, body.get())?;
        }
    }
    Ok(())
}

// Appends collections to the text.
#[cycle(exprs)]
fn put_collection(
    text: &mut Vec<u8>,
    program: &Program,
    frame: Frame,
    inner: &Expr,
) -> Result<(), NoMemory>
    ensures { OnOk result (text.new.items ≡ text.old.items
        ++ coll_text frame.kind frame.low frame.high
        (expr_text (plain_of program.now) (expr_of inner.now))) }
{
    text.extend_from_slice(word_of(frame.kind))?;
    text.push(b'[')?;
    put_expr(text, program, inner)?;
    put_bounds(text, frame)?;
    text.push(b']')?;
    Ok(())
}

// Appends the body of a walk to the text.
#[cycle(exprs)]
fn put_marked(text: &mut Vec<u8>, program: &Program, body: &Expr) -> Result<(), NoMemory>
    ensures { OnOk result (text.new.items ≡ text.old.items
        ++ marked_text (expr_text (plain_of program.now) (expr_of body.now))) }
{
    text.extend_from_slice(b"; ")?;
    put_expr(text, program, body)?;
    text.push(b']')?;
    Ok(())
}

// Appends terms to the text, with plus signs between them.
#[cycle(exprs)]
fn put_terms(text: &mut Vec<u8>, program: &Program, terms: &[Expr]) -> Result<(), NoMemory>
    ensures { OnOk result (text.new.items ≡ text.old.items
        ++ join_by (λ e. expr_text (plain_of program.now) (expr_of e)) (codes " + ") terms.now) }
{
    let [first, rest @ ..] = terms else {
        return Ok(());
    };
    put_expr(text, program, first)?;
    for term in rest {
        text.extend_from_slice(b" + ")?;
        put_expr(text, program, term)?;
    }
    Ok(())
}

// Appends factors to the text, with stars between them.
#[cycle(exprs)]
fn put_factors(text: &mut Vec<u8>, program: &Program, factors: &[Expr]) -> Result<(), NoMemory>
    ensures { OnOk result (text.new.items ≡ text.old.items
        ++ join_by (λ e. factor_text (plain_of program.now) (expr_of e)) (codes "*") factors.now) }
{
    let [first, rest @ ..] = factors else {
        return Ok(());
    };
    put_factor(text, program, first)?;
    for factor in rest {
        text.push(b'*')?;
        put_factor(text, program, factor)?;
    }
    Ok(())
}

// Appends a factor to the text, a sum in round brackets.
#[cycle(exprs)]
fn put_factor(text: &mut Vec<u8>, program: &Program, e: &Expr) -> Result<(), NoMemory>
    ensures { OnOk result
        (text.new.items ≡ text.old.items ++ factor_text (plain_of program.now) (expr_of e.now)) }
{
    text.extend_from_slice(open_bracket(e))?;
    put_expr(text, program, e)?;
    text.extend_from_slice(close_bracket(e))?;
    Ok(())
}

// Appends what an equation defines to the text.
fn put_left(text: &mut Vec<u8>, program: &Program, left: Left) -> Result<(), NoMemory>
    ensures { OnOk result
        (text.new.items ≡ text.old.items ++ left_text (plain_of program.now) left) }
{
    match left {
        Left::Series(i) => put_series(text, program, i),
        Left::Tau(f) => put_tau(text, program, f),
    }
}

/// The line of an equation, without its line end: `NAME(z) = E` for a definition, and
/// `tau[NAME](z) = E` for a procedure. A definition or procedure that isn't the program's has no name.
pub fn write_equation(alloc: Global, program: &Program, e: &Equation) -> Result<Vec<u8>, NoMemory>
    ensures { IfOk result (λ text.
        text.items ≡ equation_text (plain_of program.now) (equation_of e.now)) }
{
    let mut text = Vec::new(alloc);
    put_left(&mut text, program, e.left)?;
    text.extend_from_slice(b" = ")?;
    put_expr(&mut text, program, &e.right)?;
    Ok(text)
}
