// Plain form, made as sums and products are made.
ghost use Rattle.std.specs.Prelude.{◌≡◌, OnOk, IfOk};
ghost use Rattle.luo_equation.specs.Expr.{Coll, expr, no_exprs};
ghost use Rattle.luo_equation.specs.View.{expr_of, expr_list};
ghost use Rattle.luo_system.specs.Plain.{join_exprs, terms_of, factors_of, as_sum, is_zero, has_zero, closed_product, walk_of};

use luo_equation::Expr;
use luo_model::Kind;
use luo_num::{Boxed, Items, NoMemory};
use std::alloc::Global;

// Puts one expression after a list.
fn push(list: &mut Items<Expr>, e: Expr) -> Result<(), NoMemory>
    ensures { OnOk result
        (expr_list list.new ≡ join_exprs (expr_list list.old) (expr (expr_of e) no_exprs)) }
{
    list.push(e)?;
    Ok(())
}

// Puts the expressions of another list after a list.
fn append(list: &mut Items<Expr>, more: Items<Expr>) -> Result<(), NoMemory>
    ensures { OnOk result
        (expr_list list.new ≡ join_exprs (expr_list list.old) (expr_list more)) }
{
    list.append(more)?;
    Ok(())
}

// Puts a term after those of a sum: a sum is opened, and 0 is left out.
pub(crate) fn add_term(terms: &mut Items<Expr>, e: Expr) -> Result<(), NoMemory>
    ensures { OnOk result
        (expr_list terms.new ≡ join_exprs (expr_list terms.old) (terms_of (expr_of e))) }
{
    match e {
        Expr::Number(number) => {
            if number != 0 {
                push(terms, Expr::Number(number))?;
            }
        }
        Expr::Power(weight) => push(terms, Expr::Power(weight))?,
        Expr::Series(i) => push(terms, Expr::Series(i))?,
        Expr::Tau(f) => push(terms, Expr::Tau(f))?,
        Expr::Sum(more) => append(terms, more)?,
        Expr::Prod(factors) => push(terms, Expr::Prod(factors))?,
        Expr::Coll {
            kind,
            inner,
            low,
            high,
        } => push(
            terms,
            Expr::Coll {
                kind,
                inner,
                low,
                high,
            },
        )?,
        Expr::Point {
            kind,
            inner,
            low,
            high,
            body,
        } => push(
            terms,
            Expr::Point {
                kind,
                inner,
                low,
                high,
                body,
            },
        )?,
    }
    Ok(())
}

// Puts a factor after those of a product: a product is opened, and 1 is left out.
pub(crate) fn add_factor(factors: &mut Items<Expr>, e: Expr) -> Result<(), NoMemory>
    ensures { OnOk result
        (expr_list factors.new ≡ join_exprs (expr_list factors.old) (factors_of (expr_of e))) }
{
    match e {
        Expr::Number(number) => {
            if number != 1 {
                push(factors, Expr::Number(number))?;
            }
        }
        Expr::Power(weight) => push(factors, Expr::Power(weight))?,
        Expr::Series(i) => push(factors, Expr::Series(i))?,
        Expr::Tau(f) => push(factors, Expr::Tau(f))?,
        Expr::Sum(terms) => push(factors, Expr::Sum(terms))?,
        Expr::Prod(more) => append(factors, more)?,
        Expr::Coll {
            kind,
            inner,
            low,
            high,
        } => push(
            factors,
            Expr::Coll {
                kind,
                inner,
                low,
                high,
            },
        )?,
        Expr::Point {
            kind,
            inner,
            low,
            high,
            body,
        } => push(
            factors,
            Expr::Point {
                kind,
                inner,
                low,
                high,
                body,
            },
        )?,
    }
    Ok(())
}

// The sum of terms in plain form.
pub(crate) fn sum_of_terms(terms: Items<Expr>) -> Expr
    ensures { expr_of result ≡ as_sum (expr_list terms) }
{
    let mut left = terms;
    if left.len() == 1 {
        return left.remove(0);
    }
    if left.is_empty() {
        return Expr::Number(0);
    }
    Expr::Sum(left)
}

// Whether an expression is 0.
pub(crate) fn is_nothing(e: &Expr) -> bool
    ensures { result ≡ is_zero (expr_of e.now) }
{
    match e {
        Expr::Number(number) => *number == 0,
        _ => false,
    }
}

// Whether one of the factors is 0.
fn is_void(factors: &[Expr]) -> bool
    ensures { result ≡ has_zero (expr_list factors.now) }
{
    for factor in factors {
        if is_nothing(factor) {
            return true;
        }
    }
    false
}

// The product of factors in plain form.
pub(crate) fn product_of_factors(factors: Items<Expr>) -> Expr
    ensures { expr_of result ≡ closed_product (expr_list factors) }
{
    let mut left = factors;
    if is_void(left.as_slice()) {
        return Expr::Number(0);
    }
    if left.len() == 1 {
        return left.remove(0);
    }
    if left.is_empty() {
        return Expr::Number(1);
    }
    Expr::Prod(left)
}

/// The collections of components.
pub(crate) fn collection(
    alloc: Global,
    kind: Kind,
    inner: Expr,
    low: u32,
    high: Option<u32>,
) -> Result<Expr, NoMemory>
    ensures { IfOk result (λ e. expr_of e ≡ Coll kind (expr_of inner) low high) }
{
    Ok(Expr::Coll {
        kind,
        inner: Boxed::new(alloc, inner)?,
        low,
        high,
    })
}

/// A walk with this body over the collections of components, in plain form.
pub(crate) fn walk_over(
    alloc: Global,
    kind: Kind,
    inner: Expr,
    low: u32,
    high: Option<u32>,
    marked: Expr,
) -> Result<Expr, NoMemory>
    ensures { IfOk result (λ e. expr_of e
        ≡ walk_of kind (expr_of inner) low high (expr_of marked)) }
{
    if is_nothing(&marked) {
        return Ok(Expr::Number(0));
    }
    Ok(Expr::Point {
        kind,
        inner: Boxed::new(alloc, inner)?,
        low,
        high,
        body: Boxed::new(alloc, marked)?,
    })
}
