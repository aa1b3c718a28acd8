// The number of statements.
ghost use Rattle.std.specs.Prelude.{◌≡◌, suc, sum_by};
ghost use Rattle.luo_num.specs.Mark.{capped};
ghost use Rattle.luo_types.specs.inner.Held.{statements_in, body_statements_in};

use luo_num::marked_add;
use luo_source::{ProcBody, ProcDef, SourceArm, Stmt};
use luo_value_types::count_statements;

// The marked number of statements of a statement.
#[cycle(statements)]
fn count_stmt(stmt: &Stmt) -> u128
    ensures { result ≡ capped (statements_in stmt.now) }
{
    match stmt {
        Stmt::Skip => return 1,
        Stmt::Charge(_) => return 1,
        Stmt::Call { .. } => return 1,
        Stmt::Block(stmts) => return count_stmts(stmts.as_slice()),
        Stmt::Case { arms, .. } => return count_case(arms.as_slice()),
        Stmt::Forall { body, .. } => return count_forall(body.get()),
    }
}

// The marked number of statements of a case.
#[cycle(statements)]
fn count_case(arms: &[SourceArm]) -> u128
    ensures { result ≡ capped (suc (sum_by (λ a. statements_in a.body) arms.now)) }
{
    let mut total = 1;
    for arm in arms {
        total = marked_add(total, count_stmt(&arm.body));
    }
    total
}

// The marked number of statements of a walk.
#[cycle(statements)]
fn count_forall(body: &Stmt) -> u128
    ensures { result ≡ capped (suc (statements_in body.now)) }
{
    marked_add(1, count_stmt(body))
}

// The marked number of statements beside each other.
#[cycle(statements)]
fn count_stmts(stmts: &[Stmt]) -> u128
    ensures { result ≡ capped (sum_by statements_in stmts.now) }
{
    let mut total = 0;
    for stmt in stmts {
        total = marked_add(total, count_stmt(stmt));
    }
    total
}

// The marked number of statements of what a procedure does.
fn count_body(body: &ProcBody) -> u128
    ensures { result ≡ capped (body_statements_in body.now) }
{
    match body {
        ProcBody::Statements(stmts) => count_stmts(stmts.as_slice()),
        ProcBody::Value { value, .. } => count_statements(value),
    }
}

/// The marked number of statements of procedures.
pub(crate) fn count_procs(procs: &[ProcDef]) -> u128
    ensures { result ≡ capped (sum_by (λ p. body_statements_in p.body) procs.now) }
{
    let mut total = 0;
    for proc in procs {
        total = marked_add(total, count_body(&proc.body));
    }
    total
}
