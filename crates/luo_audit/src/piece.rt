// One piece of the work.
ghost use Rattle.std.specs.Prelude.{◌≡◌, ◌<◌, ◌≤◌, ◌+◌, ℕ, List, length, slice_get, Some, IfOk, MatchResult};
ghost use Rattle.luo_num.specs.declared.TheConstants.{MAX};
ghost use Rattle.luo_num.specs.declared.limits.TheConstants.{LIST_SIZE_LIMIT};
ghost use Rattle.luo_model.specs.Program.{Procedure};
ghost use Rattle.luo_model.specs.View.{plain_of};
ghost use Rattle.luo_audit.specs.Audit.{AreCharges};
ghost use Rattle.luo_audit.specs.Pieces.{start, sum_between};
ghost use Rattle.luo_audit.specs.inner.Answered.{IsSum, IsPieceSum};

use crate::auditing::AuditError;
use luo_founded::Ranks;
use luo_interp::charge;
use luo_list::Cursor;
use luo_model::{Counts, Program};
use luo_num::{Over, add};
use luo_outside::Gate;
use luo_rank::Ranker;
use std::alloc::Global;

// The place where a piece begins, and behind the last piece the number of all.
fn begin(count: u128, workers: u128, piece: u128) -> u128
    requires workers { 0 < workers }
    requires piece { piece ≤ workers }
    ensures is { result ≡ start count workers piece }
    ensures within { result ≤ count }
{
    piece * (count / workers) + piece.min(count % workers)
}

// The sum of two numbers. Its error has a type of its own, so that `?` gives `AuditError::Over` and nothing else.
pub(crate) fn plus(a: u128, b: u128) -> Result<u128, Over>
    requires a_small { a ≤ MAX }
    requires b_small { b ≤ MAX }
    ensures { MatchResult result (λ s. (s ≡ a + b) × (s ≤ MAX)) (λ _. a + b ≤ MAX → ⊥) }
{
    add(a, b).ok_or(Over)
}

// The sum of what a procedure charges on the structures of its parameter's node that a cursor has yet to answer.
fn walked(
    alloc: Global,
    program: &Program,
    ranks: &Ranks<'_>,
    callee: usize,
    cursor: Cursor<'_>,
) -> Result<u128, AuditError>
    requires same { ranks.now ≡ program.now }
    requires of { cursor.program ≡ program.now }
    requires on { (P : Procedure) × (slice_get (plain_of program.now).procs callee ≡ Some P)
        × (cursor.node ≡ P.on.node) }
    requires order { cursor.place ≤ cursor.end }
    ensures small { IfOk result (λ s. s ≤ MAX) }
    ensures sum { (charges : List ℕ)
        → AreCharges (plain_of program.now) callee cursor.entry.size charges
        → IsSum (sum_between charges cursor.entry.place cursor.entry.end) result }
{
    let mut cursor = cursor;
    let mut total = 0;
    while let Some(structure) = cursor.next(alloc)? {
        let charged = charge(program, ranks, callee, &structure)?;
        total = plus(total, charged)?;
        cursor.step_from(structure);
    }
    Ok(total)
}

// The sum of a piece, found by a worker that passes the gate and then walks it.
pub(crate) fn piece_sum<'p, G: Gate>(
    alloc: Global,
    program: &Program,
    ranks: &'p Ranks<'p>,
    counts: &Counts<'p>,
    node: usize,
    callee: usize,
    n: u32,
    workers: u32,
    piece: usize,
    gate: &G,
) -> Result<u128, AuditError>
    requires same { ranks.now ≡ program.now }
    requires counted { counts.now.program ≡ program.now }
    requires there { node < length program.now.nodes }
    requires on { (P : Procedure) × (slice_get (plain_of program.now).procs callee ≡ Some P)
        × (node ≡ P.on.node) }
    requires size { n ≤ counts.now.last }
    requires few { n ≤ LIST_SIZE_LIMIT }
    requires piece { piece < workers }
    ensures { IsPieceSum (plain_of program.now) callee n workers piece result }
{
    gate.pass(piece);
    let ranker = Ranker::new(alloc, ranks, counts, node, n)?;
    let count = ranker.count();
    let from = begin(count, workers as u128, piece as u128);
    let to = begin(count, workers as u128, piece as u128 + 1);
    walked(alloc, program, ranks, callee, Cursor::new(ranker, from, to))
}
