// All pieces, each in a worker of its own.
ghost use Rattle.std.specs.Prelude.{◌≡◌, ◌⊎◌, ◌<◌, ◌≤◌, ℕ, List, Some, Result, Err, IfOk, IfErr, MatchResult};
ghost use Rattle.std.specs.Prelude.{length, slice_get, slice_index, slice_index_or, vec_len};
ghost use Rattle.luo_num.specs.declared.TheConstants.{MAX};
ghost use Rattle.luo_num.specs.declared.limits.TheConstants.{LIST_SIZE_LIMIT, WORKER_LIMIT, WALKED_LIMIT};
ghost use Rattle.luo_model.specs.Invariant.{IsProgram};
ghost use Rattle.luo_model.specs.Program.{Procedure};
ghost use Rattle.luo_model.specs.View.{plain_of};
ghost use Rattle.luo_audit.specs.Audit.{AreCharges, CountIs, IsOver, IsAudit, Explains};
ghost use Rattle.luo_audit.specs.inner.Answered.{IsPieceSum, Gathers};
ghost use Rattle.luo_audit.specs.declared.auditing.AuditError.{AuditError};
ghost use Rattle.luo_audit.specs.declared.auditing.AuditError.TheVariants as fault;

use crate::piece::{piece_sum, plus};
use luo_founded::Ranks;
use luo_model::{Counts, Proc, Program, Row};
use luo_num::limits::WALKED_LIMIT;
use luo_num::{Items, NoMemory, Over};
use luo_outside::Gate;
use std::alloc::{AllocError, AllocFailed, Global};
use std::thread;
use std::thread::Threads;

/// What an audit finds: the row of a procedure at a size, and the sums of the pieces, in their order.
#[derive(Debug, Drop)]
pub struct Audited {
    pub row: Row,
    pub sums: Items<u128>,
}

/// Why an audit finds nothing.
#[derive(Clone, Copy, Debug, PartialEq, Eq)]
pub enum AuditError {
    /// There are more structures than an audit walks.
    TooMany { count: u128 },
    /// The total is above `MAX`.
    Over,
    /// Memory was refused.
    NoMemory,
}

impl From<AllocError> for AuditError {
    ghost from_gives = { λ _ e. e ≡ fault.NoMemory };

    fn from(_: AllocError) -> Self {
        AuditError::NoMemory
    }
}

impl<T: Drop> From<AllocFailed<T>> for AuditError {
    ghost from_gives = { λ _ e. e ≡ fault.NoMemory };

    fn from(_: AllocFailed<T>) -> Self {
        AuditError::NoMemory
    }
}

impl From<NoMemory> for AuditError {
    ghost from_gives = { λ _ e. e ≡ fault.NoMemory };

    fn from(_: NoMemory) -> Self {
        AuditError::NoMemory
    }
}

impl From<Over> for AuditError {
    ghost from_gives = { λ _ e. e ≡ fault.Over };

    fn from(_: Over) -> Self {
        AuditError::Over
    }
}

// Procedure f.
fn procedure_at(procs: &[Proc], f: usize) -> &Proc
    requires { f < length procs.now }
    ensures { slice_get procs.now f ≡ Some result.now }
{
    &procs[f]
}

// The node of a procedure's parameter.
fn parameter(program: &Program, callee: usize) -> usize
    requires { callee < length program.now.procs }
    ensures valid { IsProgram (plain_of program.now) }
    ensures there { result < length program.now.nodes }
    ensures on { (P : Procedure) × (slice_get (plain_of program.now).procs callee ≡ Some P)
        × (result ≡ P.on.node) }
{
    procedure_at(program.procs.as_slice(), callee).on.node
}

// The numbers of the pieces.
fn numbers(alloc: Global, count: u32) -> Result<Vec<usize>, NoMemory>
    ensures len { IfOk result (λ v. vec_len v ≡ count) }
    ensures each { IfOk result (λ v. (i : ℕ) → i < count → slice_index v.items i ≡ i) }
{
    let mut all = Vec::new(alloc);
    for i in 0..count as usize {
        all.push(i)?;
    }
    Ok(all)
}

// What the workers answer, in the order of their pieces.
fn answers<'p, R: Threads + Sync, G: Gate>(
    rt: &R,
    alloc: Global,
    program: &Program,
    ranks: &'p Ranks<'p>,
    counts: &Counts<'p>,
    node: usize,
    callee: usize,
    n: u32,
    workers: u32,
    gate: &G,
) -> Result<Vec<Result<u128, AuditError>>, NoMemory>
    requires same { ranks.now ≡ program.now }
    requires counted { counts.now.program ≡ program.now }
    requires there { node < length program.now.nodes }
    requires on { (P : Procedure) × (slice_get (plain_of program.now).procs callee ≡ Some P)
        × (node ≡ P.on.node) }
    requires size { n ≤ counts.now.last }
    requires few { n ≤ LIST_SIZE_LIMIT }
    ensures len { IfOk result (λ v. vec_len v ≡ workers) }
    ensures each { IfOk result (λ v. (i : ℕ) (d : Result ℕ AuditError) → i < workers
        → IsPieceSum (plain_of program.now) callee n workers i (slice_index_or v.items i d)) }
{
    let pieces = numbers(alloc, workers)?;
    let sum_piece = move |piece: usize| -> Result<u128, AuditError>
        requires { (ranks.now ≡ program.now) × (counts.now.program ≡ program.now)
            × (node < length program.now.nodes)
            × ((P : Procedure) × (slice_get (plain_of program.now).procs callee ≡ Some P)
            × (node ≡ P.on.node))
            × (n ≤ counts.now.last) × (n ≤ LIST_SIZE_LIMIT) × (piece < workers) }
        ensures { IsPieceSum (plain_of program.entry.now) callee n workers piece result }
    {
        piece_sum(
            alloc, program, ranks, counts, node, callee, n, workers, piece, gate,
        )
    };
    let found = thread::map_vec(rt, pieces, &sum_piece)?;
    Ok(found)
}

// Puts together what the workers answered, behind the number of structures.
fn gathered(
    alloc: Global,
    _program: &Program,
    _callee: usize,
    n: u32,
    count: u128,
    workers: u32,
    found: &[Result<u128, AuditError>],
) -> Result<Audited, AuditError>
    requires some { 0 < workers }
    requires len { length found.now ≡ workers }
    requires each { (i : ℕ) (d : Result ℕ AuditError) → i < workers
        → IsPieceSum (plain_of _program.now) _callee n workers i (slice_index_or found.now i d) }
    ensures row { IfOk result (λ a. (a.row.n ≡ n) × (a.row.count ≡ count)) }
    ensures sums { (charges : List ℕ) → AreCharges (plain_of _program.now) _callee n charges
        → Gathers charges workers result }
{
    let mut sums = Items::new(alloc);
    let mut total = 0;
    for i in 0..workers as usize {
        let sum = found[i]?;
        total = plus(total, sum)?;
        sums.push(sum)?;
    }
    let row = Row { n, count, total };
    Ok(Audited { row, sums })
}

// The row and the sums, where there are not too many structures.
fn audit_few<'p, R: Threads + Sync, G: Gate>(
    rt: &R,
    alloc: Global,
    program: &Program,
    ranks: &'p Ranks<'p>,
    counts: &Counts<'p>,
    node: usize,
    callee: usize,
    n: u32,
    workers: u32,
    gate: &G,
) -> Result<Audited, AuditError>
    requires valid { IsProgram (plain_of program.now) }
    requires same { ranks.now ≡ program.now }
    requires counted { counts.now.program ≡ program.now }
    requires there { node < length program.now.nodes }
    requires on { (P : Procedure) × (slice_get (plain_of program.now).procs callee ≡ Some P)
        × (node ≡ P.on.node) }
    requires size { n ≤ counts.now.last }
    requires few { n ≤ LIST_SIZE_LIMIT }
    requires some { 0 < workers }
    ensures { MatchResult result (IsAudit (plain_of program.now) callee n workers)
        (Explains (plain_of program.now) callee n) }
{
    let count = counts.at(node, n);
    if count > WALKED_LIMIT {
        return Err(AuditError::TooMany { count });
    }
    let program = ranks.program();
    let found = answers(
        rt, alloc, program, ranks, counts, node, callee, n, workers, gate,
    )?;
    gathered(alloc, program, callee, n, count, workers, found.as_slice())
}

/// The row of a procedure at size `n`, found by walking the structures, and the sums of the pieces.
///
/// The structures stand in their order and are cut into as many pieces as there are workers, whose lengths differ by
/// at most one, the longer ones first. Each worker passes the gate once with the number of its piece, from 0, also
/// where the piece is empty, and then adds up what the procedure charges on the piece's structures. The workers share
/// only what nobody changes.
///
/// The ranks and the counts are those of the program.
///
/// # Errors
///
/// `TooMany` comes exactly where there are more than `WALKED_LIMIT` structures, with their number, and then none is
/// walked. `Over` comes only where there are no more and the total is above `MAX`; and where that is so no row is
/// answered. `NoMemory` says that memory was refused; then no piece's sum is answered.
pub fn audit<'p, R: Threads + Sync, G: Gate>(
    rt: &R,
    alloc: Global,
    program: &Program,
    ranks: &'p Ranks<'p>,
    counts: &Counts<'p>,
    callee: usize,
    n: u32,
    workers: u32,
    gate: &G,
) -> Result<Audited, AuditError>
    requires same { ranks.now ≡ program.now }
    requires counted { counts.now.program ≡ program.now }
    requires there { callee < length program.now.procs }
    requires size { n ≤ counts.now.last }
    requires few { n ≤ LIST_SIZE_LIMIT }
    requires some { 1 ≤ workers }
    requires most { workers ≤ WORKER_LIMIT }
    ensures answer { MatchResult result (IsAudit (plain_of program.now) callee n workers)
        (Explains (plain_of program.now) callee n) }
    ensures too_many { (c : ℕ) → CountIs (plain_of program.now) callee n c → WALKED_LIMIT < c
        → result ≡ Err (fault.TooMany c) }
    ensures over { IsOver (plain_of program.now) callee n
        → IfErr result (λ e. (e ≡ fault.Over) ⊎ (e ≡ fault.NoMemory)) }
{
    let node = parameter(program, callee);
    audit_few(
        rt, alloc, program, ranks, counts, node, callee, n, workers, gate,
    )
}
