// The size that a command asks for, and the number of workers of an audit.
ghost use Rattle.std.specs.Prelude.{◌≡◌, ◌≤◌, ℕ, min, IfOk};
ghost use Rattle.luo_num.specs.declared.limits.TheConstants.{SIZE_LIMIT, LIST_SIZE_LIMIT, WORKER_LIMIT};
ghost use Rattle.luo_answer.specs.declared.words.TheConstants.{NUMBER_CAP};
ghost use Rattle.luo_answer.specs.Steps as steps;
ghost use Rattle.luo_answer.specs.inner.Passes.{Passes, itself};

use crate::refusal::{Line, Refusal};
use luo_num::limits::{
    LIST_SIZE_LIMIT, LIST_SIZE_LIMIT_LINE, SIZE_LIMIT, SIZE_LIMIT_LINE, WORKER_LIMIT,
    WORKER_LIMIT_LINE,
};

/// A size within its limit, from a number that is told up to `NUMBER_CAP`.
pub fn sized(last: u128) -> Result<u32, Refusal>
    ensures passes { (n : ℕ) → last ≡ min n NUMBER_CAP → Passes itself (steps.sized n) result }
    ensures size { IfOk result (λ m. m ≤ SIZE_LIMIT) }
{
    if last > u128::from(SIZE_LIMIT) {
        return Err(Refusal::Limit(Line::Fixed(SIZE_LIMIT_LINE)));
    }
    Ok(last as u32)
}

/// A size within the limit of listings, from a number that is told up to `NUMBER_CAP`.
pub fn list_sized(last: u128) -> Result<u32, Refusal>
    ensures passes { (n : ℕ) → last ≡ min n NUMBER_CAP → Passes itself (steps.list_sized n) result }
    ensures size { IfOk result (λ m. m ≤ LIST_SIZE_LIMIT) }
{
    if last > u128::from(LIST_SIZE_LIMIT) {
        return Err(Refusal::Limit(Line::Fixed(LIST_SIZE_LIMIT_LINE)));
    }
    Ok(last as u32)
}

/// A number of workers from 1 to its limit, from a number that is told up to `NUMBER_CAP`.
pub fn workers_of(workers: u128) -> Result<u32, Refusal>
    ensures passes { (w : ℕ) → workers ≡ min w NUMBER_CAP
        → Passes itself (steps.workers_of w) result }
    ensures some { IfOk result (λ w. 1 ≤ w) }
    ensures most { IfOk result (λ w. w ≤ WORKER_LIMIT) }
{
    if workers == 0 {
        return Err(Refusal::Limit(Line::Fixed(WORKER_LIMIT_LINE)));
    }
    if workers > u128::from(WORKER_LIMIT) {
        return Err(Refusal::Limit(Line::Fixed(WORKER_LIMIT_LINE)));
    }
    Ok(workers as u32)
}
