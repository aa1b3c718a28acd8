// What an audit asks for: few structures.
ghost use Rattle.std.specs.Prelude.{◌≡◌, ◌<◌, ◌≤◌, length};
ghost use Rattle.luo_num.specs.declared.limits.TheConstants.{LIST_SIZE_LIMIT};
ghost use Rattle.luo_model.specs.View.{plain_of};
ghost use Rattle.luo_answer.specs.Commands.Audit as audit;
ghost use Rattle.luo_answer.specs.inner.Audited.{IsFew};
ghost use Rattle.luo_answer.specs.inner.Passes.{Passes, none};

use crate::refusal::{Line, Refusal};
use crate::rows::procedure_at;
use luo_model::{Counts, Program};
use luo_num::limits::{WALKED_LIMIT, WALKED_LIMIT_LINE};

// Whether procedure f has at no size up to `last` more structures than are walked.
fn is_few(program: &Program, counts: &Counts<'_>, f: usize, last: u32) -> bool
    requires counted { counts.now.program ≡ program.now }
    requires there { f < length program.now.procs }
    requires size { last ≤ counts.now.last }
    requires small { last ≤ LIST_SIZE_LIMIT }
    ensures { IsFew (plain_of program.now) f last result }
{
    let node = procedure_at(program.procs.as_slice(), f).on.node;
    for n in 0..last + 1 {
        if counts.at(node, n) > WALKED_LIMIT {
            return false;
        }
    }
    true
}

/// Refuses a procedure of an analyze line with more structures of a size up to `last` than are walked.
pub fn few(program: &Program, counts: &Counts<'_>, last: u32) -> Result<(), Refusal>
    requires counted { counts.now.program ≡ program.now }
    requires size { last ≤ counts.now.last }
    requires small { last ≤ LIST_SIZE_LIMIT }
    ensures { Passes none (audit.few (plain_of program.now) last) result }
{
    for f in program.analyses.as_slice() {
        if !is_few(program, counts, *f, last) {
            return Err(Refusal::Limit(Line::Fixed(WALKED_LIMIT_LINE)));
        }
    }
    Ok(())
}
