// The structure at the next place.
ghost use Rattle.std.specs.Prelude.{◌≡◌, ◌+◌, ◌<◌, IfOk};
ghost use Rattle.luo_finite.specs.Places.{IsPlace};
ghost use Rattle.luo_model.specs.Order.{IsBefore};
ghost use Rattle.luo_model.specs.Structures.{IsStructure};
ghost use Rattle.luo_model.specs.View.{plain_of};
ghost use Rattle.luo_struct.specs.View.{tree_of};

use crate::stepping::{Step, step_on};
use luo_num::{Items, NoMemory};
use luo_rank::Ranker;
use luo_struct::Structure;
use std::alloc::Global;

/// The structure at the place after `place`, where `s` stands, among those that the ranker finds. It is
/// made of `s`: the last part that has a next one goes on, and the parts after it begin again.
///
/// # Errors
///
/// `NoMemory` where memory is refused.
pub fn behind(
    alloc: Global,
    ranker: &Ranker<'_>,
    place: u128,
    s: Structure,
) -> Result<Structure, NoMemory>
    requires here { IsPlace (IsStructure
        (plain_of ranker.now.program) ranker.now.node ranker.now.size)
        IsBefore place (tree_of s) }
    requires there { place + 1 < ranker.now.count }
    ensures { IfOk result (λ next. IsPlace
        (IsStructure (plain_of ranker.now.program) ranker.now.node
        ranker.now.size) IsBefore (place + 1) (tree_of next)) }
{
    let mut labels = Items::new(alloc);
    match step_on(alloc, ranker.tables(), ranker.node(), s, &mut labels)? {
        Step::Next(next) => Ok(next),
        _ => ranker.at(alloc, place + 1),
    }
}
