// The calls of procedures on their own parameters as a graph.
ghost use Rattle.std.specs.Prelude.{◌≡◌, ◌↔◌, ◌<◌, ◌+◌, ℕ, suc, Some, IsTrue, IfOk, length, slice_get};
ghost use Rattle.luo_finite.specs.Listing.{In};
ghost use Rattle.luo_model.specs.View.{plain_of, item_list};
ghost use Rattle.luo_founded.specs.inner.Graph.{IsGraph};
ghost use Rattle.luo_model.specs.Founded.{CallsAmong, OwnCall};

use luo_model::{Item, Program};
use luo_num::{Items, NoMemory};
use std::alloc::Global;

// The procedures that these items call.
fn called(alloc: Global, items: &[Item]) -> Result<Items<usize>, NoMemory>
    ensures { IfOk result (λ called. (g : ℕ) → In g called ↔ CallsAmong g (item_list items.now)) }
{
    let mut called = Items::new(alloc);
    for item in items {
        if let Item::Call { callee, .. } = item {
            called.push(*callee)?;
        }
    }
    Ok(called)
}

/// The calls of each procedure on its own parameter.
pub(crate) fn own_calls(alloc: Global, program: &Program) -> Result<Items<Items<usize>>, NoMemory>
    ensures { IfOk result (λ edges. IsGraph (OwnCall (plain_of program.now))
        (length program.now.procs) edges) }
{
    let mut edges = Items::new(alloc);
    for procedure in program.procs.as_slice() {
        edges.push(called(alloc, procedure.body.items.as_slice())?)?;
    }
    Ok(edges)
}
