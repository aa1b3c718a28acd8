// The counts of the filled sizes, copied out of the tables.
ghost use Rattle.std.specs.Prelude.{◌<◌, ◌≤◌, length, IfOk};
ghost use Rattle.luo_model.specs.View.{plain_of};
ghost use Rattle.luo_engine.specs.inner.Kept.{IsCountRow, AreCountRows};

use crate::Engine;
use luo_num::{Items, NoMemory};
use std::alloc::Global;

/// The counts of all nodes at size n.
fn row_of(alloc: Global, engine: &Engine<'_>, nodes: usize, n: u32) -> Result<Items<u128>, NoMemory>
    requires nodes { nodes ≤ length engine.now.program.nodes }
    requires size { n < engine.now.filled }
    ensures { IfOk result (λ row. IsCountRow (plain_of engine.now.program) nodes n row) }
{
    let mut row = Items::new(alloc);
    for x in 0..nodes {
        row.push(engine.small_count(x, n))?;
    }
    Ok(row)
}

/// The counts of all nodes, size by size.
pub fn rows_of(
    alloc: Global,
    engine: &Engine<'_>,
    nodes: usize,
) -> Result<Items<Items<u128>>, NoMemory>
    requires nodes { nodes ≤ length engine.now.program.nodes }
    ensures { IfOk result (λ rows. AreCountRows
        (plain_of engine.now.program) nodes engine.now.filled rows) }
{
    let mut rows = Items::new(alloc);
    for n in 0..engine.filled() {
        rows.push(row_of(alloc, engine, nodes, n)?)?;
    }
    Ok(rows)
}
