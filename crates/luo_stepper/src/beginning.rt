// The first structure, and the first of what is left.
ghost use Rattle.std.specs.Prelude.{◌<◌, ◌≤◌, length, IfOk, OnOk};
ghost use Rattle.luo_model.specs.Order.{IsBefore};
ghost use Rattle.luo_model.specs.Program.{shape_of};
ghost use Rattle.luo_model.specs.View.{plain_of};
ghost use Rattle.luo_struct.specs.View.{tree_of, tree_list};
ghost use Rattle.luo_places.specs.steps.Next.{IsFirst};
ghost use Rattle.luo_rank.specs.inner.Lookup.{IsLooked, Stands, entry_of, left_count};
ghost use Rattle.luo_stepper.specs.inner.Stepping.{AreLabels, Here, Began};

use luo_num::{Items, NoMemory};
use luo_rank::lookup::{row_at, structure_at};
use luo_rank::tables::Tables;
use luo_struct::Structure;
use std::alloc::Global;

// The first structure of a node on these labels.
pub fn first_structure(
    alloc: Global,
    tables: &Tables<'_>,
    node: usize,
    labels: &[u32],
    n: usize,
) -> Result<Structure, NoMemory>
    requires tables { IsLooked tables.now }
    requires node { node < length tables.now.program.nodes }
    requires labels { AreLabels tables.now.program.universe labels.now n }
    requires size { n ≤ tables.now.last }
    requires some { 1 ≤ entry_of tables.now.counts node n }
    ensures { IfOk result (λ s. IsFirst (Here tables.now node labels.now n) IsBefore (tree_of s)) }
{
    structure_at(alloc, tables, node, labels, n, 0)
}

// Puts the first of what is left after f parts after those in `out`.
pub fn first_row(
    alloc: Global,
    tables: &Tables<'_>,
    x: usize,
    f: usize,
    labels: &[u32],
    n: usize,
    out: &mut Items<Structure>,
) -> Result<(), NoMemory>
    requires tables { IsLooked tables.now }
    requires node { x < length tables.now.program.nodes }
    requires stands { Stands (shape_of (plain_of tables.now.program) x) tables.now.last f n }
    requires labels { AreLabels tables.now.program.universe labels.now n }
    requires size { n ≤ tables.now.last }
    requires some { 1 ≤ left_count tables.now x f n }
    ensures { OnOk result (Began tables.now x f labels.now n (tree_list out.old)
        (tree_list out.new)) }
{
    let top = tables.last() + 1;
    row_at(alloc, tables, x, f, top, labels, n, 0, out)
}
