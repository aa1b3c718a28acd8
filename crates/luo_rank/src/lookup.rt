// The structure at a place.
ghost use Rattle.std.specs.Prelude.{◌≡◌, ◌+◌, ◌-◌, ◌<◌, ◌≤◌, length, slice_index_or, [], IfOk, OnOk};
ghost use Rattle.luo_num.specs.declared.TheConstants.{MAX};
ghost use Rattle.luo_model.specs.Program.{shape_of};
ghost use Rattle.luo_model.specs.View.{plain_of};
ghost use Rattle.luo_counting.specs.Sharing.{IsRoom};
ghost use Rattle.luo_struct.specs.View.{tree_of, tree_list};
ghost use Rattle.luo_rank.specs.inner.Lookup.{IsLooked, entry_of, tail_at, Stands, IsUnder, rank_in, work, left_count, StandsAt, Tailed};

use crate::branches::branch_of;
use crate::firsts::first_of;
use crate::making::{collection, inject, tuple};
use crate::parting::part_labels;
use crate::tables::Tables;
use luo_model::Shape;
use luo_num::{Items, NoMemory};
use luo_struct::Structure;
use std::alloc::Global;

/// The structure at a place among those of a node of size `n` on these labels.
///
/// # Errors
///
/// `NoMemory` where memory is refused.
#[cycle(lookup)]
pub fn structure_at(
    alloc: Global,
    tables: &Tables<'_>,
    node: usize,
    labels: &[u32],
    n: usize,
    rank: u128,
) -> Result<Structure, NoMemory>
    requires tables { IsLooked tables.now }
    requires node { node < length tables.now.program.nodes }
    requires room { IsRoom tables.now.program.universe labels.now n }
    requires size { n ≤ tables.now.last }
    requires rank { rank < entry_of tables.now.counts node n }
    ensures { IfOk result (λ s. StandsAt tables.now node labels.now n rank (tree_of s)) }
{
    match tables.shape(node) {
        Shape::Atom { weight } => Ok(Structure::Atom {
            weight: *weight,
            label: tables.label(labels),
        }),
        Shape::Union { parts } => {
            let parts = parts.as_slice();
            let found = branch_of(tables, parts, n, rank);
            let branch = parts[found.group].node;
            let inner = structure_at(alloc, tables, branch, labels, n, found.rest)?;
            inject(alloc, found.group, inner)
        }
        Shape::Product { .. } => {
            let mut out = Items::new(alloc);
            row_at(alloc, tables, node, 0, n, labels, n, rank, &mut out)?;
            Ok(tuple(out))
        }
        Shape::Coll { .. } => {
            let mut out = Items::new(alloc);
            row_at(alloc, tables, node, 0, n, labels, n, rank, &mut out)?;
            Ok(collection(out))
        }
    }
}

/// Puts what stands at a place of what is left after `f` parts of a structure of node `x`, of size `n`
/// together, after the structures in `out`.
///
/// # Errors
///
/// `NoMemory` where memory is refused.
#[cycle(lookup)]
pub fn row_at(
    alloc: Global,
    tables: &Tables<'_>,
    x: usize,
    f: usize,
    top: usize,
    labels: &[u32],
    n: usize,
    rank: u128,
    out: &mut Items<Structure>,
) -> Result<(), NoMemory>
    requires tables { IsLooked tables.now }
    requires node { x < length tables.now.program.nodes }
    requires stands { Stands (shape_of (plain_of tables.now.program) x) tables.now.last f n }
    requires room { IsRoom tables.now.program.universe labels.now n }
    requires size { n ≤ tables.now.last }
    requires rank { rank < left_count tables.now x f n }
    requires small { rank ≤ MAX }
    requires under { IsUnder (plain_of tables.now.program) (rank_in tables.now.ranks)
        (work (plain_of tables.now.program) (rank_in tables.now.ranks) x top)
        (tail_at (plain_of tables.now.program) x f) labels.now n rank }
    ensures { OnOk result (Tailed (plain_of tables.now.program) x f labels.now n rank
        (tree_list out.old) (tree_list out.new)) }
{
    if tables.goes_on(x, f, n) {
        let first = first_of(tables, x, f, n, rank);
        let parted = part_labels(alloc, tables, x, f, labels, n, first.size, first.labels)?;
        let node = tables.first_node(x, f, n);
        let part = structure_at(
            alloc,
            tables,
            node,
            parted.first.as_slice(),
            first.size,
            first.place,
        )?;
        out.push(part)?;
        row_at(
            alloc,
            tables,
            x,
            f + 1,
            top,
            parted.rest.as_slice(),
            n - first.size,
            first.back,
            out,
        )?;
    }
    Ok(())
}
