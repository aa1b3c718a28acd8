// What is looked up in, made from the ranks and the counts of a program.
ghost use Rattle.std.specs.Prelude.{◌≡◌, ◌+◌, ◌<◌, ◌≤◌, suc, [], length, slice_index_or, IfOk};
ghost use Rattle.luo_model.specs.Program.{shape_of};
ghost use Rattle.luo_model.specs.View.{plain_of};
ghost use Rattle.luo_model.specs.Invariant.{IsProgram};
ghost use Rattle.luo_rank.specs.inner.Lookup.{Looked, IsCounted, IsLooked, IsCountRow, AreCountRows, IsRankRow, AreAllPlanes, HasPlanes, entry_of};

use crate::choices::is_bag;
use crate::planes::planes_of;
use crate::rests::all_rests;
use crate::tables::Tables;
use luo_binom::Pascal;
use luo_founded::Ranks;
use luo_model::{Counts, Program, Shape};
use luo_num::{Items, NoMemory};
use std::alloc::Global;

// The number of nodes.
fn node_count(program: &Program) -> usize
    ensures count { result ≡ length program.now.nodes }
    ensures proper { IsProgram (plain_of program.now) }
{
    program.nodes.len()
}

// The ranks of the first nodes.
fn ranks_of(alloc: Global, ranks: &Ranks<'_>, nodes: usize) -> Result<Items<u32>, NoMemory>
    requires { nodes ≤ length ranks.now.nodes }
    ensures { IfOk result (IsRankRow (plain_of ranks.now) nodes) }
{
    let mut row = Items::new(alloc);
    for x in 0..nodes {
        let rank = ranks.node_rank(x);
        row.push(rank)?;
    }
    Ok(row)
}

// The counts of a node up to a size.
fn counts_at(
    alloc: Global,
    counts: &Counts<'_>,
    x: usize,
    last: usize,
) -> Result<Items<u128>, NoMemory>
    requires node { x < length counts.now.program.nodes }
    requires size { last ≤ counts.now.last }
    requires few { last ≤ 40 }
    ensures { IfOk result (IsCountRow (plain_of counts.now.program) x (suc last)) }
{
    let mut row = Items::new(alloc);
    for n in 0..last + 1 {
        let number = counts.at(x, n as u32);
        row.push(number)?;
    }
    Ok(row)
}

// The counts of the first nodes up to a size.
fn counts_of(
    alloc: Global,
    counts: &Counts<'_>,
    nodes: usize,
    last: usize,
) -> Result<Items<Items<u128>>, NoMemory>
    requires nodes { nodes ≤ length counts.now.program.nodes }
    requires size { last ≤ counts.now.last }
    requires few { last ≤ 40 }
    ensures { IfOk result (AreCountRows (plain_of counts.now.program) last nodes) }
{
    let mut rows = Items::new(alloc);
    for x in 0..nodes {
        let row = counts_at(alloc, counts, x, last)?;
        rows.push(row)?;
    }
    Ok(rows)
}

// The planes of a node.
fn node_planes(
    alloc: Global,
    tables: &Tables<'_>,
    x: usize,
) -> Result<Items<Items<Items<u128>>>, NoMemory>
    requires tables { IsCounted tables.now }
    requires node { x < length tables.now.program.nodes }
    ensures { IfOk result (HasPlanes (entry_of tables.now.counts) tables.now.last
        (shape_of (plain_of tables.now.program) x)) }
{
    match tables.shape(x) {
        Shape::Coll { kind, part, .. } => {
            if is_bag(*kind) {
                planes_of(alloc, *kind, tables.row(part.node), tables.last())
            } else {
                Ok(Items::new(alloc))
            }
        }
        _ => Ok(Items::new(alloc)),
    }
}

// The planes of all nodes.
fn all_planes(
    alloc: Global,
    tables: &Tables<'_>,
) -> Result<Items<Items<Items<Items<u128>>>>, NoMemory>
    requires tables { IsCounted tables.now }
    ensures { IfOk result (AreAllPlanes tables.now (length tables.now.program.nodes)) }
{
    let mut all = Items::new(alloc);
    for x in 0..tables.nodes() {
        let planes = node_planes(alloc, tables, x)?;
        all.push(planes)?;
    }
    Ok(all)
}

// The counts and the ranks of a program up to a size.
fn bare_of<'p>(
    alloc: Global,
    ranks: &'p Ranks<'p>,
    counts: &Counts<'p>,
    last: usize,
) -> Result<Tables<'p>, NoMemory>
    requires same { counts.now.program ≡ ranks.now }
    requires size { last ≤ counts.now.last }
    requires few { last ≤ 40 }
    ensures counted { IfOk result IsCounted }
    ensures program { IfOk result (λ t. (t.program ≡ ranks.now) × (t.last ≡ last)) }
{
    let program = ranks.program();
    let pascal = Pascal::new(alloc, last as u32)?;
    let nodes = node_count(program);
    let rank_row = ranks_of(alloc, ranks, nodes)?;
    let count_rows = counts_of(alloc, counts, nodes, last)?;
    Ok(Tables {
        program,
        pascal,
        last,
        ranks: rank_row,
        counts: count_rows,
        rests: Items::new(alloc),
        planes: Items::new(alloc),
    })
}

// The tables with what is made of them.
fn with_all<'p>(
    bare: Tables<'p>,
    rests: Items<Items<Items<u128>>>,
    planes: Items<Items<Items<Items<u128>>>>,
) -> Tables<'p>
    ensures { result ≡ record {
      program = bare.entry.program;
      last = bare.entry.last;
      reach = bare.entry.reach;
      ranks = bare.entry.ranks;
      counts = bare.entry.counts;
      rests =
          rests;
      planes = planes;
    } }
{
    let Tables {
        program,
        pascal,
        last,
        ranks,
        counts,
        ..
    } = bare;
    Tables {
        program,
        pascal,
        last,
        ranks,
        counts,
        rests,
        planes,
    }
}

// The tables of a program up to a size.
pub fn tables_of<'p>(
    alloc: Global,
    ranks: &'p Ranks<'p>,
    counts: &Counts<'p>,
    last: usize,
) -> Result<Tables<'p>, NoMemory>
    requires same { counts.now.program ≡ ranks.now }
    requires size { last ≤ counts.now.last }
    requires few { last ≤ 40 }
    ensures looked { IfOk result IsLooked }
    ensures program { IfOk result (λ t. (t.program ≡ ranks.now) × (t.last ≡ last)) }
{
    let bare = bare_of(alloc, ranks, counts, last)?;
    let rests = all_rests(alloc, &bare)?;
    let planes = all_planes(alloc, &bare)?;
    Ok(with_all(bare, rests, planes))
}
