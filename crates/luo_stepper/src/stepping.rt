// The structure after one.
ghost use Rattle.std.specs.Prelude.{◌≡◌, ◌+◌, ◌++◌, ◌<◌, ◌≤◌, ◌∷◌, length, [], IfOk};
ghost use Rattle.luo_model.specs.View.{plain_of};
ghost use Rattle.luo_places.specs.Tails.{IsSpread, first_node};
ghost use Rattle.luo_struct.specs.View.{tree_of, tree_list};
ghost use Rattle.luo_rank.specs.inner.Lookup.{IsLooked, AreThere, tail_at};
ghost use Rattle.luo_stepper.specs.inner.Stepping.{AreLabels, IsSome, AreSome, Stepped, Moved, Branched, HasPart, from_place, up_to};

use crate::beginning::{first_row, first_structure};
use crate::labels::merge;
use crate::rooms::turn;
use crate::sizes::branch_from;
use luo_model::{Part, Shape};
use luo_num::{Items, NoMemory};
use luo_rank::making::{collection, inject, tuple};
use luo_rank::tables::Tables;
use luo_struct::Structure;
use std::alloc::Global;

// The next structure; or the size of the one that was the last; or nothing is told, and it is found otherwise.
#[derive(Drop)]
pub enum Step {
    Next(Structure),
    Last(usize),
    Untold,
}

// The parts went on; or they were the last, of this size; or nothing is told.
pub enum Row {
    On,
    Ended(usize),
    Untold,
}

// Takes off the last.
fn take_last(items: &mut Items<Structure>) -> Structure
    requires { 1 ≤ length items.old }
    ensures { items.old ≡ items.new ++ result ∷ [] }
{
    match items.pop() {
        Some(s) => s,
        None => Structure::Atom {
            weight: 0,
            label: 0,
        },
    }
}

// The node of the first that is left after f parts.
fn first_of(tables: &Tables<'_>, x: usize, f: usize) -> usize
    requires node { x < length tables.now.program.nodes }
    requires tables { IsLooked tables.now }
    requires some { HasPart tables.now x f }
    ensures there { result < length tables.now.program.nodes }
    ensures first { result ≡ first_node (tail_at (plain_of tables.now.program) x f) }
{
    match tables.shape(x) {
        Shape::Product { parts } => parts.as_slice()[f].node,
        Shape::Coll { part, .. } => part.node,
        _ => 0,
    }
}

// The first structure of the next branch that has any.
fn next_branch(
    alloc: Global,
    tables: &Tables<'_>,
    parts: &[Part],
    labels: &[u32],
    n: usize,
    branch: usize,
) -> Result<Step, NoMemory>
    requires tables { IsLooked tables.now }
    requires there { AreThere parts.now (length tables.now.program.nodes) }
    requires few { length parts.now ≤ 64 }
    requires labels { AreLabels tables.now.program.universe labels.now n }
    requires size { n ≤ tables.now.last }
    requires branch { branch < length parts.now }
    ensures { IfOk result (Branched tables.now parts.now n labels.now branch) }
{
    let other = branch_from(tables, parts, n, branch + 1);
    if other == parts.len() {
        return Ok(Step::Last(n));
    }
    let inner = first_structure(alloc, tables, parts[other].node, labels, n)?;
    let whole = inject(alloc, other, inner)?;
    Ok(Step::Next(whole))
}

// The structure after s among those of a node. Where s is the last, its labels are put into `labels`.
#[cycle(stepping)]
pub fn step_on(
    alloc: Global,
    tables: &Tables<'_>,
    node: usize,
    s: Structure,
    labels: &mut Items<u32>,
) -> Result<Step, NoMemory>
    requires tables { IsLooked tables.now }
    requires node { node < length tables.now.program.nodes }
    requires none { labels.old ≡ [] }
    requires here { IsSome tables.now node (tree_of s) }
    ensures { IfOk result (Stepped tables.now node (tree_of s) labels.new) }
{
    match s {
        Structure::Atom { weight, label } => {
            if label != 0 {
                labels.push(label)?;
            }
            Ok(Step::Last(weight as usize))
        }
        Structure::Inj { branch, inner } => match tables.shape(node) {
            Shape::Union { parts } => {
                let parts = parts.as_slice();
                let inner = inner.into_inner();
                let branch = branch as usize - 1;
                let stepped = step_on(alloc, tables, parts[branch].node, inner, labels)?;
                match stepped {
                    Step::Next(inner) => {
                        let whole = inject(alloc, branch, inner)?;
                        Ok(Step::Next(whole))
                    }
                    Step::Last(n) => {
                        next_branch(alloc, tables, parts, labels.as_slice(), n, branch)
                    }
                    Step::Untold => Ok(Step::Untold),
                }
            }
            _ => Ok(Step::Untold),
        },
        Structure::Tup { parts } => {
            let mut items = parts;
            let moved = parts_on(alloc, tables, node, 0, &mut items, labels)?;
            match moved {
                Row::On => Ok(Step::Next(tuple(items))),
                Row::Ended(n) => Ok(Step::Last(n)),
                Row::Untold => Ok(Step::Untold),
            }
        }
        Structure::Coll { parts } => {
            if tables.is_bag(node, 0) {
                return Ok(Step::Untold);
            }
            let mut items = parts;
            let moved = parts_on(alloc, tables, node, 0, &mut items, labels)?;
            match moved {
                Row::On => Ok(Step::Next(collection(items))),
                Row::Ended(n) => Ok(Step::Last(n)),
                Row::Untold => Ok(Step::Untold),
            }
        }
    }
}

// Puts the next parts in place of those that stand from f on. Where those are the last, they are taken off, and their labels are put into `labels`.
#[cycle(stepping)]
fn parts_on(
    alloc: Global,
    tables: &Tables<'_>,
    x: usize,
    f: usize,
    items: &mut Items<Structure>,
    labels: &mut Items<u32>,
) -> Result<Row, NoMemory>
    requires tables { IsLooked tables.now }
    requires node { x < length tables.now.program.nodes }
    requires spread { IsSpread (tail_at (plain_of tables.now.program) x f) }
    requires long { f ≤ length items.old }
    requires none { labels.old ≡ [] }
    requires here { AreSome tables.now x f (tree_list (from_place f items.old)) }
    ensures { IfOk result (Moved tables.now x f (up_to f items.old)
        (tree_list (from_place f items.old)) items.new labels.new) }
{
    if f == items.len() {
        return Ok(Row::Ended(0));
    }
    let mut others = Items::new(alloc);
    let moved = parts_on(alloc, tables, x, f + 1, items, &mut others)?;
    match moved {
        Row::On => Ok(Row::On),
        Row::Untold => Ok(Row::Untold),
        Row::Ended(j) => {
            let node = first_of(tables, x, f);
            let first = take_last(items);
            let mut own = Items::new(alloc);
            let stepped = step_on(alloc, tables, node, first, &mut own)?;
            match stepped {
                Step::Next(next) => {
                    items.push(next)?;
                    first_row(alloc, tables, x, f + 1, others.as_slice(), j, items)?;
                    Ok(Row::On)
                }
                Step::Last(i) => {
                    merge(own.as_slice(), others.as_slice(), labels)?;
                    let went = turn(
                        alloc,
                        tables,
                        x,
                        f,
                        node,
                        labels.as_slice(),
                        i + j,
                        i,
                        own.as_slice(),
                        items,
                    )?;
                    if went {
                        return Ok(Row::On);
                    }
                    Ok(Row::Ended(i + j))
                }
                Step::Untold => Ok(Row::Untold),
            }
        }
    }
}
