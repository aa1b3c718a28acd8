// Shares of labels: put together again, and in their order.
ghost use Rattle.std.specs.Prelude.{◌≡◌, ◌+◌, ◌++◌, ◌<◌, ◌≤◌, List, ℕ, length, [], IfOk, OnOk};
ghost use Rattle.luo_model.specs.View.{plain_of};
ghost use Rattle.luo_places.specs.Tails.{IsHead, head_ways};
ghost use Rattle.luo_rank.specs.inner.Lookup.{IsLooked, tail_at};
ghost use Rattle.luo_stepper.specs.inner.Stepping.{AreLabels, AreParts, IsRoomOf, IsSplit};

use luo_model::Universe;
use luo_num::{Items, NoMemory};
use luo_rank::parting::{Parted, part_labels};
use luo_rank::tables::Tables;
use std::alloc::Global;

// Puts the labels of two, rising, after those in `out`.
pub fn merge(first: &[u32], rest: &[u32], out: &mut Items<u32>) -> Result<(), NoMemory>
    requires split { (L : List ℕ) × IsSplit L first.now rest.now }
    ensures { OnOk result ((L : List ℕ) → IsSplit L first.now rest.now → out.new ≡ out.old ++ L) }
{
    match (first.split_first(), rest.split_first()) {
        (Some((label, more)), Some((other, others))) => {
            if *label < *other {
                out.push(*label)?;
                merge(more, rest, out)
            } else {
                out.push(*other)?;
                merge(first, others, out)
            }
        }
        (Some((label, more)), None) => {
            out.push(*label)?;
            merge(more, rest, out)
        }
        (None, Some((other, others))) => {
            out.push(*other)?;
            merge(first, others, out)
        }
        (None, None) => Ok(()),
    }
}

// The place of the labels of a first among those that it can have.
pub fn place_of(
    tables: &Tables<'_>,
    x: usize,
    f: usize,
    labels: &[u32],
    n: usize,
    size: usize,
    own: &[u32],
) -> u128
    requires tables { IsLooked tables.now }
    requires node { x < length tables.now.program.nodes }
    requires reach { n ≤ tables.now.last }
    requires room { IsRoomOf tables.now x f labels.now n size own.now }
    ensures head { (T : List ℕ)
        × IsHead tables.now.program.universe (tail_at (plain_of tables.now.program) x f)
        labels.now size result own.now T }
    ensures small { result < head_ways tables.now.program.universe
        (tail_at (plain_of tables.now.program) x f) n size }
{
    match tables.universe() {
        Universe::Unlabelled => 0,
        Universe::Labelled => {
            if !tables.is_led(x, f) {
                return tables.pascal().subset_rank(labels, own);
            }
            match (labels.split_first(), own.split_first()) {
                (Some((_, others)), Some((_, more))) => tables.pascal().subset_rank(others, more),
                _ => 0,
            }
        }
    }
}

// The labels of a first of this size with this place among those that it can have, and those of the rest.
pub fn labels_at(
    alloc: Global,
    tables: &Tables<'_>,
    x: usize,
    f: usize,
    labels: &[u32],
    n: usize,
    size: usize,
    place: u128,
) -> Result<Parted, NoMemory>
    requires tables { IsLooked tables.now }
    requires node { x < length tables.now.program.nodes }
    requires labels { AreLabels tables.now.program.universe labels.now n }
    requires size { size ≤ n }
    requires reach { n ≤ tables.now.last }
    requires ways { place < head_ways tables.now.program.universe
        (tail_at (plain_of tables.now.program) x f) n size }
    ensures { IfOk result (λ parted. AreParts tables.now labels.now n size parted.first parted.rest
        × IsHead tables.now.program.universe
        (tail_at (plain_of tables.now.program) x f) labels.now size place
        parted.first parted.rest) }
{
    match tables.universe() {
        Universe::Unlabelled => Ok(Parted {
            first: Items::new(alloc),
            rest: Items::new(alloc),
        }),
        Universe::Labelled => part_labels(alloc, tables, x, f, labels, n, size, place),
    }
}
