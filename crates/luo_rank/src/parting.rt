// The labels of the first, and those of the rest.
ghost use Rattle.std.specs.Prelude.{◌≡◌, ◌-◌, ◌<◌, ◌≤◌, ◌∷◌, ◌↔◌, length, IsTrue, IfOk, OnOk};
ghost use Rattle.luo_finite.specs.Places.{IsChoice};
ghost use Rattle.luo_finite.specs.Binomial.{choose};
ghost use Rattle.luo_model.specs.Structures.{Rising};
ghost use Rattle.luo_model.specs.View.{plain_of};
ghost use Rattle.luo_counting.specs.Sharing.{IsRoom};
ghost use Rattle.luo_places.specs.Tails.{head_ways};
ghost use Rattle.luo_rank.specs.inner.Lookup.{IsLooked, tail_at, ArePartLabels, IsChosen, ArePlaced};

use crate::tables::Tables;
use luo_binom::Pascal;
use luo_model::Universe;
use luo_num::{Items, NoMemory};
use std::alloc::Global;

/// Labels in two parts.
#[derive(Drop)]
pub struct Parted {
    /// The labels of the first.
    pub first: Items<u32>,
    /// The labels of the rest.
    pub rest: Items<u32>,
}

// Puts the chosen labels after `first`, and the others after `rest`.
fn part_from(
    labels: &[u32],
    chosen: &[u32],
    first: &mut Items<u32>,
    rest: &mut Items<u32>,
) -> Result<(), NoMemory>
    requires rises { Rising labels.now }
    requires chosen { IsChoice labels.now (length chosen.now) chosen.now }
    ensures { OnOk result (IsChosen labels.now chosen.now first.old first.new rest.old rest.new) }
{
    if let Some((label, others)) = labels.split_first() {
        match chosen.split_first() {
            Some((next, more)) => {
                if *next == *label {
                    first.push(*label)?;
                    part_from(others, more, first, rest)?;
                } else {
                    rest.push(*label)?;
                    part_from(others, chosen, first, rest)?;
                }
            }
            None => {
                rest.push(*label)?;
                part_from(others, chosen, first, rest)?;
            }
        }
    }
    Ok(())
}

// The choice of so many labels at a place, after those that are first, and the others.
fn choose_labels(
    alloc: Global,
    pascal: &Pascal,
    labels: &[u32],
    size: usize,
    place: u128,
    first: Items<u32>,
) -> Result<Parted, NoMemory>
    requires rises { Rising labels.now }
    requires few { length labels.now ≤ 40 }
    requires reached { length labels.now ≤ pascal.now }
    requires size { size ≤ length labels.now }
    requires place { place < choose (length labels.now) size }
    ensures { IfOk result (λ parted.
        ArePlaced labels.now size place first parted.first parted.rest) }
{
    let mut first = first;
    let mut rest = Items::new(alloc);
    let mut chosen = vec![in alloc; 0; size]?;
    pascal.subset_at(labels, size as u32, place, chosen.as_mut_slice());
    part_from(labels, chosen.as_slice(), &mut first, &mut rest)?;
    Ok(Parted { first, rest })
}

/// The labels of a first of this size with this place among those that it can have, and those of the rest.
///
/// # Errors
///
/// `NoMemory` where memory is refused.
pub fn part_labels(
    alloc: Global,
    tables: &Tables<'_>,
    x: usize,
    f: usize,
    labels: &[u32],
    n: usize,
    size: usize,
    place: u128,
) -> Result<Parted, NoMemory>
    requires tables { IsLooked tables.now }
    requires node { x < length tables.now.program.nodes }
    requires room { IsRoom tables.now.program.universe labels.now n }
    requires size { size ≤ n }
    requires reach { n ≤ tables.now.last }
    requires ways { place < head_ways tables.now.program.universe
        (tail_at (plain_of tables.now.program) x f) n size }
    ensures { IfOk result (λ parted. ArePartLabels tables.now.program.universe
        (tail_at (plain_of tables.now.program) x f) labels.now n size place parted.first
        parted.rest) }
{
    match tables.universe() {
        Universe::Unlabelled => Ok(Parted {
            first: Items::new(alloc),
            rest: Items::new(alloc),
        }),
        Universe::Labelled => {
            let mut first = Items::new(alloc);
            match labels.split_first() {
                Some((least, others)) => {
                    if tables.is_led(x, f) {
                        first.push(*least)?;
                        choose_labels(alloc, tables.pascal(), others, size - 1, place, first)
                    } else {
                        choose_labels(alloc, tables.pascal(), labels, size, place, first)
                    }
                }
                None => choose_labels(alloc, tables.pascal(), labels, size, place, first),
            }
        }
    }
}
