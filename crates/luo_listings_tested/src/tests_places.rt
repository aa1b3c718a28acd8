// What stands at each place, beside all structures of each node of the examples' types, made by the definitions and sorted by their order.
ghost use Rattle.std.specs.Prelude.{◌≡◌, ◌+◌, ◌<◌, ◌≤◌, false, length, IfOk};
ghost use Rattle.luo_num.specs.declared.limits.TheConstants.{LIST_SIZE_LIMIT};
ghost use Rattle.luo_model.specs.declared.table.Fill.TheVariants as fills;

use crate::tests_structures::{Found, are_same, is_structure, listing, put_size};
use crate::tests_walks::goes_through;
use luo_engine::Engine;
use luo_founded::{Ranks, found};
use luo_list::Cursor;
use luo_model::{Counts, Fill, Program, Universe};
use luo_num::limits::TEXT_LIMIT;
use luo_rank::Ranker;
use luo_scan::scan;
use luo_struct::Structure;
use luo_syntax::parse;
use luo_types::check;
use std::alloc::Global;
use std::process::Abort;
use std::test::Fail;

// Nodes and sizes of which there are more structures than these are left out.
const MOST: u128 = 2000;

// The last size that is tried. In the labelled universe all orders of the labels are tried, and there are many of them.
fn last_size(universe: Universe) -> u32
    ensures { result ≤ LIST_SIZE_LIMIT }
{
    match universe {
        Universe::Unlabelled => 12,
        Universe::Labelled => 8,
    }
}

// The program of a text.
fn program_of<R: Abort>(rt: &R, alloc: Global, text: &[u8]) -> Result<Program, Fail> {
    assert!(rt; text.len() <= TEXT_LIMIT);
    let tokens = scan(alloc, text)?;
    let source = parse(alloc, text, tokens.as_slice())?;
    let program = check(alloc, &source);
    drop(source);
    Ok(program?)
}

// The tables of a program, filled up to a last size.
fn filled<'p>(
    alloc: Global,
    program: &'p Program,
    ranks: &Ranks<'_>,
    last: u32,
) -> Result<Engine<'p>, Fail>
    requires ranks { ranks.now ≡ program.now }
    requires last { last ≤ LIST_SIZE_LIMIT }
    ensures { IfOk result (λ engine. engine ≡ record {
      program = program.now;
      last = last;
      fill = fills.Counts;
      filled = last + 1;
      stopped = false;
    }) }
{
    let mut engine = Engine::start(alloc, program, ranks, last, Fill::Counts)?;
    for _i in 0..last + 1 {
        if let Err(over) = engine.extend() {
            drop(engine);
            return Err(Fail::from(over));
        }
    }
    Ok(engine)
}

// The counts of a program, up to a last size.
fn counts_of<'p>(
    alloc: Global,
    program: &'p Program,
    ranks: &Ranks<'_>,
    last: u32,
) -> Result<Counts<'p>, Fail>
    requires ranks { ranks.now ≡ program.now }
    requires last { last ≤ LIST_SIZE_LIMIT }
    ensures { IfOk result (λ counts. counts ≡ record { program = program.now; last = last }) }
{
    let engine = filled(alloc, program, ranks, last)?;
    let counts = engine.counts(alloc);
    drop(engine);
    Ok(counts?)
}

// Which nodes have no more than `MOST` structures of size n.
fn wanted(alloc: Global, program: &Program, counts: &Counts<'_>, n: u32) -> Result<Vec<bool>, Fail>
    requires program { counts.now.program ≡ program.now }
    requires size { n ≤ counts.now.last }
{
    let mut wanted = Vec::new(alloc);
    for node in 0..program.nodes.as_slice().len() {
        wanted.push(counts.at(node, n) <= MOST)?;
    }
    Ok(wanted)
}

/// A node of an example, and a size.
#[derive(Clone, Copy)]
pub struct Asked<'t> {
    pub example: &'t str,
    pub node: usize,
    pub n: u32,
}

// The structure stands at this place, and has it.
fn stands_at<R: Abort>(
    rt: &R,
    alloc: Global,
    program: &Program,
    ranker: &Ranker<'_>,
    asked: Asked<'_>,
    place: u128,
    s: &Structure,
) -> Result<(), Fail>
    requires program { ranker.now.program ≡ program.now }
    requires node { ranker.now.node ≡ asked.node }
    requires size { ranker.now.size ≡ asked.n }
{
    let Asked { example, node, n } = asked;
    assert!(rt; place < ranker.count());
    let there = ranker.at(alloc, place)?;
    let is_same = are_same(program, node, n, &there, s);
    drop(there);
    assert!(rt;
        is_same,
        "{example}: place {place} of size {n} of node {node}"
    );
    assert!(rt; is_structure(program, node, n, s));
    let rank = ranker.rank_of(alloc, s)?;
    assert_eq!(rt; rank, place, "{example}: size {n} of node {node}");
    Ok(())
}

// Each structure of a listing stands at its place, and has it.
fn stand_in_order<R: Abort>(
    rt: &R,
    alloc: Global,
    program: &Program,
    ranker: &Ranker<'_>,
    asked: Asked<'_>,
    structures: &[Structure],
) -> Result<(), Fail>
    requires program { ranker.now.program ≡ program.now }
    requires node { ranker.now.node ≡ asked.node }
    requires size { ranker.now.size ≡ asked.n }
{
    for (place, s) in structures.iter().enumerate() {
        stands_at(rt, alloc, program, ranker, asked, place as u128, s)?;
    }
    Ok(())
}

// As many structures of a node of size n are counted as there are, and they stand at their places.
fn places_are_right<'p, R: Abort>(
    rt: &R,
    alloc: Global,
    ranks: &'p Ranks<'p>,
    counts: &Counts<'p>,
    asked: Asked<'_>,
    structures: &[Structure],
) -> Result<(), Fail>
    requires same { counts.now.program ≡ ranks.now }
    requires node { asked.node < length ranks.now.nodes }
    requires size { asked.n ≤ counts.now.last }
    requires few { asked.n ≤ LIST_SIZE_LIMIT }
{
    let Asked { example, node, n } = asked;
    let program = ranks.program();
    let count = structures.len() as u128;
    assert_eq!(rt;
        counts.at(node, n),
        count,
        "{example}: size {n} of node {node}"
    );
    let ranker = Ranker::new(alloc, ranks, counts, node, n)?;
    assert_eq!(rt; ranker.count(), count, "{example}: size {n} of node {node}");
    let right = stand_in_order(rt, alloc, program, &ranker, asked, structures);
    drop(ranker);
    right
}

// A walk over the structures of a node of size n goes through them.
fn walk_is_right<'p, R: Abort>(
    rt: &R,
    alloc: Global,
    ranks: &'p Ranks<'p>,
    counts: &Counts<'p>,
    asked: Asked<'_>,
    structures: &[Structure],
) -> Result<(), Fail>
    requires same { counts.now.program ≡ ranks.now }
    requires node { asked.node < length ranks.now.nodes }
    requires size { asked.n ≤ counts.now.last }
    requires few { asked.n ≤ LIST_SIZE_LIMIT }
{
    let program = ranks.program();
    let ranker = Ranker::new(alloc, ranks, counts, asked.node, asked.n)?;
    let end = ranker.count();
    let mut cursor = Cursor::new(ranker, 0, end);
    let right = goes_through(rt, alloc, program, &mut cursor, asked, structures);
    drop(cursor);
    right
}

// The structures of a node of size n stand at their places, and a walk goes through them.
fn node_is_right<'p, R: Abort>(
    rt: &R,
    alloc: Global,
    ranks: &'p Ranks<'p>,
    counts: &Counts<'p>,
    asked: Asked<'_>,
    found: &[Vec<Structure>],
) -> Result<(), Fail>
    requires same { counts.now.program ≡ ranks.now }
    requires node { asked.node < length ranks.now.nodes }
    requires size { asked.n ≤ counts.now.last }
    requires few { asked.n ≤ LIST_SIZE_LIMIT }
{
    let structures = listing(alloc, ranks.program(), asked.node, asked.n, found)?;
    places_are_right(rt, alloc, ranks, counts, asked, structures.as_slice())?;
    walk_is_right(rt, alloc, ranks, counts, asked, structures.as_slice())
}

// The same of all nodes that have no more than `MOST` structures of size n.
fn size_is_right<'p, R: Abort>(
    rt: &R,
    alloc: Global,
    ranks: &'p Ranks<'p>,
    counts: &Counts<'p>,
    example: &str,
    n: u32,
    sizes: &mut Vec<Found>,
) -> Result<(), Fail>
    requires same { counts.now.program ≡ ranks.now }
    requires size { n ≤ counts.now.last }
    requires few { n ≤ LIST_SIZE_LIMIT }
{
    let program = ranks.program();
    let wanted = wanted(alloc, program, counts, n)?;
    put_size(alloc, program, sizes, n, wanted.as_slice())?;
    let Some(found) = sizes.last() else {
        return Ok(());
    };
    for node in 0..program.nodes.as_slice().len() {
        if wanted.get(node) == Some(&true) {
            let asked = Asked { example, node, n };
            node_is_right(rt, alloc, ranks, counts, asked, found.as_slice())?;
        }
    }
    Ok(())
}

// The same of all sizes up to a last one.
fn sizes_are_right<'p, R: Abort>(
    rt: &R,
    alloc: Global,
    ranks: &'p Ranks<'p>,
    counts: &Counts<'p>,
    example: &str,
    last: u32,
) -> Result<(), Fail>
    requires same { counts.now.program ≡ ranks.now }
    requires size { last ≤ counts.now.last }
    requires few { last ≤ LIST_SIZE_LIMIT }
{
    let mut sizes = Vec::new(alloc);
    for n in 0..last + 1 {
        size_is_right(rt, alloc, ranks, counts, example, n, &mut sizes)?;
    }
    Ok(())
}

// The same of all sizes that are tried.
fn tables_are_right<'p, R: Abort>(
    rt: &R,
    alloc: Global,
    program: &'p Program,
    ranks: &'p Ranks<'p>,
    example: &str,
) -> Result<(), Fail>
    requires ranks { ranks.now ≡ program.now }
{
    let last = last_size(program.universe);
    let counts = counts_of(alloc, program, ranks, last)?;
    let right = sizes_are_right(rt, alloc, ranks, &counts, example, last);
    drop(counts);
    right
}

// The same of a program that is well-founded.
fn ranked_is_right<R: Abort>(
    rt: &R,
    alloc: Global,
    example: &str,
    program: &Program,
) -> Result<(), Fail> {
    let ranks = found(alloc, program)?;
    let right = tables_are_right(rt, alloc, program, &ranks, example);
    drop(ranks);
    right
}

/// The structures of each node of the program of a text, at each size that is tried, are counted and stand at their places, and a walk goes through
/// them, where there are no more than `MOST`.
pub fn program_is_right<R: Abort>(
    rt: &R,
    alloc: Global,
    example: &str,
    text: &[u8],
) -> Result<(), Fail> {
    let program = program_of(rt, alloc, text)?;
    let right = ranked_is_right(rt, alloc, example, &program);
    drop(program);
    right
}
