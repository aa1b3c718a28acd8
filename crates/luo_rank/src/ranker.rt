// The structures of a node and a size by their places.
ghost use Rattle.std.specs.Prelude.{◌≡◌, ◌+◌, ◌<◌, ◌≤◌, ◌↔◌, length, IfOk, IsTrue};
ghost use Rattle.luo_num.specs.declared.TheConstants.{MAX};
ghost use Rattle.luo_num.specs.declared.limits.TheConstants.{LIST_SIZE_LIMIT};
ghost use Rattle.luo_model.specs.View.{plain_of};
ghost use Rattle.luo_model.specs.Tables.{IsCount};
ghost use Rattle.luo_model.specs.Order.{IsBefore};
ghost use Rattle.luo_model.specs.Structures.{IsStructure, labels_from};
ghost use Rattle.luo_finite.specs.Places.{IsPlace};
ghost use Rattle.luo_struct.specs.View.{tree_of};
ghost use Rattle.luo_struct.specs.Small.{IsSmall};
ghost use Rattle.luo_rank.specs.inner.Halving.{IsHalf};
ghost use Rattle.luo_rank.specs.inner.Lookup.{IsLooked, entry_of};

use crate::filling::tables_of;
use crate::lookup::structure_at;
use crate::tables::Tables;
use luo_founded::Ranks;
use luo_model::Counts;
use luo_num::{Items, NoMemory};
use luo_struct::{Structure, order};
use std::alloc::Global;
use std::cmp::Ordering;
use std::marker::Model;

/// Finds structures of a node and a size by their places in the order of structures. The places are
/// the numbers below the count, and no list of structures is made. Contracts see the program, the
/// node, the size and the count.
#[derive(Drop)]
pub struct Ranker<'p> {
    tables: Tables<'p>,
    labels: Items<u32>,
    node: usize,
    count: u128,
}

impl<'p> Model for Ranker<'p> {
    ghost use Rattle.luo_rank.specs.Ranked.{Ranked};
    ghost use Rattle.luo_rank.specs.inner.Lookup.{Looks};
    ghost use Rattle.luo_model.specs.contracts.body.Item as done;
    ghost use Rattle.luo_model.specs.contracts.value.Value as made;
    ghost use Rattle.std.specs.Coded.{codes};

    ghost Value = { Ranked };

    ghost coded = { Prim.hlevel (codes, done.the_row.coded, made.the_row.coded) };

    ghost view = { λ r. record {
      program = r.tables.program;
      node = r.node;
      size = r.tables.last;
      count = r.count;
    } };

    ghost invariant = { λ r. Looks r.tables r.labels r.node r.count };
}

// The labels from 1 to n.
fn labels_to(alloc: Global, n: usize) -> Result<Items<u32>, NoMemory>
    requires few { n ≤ 40 }
    ensures { IfOk result (λ labels. labels ≡ labels_from 1 n) }
{
    let mut labels = Items::new(alloc);
    for k in 0..n {
        let label = k as u32 + 1;
        labels.push(label)?;
    }
    Ok(labels)
}

// Whether a is before b.
fn is_before(a: &Structure, b: &Structure) -> bool
    requires a_small { IsSmall (tree_of a.now) }
    requires b_small { IsSmall (tree_of b.now) }
    ensures { IsTrue result ↔ IsBefore (tree_of a.now) (tree_of b.now) }
{
    match order(a, b) {
        Ordering::Less => true,
        _ => false,
    }
}

// The places from `low` on and below `high`.
#[derive(Clone, Copy)]
struct Span {
    low: u128,
    high: u128,
}

impl<'p> Ranker<'p> {
    /// Prepares to find the structures of a node of size `n`, at most `LIST_SIZE_LIMIT`, of a
    /// well-founded program whose counts are known up to this size.
    ///
    /// The tables hold, for each product, sequence, set and cycle, in how many ways what comes after its
    /// first parts can be chosen, and for each multiset and powerset how many there are of components up to
    /// each size (Flajolet, Zimmermann and Van Cutsem 1994).
    ///
    /// # Errors
    ///
    /// `NoMemory` where memory is refused.
    pub fn new(
        alloc: Global,
        ranks: &'p Ranks<'p>,
        counts: &Counts<'p>,
        node: usize,
        n: u32,
    ) -> Result<Ranker<'p>, NoMemory>
        requires same { counts.now.program ≡ ranks.now }
        requires node { node < length ranks.now.nodes }
        requires size { n ≤ counts.now.last }
        requires few { n ≤ LIST_SIZE_LIMIT }
        ensures made { IfOk result (λ r. (r.program ≡ ranks.now) × (r.node ≡ node) × (r.size ≡ n)) }
        ensures count { IfOk result (λ r. IsCount (plain_of ranks.now) node n r.count) }
    {
        let tables = tables_of(alloc, ranks, counts, n as usize)?;
        let labels = labels_to(alloc, n as usize)?;
        let count = tables.entry(node, n as usize);
        Ok(Ranker {
            tables,
            labels,
            node,
            count,
        })
    }

    /// The number of structures of the node of this size: the places are the numbers below it.
    pub fn count(&self) -> u128
        ensures same { result ≡ self.now.count }
        ensures count { IsCount (plain_of self.now.program) self.now.node self.now.size result }
        ensures small { result ≤ MAX }
    {
        self.count
    }

    /// The structure at a place: as many structures of the node and the size are before it.
    ///
    /// # Errors
    ///
    /// `NoMemory` where memory is refused.
    pub fn at(&self, alloc: Global, rank: u128) -> Result<Structure, NoMemory>
        requires rank { rank < self.now.count }
        ensures { IfOk result (λ s. IsPlace
            (IsStructure (plain_of self.now.program) self.now.node self.now.size)
            IsBefore rank (tree_of s)) }
    {
        let size = self.tables.last();
        structure_at(
            alloc,
            &self.tables,
            self.node,
            self.labels.as_slice(),
            size,
            rank,
        )
    }

    /// The node whose structures are found.
    pub fn node(&self) -> usize
        ensures { result ≡ self.now.node }
    {
        self.node
    }

    /// The tables in which structures are looked up.
    pub fn tables(&self) -> &Tables<'p>
        ensures looked { IsLooked result.now }
        ensures same { (result.now.program ≡ self.now.program) × (result.now.last ≡ self.now.size) }
        ensures node { self.now.node < length result.now.program.nodes }
        ensures count { self.now.count ≡ entry_of result.now.counts self.now.node result.now.last }
    {
        &self.tables
    }

    // Half of the places, in which that of s lies.
    fn halved(&self, alloc: Global, s: &Structure, span: Span) -> Result<Span, NoMemory>
        requires structure { IsStructure (plain_of self.now.program) self.now.node self.now.size
            (tree_of s.now) }
        requires wide { span.low + 1 < span.high }
        requires end { span.high ≤ self.now.count }
        ensures { IfOk result (λ next. IsHalf
            (plain_of self.now.program) self.now.node self.now.size
            (tree_of s.now) span.low span.high next.low next.high) }
    {
        let _size = self.tables.last();
        let middle = span.low + (span.high - span.low) / 2;
        let other = self.at(alloc, middle)?;
        if is_before(s, &other) {
            Ok(Span {
                low: span.low,
                high: middle,
            })
        } else {
            Ok(Span {
                low: middle,
                high: span.high,
            })
        }
    }

    /// The place of a structure of this node and size: as many of them are before it. It is found by
    /// halving, and each step makes one structure.
    ///
    /// # Errors
    ///
    /// `NoMemory` where memory is refused.
    pub fn rank_of(&self, alloc: Global, s: &Structure) -> Result<u128, NoMemory>
        requires { IsStructure (plain_of self.now.program) self.now.node self.now.size
            (tree_of s.now) }
        ensures { IfOk result (λ rank. IsPlace
            (IsStructure (plain_of self.now.program) self.now.node self.now.size)
            IsBefore rank (tree_of s.now)) }
    {
        let high = self.count();
        let mut span = Span { low: 0, high };
        while span.high - span.low > 1 {
            let next = self.halved(alloc, s, span)?;
            span = next;
        }
        Ok(span.low)
    }
}
