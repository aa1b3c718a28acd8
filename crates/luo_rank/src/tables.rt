// What structures are looked up in.
ghost use Rattle.std.specs.Prelude.{◌≡◌, ◌+◌, ◌-◌, ◌<◌, ◌≤◌, ◌↔◌, [], length, slice_index_or, IsTrue, IfOk};
ghost use Rattle.luo_finite.specs.Range.{sum_below};
ghost use Rattle.luo_num.specs.Mark.{capped};
ghost use Rattle.luo_model.specs.Program.{shape_of};
ghost use Rattle.luo_model.specs.View.{plain_of};
ghost use Rattle.luo_counting.specs.Sharing.{IsRoom};
ghost use Rattle.luo_places.specs.Tails.{Ends, IsSpread, first_node, head_ways};
ghost use Rattle.luo_rank.specs.inner.Lookup.{IsLooked, IsCounted, entry_of, tail_at, IsLeft, Stands, label_on, IsLedTail, IsBagTail, left_count, top_of, IsRow, HasPlane};

use crate::choices::is_bag;
use crate::planes::nth;
use luo_binom::Pascal;
use luo_model::{Kind, Program, Shape, Universe};
use luo_num::Items;
use std::marker::Model;

/// The numbers of a program up to a size.
#[derive(Drop)]
pub struct Tables<'p> {
    /// The program.
    pub program: &'p Program,
    /// The binomials.
    pub pascal: Pascal,
    /// The last size.
    pub last: usize,
    /// The rank of each node.
    pub ranks: Items<u32>,
    /// For each node its counts.
    pub counts: Items<Items<u128>>,
    /// For each node the counts of what is left after its parts, from the last part down.
    pub rests: Items<Items<Items<u128>>>,
    /// For each node of multisets or powersets the planes of its components.
    pub planes: Items<Items<Items<Items<u128>>>>,
}

impl<'p> Model for Tables<'p> {
    ghost use Rattle.luo_rank.specs.inner.Lookup.{Looked, IsCounted};
    ghost use Rattle.luo_model.specs.contracts.body.Item as done;
    ghost use Rattle.luo_model.specs.contracts.value.Value as made;
    ghost use Rattle.std.specs.Coded.{codes};

    ghost Value = { Looked };

    ghost coded = { Prim.hlevel (codes, done.the_row.coded, made.the_row.coded) };

    ghost view = { λ t. record {
      program = t.program.now;
      reach = t.pascal;
      last = t.last;
      ranks = t.ranks;
      counts = t.counts;
      rests = t.rests;
      planes = t.planes;
    } };

    ghost invariant = { λ t. IsCounted (record {
      program = t.program.now;
      reach = t.pascal;
      last = t.last;
      ranks = t.ranks;
      counts = t.counts;
      rests = t.rests;
      planes = t.planes;
    }) };
}

impl<'p> Tables<'p> {
    /// The construct of a node.
    pub fn shape(&self, node: usize) -> &'p Shape
        requires { node < length self.now.program.nodes }
        ensures { result.now ≡ shape_of (plain_of self.now.program) node }
    {
        let program = self.program;
        &program.nodes.as_slice()[node].shape
    }

    /// The count of a node at a size.
    pub fn entry(&self, node: usize, n: usize) -> u128
        requires node { node < length self.now.program.nodes }
        requires size { n ≤ self.now.last }
        ensures { result ≡ entry_of self.now.counts node n }
    {
        let row = &self.counts.as_slice()[node];
        row.as_slice()[n]
    }

    /// The label of an atom.
    pub fn label(&self, labels: &[u32]) -> u32
        ensures { result ≡ label_on self.now.program.universe labels.now }
    {
        let program = self.program;
        match program.universe {
            Universe::Unlabelled => 0,
            Universe::Labelled => match labels.split_first() {
                Some((label, _)) => *label,
                None => 0,
            },
        }
    }

    /// Whether something is left after f parts, of size n.
    pub fn goes_on(&self, x: usize, f: usize, n: usize) -> bool
        requires node { x < length self.now.program.nodes }
        requires stands { Stands (shape_of (plain_of self.now.program) x) self.now.last f n }
        ensures left { IsTrue result → IsLeft (tail_at (plain_of self.now.program) x f) n }
        ensures ends { (IsTrue result → ⊥) → Ends (tail_at (plain_of self.now.program) x f) n }
    {
        match self.shape(x) {
            Shape::Product { parts } => f < parts.as_slice().len(),
            _ => n > 0,
        }
    }

    /// The node of the first that is left after f parts.
    pub fn first_node(&self, x: usize, f: usize, n: usize) -> usize
        requires node { x < length self.now.program.nodes }
        requires tables { IsCounted self.now }
        requires stands { Stands (shape_of (plain_of self.now.program) x) self.now.last f n }
        requires left { IsLeft (tail_at (plain_of self.now.program) x f) n }
        ensures there { result < length self.now.program.nodes }
        ensures first { result ≡ first_node (tail_at (plain_of self.now.program) x f) }
    {
        match self.shape(x) {
            Shape::Product { parts } => parts.as_slice()[f].node,
            Shape::Coll { part, .. } => part.node,
            _ => 0,
        }
    }

    /// Whether structures carry labels.
    pub fn universe(&self) -> Universe
        ensures { result ≡ self.now.program.universe }
    {
        let program = self.program;
        program.universe
    }

    /// The binomials.
    pub fn pascal(&self) -> &Pascal
        ensures { result.now ≡ self.now.reach }
    {
        &self.pascal
    }

    /// Whether the first that is left after f parts has the least label.
    pub fn is_led(&self, x: usize, f: usize) -> bool
        requires { x < length self.now.program.nodes }
        ensures { IsTrue result ↔ IsLedTail (tail_at (plain_of self.now.program) x f) }
    {
        match self.shape(x) {
            Shape::Coll { kind, .. } => match *kind {
                Kind::Set => true,
                Kind::Cycle => f < 1,
                _ => false,
            },
            _ => false,
        }
    }

    /// The last size.
    pub fn last(&self) -> usize
        ensures { result ≡ self.now.last }
    {
        self.last
    }

    /// The number of nodes.
    pub fn nodes(&self) -> usize
        ensures { result ≡ length self.now.program.nodes }
    {
        let program = self.program;
        program.nodes.len()
    }

    /// The most parts after which something may be left.
    pub fn top(&self, x: usize) -> usize
        requires { x < length self.now.program.nodes }
        ensures { result ≡ top_of (shape_of (plain_of self.now.program) x) self.now.last }
    {
        match self.shape(x) {
            Shape::Product { parts } => parts.as_slice().len(),
            Shape::Coll { .. } => self.last,
            _ => 0,
        }
    }

    /// The counts of a node.
    pub fn row(&self, node: usize) -> &[u128]
        requires { node < length self.now.program.nodes }
        ensures { result.now ≡ slice_index_or self.now.counts node [] }
    {
        self.counts.as_slice()[node].as_slice()
    }

    // How many there are of what is left after parts of a node, from the last part down.
    fn rows(&self, x: usize) -> &[Items<u128>]
        requires tables { IsLooked self.now }
        requires node { x < length self.now.program.nodes }
        ensures { result.now ≡ slice_index_or self.now.rests x [] }
    {
        self.rests.as_slice()[x].as_slice()
    }

    /// How many there are of what is left after f parts, marked.
    pub fn rest(&self, x: usize, f: usize) -> &[u128]
        requires tables { IsLooked self.now }
        requires node { x < length self.now.program.nodes }
        requires spread { IsSpread (tail_at (plain_of self.now.program) x f) }
        requires within { f ≤ top_of (shape_of (plain_of self.now.program) x) self.now.last }
        ensures { IsRow self.now x f result.now }
    {
        let all = self.rows(x);
        let at = all.len() - 1 - f;
        nth(all, at)
    }

    /// The plane of the sizes up to d of the components of a node.
    pub fn plane(&self, x: usize, d: usize) -> &[Items<u128>]
        requires tables { IsLooked self.now }
        requires node { x < length self.now.program.nodes }
        requires bag { IsBagTail (tail_at (plain_of self.now.program) x 0) }
        requires size { d ≤ self.now.last }
        ensures { HasPlane self.now x d result.now }
    {
        self.planes.as_slice()[x].as_slice()[d].as_slice()
    }

    /// Whether the components stand by the order.
    pub fn is_bag(&self, x: usize, f: usize) -> bool
        requires { x < length self.now.program.nodes }
        ensures bag { IsTrue result → IsBagTail (tail_at (plain_of self.now.program) x f) }
        ensures spread { (IsTrue result → ⊥) → IsSpread (tail_at (plain_of self.now.program) x f) }
    {
        match self.shape(x) {
            Shape::Coll { kind, .. } => is_bag(*kind),
            _ => false,
        }
    }

    /// The ways to choose the k labels of the first of n.
    pub fn ways(&self, x: usize, f: usize, n: usize, k: usize) -> u128
        requires tables { IsCounted self.now }
        requires node { x < length self.now.program.nodes }
        requires size { n ≤ self.now.last }
        requires within { k ≤ n }
        ensures { result ≡ head_ways self.now.program.universe
            (tail_at (plain_of self.now.program) x f) n k }
    {
        match self.universe() {
            Universe::Unlabelled => 1,
            Universe::Labelled => {
                if !self.is_led(x, f) {
                    self.pascal.marked(n as u32, k as u32)
                } else if k == 0 {
                    0
                } else {
                    self.pascal.marked(n as u32 - 1, k as u32 - 1)
                }
            }
        }
    }
}
