// What is fixed in a run of the engine.
ghost use Rattle.std.specs.Prelude.{◌≡◌, ◌<◌, ◌≤◌, length, slice_index, slice_get, Some, IfOk};
ghost use Rattle.luo_model.specs.Program.{shape_of};
ghost use Rattle.luo_model.specs.View.{plain_of};
ghost use Rattle.luo_engine.specs.inner.Plan.{IsPlan};

use crate::layout::{layout_of, ranks_of};
use crate::order::order_of;
use luo_binom::Pascal;
use luo_founded::Ranks;
use luo_model::{Program, Shape, Universe};
use luo_num::limits::SIZE_LIMIT;
use luo_num::{Items, NoMemory};
use std::alloc::Global;
use std::marker::Model;

/// The program with its ranks, the order of its nodes, and where the rows of its products stand.
#[derive(Drop)]
pub struct Plan<'p> {
    pub program: &'p Program,
    pub ranks: Items<u32>,
    pub order: Items<usize>,
    pub starts: Items<usize>,
    pub factors: Items<Option<usize>>,
    pub pascal: Pascal,
}

impl<'p> Model for Plan<'p> {
    ghost use Rattle.luo_engine.specs.inner.Plan.{Planned, IsPlan};
    ghost use Rattle.luo_model.specs.contracts.body.Item as done;
    ghost use Rattle.luo_model.specs.contracts.value.Value as made;
    ghost use Rattle.std.specs.Coded.{codes};

    ghost Value = { Planned };

    ghost coded = { Prim.hlevel (codes, done.the_row.coded, made.the_row.coded) };

    ghost view = { λ p. record {
      program = p.program.now;
      ranks = p.ranks;
      order = p.order;
      starts = p.starts;
      factors = p.factors;
      reach = p.pascal;
    } };

    ghost invariant = { λ p. IsPlan (record {
      program = p.program.now;
      ranks = p.ranks;
      order = p.order;
      starts = p.starts;
      factors = p.factors;
      reach = p.pascal;
    }) };
}

impl<'p> Plan<'p> {
    /// The plan of a program up to a last size.
    pub fn new(
        alloc: Global,
        program: &'p Program,
        ranks: &Ranks<'_>,
        n_max: u32,
    ) -> Result<Plan<'p>, NoMemory>
        requires same { ranks.now ≡ program.now }
        requires small { n_max ≤ SIZE_LIMIT }
        ensures program { IfOk result (λ plan. plan.program ≡ program.now) }
        ensures reach { IfOk result (λ plan. plan.reach ≡ n_max) }
    {
        let nodes = ranks_of(alloc, ranks)?;
        let order = order_of(alloc, nodes.as_slice())?;
        let layout = layout_of(alloc, program)?;
        let pascal = Pascal::new(alloc, n_max)?;
        Ok(Plan {
            program,
            ranks: nodes,
            order,
            starts: layout.starts,
            factors: layout.factors,
            pascal,
        })
    }

    /// How many nodes the program has, and what holds of the plan.
    pub fn nodes(&self) -> usize
        ensures width { result ≡ length self.now.program.nodes }
        ensures plan { IsPlan self.now }
    {
        let program = self.program;
        program.nodes.len()
    }

    /// Whether structures carry labels.
    pub fn universe(&self) -> Universe
        ensures { result ≡ self.now.program.universe }
    {
        let program = self.program;
        program.universe
    }

    /// The binomials.
    pub fn pascal(&self) -> &Pascal
        ensures { result.now ≡ self.now.reach }
    {
        &self.pascal
    }

    /// How many nodes there are in the order.
    pub fn width(&self) -> usize
        ensures { result ≡ length self.now.order }
    {
        self.order.len()
    }

    /// The node at place k of the order.
    pub fn node_at(&self, k: usize) -> usize
        requires { k < length self.now.order }
        ensures place { slice_get self.now.order k ≡ Some result }
        ensures plan { IsPlan self.now }
    {
        self.order.as_slice()[k]
    }

    /// The construct of node x.
    pub fn shape(&self, x: usize) -> &'p Shape
        requires { x < length self.now.program.nodes }
        ensures { result.now ≡ shape_of (plain_of self.now.program) x }
    {
        let program = self.program;
        &program.nodes.as_slice()[x].shape
    }

    /// Where the rows of product x start.
    pub fn start(&self, x: usize) -> usize
        requires { x < length self.now.program.nodes }
        ensures { result ≡ slice_index self.now.starts x }
    {
        self.starts.as_slice()[x]
    }

    /// The factors of all rows.
    pub fn factors(&self) -> &[Option<usize>]
        ensures { result.now ≡ self.now.factors }
    {
        self.factors.as_slice()
    }
}
