// The checked program.
ghost use Rattle.luo_model.specs.View.{plain_of};
ghost use Rattle.luo_model.specs.Invariant.{IsProgram};

use crate::{Body, Made};
use luo_num::{Items, Text};
use std::marker::Model;

/// Whether structures carry labels.
#[derive(Clone, Copy, Debug, PartialEq, Eq)]
pub enum Universe {
    Unlabelled,
    Labelled,
}

/// The kind of a collection.
#[derive(Clone, Copy, Debug, PartialEq, Eq)]
pub enum Kind {
    Sequence,
    Set,
    Cycle,
    Multiset,
    Powerset,
}

/// A reference to a node; `name` is the definition whose name is written there.
#[derive(Clone, Copy, Debug, PartialEq, Eq)]
pub struct Part {
    pub node: usize,
    pub name: Option<usize>,
}

/// The construct of a node.
#[derive(Debug, Drop)]
pub enum Shape {
    /// An atom of this weight.
    Atom {
        weight: u32,
    },
    /// A disjoint union of its branches.
    Union {
        parts: Items<Part>,
    },
    /// A product of its factors.
    Product {
        parts: Items<Part>,
    },
    /// A collection of components, their number at least `low`, and at most `high` where there is one.
    Coll {
        kind: Kind,
        part: Part,
        low: u32,
        high: Option<u32>,
    },
}

/// A node: its construct, its definition, and its place among that definition's nodes from 0.
#[derive(Debug, Drop)]
pub struct Node {
    pub shape: Shape,
    pub owner: usize,
    pub place: u32,
}

/// A definition: its name, and its right side.
#[derive(Debug, Drop)]
pub struct Def {
    pub name: Text,
    pub whole: Part,
}

/// A procedure: its name, the type of its parameter, what it does, the site of its whole, and its result where it has one.
#[derive(Debug, Drop)]
pub struct Proc {
    pub name: Text,
    pub on: Part,
    pub body: Body,
    pub site: usize,
    pub result: Option<Made>,
}

/// A site: the node of its variable, its procedure, and its place there from 0.
#[derive(Clone, Copy, Debug, PartialEq, Eq)]
pub struct Site {
    pub node: usize,
    pub caller: usize,
    pub place: u32,
}

/// A program in the core form. Definitions, nodes, procedures and sites are referred to by their places from 0.
#[derive(Debug, Drop)]
pub struct Program {
    pub universe: Universe,
    pub defs: Items<Def>,
    pub nodes: Items<Node>,
    pub procs: Items<Proc>,
    pub sites: Items<Site>,
    /// The procedures of the analyze lines.
    pub analyses: Items<usize>,
}

impl Model for Program {
    ghost use Rattle.luo_model.specs.View.{Held, plain_of};
    ghost use Rattle.luo_model.specs.Invariant.{IsProgram};
    ghost use Rattle.luo_model.specs.contracts.body.Item as done;
    ghost use Rattle.luo_model.specs.contracts.value.Value as made;
    ghost use Rattle.std.specs.Coded.{codes};

    ghost Value = { Held };

    ghost coded = { Prim.hlevel (codes, done.the_row.coded, made.the_row.coded) };

    ghost view = { λ p. record {
      universe = p.universe;
      defs = p.defs;
      nodes = p.nodes;
      procs = p.procs;
      sites = p.sites;
      analyses = p.analyses;
    } };

    ghost invariant = { λ p. IsProgram (plain_of
        (record {
          universe = p.universe;
          defs = p.defs;
          nodes = p.nodes;
          procs = p.procs;
          sites = p.sites;
          analyses = p.analyses;
        })) };
}

impl Program {
    /// What holds of every program. It is called for this clause alone.
    pub fn known(&self)
        ensures { IsProgram (plain_of self.now) }
    {
        let _universe = self.universe;
    }
}
