// The definitions of a source with their nodes, and what names mean.
ghost use Rattle.std.specs.Prelude.{◌≡◌, ◌+◌, ◌≤◌, length, sum_by, IfOk};
ghost use Rattle.luo_num.specs.declared.limits.TheConstants.{NODE_LIMIT};
ghost use Rattle.luo_rules.specs.Meanings.{meaning};
ghost use Rattle.luo_rules.specs.Counted.{own_nodes};
ghost use Rattle.luo_rules.specs.Definitions.{definition_meant};
ghost use Rattle.luo_source.specs.View.{expr_of};
ghost use Rattle.luo_rules.specs.Nodes.{named_part, part_at, behind};
ghost use Rattle.luo_types.specs.inner.Held.{nodes_in};
ghost use Rattle.luo_types.specs.inner.NodeLists.{MeanBelow, AreNodes, parts_of};

use crate::counts::count_expr;
use crate::definitions::Entry;
use crate::links::{definition_meant, node_of};
use luo_model::{Part, Universe};
use luo_num::{Items, NoMemory};
use luo_rules::Names;
use luo_source::{Name, TypeExpr};
use std::alloc::Global;
use std::marker::Model;

/// Where a construct stands: its number as a node, and its place in its definition, which is no greater.
#[derive(Clone, Copy)]
pub(crate) struct Spot {
    pub node: usize,
    pub place: u32,
}

impl Model for Spot {
    ghost use Rattle.std.specs.Prelude.{◌≤◌};
    ghost use Rattle.luo_rules.specs.Nodes.{Spot};

    ghost Value = { Spot };

    ghost view = { λ s. record { node = s.node; place = s.place } };

    ghost invariant = { λ s. s.place ≤ s.node };

    ghost inverse = { λ s. record { node = s.node; place = s.place } };
}

impl Spot {
    /// So many nodes further on.
    pub fn behind(self, count: usize) -> Spot
        requires { self.node + count ≤ NODE_LIMIT }
        ensures { result ≡ behind self count }
    {
        Spot {
            node: self.node + count,
            place: self.place + count as u32,
        }
    }
}

/// Definitions with the node of each, and what names mean.
#[derive(Drop)]
pub(crate) struct Scheme<'s> {
    pub alloc: Global,
    pub universe: Universe,
    pub names: Names,
    pub defs: Vec<Entry<'s>>,
    pub nodes: Vec<usize>,
    ghost below: { MeanBelow names (length defs.items) },
    ghost each: { AreNodes names defs.items nodes.items },
}

// The node of each definition.
fn nodes_of(alloc: Global, names: &Names, defs: &[Entry]) -> Result<Vec<usize>, NoMemory>
    requires { sum_by (λ d. own_nodes d.right) defs.now ≤ NODE_LIMIT }
    ensures { IfOk result (λ nodes. AreNodes names.now defs.now nodes.items) }
{
    let mut nodes = Vec::new(alloc);
    for i in 0..defs.len() {
        nodes.push(node_of(names, defs, i))?;
    }
    Ok(nodes)
}

impl<'s> Scheme<'s> {
    /// The definitions with the node of each.
    pub fn new(
        alloc: Global,
        universe: Universe,
        names: Names,
        defs: Vec<Entry<'s>>,
    ) -> Result<Scheme<'s>, NoMemory>
        requires few { sum_by (λ d. own_nodes d.right) defs.items ≤ NODE_LIMIT }
        requires below { MeanBelow names (length defs.items) }
        ensures universe { IfOk result (λ s. s.universe ≡ universe) }
        ensures names { IfOk result (λ s. s.names ≡ names) }
        ensures defs { IfOk result (λ s. s.defs.items ≡ defs.entry.items) }
    {
        let nodes = nodes_of(alloc, &names, defs.as_slice())?;
        Ok(Scheme {
            alloc,
            universe,
            names,
            defs,
            nodes,
        })
    }

    /// The part that stands for a definition by its name.
    fn named_part(&self, name: &Name) -> Part
        ensures { result ≡ named_part self.now.names self.now.defs.items
            (definition_meant (meaning self.now.names name.now.text)) }
    {
        match definition_meant(self.names.meaning(name.text.as_slice())) {
            Some(i) => Part {
                node: self.nodes[i],
                name: Some(i),
            },
            None => Part {
                node: 0,
                name: None,
            },
        }
    }

    /// The part that stands for a type expression at this spot.
    pub fn part(&self, at: Spot, expr: &TypeExpr) -> Part
        ensures { result ≡ part_at self.now.names self.now.defs.items at (expr_of expr.now) }
    {
        match expr {
            TypeExpr::Named(name) => self.named_part(name),
            _ => Part {
                node: at.node,
                name: None,
            },
        }
    }

    /// The parts that stand for type expressions, one after the other.
    pub fn parts(&self, at: Spot, exprs: &[TypeExpr]) -> Result<Items<Part>, NoMemory>
        requires { at.node + sum_by nodes_in exprs.now ≤ NODE_LIMIT }
        ensures { IfOk result (λ parts. parts
            ≡ parts_of self.now.names self.now.defs.items at exprs.now) }
    {
        let mut parts = Items::new(self.alloc);
        let mut spot = at;
        for expr in exprs {
            parts.push(self.part(spot, expr))?;
            spot = spot.behind(count_expr(expr).nodes as usize);
        }
        Ok(parts)
    }
}
