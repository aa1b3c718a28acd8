// What the names of a program stand for, and the variables of a scope.
ghost use Rattle.std.specs.Prelude.{◌≡◌, [], IfSome, IfNone, slice_index_or};
ghost use Rattle.luo_model.specs.declared.program.Shape.TheVariants.{Union};
ghost use Rattle.luo_rules.specs.Settings.{meant, def_node, node_meant, type_node, part_meant, no_signature, signature_meant, shape_at};

use crate::names::{Meaning, Names};
use luo_model::{Def, Node, Part, Shape, Universe};
use luo_num::{Items, Text};
use luo_source::Name;

/// The parameter's type of a procedure, as its node, and its result's, where it has a result.
/// `None` stands for the node where the name is none of a type.
#[derive(Clone, Copy, Debug, PartialEq, Eq)]
pub struct Signature {
    pub on: Option<usize>,
    pub result: Option<Option<usize>>,
}

/// The typing environment of bodies: the types of a program with their nodes, its names, and the
/// signatures of its procedures.
#[derive(Drop)]
pub struct Setting {
    pub universe: Universe,
    pub names: Names,
    pub defs: Items<Def>,
    pub nodes: Items<Node>,
    pub signatures: Items<Signature>,
}

/// A variable of a scope, and the part that stands there: the node of its structure, with the name of a type where one is written.
#[derive(Debug, Drop)]
pub struct Variable {
    pub name: Text,
    pub part: Part,
}

impl Setting {
    /// What a name means, if anything.
    pub fn meant(&self, name: &Name) -> Option<Meaning>
        ensures { result ≡ meant self.now name.now }
    {
        self.names.meaning(name.text.as_slice())
    }

    // The node of this definition, and 0 where there is no such definition.
    fn def_node(&self, definition: usize) -> usize
        ensures { result ≡ def_node self.now definition }
    {
        match self.defs.get(definition) {
            Some(def) => def.whole.node,
            None => 0,
        }
    }

    /// The node of a type, by the meaning of its name. `None` where that is none of a type.
    pub fn node_meant(&self, meaning: Option<Meaning>) -> Option<usize>
        ensures { result ≡ node_meant self.now meaning }
    {
        match meaning {
            Some(Meaning::Definition(definition)) => Some(self.def_node(definition)),
            _ => None,
        }
    }

    /// The node of the type of this name.
    pub fn type_node(&self, name: &Name) -> Option<usize>
        ensures { result ≡ type_node self.now name.now }
    {
        self.node_meant(self.meant(name))
    }

    /// The part that stands for a type, by the meaning of its name.
    pub fn part_meant(&self, meaning: Option<Meaning>) -> Part
        ensures { result ≡ part_meant self.now meaning }
    {
        match meaning {
            Some(Meaning::Definition(definition)) => Part {
                node: self.def_node(definition),
                name: Some(definition),
            },
            _ => Part {
                node: 0,
                name: None,
            },
        }
    }

    // The signature of this procedure, which says nothing where there is no such procedure.
    fn signature(&self, procedure: usize) -> Signature
        ensures { result ≡ slice_index_or self.now.signatures procedure no_signature }
    {
        match self.signatures.get(procedure) {
            Some(there) => *there,
            None => Signature {
                on: None,
                result: None,
            },
        }
    }

    /// The signature of a procedure, by the meaning of its name. It says nothing where that is none of a procedure.
    pub fn signature_meant(&self, meaning: Option<Meaning>) -> Signature
        ensures { result ≡ signature_meant self.now meaning }
    {
        match meaning {
            Some(Meaning::Procedure(procedure)) => self.signature(procedure),
            _ => Signature {
                on: None,
                result: None,
            },
        }
    }

    /// The construct of a node, where there is such a node.
    pub fn shape(&self, node: usize) -> Option<&Shape>
        ensures some { IfSome result (λ shape. shape_at self.now node ≡ shape.now) }
        ensures none { IfNone result (shape_at self.now node ≡ Union []) }
    {
        match self.nodes.get(node) {
            Some(there) => Some(&there.shape),
            None => None,
        }
    }
}
