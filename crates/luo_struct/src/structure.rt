// Structures as trees.
ghost use Rattle.std.specs.Prelude.{◌≡◌, ◌≤◌, ◌<◌, ◌^◌, ◌-◌, min, length, map, IfOk};
ghost use Rattle.luo_model.specs.Tree.{size_of, sizes_of};
ghost use Rattle.luo_struct.specs.View.{tree_of, tree_list};

use luo_num::{Boxed, Items, NoMemory};
use std::alloc::Global;

/// A structure. A label of 0 means no label, and branches count from 1.
#[derive(Debug, Drop)]
pub enum Structure {
    /// An atom.
    Atom {
        weight: u32,
        label: u32,
    },
    /// A structure of a branch of a union.
    Inj {
        branch: u32,
        inner: Boxed<Structure>,
    },
    /// The parts of a product.
    Tup {
        parts: Items<Structure>,
    },
    /// The components of a collection.
    Coll {
        parts: Items<Structure>,
    },
}

impl Structure {
    /// The sum of the weights, or `u64::MAX` where that is larger.
    #[cycle(sizes)]
    pub fn size(&self) -> u64
        ensures { result ≡ min (size_of (tree_of self.now)) (2 ^ 64 - 1) }
    {
        match self {
            Structure::Atom { weight, .. } => *weight as u64,
            Structure::Inj { inner, .. } => inner.get().size(),
            Structure::Tup { parts } => sum_of_sizes(parts.as_slice()),
            Structure::Coll { parts } => sum_of_sizes(parts.as_slice()),
        }
    }

    /// A structure that is equal to this one.
    #[cycle(copies)]
    pub fn clone_in(&self, alloc: Global) -> Result<Structure, NoMemory>
        ensures { IfOk result (λ copy. copy ≡ self.now) }
    {
        match self {
            Structure::Atom { weight, label } => Ok(Structure::Atom {
                weight: *weight,
                label: *label,
            }),
            Structure::Inj { branch, inner } => {
                let inner = Boxed::new(alloc, inner.get().clone_in(alloc)?)?;
                Ok(Structure::Inj {
                    branch: *branch,
                    inner,
                })
            }
            Structure::Tup { parts } => {
                let parts = copies(alloc, parts.as_slice())?;
                Ok(Structure::Tup { parts })
            }
            Structure::Coll { parts } => {
                let parts = copies(alloc, parts.as_slice())?;
                Ok(Structure::Coll { parts })
            }
        }
    }
}

// The sum of the sizes, or `u64::MAX` where that is larger.
#[cycle(sizes)]
fn sum_of_sizes(parts: &[Structure]) -> u64
    ensures { result ≡ min (sizes_of (tree_list parts.now)) (2 ^ 64 - 1) }
{
    let mut sum: u64 = 0;
    for part in parts {
        sum = sum.saturating_add(part.size());
    }
    sum
}

// Structures that are equal to these.
#[cycle(copies)]
fn copies(alloc: Global, parts: &[Structure]) -> Result<Items<Structure>, NoMemory>
    ensures { IfOk result (λ copies. copies ≡ parts.now) }
{
    let mut copies = Items::new(alloc);
    for part in parts {
        copies.push(part.clone_in(alloc)?)?;
    }
    Ok(copies)
}
