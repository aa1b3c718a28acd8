// Which structures of a node carry its labels.
ghost use Rattle.std.specs.Prelude.{◌≡◌, ◌↔◌, ◌^◌, ◌-◌, ◌+◌, ◌<◌, ℕ, IsTrue};
ghost use Rattle.luo_finite.specs.Listing.{In};
ghost use Rattle.luo_model.specs.Tree.{size_of, labels_of};
ghost use Rattle.luo_model.specs.Structures.{IsStructure};
ghost use Rattle.luo_model.specs.View.{plain_of};
ghost use Rattle.luo_struct.specs.View.{tree_of};

use crate::labels::next_label;
use crate::{Structure, member};
use luo_model::{Program, Universe};

// Whether each number from 1 to `count` is a label.
fn has_labels(s: &Structure, count: u64) -> bool
    ensures { IsTrue result ↔ ((k : ℕ) → k < count → In (k + 1) (labels_of (tree_of s.now))) }
{
    let mut past = 0;
    while u64::from(past) < count {
        let next = next_label(s, past);
        if next == 0 {
            return false;
        }
        if next - 1 != past {
            return false;
        }
        past = next;
    }
    true
}

/// Whether the structure is one of the node: whether it belongs to the node and, in the labelled universe, its labels
/// are 1 to its size, each once. In the unlabelled universe no structure of a node has a label. Its size must be below
/// `u64::MAX`.
pub fn whole(program: &Program, node: usize, s: &Structure) -> bool
    requires small { size_of (tree_of s.now) < 2 ^ 64 - 1 }
    ensures { IsTrue result
        ↔ IsStructure (plain_of program.now) node (size_of (tree_of s.now)) (tree_of s.now) }
{
    if !member(program, node, s) {
        return false;
    }
    match program.universe {
        Universe::Unlabelled => true,
        Universe::Labelled => has_labels(s, s.size()),
    }
}
