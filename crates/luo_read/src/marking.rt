// Which labels a structure carries, by marks.
ghost use Rattle.std.specs.Prelude.{◌≡◌, ◌↔◌, IsTrue, IfOk};
ghost use Rattle.luo_model.specs.Tree.{labels_of, all_labels_of};
ghost use Rattle.luo_struct.specs.View.{tree_of, tree_list};
ghost use Rattle.luo_read.specs.inner.Marks.{mark, mark_all, AllMarked, HasTo};

use luo_num::NoMemory;
use luo_struct::Structure;
use std::alloc::Global;

// Marks a label, where it is one of those that have marks.
fn mark(marks: &mut [bool], label: u32)
    ensures { marks.new ≡ mark marks.old label }
{
    if label == 0 {
        return;
    }
    let place = label as usize - 1;
    if marks.len() <= place {
        return;
    }
    marks[place] = true;
}

// Marks the labels of a structure.
#[cycle(marks)]
fn mark_labels(marks: &mut [bool], s: &Structure)
    ensures { marks.new ≡ mark_all marks.old (labels_of (tree_of s.now)) }
{
    match s {
        Structure::Atom { label, .. } => mark(marks, *label),
        Structure::Inj { inner, .. } => mark_labels(marks, inner.get()),
        Structure::Tup { parts } => mark_parts(marks, parts.as_slice()),
        Structure::Coll { parts } => mark_parts(marks, parts.as_slice()),
    }
}

// Marks the labels of the parts.
#[cycle(marks)]
fn mark_parts(marks: &mut [bool], parts: &[Structure])
    ensures { marks.new ≡ mark_all marks.old (all_labels_of (tree_list parts.now)) }
{
    for part in parts {
        mark_labels(marks, part);
    }
}

// Whether each is marked.
fn are_marked(marks: &[bool]) -> bool
    ensures { IsTrue result ↔ AllMarked marks.now }
{
    for marked in marks {
        if !*marked {
            return false;
        }
    }
    true
}

/// Whether each number from 1 to `count` is a label of the structure.
pub(crate) fn has_each_label(alloc: Global, s: &Structure, count: usize) -> Result<bool, NoMemory>
    ensures { IfOk result (λ has. IsTrue has ↔ HasTo (tree_of s.now) count) }
{
    let mut marks = Vec::new(alloc);
    marks.resize(count, false)?;
    mark_labels(&mut marks, s);
    Ok(are_marked(&marks))
}
