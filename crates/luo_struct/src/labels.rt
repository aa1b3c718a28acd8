// The labels of structures, by passes over them that take no memory.
ghost use Rattle.std.specs.Prelude.{◌≡◌, ◌^◌, ◌-◌, ◌<◌, min, length};
ghost use Rattle.std.specs.Cmp.Lexicographic.{slice_cmp};
ghost use Rattle.std.specs.Ordering.{nat_cmp};
ghost use Rattle.luo_model.specs.Tree.{labels_of, all_labels_of};
ghost use Rattle.luo_model.specs.Order.{sorted};
ghost use Rattle.luo_struct.specs.View.{tree_of, tree_list};
ghost use Rattle.luo_struct.specs.inner.Passes.{lesser, next_above, copies_of};

use crate::Structure;
use std::cmp::Ordering;

// The lesser of two labels, where 0 is none.
fn lesser(a: u32, b: u32) -> u32
    ensures { result ≡ lesser a b }
{
    if a == 0 {
        b
    } else if b == 0 {
        a
    } else {
        a.min(b)
    }
}

// The least label above `past`, or 0 where there is none.
#[cycle(next)]
pub(crate) fn next_label(s: &Structure, past: u32) -> u32
    ensures { result ≡ next_above past (labels_of (tree_of s.now)) }
{
    match s {
        Structure::Atom { label, .. } => { if *label > past { *label } else { 0 } }
        Structure::Inj { inner, .. } => next_label(inner.get(), past),
        Structure::Tup { parts } => next_of_all(parts.as_slice(), past),
        Structure::Coll { parts } => next_of_all(parts.as_slice(), past),
    }
}

// The least label above `past` of some structures, or 0 where there is none.
#[cycle(next)]
fn next_of_all(parts: &[Structure], past: u32) -> u32
    ensures { result ≡ next_above past (all_labels_of (tree_list parts.now)) }
{
    let mut least = 0;
    for part in parts {
        least = lesser(least, next_label(part, past));
    }
    least
}

// How often a label stands, or `u64::MAX` where that is more often.
#[cycle(copies)]
fn copies_of(s: &Structure, label: u32) -> u64
    requires { 0 < label }
    ensures { result ≡ min (copies_of label (labels_of (tree_of s.now))) (2 ^ 64 - 1) }
{
    match s {
        Structure::Atom { label: own, .. } => u64::from(*own == label),
        Structure::Inj { inner, .. } => copies_of(inner.get(), label),
        Structure::Tup { parts } => copies_of_all(parts.as_slice(), label),
        Structure::Coll { parts } => copies_of_all(parts.as_slice(), label),
    }
}

// How often a label stands in some structures, or `u64::MAX` where that is more often.
#[cycle(copies)]
fn copies_of_all(parts: &[Structure], label: u32) -> u64
    requires { 0 < label }
    ensures { result ≡ min (copies_of label (all_labels_of (tree_list parts.now))) (2 ^ 64 - 1) }
{
    let mut copies: u64 = 0;
    for part in parts {
        copies = copies.saturating_add(copies_of(part, label));
    }
    copies
}

// Two structures by their labels in rising order.
pub(crate) fn by_labels(a: &Structure, b: &Structure) -> Ordering
    requires a_few { length (labels_of (tree_of a.now)) < 2 ^ 64 - 1 }
    requires b_few { length (labels_of (tree_of b.now)) < 2 ^ 64 - 1 }
    ensures { result ≡ slice_cmp nat_cmp (sorted (labels_of (tree_of a.now)))
        (sorted (labels_of (tree_of b.now))) }
{
    let mut past = 0;
    loop {
        let label = next_label(a, past);
        let other = next_label(b, past);
        if label != other || label == 0 {
            return label.cmp(&other);
        }
        let copies = copies_of(a, label);
        let others = copies_of(b, label);
        if copies < others {
            return next_label(a, label).cmp(&label);
        }
        if others < copies {
            return label.cmp(&next_label(b, label));
        }
        past = label;
    }
}
