// The order of structures.
ghost use Rattle.std.specs.Prelude.{◌≡◌};
ghost use Rattle.luo_model.specs.Order.{by_size_and_labels, by_form, by_parts, form_of, order_of};
ghost use Rattle.luo_struct.specs.Small.{IsSmall, AreSmall};
ghost use Rattle.luo_struct.specs.View.{tree_of, tree_list};

use crate::Structure;
use crate::labels::by_labels;
use std::cmp::Ordering;

// The place of a structure's form among the forms.
fn form(s: &Structure) -> u8
    ensures { result ≡ form_of (tree_of s.now) }
{
    match s {
        Structure::Atom { .. } => 0,
        Structure::Inj { .. } => 1,
        Structure::Tup { .. } => 2,
        Structure::Coll { .. } => 3,
    }
}

// Two structures by their sizes, and then by their labels.
fn size_and_labels(a: &Structure, b: &Structure) -> Ordering
    requires a_small { IsSmall (tree_of a.now) }
    requires b_small { IsSmall (tree_of b.now) }
    ensures { result ≡ by_size_and_labels (tree_of a.now) (tree_of b.now) }
{
    match a.size().cmp(&b.size()) {
        Ordering::Equal => by_labels(a, b),
        other => other,
    }
}

// Two structures by form, and then from the left.
#[cycle(orders)]
fn by_form(a: &Structure, b: &Structure) -> Ordering
    requires a_small { IsSmall (tree_of a.now) }
    requires b_small { IsSmall (tree_of b.now) }
    ensures { result ≡ by_form (tree_of a.now) (tree_of b.now) }
{
    match (a, b) {
        (
            Structure::Atom { weight, label },
            Structure::Atom {
                weight: other_weight,
                label: other_label,
            },
        ) => match weight.cmp(other_weight) {
            Ordering::Equal => label.cmp(other_label),
            other => other,
        },
        (
            Structure::Inj { branch, inner },
            Structure::Inj {
                branch: other_branch,
                inner: other_inner,
            },
        ) => match branch.cmp(other_branch) {
            Ordering::Equal => order(inner.get(), other_inner.get()),
            other => other,
        },
        (Structure::Tup { parts }, Structure::Tup { parts: others }) => {
            by_parts(parts.as_slice(), others.as_slice())
        }
        (Structure::Coll { parts }, Structure::Coll { parts: others }) => {
            by_parts(parts.as_slice(), others.as_slice())
        }
        _ => form(a).cmp(&form(b)),
    }
}

// Two lists by their first difference, where a list that ends comes before one that goes on.
#[cycle(orders)]
fn by_parts(parts: &[Structure], others: &[Structure]) -> Ordering
    requires a_small { AreSmall (tree_list parts.now) }
    requires b_small { AreSmall (tree_list others.now) }
    ensures { result ≡ by_parts (tree_list parts.now) (tree_list others.now) }
{
    for (place, part) in parts.iter().enumerate() {
        let Some(other) = others.get(place) else {
            return Ordering::Greater;
        };
        match order(part, other) {
            Ordering::Equal => {}
            unequal => return unequal,
        }
    }
    parts.len().cmp(&others.len())
}

/// The order of structures: by size, then by their labels in rising order, then by form, and from the left.
///
/// A multiset's components never rise in this order, and a powerset's fall. Neither structure may have a size of
/// `u64::MAX`, nor as many labels, which no machine holds.
#[cycle(orders)]
pub fn order(a: &Structure, b: &Structure) -> Ordering
    requires a_small { IsSmall (tree_of a.now) }
    requires b_small { IsSmall (tree_of b.now) }
    ensures { result ≡ order_of (tree_of a.now) (tree_of b.now) }
{
    match size_and_labels(a, b) {
        Ordering::Equal => by_form(a, b),
        other => other,
    }
}
