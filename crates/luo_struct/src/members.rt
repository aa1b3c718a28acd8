// Which structures belong to a node.
ghost use Rattle.std.specs.Prelude.{◌≡◌, ◌↔◌, ◌^◌, ◌-◌, ◌<◌, IsTrue};
ghost use Rattle.luo_model.specs.declared.program.Shape.TheVariants as shape;
ghost use Rattle.luo_model.specs.Tree.{size_of, sizes_of, Inj, Coll, to_list, least_label};
ghost use Rattle.luo_model.specs.Member.{IsLabel, IsWithin, ComponentsStand, Fits, FitAll, FitEach, Member};
ghost use Rattle.luo_model.specs.Standing.{IsLed};
ghost use Rattle.luo_model.specs.View.{plain_of};
ghost use Rattle.luo_struct.specs.Small.{IsSmall, AreSmall};
ghost use Rattle.luo_struct.specs.View.{tree_of, tree_list};
ghost use Rattle.luo_struct.specs.inner.Neighbours.{StandBeside, EachStandsBeside};

use crate::labels::next_label;
use crate::{Structure, order};
use luo_model::{Kind, Part, Program, Shape, Universe};
use std::cmp::Ordering;

// Whether an atom of this weight may have this label.
fn is_label(universe: Universe, weight: u32, label: u32) -> bool
    ensures { IsTrue result ↔ IsLabel universe weight label }
{
    match universe {
        Universe::Unlabelled => label == 0,
        Universe::Labelled => { if weight == 1 { label > 0 } else { label == 0 } }
    }
}

// Whether so many components are within the bounds.
fn is_within(low: u32, high: Option<u32>, count: usize) -> bool
    ensures { IsTrue result ↔ IsWithin low high count }
{
    low as usize <= count
        && match high {
            Some(most) => count <= most as usize,
            None => true,
        }
}

// The least label, or 0 where there is none.
fn least_label(s: &Structure) -> u32
    ensures { result ≡ least_label (tree_of s.now) }
{
    next_label(s, 0)
}

// Whether two neighbours stand as the kind wants them; a cycle's are looked at by themselves.
fn stand_beside(kind: Kind, first: &Structure, second: &Structure) -> bool
    requires first_small { IsSmall (tree_of first.now) }
    requires second_small { IsSmall (tree_of second.now) }
    ensures { IsTrue result ↔ StandBeside kind (tree_of first.now) (tree_of second.now) }
{
    match kind {
        Kind::Sequence | Kind::Cycle => true,
        Kind::Set => least_label(first) < least_label(second),
        Kind::Multiset => order(first, second) != Ordering::Less,
        Kind::Powerset => order(second, first) == Ordering::Less,
    }
}

// Whether all neighbours stand as the kind wants them.
fn neighbours_stand(kind: Kind, parts: &[Structure]) -> bool
    requires small { AreSmall (tree_list parts.now) }
    ensures { IsTrue result ↔ EachStandsBeside kind (tree_list parts.now) }
{
    for (place, first) in parts.iter().enumerate() {
        if let Some(second) = parts.get(place + 1)
            && !stand_beside(kind, first, second)
        {
            return false;
        }
    }
    true
}

// Whether the least label of the first component isn't above that of any other.
fn is_led(parts: &[Structure]) -> bool
    ensures { IsTrue result ↔ IsLed least_label (to_list (tree_list parts.now)) }
{
    let [first, rest @ ..] = parts else {
        return true;
    };
    let least = least_label(first);
    for part in rest {
        if least_label(part) < least {
            return false;
        }
    }
    true
}

// Whether the components stand as the kind wants them.
fn components_stand(kind: Kind, parts: &[Structure]) -> bool
    requires small { AreSmall (tree_list parts.now) }
    ensures { IsTrue result ↔ ComponentsStand kind (to_list (tree_list parts.now)) }
{
    match kind {
        Kind::Cycle => is_led(parts),
        _ => neighbours_stand(kind, parts),
    }
}

// Whether this is a structure of a branch of a union.
#[cycle(members)]
fn is_branch(program: &Program, parts: &[Part], branch: u32, inner: &Structure) -> bool
    requires small { size_of (tree_of inner.now) < 2 ^ 64 - 1 }
    ensures { IsTrue result
        ↔ Fits (plain_of program.now) (shape.Union parts.now) (Inj branch (tree_of inner.now)) }
{
    let Some(place) = branch.checked_sub(1) else {
        return false;
    };
    match parts.get(place as usize) {
        Some(part) => member(program, part.node, inner),
        None => false,
    }
}

// Whether there are as many parts as factors, and each belongs to its factor.
#[cycle(members)]
fn are_factors(program: &Program, factors: &[Part], parts: &[Structure]) -> bool
    requires small { sizes_of (tree_list parts.now) < 2 ^ 64 - 1 }
    ensures { IsTrue result ↔ FitAll (plain_of program.now) factors.now (tree_list parts.now) }
{
    if factors.len() != parts.len() {
        return false;
    }
    for (place, part) in parts.iter().enumerate() {
        if !member(program, factors[place].node, part) {
            return false;
        }
    }
    true
}

// Whether each component belongs to the part.
#[cycle(members)]
fn are_components(program: &Program, component: Part, parts: &[Structure]) -> bool
    requires small { sizes_of (tree_list parts.now) < 2 ^ 64 - 1 }
    ensures { IsTrue result ↔ FitEach (plain_of program.now) component (tree_list parts.now) }
{
    for part in parts {
        if !member(program, component.node, part) {
            return false;
        }
    }
    true
}

// Whether these are the components of a collection.
#[cycle(members)]
fn is_collection(
    program: &Program,
    kind: Kind,
    component: Part,
    low: u32,
    high: Option<u32>,
    parts: &[Structure],
) -> bool
    requires small { sizes_of (tree_list parts.now) < 2 ^ 64 - 1 }
    ensures { IsTrue result
        ↔ Fits (plain_of program.now) (shape.Coll kind component low high)
        (Coll (tree_list parts.now)) }
{
    if !is_within(low, high, parts.len()) {
        return false;
    }
    if !are_components(program, component, parts) {
        return false;
    }
    components_stand(kind, parts)
}

// Whether a structure has this construct.
#[cycle(members)]
fn has_shape(program: &Program, construct: &Shape, s: &Structure) -> bool
    requires small { size_of (tree_of s.now) < 2 ^ 64 - 1 }
    ensures { IsTrue result ↔ Fits (plain_of program.now) construct.now (tree_of s.now) }
{
    match (construct, s) {
        (Shape::Atom { weight }, Structure::Atom { weight: own, label }) => {
            own == weight && is_label(program.universe, *own, *label)
        }
        (Shape::Union { parts }, Structure::Inj { branch, inner }) => {
            is_branch(program, parts.as_slice(), *branch, inner.get())
        }
        (Shape::Product { parts: factors }, Structure::Tup { parts }) => {
            are_factors(program, factors.as_slice(), parts.as_slice())
        }
        (
            Shape::Coll {
                kind,
                part,
                low,
                high,
            },
            Structure::Coll { parts },
        ) => { is_collection(program, *kind, *part, *low, *high, parts.as_slice()) }
        _ => false,
    }
}

/// Whether the structure belongs to the node: whether it has the node's construct, and so have its parts. The labels
/// of different atoms may be equal. Its size must be below `u64::MAX`. Nothing belongs to a node that isn't there.
#[cycle(members)]
pub fn member(program: &Program, node: usize, s: &Structure) -> bool
    requires small { size_of (tree_of s.now) < 2 ^ 64 - 1 }
    ensures { IsTrue result ↔ Member (plain_of program.now) node (tree_of s.now) }
{
    match program.nodes.get(node) {
        Some(there) => has_shape(program, &there.shape, s),
        None => false,
    }
}
