// All choices of labels, on the atoms of structures that have none.

use crate::tests_structures::is_structure;
use luo_model::Program;
use luo_num::{Boxed, Items, NoMemory};
use luo_struct::Structure;
use std::alloc::Global;
use std::slice::Iter;

// The numbers with one more at this place.
fn inserted(
    alloc: Global,
    numbers: &[u32],
    place: usize,
    number: u32,
) -> Result<Items<u32>, NoMemory> {
    let mut longer = Items::new(alloc);
    for (at, old) in numbers.iter().enumerate() {
        if at == place {
            longer.push(number)?;
        }
        longer.push(*old)?;
    }
    if place >= numbers.len() {
        longer.push(number)?;
    }
    Ok(longer)
}

// The numbers with one more at each place, put after others.
fn put_inserted(
    alloc: Global,
    lists: &mut Vec<Items<u32>>,
    numbers: &[u32],
    number: u32,
) -> Result<(), NoMemory> {
    for place in 0..=numbers.len() {
        lists.push(inserted(alloc, numbers, place, number)?)?;
    }
    Ok(())
}

// Each list with one more number, at each place.
fn longer_lists(
    alloc: Global,
    lists: &[Items<u32>],
    number: u32,
) -> Result<Vec<Items<u32>>, NoMemory> {
    let mut longer = Vec::new(alloc);
    for numbers in lists {
        put_inserted(alloc, &mut longer, numbers.as_slice(), number)?;
    }
    Ok(longer)
}

// The numbers from 1 to n in each order.
fn permutations(alloc: Global, n: u32) -> Result<Vec<Items<u32>>, NoMemory> {
    let mut lists = Vec::new(alloc);
    lists.push(Items::new(alloc))?;
    for number in 1..=n {
        lists = longer_lists(alloc, lists.as_slice(), number)?;
    }
    Ok(lists)
}

// An atom, with the next label where atoms of this weight have one.
fn labelled_atom(weight: u32, labels: &mut Iter<'_, u32>) -> Structure {
    let label = if weight == 1 {
        labels.next().copied().unwrap_or(0)
    } else {
        0
    };
    Structure::Atom { weight, label }
}

// The structure with these labels on its atoms of weight 1, from the left.
#[cycle(labellings)]
fn labelled(
    alloc: Global,
    s: &Structure,
    labels: &mut Iter<'_, u32>,
) -> Result<Structure, NoMemory> {
    match s {
        Structure::Atom { weight, .. } => Ok(labelled_atom(*weight, labels)),
        Structure::Inj { branch, inner } => {
            let inner = Boxed::new(alloc, labelled(alloc, inner.get(), labels)?)?;
            Ok(Structure::Inj {
                branch: *branch,
                inner,
            })
        }
        Structure::Tup { parts } => {
            let parts = all_labelled(alloc, parts.as_slice(), labels)?;
            Ok(Structure::Tup { parts })
        }
        Structure::Coll { parts } => {
            let parts = all_labelled(alloc, parts.as_slice(), labels)?;
            Ok(Structure::Coll { parts })
        }
    }
}

// Structures with these labels on their atoms of weight 1, from the left.
#[cycle(labellings)]
fn all_labelled(
    alloc: Global,
    parts: &[Structure],
    labels: &mut Iter<'_, u32>,
) -> Result<Items<Structure>, NoMemory> {
    let mut all = Items::new(alloc);
    for part in parts {
        all.push(labelled(alloc, part, labels)?)?;
    }
    Ok(all)
}

// The structures of the node that have one of these forms and these labels, put after others.
fn put_labelled(
    alloc: Global,
    structures: &mut Vec<Structure>,
    program: &Program,
    node: usize,
    n: u32,
    forms: &[Structure],
    labels: &[u32],
) -> Result<(), NoMemory> {
    for form in forms {
        let s = labelled(alloc, form, &mut labels.iter())?;
        if is_structure(program, node, n, &s) {
            structures.push(s)?;
        }
    }
    Ok(())
}

/// The structures of the node that have one of these forms, with all choices of labels.
pub fn all_labels(
    alloc: Global,
    program: &Program,
    node: usize,
    n: u32,
    forms: &[Structure],
) -> Result<Vec<Structure>, NoMemory> {
    let mut structures = Vec::new(alloc);
    if forms.is_empty() {
        return Ok(structures);
    }
    for labels in &permutations(alloc, n)? {
        put_labelled(
            alloc,
            &mut structures,
            program,
            node,
            n,
            forms,
            labels.as_slice(),
        )?;
    }
    Ok(structures)
}
