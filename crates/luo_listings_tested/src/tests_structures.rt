// All structures of a node of a size, by the definitions alone: everything of the node's form is made of smaller
// structures, and what isn't a structure of the node is left out.
ghost use Rattle.std.specs.Prelude.{◌≡◌, IsTrue};
ghost use Rattle.luo_model.specs.Structures.{IsStructure};
ghost use Rattle.luo_model.specs.View.{plain_of};
ghost use Rattle.luo_struct.specs.Small.{IsSmall};
ghost use Rattle.luo_struct.specs.View.{tree_of};

use crate::tests_labels::all_labels;
use luo_model::{Part, Program, Shape, Universe};
use luo_num::limits::LIST_SIZE_LIMIT;
use luo_num::{Boxed, Items, NoMemory};
use luo_struct::{Structure, order, whole};
use std::alloc::Global;
use std::cmp::Ordering;

/// Structures of each node of one size.
pub type Found = Vec<Vec<Structure>>;

/// Whether it is a structure of the node of size n, where that isn't above the limit of listings.
pub fn is_structure(program: &Program, node: usize, n: u32, s: &Structure) -> bool
    ensures structure { IsTrue result → IsStructure (plain_of program.now) node n (tree_of s.now) }
    ensures small { IsTrue result → IsSmall (tree_of s.now) }
{
    let _universe = program.universe;
    let size = s.size();
    if size > LIST_SIZE_LIMIT || size != u64::from(n) {
        return false;
    }
    whole(program, node, s)
}

// The order of two structures of a node of size n.
fn ordered(program: &Program, node: usize, n: u32, a: &Structure, b: &Structure) -> Ordering {
    if is_structure(program, node, n, a) && is_structure(program, node, n, b) {
        order(a, b)
    } else {
        Ordering::Equal
    }
}

/// Whether these are structures of the node of size n, and equal.
pub fn are_same(program: &Program, node: usize, n: u32, a: &Structure, b: &Structure) -> bool {
    if is_structure(program, node, n, a) && is_structure(program, node, n, b) {
        order(a, b) == Ordering::Equal
    } else {
        false
    }
}

/// The structures of a node among those of one size.
pub fn of_node(found: &[Vec<Structure>], node: usize) -> &[Structure] {
    match found.get(node) {
        Some(structures) => structures.as_slice(),
        None => &[],
    }
}

// The first parts of a structure, and the size that is left for those after them.
#[derive(Drop)]
struct Row {
    parts: Items<Structure>,
    left: usize,
}

// The row with each of these structures after it.
fn put_longer(
    alloc: Global,
    longer: &mut Vec<Row>,
    row: &Row,
    structures: &[Structure],
    left: usize,
) -> Result<(), NoMemory> {
    for s in structures {
        let mut parts = copies(alloc, row.parts.as_slice())?;
        parts.push(s.clone_in(alloc)?)?;
        longer.push(Row {
            parts: Items::from_vec(parts),
            left,
        })?;
    }
    Ok(())
}

// Structures that are equal to these.
fn copies(alloc: Global, structures: &[Structure]) -> Result<Vec<Structure>, NoMemory> {
    let mut copies = Vec::new(alloc);
    for s in structures {
        copies.push(s.clone_in(alloc)?)?;
    }
    Ok(copies)
}

// The row with each structure of the node after it that has room.
fn put_all_longer(
    alloc: Global,
    longer: &mut Vec<Row>,
    row: &Row,
    sizes: &[Found],
    node: usize,
) -> Result<(), NoMemory> {
    for (size, found) in sizes.iter().enumerate() {
        if let Some(left) = row.left.checked_sub(size) {
            put_longer(alloc, longer, row, of_node(found.as_slice(), node), left)?;
        }
    }
    Ok(())
}

// Each row with each structure of the node after it.
fn longer_rows(
    alloc: Global,
    rows: &[Row],
    sizes: &[Found],
    node: usize,
) -> Result<Vec<Row>, NoMemory> {
    let mut longer = Vec::new(alloc);
    for row in rows {
        put_all_longer(alloc, &mut longer, row, sizes, node)?;
    }
    Ok(longer)
}

// All rows of one structure of each of these nodes, whose sizes don't sum to more than n.
fn rows_of(alloc: Global, sizes: &[Found], parts: &[Part], n: usize) -> Result<Vec<Row>, NoMemory> {
    let mut rows = Vec::new(alloc);
    rows.push(Row {
        parts: Items::new(alloc),
        left: n,
    })?;
    for part in parts {
        rows = longer_rows(alloc, rows.as_slice(), sizes, part.node)?;
    }
    Ok(rows)
}

// All tuples of these factors.
fn tuples(
    alloc: Global,
    sizes: &[Found],
    factors: &[Part],
    n: usize,
) -> Result<Vec<Structure>, NoMemory> {
    let mut tuples = Vec::new(alloc);
    for row in rows_of(alloc, sizes, factors, n)? {
        let Row { parts, left } = row;
        if left == 0 {
            tuples.push(Structure::Tup { parts })?;
        }
    }
    Ok(tuples)
}

// The collections of the parts of these rows that leave nothing, put after others.
fn put_collections(
    alloc: Global,
    collections: &mut Vec<Structure>,
    rows: &[Row],
) -> Result<(), NoMemory> {
    for row in rows {
        if row.left == 0 {
            let parts = Items::from_vec(copies(alloc, row.parts.as_slice())?);
            collections.push(Structure::Coll { parts })?;
        }
    }
    Ok(())
}

// All sequences of at least `low` components, and at most `high`. Where there is no bound each component has a size, so there are no
// more components than that.
fn collections(
    alloc: Global,
    sizes: &[Found],
    part: Part,
    low: u32,
    high: Option<u32>,
    n: u32,
) -> Result<Vec<Structure>, NoMemory> {
    let mut collections = Vec::new(alloc);
    let mut rows = rows_of(alloc, sizes, &[], n as usize)?;
    for count in 0..=high.unwrap_or(n) {
        if count >= low {
            put_collections(alloc, &mut collections, rows.as_slice())?;
        }
        rows = longer_rows(alloc, rows.as_slice(), sizes, part.node)?;
    }
    Ok(collections)
}

// Structures of one branch, put after those of others.
fn put_branch(
    alloc: Global,
    branches: &mut Vec<Structure>,
    branch: u32,
    structures: &[Structure],
) -> Result<(), NoMemory> {
    for s in structures {
        let inner = Boxed::new(alloc, s.clone_in(alloc)?)?;
        branches.push(Structure::Inj { branch, inner })?;
    }
    Ok(())
}

// All structures of branches.
fn branches(
    alloc: Global,
    found: &[Vec<Structure>],
    parts: &[Part],
) -> Result<Vec<Structure>, NoMemory> {
    let mut branches = Vec::new(alloc);
    let mut branch: u32 = 0;
    for part in parts {
        branch = branch.saturating_add(1);
        put_branch(alloc, &mut branches, branch, of_node(found, part.node))?;
    }
    Ok(branches)
}

// Everything of this form that is made of structures of the sizes up to n, without labels. The components of a collection stand in
// any order.
fn forms(
    alloc: Global,
    sizes: &[Found],
    shape: &Shape,
    n: u32,
) -> Result<Vec<Structure>, NoMemory> {
    match shape {
        Shape::Atom { weight } => {
            let mut atoms = Vec::new(alloc);
            atoms.push(Structure::Atom {
                weight: *weight,
                label: 0,
            })?;
            Ok(atoms)
        }
        Shape::Union { parts } => match sizes.get(n as usize) {
            Some(found) => branches(alloc, found.as_slice(), parts.as_slice()),
            None => Ok(Vec::new(alloc)),
        },
        Shape::Product { parts } => tuples(alloc, sizes, parts.as_slice(), n as usize),
        Shape::Coll {
            part,
            low,
            high,
            ..
        } => collections(alloc, sizes, *part, *low, *high, n),
    }
}

// Those of size n: in the unlabelled universe the structures of the node, and in the labelled one what they are without labels.
fn kept(
    alloc: Global,
    program: &Program,
    node: usize,
    n: u32,
    forms: Vec<Structure>,
) -> Result<Vec<Structure>, NoMemory> {
    let mut kept = Vec::new(alloc);
    for s in forms {
        let fits = match program.universe {
            Universe::Unlabelled => is_structure(program, node, n, &s),
            Universe::Labelled => s.size() == u64::from(n),
        };
        if fits {
            kept.push(s)?;
        }
    }
    Ok(kept)
}

// The forms of size n of each node that is wanted, made of those that were found.
fn round(
    alloc: Global,
    program: &Program,
    sizes: &[Found],
    n: u32,
    wanted: &[bool],
) -> Result<Found, NoMemory> {
    let mut found = Vec::new(alloc);
    for (node, there) in program.nodes.as_slice().iter().enumerate() {
        if wanted.get(node) == Some(&true) {
            let forms = forms(alloc, sizes, &there.shape, n)?;
            found.push(kept(alloc, program, node, n, forms)?)?;
        } else {
            found.push(Vec::new(alloc))?;
        }
    }
    Ok(found)
}

// How many structures there are of all nodes.
fn how_many(found: &[Vec<Structure>]) -> usize {
    let mut many: usize = 0;
    for structures in found {
        many = many.saturating_add(structures.len());
    }
    many
}

// Puts what a round finds in the place of what was found of size n. The answer is how much it is.
fn put_round(
    alloc: Global,
    program: &Program,
    sizes: &mut Vec<Found>,
    n: u32,
    wanted: &[bool],
) -> Result<usize, NoMemory> {
    let found = round(alloc, program, sizes.as_slice(), n, wanted)?;
    let many = how_many(found.as_slice());
    sizes.pop();
    sizes.push(found)?;
    Ok(many)
}

/// Puts what there is of size n after what there is of the smaller sizes: again and again, since it may be made of what is of its own size,
/// until there is no more. In a well-founded program no chain of that is longer than there are nodes.
pub fn put_size(
    alloc: Global,
    program: &Program,
    sizes: &mut Vec<Found>,
    n: u32,
    wanted: &[bool],
) -> Result<(), NoMemory> {
    sizes.push(Vec::new(alloc))?;
    let mut many = 0;
    for _ in program.nodes.as_slice() {
        let more = put_round(alloc, program, sizes, n, wanted)?;
        if more == many {
            return Ok(());
        }
        many = more;
    }
    Ok(())
}

/// The structures of a node of size n, in order, of what `put_size` found.
pub fn listing(
    alloc: Global,
    program: &Program,
    node: usize,
    n: u32,
    found: &[Vec<Structure>],
) -> Result<Vec<Structure>, NoMemory> {
    let forms = of_node(found, node);
    let mut structures = match program.universe {
        Universe::Unlabelled => copies(alloc, forms)?,
        Universe::Labelled => all_labels(alloc, program, node, n, forms)?,
    };
    structures.sort_by(|a, b| ordered(program, node, n, a, b))?;
    Ok(structures)
}
