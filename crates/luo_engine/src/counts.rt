// The counts of all nodes of one size.
ghost use Rattle.std.specs.Prelude.{◌≡◌, ◌<◌, ◌≤◌, ◌+◌, ℕ, List, length, sum_by, slice_index, IfSome, IsNone};
ghost use Rattle.luo_finite.specs.Listing.{In};
ghost use Rattle.luo_num.specs.Mark.{capped};
ghost use Rattle.luo_model.specs.declared.program.Part.{Part};
ghost use Rattle.luo_model.specs.View.{plain_of};
ghost use Rattle.luo_engine.specs.inner.Grid.{entry_of, Reaches, SameShape, SameOthers};
ghost use Rattle.luo_engine.specs.inner.Partial.{AreOpenBefore};
ghost use Rattle.luo_recipes.specs.Obeys.{atom_count};
ghost use Rattle.luo_engine.specs.inner.Collections.{AreCollections};
ghost use Rattle.luo_engine.specs.inner.Filled.{AreCounted, AreKept, CountsTo, IsFirstPast};

use crate::collecting::collection_at;
use crate::collections::Collection;
use crate::partial::product_at;
use crate::plan::Plan;
use crate::table::Table;
use luo_model::{Part, Shape};
use luo_num::{MAX, marked_add};

/// The sum of the parts' entries at size n.
fn sum_at(counts: &Table, parts: &[Part], n: usize) -> u128
    requires reach { Reaches n counts.now }
    requires there { (part : Part) → In part parts.now → part.node < length counts.now }
    ensures { result ≡ capped (sum_by (λ part. entry_of counts.now part.node n) parts.now) }
{
    let mut sum = 0;
    for part in parts {
        sum = marked_add(sum, counts.entry(part.node, n));
    }
    sum
}

/// The count of an atom.
fn atom_at(weight: u32, n: usize) -> u128
    ensures { result ≡ atom_count weight n }
{
    if n == weight as usize { 1 } else { 0 }
}

/// The count of the node at place k of the order at size n, from the entries that come before it.
fn count_at(
    plan: &Plan,
    counts: &Table,
    collections: &mut Vec<Option<Collection>>,
    partials: &Table,
    k: usize,
    n: usize,
) -> u128
    requires place { k < length plan.now.order }
    requires reached { n ≤ plan.now.reach }
    requires counted { AreCounted (plain_of plan.now.program) plan.now.order counts.now n k }
    requires collections { AreCollections (plain_of plan.now.program) plan.now.reach plan.now.order
        collections.old.items n k }
    requires open_rows { AreOpenBefore plan.now.program.universe counts.now plan.now.factors
        partials.now n (length plan.now.factors) }
    ensures number { CountsTo (plain_of plan.now.program) (slice_index plan.now.order k) n result }
    ensures collections { result ≤ MAX → AreCollections (plain_of plan.now.program) plan.now.reach
        plan.now.order collections.new.items n (k + 1) }
{
    let x = plan.node_at(k);
    match plan.shape(x) {
        Shape::Atom { weight } => atom_at(*weight, n),
        Shape::Union { parts } => sum_at(counts, parts.as_slice(), n),
        Shape::Product { parts } => {
            product_at(
                plan.universe(),
                counts,
                plan.factors(),
                partials,
                plan.start(x),
                parts.len(),
                n,
            )
        }
        Shape::Coll { .. } => collection_at(plan, counts, collections, k, n),
    }
}

/// Fills in the counts of size n, in order, up to the first that overflows, which is answered.
pub fn fill_counts(
    plan: &Plan,
    counts: &mut Table,
    collections: &mut Vec<Option<Collection>>,
    partials: &Table,
    n: usize,
) -> Option<usize>
    requires reached { n ≤ plan.now.reach }
    requires counted { AreCounted (plain_of plan.now.program) plan.now.order counts.old n 0 }
    requires collections { AreCollections (plain_of plan.now.program) plan.now.reach plan.now.order
        collections.old.items n 0 }
    requires open_rows { AreOpenBefore plan.now.program.universe counts.old plan.now.factors
        partials.now n (length plan.now.factors) }
    ensures counted { IsNone result → AreCounted (plain_of plan.now.program) plan.now.order
        counts.new n (length plan.now.order) }
    ensures collections { IsNone result → AreCollections (plain_of plan.now.program) plan.now.reach
        plan.now.order collections.new.items n (length plan.now.order) }
    ensures open_rows { AreOpenBefore plan.now.program.universe counts.new plan.now.factors
        partials.now n (length plan.now.factors) }
    ensures kept { AreKept (plain_of plan.now.program) counts.new n }
    ensures shape { SameShape counts.old counts.new }
    ensures others { SameOthers n counts.old counts.new }
    ensures past { IfSome result (IsFirstPast (plain_of plan.now.program) plan.now.ranks n) }
{
    for k in 0..plan.width() {
        let value = count_at(plan, counts, collections, partials, k, n);
        let x = plan.node_at(k);
        if value > MAX {
            return Some(x);
        }
        counts.set(x, n, value);
    }
    None
}
