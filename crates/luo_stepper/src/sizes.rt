// The sizes and branches that have a structure.
ghost use Rattle.std.specs.Prelude.{◌≡◌, ◌+◌, ◌<◌, ◌≤◌, ◌↔◌, length, suc, IsTrue};
ghost use Rattle.luo_model.specs.Program.{shape_of};
ghost use Rattle.luo_model.specs.View.{plain_of};
ghost use Rattle.luo_places.specs.Tails.{IsSpread, first_node};
ghost use Rattle.luo_rank.specs.inner.Lookup.{IsLooked, tail_at, IsLeft, Stands, part_entry, AreThere};
ghost use Rattle.luo_stepper.specs.inner.Stepping.{IsFirstFrom, Fills};

use luo_model::Part;
use luo_rank::tables::Tables;

// The first branch from a start on that has a structure of size n, or the number of branches.
pub fn branch_from(tables: &Tables<'_>, parts: &[Part], n: usize, start: usize) -> usize
    requires there { AreThere parts.now (length tables.now.program.nodes) }
    requires size { n ≤ tables.now.last }
    requires start { start ≤ length parts.now }
    ensures { IsFirstFrom (λ i. 1 ≤ part_entry tables.now.counts parts.now n i) start
        (length parts.now) result }
{
    let mut branch = start;
    while branch < parts.len() && tables.entry(parts[branch].node, n) == 0 {
        branch += 1;
    }
    branch
}

// Whether the first of what is left can have size k, and the rest what this leaves of n.
fn fills(tables: &Tables<'_>, x: usize, f: usize, n: usize, node: usize, k: usize) -> bool
    requires tables { IsLooked tables.now }
    requires node { x < length tables.now.program.nodes }
    requires first { node ≡ first_node (tail_at (plain_of tables.now.program) x f) }
    requires there { node < length tables.now.program.nodes }
    requires stands { Stands (shape_of (plain_of tables.now.program) x) tables.now.last f n }
    requires left { IsLeft (tail_at (plain_of tables.now.program) x f) n }
    requires spread { IsSpread (tail_at (plain_of tables.now.program) x f) }
    requires size { n ≤ tables.now.last }
    requires some { 1 ≤ k }
    requires within { k ≤ n }
    ensures { IsTrue result ↔ Fills tables.now x f n k }
{
    let row = tables.rest(x, f + 1);
    if tables.entry(node, k) == 0 {
        return false;
    }
    if row[n - k] == 0 {
        return false;
    }
    true
}

// The least size of the first from a start on, or n + 1.
pub fn size_from(
    tables: &Tables<'_>,
    x: usize,
    f: usize,
    n: usize,
    node: usize,
    start: usize,
) -> usize
    requires tables { IsLooked tables.now }
    requires node { x < length tables.now.program.nodes }
    requires first { node ≡ first_node (tail_at (plain_of tables.now.program) x f) }
    requires there { node < length tables.now.program.nodes }
    requires stands { Stands (shape_of (plain_of tables.now.program) x) tables.now.last f n }
    requires left { IsLeft (tail_at (plain_of tables.now.program) x f) n }
    requires spread { IsSpread (tail_at (plain_of tables.now.program) x f) }
    requires size { n ≤ tables.now.last }
    requires some { 1 ≤ start }
    requires start { start ≤ suc n }
    ensures { IsFirstFrom (Fills tables.now x f n) start (suc n) result }
{
    let mut size = start;
    while size <= n && !fills(tables, x, f, n, node, size) {
        size += 1;
    }
    size
}
