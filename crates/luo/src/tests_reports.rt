// Whole reports of programs whose numbers are known.
use crate::tests::analysed;
use std::test::Fail;

/// Binary trees and their path length.
pub const TREE: &[u8] =
    b"type leaf = epsilon; type node = atom(1); type tree = leaf | product(node, tree, tree); \
    measure step : 1; procedure size(t : tree); begin case t of leaf : skip; (n, l, r) : begin \
    step; size(l); size(r) end end end; procedure path(t : tree); begin case t of leaf : skip; \
    (n, l, r) : begin size(l); size(r); path(l); path(r) end end end; analyze path;";

// Integer partitions and their parts.
const PARTS: &[u8] =
    b"type unit = atom(1); type part = sequence(unit, card >= 1); type partition = multiset(part); \
    measure one : 1; procedure parts(p : partition); begin forall x in p do one end; analyze \
    parts;";

// Unlabelled hierarchies and their leaves.
const HIERARCHIES: &[u8] =
    b"type leaf = atom(1); type h = leaf | multiset(h, card >= 2); measure one : 1; procedure \
    leaves(t : h); begin case t of leaf : one; _ as s : begin forall u in s do leaves(u) end end \
    end; analyze leaves;";

// Sets of at most one atom in each of two colours, and their members.
const COLOURS: &[u8] =
    b"type u = atom(1); type s = powerset(u | u); measure one : 1; procedure k(p : s); begin \
    forall x in p do one end; analyze k;";

// Rooted labelled trees and their nodes.
const ROOTED: &[u8] =
    b"labelled; type node = atom(1); type tree = product(node, set(tree)); measure one : 1; \
    procedure size(t : tree); begin one; case t of (n, s) : begin forall u in s do size(u) end \
    end end; analyze size;";

#[test]
fn reports_are_whole(rt: HostRuntime) -> Result<(), Fail> {
    let rows: [(&[u8], &str, &[u8]); 6] = [
        (
            TREE,
            "4",
            b"universe unlabelled\n\
                leaf(z) = 1\n\
                node(z) = z\n\
                tree(z) = leaf(z) + node(z)*tree(z)*tree(z)\n\
                tau[size](z) = node(z)*tree(z)*tree(z) + tau[size](z)*node(z)*tree(z) + tau[size](z)*node(z)*tree(z)\n\
                tau[path](z) = tau[size](z)*node(z)*tree(z) + tau[size](z)*node(z)*tree(z) + tau[path](z)*node(z)*tree(z) + tau[path](z)*node(z)*tree(z)\n\
                analyze path on tree\n\
                0 1 0 0\n\
                1 1 0 0\n\
                2 2 2 1\n\
                3 5 14 14/5\n\
                4 14 74 37/7\n",
        ),
        (
            TREE,
            "0",
            b"universe unlabelled\n\
                leaf(z) = 1\n\
                node(z) = z\n\
                tree(z) = leaf(z) + node(z)*tree(z)*tree(z)\n\
                tau[size](z) = node(z)*tree(z)*tree(z) + tau[size](z)*node(z)*tree(z) + tau[size](z)*node(z)*tree(z)\n\
                tau[path](z) = tau[size](z)*node(z)*tree(z) + tau[size](z)*node(z)*tree(z) + tau[path](z)*node(z)*tree(z) + tau[path](z)*node(z)*tree(z)\n\
                analyze path on tree\n\
                0 1 0 0\n",
        ),
        (
            PARTS,
            "6",
            b"universe unlabelled\n\
                unit(z) = z\n\
                part(z) = Seq[unit(z), k>=1]\n\
                partition(z) = MSet[part(z)]\n\
                tau[parts](z) = Point[MSet[part(z)]; part(z)]\n\
                analyze parts on partition\n\
                0 1 0 0\n\
                1 1 1 1\n\
                2 2 3 3/2\n\
                3 3 6 2\n\
                4 5 12 12/5\n\
                5 7 20 20/7\n\
                6 11 35 35/11\n",
        ),
        (
            HIERARCHIES,
            "6",
            b"universe unlabelled\n\
                leaf(z) = z\n\
                h(z) = leaf(z) + MSet[h(z), k>=2]\n\
                tau[leaves](z) = leaf(z) + Point[MSet[h(z), k>=2]; tau[leaves](z)]\n\
                analyze leaves on h\n\
                0 0 0 -\n\
                1 1 1 1\n\
                2 1 2 2\n\
                3 2 6 3\n\
                4 5 20 4\n\
                5 12 60 5\n\
                6 33 198 6\n",
        ),
        (
            COLOURS,
            "3",
            b"universe unlabelled\n\
                u(z) = z\n\
                s(z) = PSet[u(z) + u(z)]\n\
                tau[k](z) = Point[PSet[u(z) + u(z)]; u(z) + u(z)]\n\
                analyze k on s\n\
                0 1 0 0\n\
                1 2 2 1\n\
                2 1 2 2\n\
                3 0 0 -\n",
        ),
        (
            ROOTED,
            "5",
            b"universe labelled\n\
                node(z) = z\n\
                tree(z) = node(z)*Set[tree(z)]\n\
                tau[size](z) = tree(z) + Point[Set[tree(z)]; tau[size](z)]*node(z)\n\
                analyze size on tree\n\
                0 0 0 -\n\
                1 1 1 1\n\
                2 2 4 2\n\
                3 9 27 3\n\
                4 64 256 4\n\
                5 625 3125 5\n",
        ),
    ];
    for row in &rows {
        analysed(&rt, rt.alloc(), row.0, row.1, row.2)?;
    }
    Ok(())
}
