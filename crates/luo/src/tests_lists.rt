// Listings, from each kind of place, of collections of each kind.
use crate::tests::listed;
use std::test::Fail;

// Permutations as sets of cycles.
const PERMUTATIONS: &[u8] =
    b"labelled; type point = atom(1); type cyc = cycle(point); type perm = set(cyc); \
    procedure p(x : perm); begin end; analyze p;";

// Integer partitions.
const PARTITIONS: &[u8] =
    b"type unit = atom(1); type part = sequence(unit, card >= 1); type partition = \
    multiset(part); procedure p(x : partition); begin end; analyze p;";

// Sets of at most one atom in each of two colours.
const COLOURS: &[u8] =
    b"type u = atom(1); type s = powerset(u | u); procedure p(x : s); begin end; analyze p;";

// Binary trees.
const TREES: &[u8] =
    b"type leaf = epsilon; type node = atom(1); type tree = leaf | product(node, tree, tree); \
    procedure p(x : tree); begin end; analyze p;";

// Rooted labelled trees.
const ROOTED: &[u8] =
    b"labelled; type node = atom(1); type tree = product(node, set(tree)); procedure p(x : \
    tree); begin end; analyze p;";

// Cycles of points that are marked or not, with an atom of weight 0 on either side.
const WEIGHTLESS: &[u8] =
    b"labelled; type e = epsilon; type z = atom(1); type part = product(e | e, z); type ring \
    = cycle(part); type all = product(e, ring, e); procedure p(x : all); begin end; analyze \
    p;";

#[test]
fn listings_are_in_order(rt: HostRuntime) -> Result<(), Fail> {
    let rows: [(&[u8], [&str; 4], &[u8]); 15] = [
        (
            PERMUTATIONS,
            ["perm", "3", "0", "100"],
            b"0 [[#1],[#2],[#3]]\n\
                1 [[#1],[#2,#3]]\n\
                2 [[#1,#2],[#3]]\n\
                3 [[#1,#3],[#2]]\n\
                4 [[#1,#2,#3]]\n\
                5 [[#1,#3,#2]]\n",
        ),
        (
            PERMUTATIONS,
            ["perm", "3", "2", "3"],
            b"2 [[#1,#2],[#3]]\n\
                3 [[#1,#3],[#2]]\n\
                4 [[#1,#2,#3]]\n",
        ),
        (PERMUTATIONS, ["perm", "3", "5", "1"], b"5 [[#1,#3,#2]]\n"),
        (PERMUTATIONS, ["perm", "3", "6", "1"], b""),
        (PERMUTATIONS, ["perm", "3", "0", "0"], b""),
        (
            PERMUTATIONS,
            ["cyc", "4", "0", "100"],
            b"0 [#1,#2,#3,#4]\n\
                1 [#1,#2,#4,#3]\n\
                2 [#1,#3,#2,#4]\n\
                3 [#1,#3,#4,#2]\n\
                4 [#1,#4,#2,#3]\n\
                5 [#1,#4,#3,#2]\n",
        ),
        (
            PARTITIONS,
            ["partition", "5", "0", "100000"],
            b"0 [[a1],[a1],[a1],[a1],[a1]]\n\
                1 [[a1,a1],[a1],[a1],[a1]]\n\
                2 [[a1,a1],[a1,a1],[a1]]\n\
                3 [[a1,a1,a1],[a1],[a1]]\n\
                4 [[a1,a1,a1],[a1,a1]]\n\
                5 [[a1,a1,a1,a1],[a1]]\n\
                6 [[a1,a1,a1,a1,a1]]\n",
        ),
        (
            COLOURS,
            ["s", "1", "0", "9"],
            b"0 [1:a1]\n\
                1 [2:a1]\n",
        ),
        (COLOURS, ["s", "2", "0", "9"], b"0 [2:a1,1:a1]\n"),
        (
            TREES,
            ["tree", "3", "0", "9"],
            b"0 2:(a1,1:a0,2:(a1,1:a0,2:(a1,1:a0,1:a0)))\n\
                1 2:(a1,1:a0,2:(a1,2:(a1,1:a0,1:a0),1:a0))\n\
                2 2:(a1,2:(a1,1:a0,1:a0),2:(a1,1:a0,1:a0))\n\
                3 2:(a1,2:(a1,1:a0,2:(a1,1:a0,1:a0)),1:a0)\n\
                4 2:(a1,2:(a1,2:(a1,1:a0,1:a0),1:a0),1:a0)\n",
        ),
        (
            TREES,
            ["tree", "3", "3", "5"],
            b"3 2:(a1,2:(a1,1:a0,2:(a1,1:a0,1:a0)),1:a0)\n\
                4 2:(a1,2:(a1,2:(a1,1:a0,1:a0),1:a0),1:a0)\n",
        ),
        (
            TREES,
            ["tree", "3", "1000000000000000000000000000000000000000", "5"],
            b"",
        ),
        (TREES, ["node", "2", "0", "5"], b""),
        (
            ROOTED,
            ["tree", "3", "0", "100"],
            b"0 (#1,[(#2,[]),(#3,[])])\n\
                1 (#1,[(#2,[(#3,[])])])\n\
                2 (#1,[(#3,[(#2,[])])])\n\
                3 (#2,[(#1,[]),(#3,[])])\n\
                4 (#2,[(#1,[(#3,[])])])\n\
                5 (#2,[(#3,[(#1,[])])])\n\
                6 (#3,[(#1,[]),(#2,[])])\n\
                7 (#3,[(#1,[(#2,[])])])\n\
                8 (#3,[(#2,[(#1,[])])])\n",
        ),
        (
            WEIGHTLESS,
            ["all", "2", "0", "100"],
            b"0 (a0,[(1:a0,#1),(1:a0,#2)],a0)\n\
                1 (a0,[(1:a0,#1),(2:a0,#2)],a0)\n\
                2 (a0,[(2:a0,#1),(1:a0,#2)],a0)\n\
                3 (a0,[(2:a0,#1),(2:a0,#2)],a0)\n",
        ),
    ];
    for row in &rows {
        listed(&rt, rt.alloc(), row.0, &row.1, row.2)?;
    }
    Ok(())
}
