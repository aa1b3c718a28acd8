// The types of the examples, each of whose structures is looked for at its place.

use crate::tests_places::program_is_right;
use std::test::Fail;

// No procedure matters here.
const TREE: &[u8] =
    b"type leaf = epsilon; type node = atom(1); type tree = leaf | product(node, tree, tree); \
    procedure p(x : tree); begin end; analyze p;";

const PLANE: &[u8] =
    b"type node = atom(1); type tree = node | product(node, sequence(tree, card >= 1)); \
    procedure p(x : tree); begin end; analyze p;";

const MOTZKIN: &[u8] =
    b"type node = atom(1); type tree = node | product(node, tree) | product(node, tree, tree); \
    procedure p(x : tree); begin end; analyze p;";

const SCHROEDER: &[u8] = b"type leaf = atom(1); type tree = leaf | sequence(tree, card >= 2); \
    procedure p(x : tree); begin end; analyze p;";

// Of `sym` too.
const DIFF: &[u8] = b"type plus, times, expo, zero, one, x = atom(1); type expr = zero | one | x | \
    product(plus, expr, expr) | product(times, expr, expr) | product(expo, expr); \
    procedure p(e : expr); begin end; analyze p;";

const PARTS: &[u8] =
    b"type unit = atom(1); type part = sequence(unit, card >= 1); type partition = \
    multiset(part); procedure p(x : partition); begin end; analyze p;";

const DISTINCT: &[u8] =
    b"type unit = atom(1); type part = sequence(unit, card >= 1); type partition = \
    powerset(part); procedure p(x : partition); begin end; analyze p;";

const HIER: &[u8] = b"type leaf = atom(1); type h = leaf | multiset(h, card >= 2); \
    procedure p(x : h); begin end; analyze p;";

const NETWORKS: &[u8] =
    b"type edge = atom(1); type series = multiset(edge | parallel, card >= 2); type parallel = \
    multiset(edge | series, card >= 2); type network = edge | series | parallel; \
    procedure p(x : network); begin end; analyze p;";

const PAIR: &[u8] =
    b"type u = atom(1); type s = powerset(u | u); procedure p(x : s); begin end; analyze p;";

const PAIRS: &[u8] = b"type a = atom(1); type b = a | a | epsilon; type t = product(a, b, b); \
    procedure p(x : t); begin end; analyze p;";

const DICE: &[u8] =
    b"type die = atom(1) | atom(2) | atom(3) | atom(4) | atom(5) | atom(6); type throw = \
    product(die, die); procedure p(x : throw); begin end; analyze p;";

const BIG: &[u8] =
    b"type z = atom(1); type w = z | z; type t = sequence(w); procedure p(x : t); begin end; \
    analyze p;";

const FIFTY: &[u8] =
    b"type z = atom(1); type t = sequence(z); procedure p(x : t); begin end; analyze p;";

const PERM: &[u8] =
    b"labelled; type point = atom(1); type cyc = cycle(point); type perm = set(cyc); \
    procedure p(x : perm); begin end; analyze p;";

const DERANGEMENTS: &[u8] =
    b"labelled; type point = atom(1); type cyc = cycle(point, card >= 2); type derangement = \
    set(cyc); procedure p(x : derangement); begin end; analyze p;";

const INVOLUTIONS: &[u8] =
    b"labelled; type point = atom(1); type orbit = point | set(point, card = 2); type \
    involution = set(orbit); procedure p(x : involution); begin end; analyze p;";

const BLOCKS: &[u8] =
    b"labelled; type point = atom(1); type block = set(point, card >= 1); type partition = \
    set(block); procedure p(x : partition); begin end; analyze p;";

const SURJECTIONS: &[u8] =
    b"labelled; type point = atom(1); type block = set(point, card >= 1); type surjection = \
    sequence(block); procedure p(x : surjection); begin end; analyze p;";

const ROOTED: &[u8] = b"labelled; type node = atom(1); type tree = product(node, set(tree)); \
    procedure p(x : tree); begin end; analyze p;";

#[test]
fn plane_trees_stand_at_their_places(rt: HostRuntime) -> Result<(), Fail> {
    let alloc = rt.alloc();
    program_is_right(&rt, alloc, "tree", TREE)?;
    program_is_right(&rt, alloc, "plane", PLANE)?;
    program_is_right(&rt, alloc, "motzkin", MOTZKIN)?;
    program_is_right(&rt, alloc, "schroeder", SCHROEDER)
}

#[test]
fn expressions_stand_at_their_places(rt: HostRuntime) -> Result<(), Fail> {
    let alloc = rt.alloc();
    program_is_right(&rt, alloc, "diff and sym", DIFF)
}

#[test]
fn partitions_of_numbers_stand_at_their_places(rt: HostRuntime) -> Result<(), Fail> {
    let alloc = rt.alloc();
    program_is_right(&rt, alloc, "parts", PARTS)?;
    program_is_right(&rt, alloc, "distinct", DISTINCT)
}

#[test]
fn hierarchies_stand_at_their_places(rt: HostRuntime) -> Result<(), Fail> {
    let alloc = rt.alloc();
    program_is_right(&rt, alloc, "hier", HIER)?;
    program_is_right(&rt, alloc, "networks", NETWORKS)
}

#[test]
fn words_and_pairs_stand_at_their_places(rt: HostRuntime) -> Result<(), Fail> {
    let alloc = rt.alloc();
    program_is_right(&rt, alloc, "pair", PAIR)?;
    program_is_right(&rt, alloc, "pairs", PAIRS)?;
    program_is_right(&rt, alloc, "dice", DICE)?;
    program_is_right(&rt, alloc, "big", BIG)?;
    program_is_right(&rt, alloc, "fifty", FIFTY)
}

#[test]
fn permutations_stand_at_their_places(rt: HostRuntime) -> Result<(), Fail> {
    let alloc = rt.alloc();
    program_is_right(&rt, alloc, "perm", PERM)?;
    program_is_right(&rt, alloc, "derangements", DERANGEMENTS)?;
    program_is_right(&rt, alloc, "involutions", INVOLUTIONS)
}

#[test]
fn partitions_of_sets_stand_at_their_places(rt: HostRuntime) -> Result<(), Fail> {
    let alloc = rt.alloc();
    program_is_right(&rt, alloc, "blocks", BLOCKS)?;
    program_is_right(&rt, alloc, "surjections", SURJECTIONS)?;
    program_is_right(&rt, alloc, "rooted", ROOTED)
}
