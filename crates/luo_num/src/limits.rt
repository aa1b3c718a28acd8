//! The limits of a text, of its source, of a table and of a structure, each with what is said where it is passed.
//!
//! Where a place is named after a limit, its constant ends in `HEAD` and has no line feed; a `LINE` is whole.

/// The most bytes of a text.
pub const TEXT_LIMIT: usize = 65536;
/// The line of a text that is too long.
pub const TEXT_LIMIT_LINE: &[u8] = b"limit: bytes 65536\n";

/// The most bytes of a name.
pub const NAME_LIMIT: usize = 32;
/// What the line of a name that is too long begins with.
pub const NAME_LIMIT_HEAD: &[u8] = b"limit: name 32";

/// The greatest number of a text, 10 to the power of 35.
pub const NUMBER_LIMIT: u128 = 100000000000000000000000000000000000;
/// What the line of a number that is too large begins with.
pub const NUMBER_LIMIT_HEAD: &[u8] = b"limit: number 100000000000000000000000000000000000";

/// The most openers (`(`, `begin` and `case`) that are open at one token.
pub const DEPTH_LIMIT: usize = 32;
/// What the line of a token with which too many are open begins with.
pub const DEPTH_LIMIT_HEAD: &[u8] = b"limit: depth 32";

/// The most names of types that are defined.
pub const DEFINITION_LIMIT: u128 = 64;
/// The line of too many definitions.
pub const DEFINITION_LIMIT_LINE: &[u8] = b"limit: definitions 64\n";

/// The most nodes: atoms, unions, products and collections, of each copy of a right side.
pub const NODE_LIMIT: u128 = 128;
/// The line of too many nodes.
pub const NODE_LIMIT_LINE: &[u8] = b"limit: nodes 128\n";

/// The most branches of one union, or factors of one product.
pub const PART_LIMIT: usize = 64;
/// The line of too many branches or factors.
pub const PART_LIMIT_LINE: &[u8] = b"limit: parts 64\n";

/// The greatest number of a bound.
pub const BOUND_LIMIT: u128 = 100;
/// The line of a bound that is too large.
pub const BOUND_LIMIT_LINE: &[u8] = b"limit: bounds 100\n";

/// The most nodes that are a multiset or a powerset.
pub const MULTISET_LIMIT: u128 = 32;
/// The line of too many multisets and powersets.
pub const MULTISET_LIMIT_LINE: &[u8] = b"limit: multisets 32\n";

/// The most procedures.
pub const PROCEDURE_LIMIT: usize = 64;
/// The line of too many procedures.
pub const PROCEDURE_LIMIT_LINE: &[u8] = b"limit: procedures 64\n";

/// The most statements: each `skip`, charge, call, case and walk.
pub const STATEMENT_LIMIT: u128 = 1024;
/// The line of too many statements.
pub const STATEMENT_LIMIT_LINE: &[u8] = b"limit: statements 1024\n";

/// The most analyze lines.
pub const ANALYSIS_LIMIT: usize = 16;
/// The line of too many analyze lines.
pub const ANALYSIS_LIMIT_LINE: &[u8] = b"limit: analyses 16\n";

/// The most walks over multisets and powersets.
pub const WALK_LIMIT: usize = 32;
/// The line of too many walks.
pub const WALK_LIMIT_LINE: &[u8] = b"limit: walks 32\n";

/// The greatest size of a table.
pub const SIZE_LIMIT: u64 = 160;
/// The line of a size that is too large.
pub const SIZE_LIMIT_LINE: &[u8] = b"limit: size 160\n";

/// The most bytes of the text of a structure.
pub const STRUCTURE_TEXT_LIMIT: usize = 65536;
/// The line of a structure's text that is too long.
pub const STRUCTURE_TEXT_LIMIT_LINE: &[u8] = b"limit: text 65536\n";

/// The most branches, tuples and collections of a structure's text that are open at one place.
pub const NESTING_LIMIT: usize = 1000;
/// What the line of a place with which too many are open begins with.
pub const NESTING_LIMIT_HEAD: &[u8] = b"limit: nesting 1000";

/// The greatest size of a structure that is read from a text.
pub const STRUCTURE_SIZE_LIMIT: u64 = 40;

/// The greatest size of structures that are listed.
pub const LIST_SIZE_LIMIT: u64 = 40;
/// The line of a size of structures to list that is too large.
pub const LIST_SIZE_LIMIT_LINE: &[u8] = b"limit: size 40\n";

/// The most structures of one listing.
pub const COUNT_LIMIT: u64 = 100000;
/// The line of too many structures to list.
pub const COUNT_LIMIT_LINE: &[u8] = b"limit: count 100000\n";

/// The most workers of an audit.
pub const WORKER_LIMIT: u64 = 16;
/// The line of too many workers.
pub const WORKER_LIMIT_LINE: &[u8] = b"limit: workers 16\n";

/// The most structures that one walk of an audit visits.
pub const WALKED_LIMIT: u128 = 4000000;
/// The line of too many structures to walk.
pub const WALKED_LIMIT_LINE: &[u8] = b"limit: structures 4000000\n";

/// The greatest number of a sample program, 2 to the power of 64 less 1.
pub const SAMPLE_LIMIT: u128 = 18446744073709551615;
/// The line of a sample's number that is too large.
pub const SAMPLE_LIMIT_LINE: &[u8] = b"limit: number 18446744073709551615\n";
