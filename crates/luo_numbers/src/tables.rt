// Tables of known numbers, with the names that they have in the On-Line Encyclopedia of Integer Sequences.
ghost use Rattle.std.specs.Prelude.{◌≡◌};
ghost use Rattle.luo_binom.specs.declared.pascal.TheConstants.{LAST};

use crate::components::Components::{self, Atom, Cycles, EachSize, LabelledTrees, Trees};
use crate::failure::Failure;
use crate::plan::Plan;
use crate::{labelled, parts, sequences};
use luo_binom::{LAST, Pascal};
use luo_model::Kind::{self, Cycle, Multiset, Powerset, Sequence, Set};
use std::alloc::Global;

/// What is asked of a table.
#[derive(Clone, Copy, PartialEq, Eq)]
pub enum Asked {
    /// The numbers of collections.
    Counts,
    /// The numbers of the components of all of them.
    Totals,
}

/// The numbers of a table of labelled collections.
pub fn of_labelled(
    alloc: Global,
    pascal: &Pascal,
    asked: Asked,
    plan: Plan,
) -> Result<Vec<Option<u128>>, Failure>
    requires { pascal.now ≡ LAST }
{
    if !plan.is_labelled() {
        return Err(Failure::Refused);
    }
    match asked {
        Asked::Counts => labelled::counts(alloc, pascal, plan),
        Asked::Totals => labelled::totals(alloc, pascal, plan),
    }
}

// The numbers of a table of sequences.
fn of_sequences(alloc: Global, asked: Asked, plan: Plan) -> Result<Vec<Option<u128>>, Failure> {
    if !plan.is_line() {
        return Err(Failure::Refused);
    }
    match asked {
        Asked::Counts => sequences::counts(alloc, plan),
        Asked::Totals => sequences::totals(alloc, plan),
    }
}

// The numbers of a table of multisets or powersets.
fn of_parts(alloc: Global, asked: Asked, plan: Plan) -> Result<Vec<Option<u128>>, Failure> {
    if !plan.is_parts() {
        return Err(Failure::Refused);
    }
    match asked {
        Asked::Counts => parts::counts(alloc, plan),
        Asked::Totals => parts::totals(alloc, plan),
    }
}

/// The numbers of a table of unlabelled collections.
pub fn of_unlabelled(
    alloc: Global,
    asked: Asked,
    plan: Plan,
) -> Result<Vec<Option<u128>>, Failure> {
    if plan.kind == Kind::Sequence {
        of_sequences(alloc, asked, plan)
    } else {
        of_parts(alloc, asked, plan)
    }
}

// A line with the name of a table, and then a line for each size.
fn write(text: &mut String, name: &str, numbers: &[Option<u128>]) -> Result<(), Failure> {
    writeln!(text, "# {name}")?;
    for (n, number) in numbers.iter().enumerate() {
        match number {
            Some(number) => writeln!(text, "{n} {number}")?,
            None => writeln!(text, "{n} Over")?,
        }
    }
    Ok(())
}

// Labelled collections of any number of components: their numbers, and those of their components.
fn any_labelled(
    text: &mut String,
    alloc: Global,
    pascal: &Pascal,
    names: [&str; 2],
    kind: Kind,
    of: Components,
) -> Result<(), Failure>
    requires { pascal.now ≡ LAST }
{
    let low = if kind == Cycle { 1 } else { 0 };
    let plan = Plan {
        kind,
        low,
        high: None,
        of,
        last: LAST,
    };
    let counts = of_labelled(alloc, pascal, Asked::Counts, plan)?;
    write(text, names[0], &counts)?;
    let totals = of_labelled(alloc, pascal, Asked::Totals, plan)?;
    write(text, names[1], &totals)
}

// The same for unlabelled ones.
fn any_unlabelled(
    text: &mut String,
    alloc: Global,
    names: [&str; 2],
    kind: Kind,
    of: Components,
    last: u32,
) -> Result<(), Failure> {
    let plan = Plan::any(kind, of, last);
    let counts = of_unlabelled(alloc, Asked::Counts, plan)?;
    write(text, names[0], &counts)?;
    let totals = of_unlabelled(alloc, Asked::Totals, plan)?;
    write(text, names[1], &totals)
}

/// Labelled collections.
pub fn write_labelled(text: &mut String, alloc: Global, pascal: &Pascal) -> Result<(), Failure>
    requires { pascal.now ≡ LAST }
{
    let names = [
        "Bell numbers (A000110): set partitions",
        "their blocks (A005493)",
    ];
    any_labelled(text, alloc, pascal, names, Set, EachSize)?;
    let names = [
        "factorials (A000142): permutations",
        "their cycles (A000254)",
    ];
    any_labelled(text, alloc, pascal, names, Set, Cycles)?;
    let names = [
        "Fubini numbers (A000670): ordered set partitions",
        "their blocks (A069321)",
    ];
    any_labelled(text, alloc, pascal, names, Sequence, EachSize)?;
    let names = ["cyclic permutations (A000142)", "their elements (A000142)"];
    any_labelled(text, alloc, pascal, names, Cycle, Atom)?;
    let names = ["rooted labelled forests (A000272)", "their trees"];
    any_labelled(text, alloc, pascal, names, Set, LabelledTrees)?;
    for k in 1..6 {
        let plan = Plan::exactly(k, Set, EachSize, 12);
        let numbers = of_labelled(alloc, pascal, Asked::Counts, plan)?;
        write(
            text,
            "Stirling numbers of the second kind (A008277), a column",
            &numbers,
        )?;
        let plan = Plan::exactly(k, Set, Cycles, 12);
        let numbers = of_labelled(alloc, pascal, Asked::Counts, plan)?;
        write(
            text,
            "Stirling numbers of the first kind (A132393), a column",
            &numbers,
        )?;
    }
    Ok(())
}

/// Unlabelled collections.
pub fn write_unlabelled(text: &mut String, alloc: Global) -> Result<(), Failure> {
    let names = ["compositions (A011782)", "their parts (A001792)"];
    any_unlabelled(text, alloc, names, Sequence, EachSize, LAST)?;
    let names = [
        "Catalan numbers (A000108): ordered forests",
        "their trees (A000245)",
    ];
    any_unlabelled(text, alloc, names, Sequence, Trees, LAST)?;
    let names = ["partitions (A000041)", "their parts (A006128)"];
    any_unlabelled(text, alloc, names, Multiset, EachSize, 50)?;
    let names = [
        "partitions into distinct parts (A000009)",
        "their parts (A015723)",
    ];
    any_unlabelled(text, alloc, names, Powerset, EachSize, 50)?;
    let names = ["rooted forests (A000081)", "their trees"];
    any_unlabelled(text, alloc, names, Multiset, Trees, 50)?;
    let names = ["rooted identity forests (A004111)", "their trees"];
    any_unlabelled(text, alloc, names, Powerset, Trees, 50)?;
    for k in 1..4 {
        let plan = Plan::exactly(k, Multiset, EachSize, 20);
        let numbers = of_unlabelled(alloc, Asked::Counts, plan)?;
        write(text, "partitions by parts (A008284), a column", &numbers)?;
    }
    Ok(())
}

/// What a table of multisets says of the sizes before it is asked for them.
pub fn write_ahead(text: &mut String, alloc: Global) -> Result<(), Failure> {
    let [fifty, two, none] = parts::ahead(alloc)?;
    writeln!(
        text,
        "# multisets of parts smaller than 2, after the call for size 3"
    )?;
    for (name, number) in [
        ("50 parts of size 50", fifty),
        ("1 part of size 2", two),
        ("no part of size 0", none),
    ] {
        match number {
            Some(number) => writeln!(text, "{name}: {number}")?,
            None => writeln!(text, "{name}: -")?,
        }
    }
    Ok(())
}
