// Tables made again and again, to see what they cost.
ghost use Rattle.std.specs.Prelude.{◌≡◌};
ghost use Rattle.luo_binom.specs.declared.pascal.TheConstants.{LAST};

use crate::components::Components;
use crate::failure::Failure;
use crate::parts;
use crate::plan::Plan;
use crate::tables::{Asked, of_labelled, of_unlabelled};
use luo_binom::{LAST, Pascal};
use luo_model::{Kind, Universe};
use std::alloc::Global;

// A number of a word.
fn number(word: &str) -> Result<u32, Failure> {
    match word.parse::<u32>() {
        Ok(number) => Ok(number),
        Err(_) => Err(Failure::Refused),
    }
}

// A bound that may be left out, as `-`.
fn bound(word: &str) -> Result<Option<u32>, Failure> {
    if word == "-" {
        return Ok(None);
    }
    let number = number(word)?;
    Ok(Some(number))
}

// Whether atoms have labels.
fn universe(word: &str) -> Result<Universe, Failure> {
    match word {
        "labelled" => Ok(Universe::Labelled),
        "unlabelled" => Ok(Universe::Unlabelled),
        _ => Err(Failure::Refused),
    }
}

// The kind that a word names.
fn kind(word: &str) -> Result<Kind, Failure> {
    match word {
        "sequence" => Ok(Kind::Sequence),
        "set" => Ok(Kind::Set),
        "cycle" => Ok(Kind::Cycle),
        "multiset" => Ok(Kind::Multiset),
        "powerset" => Ok(Kind::Powerset),
        _ => Err(Failure::Refused),
    }
}

// Components that leave all numbers small, so that no table ends early.
fn components(universe: Universe, kind: Kind) -> Components {
    match (universe, kind) {
        (Universe::Labelled, Kind::Set) => Components::Atom,
        (Universe::Labelled, _) => Components::Nothing,
        (Universe::Unlabelled, Kind::Sequence) => Components::Atom,
        (Universe::Unlabelled, _) => Components::EachSize,
    }
}

// Makes a table so many times.
fn repeat(
    alloc: Global,
    pascal: &Pascal,
    universe: Universe,
    asked: Asked,
    plan: Plan,
    times: u32,
) -> Result<(), Failure>
    requires { pascal.now ≡ LAST }
{
    for _ in 0..times {
        let _numbers = match universe {
            Universe::Labelled => of_labelled(alloc, pascal, asked, plan)?,
            Universe::Unlabelled => of_unlabelled(alloc, asked, plan)?,
        };
    }
    Ok(())
}

/// What the words ask for: `counts`, `totals` or `planes`, and then UNIVERSE KIND LOW HIGH N TIMES, where HIGH may be `-`. With
/// `planes` so many filled tables are held at once, and as many for charges.
pub fn run(alloc: Global, pascal: &Pascal, words: &[String]) -> Result<(), Failure>
    requires { pascal.now ≡ LAST }
{
    let [asked, atoms, collection, low, high, last, times] = words else {
        return Err(Failure::Refused);
    };
    let universe = universe(atoms.as_str())?;
    let kind = kind(collection.as_str())?;
    let plan = Plan {
        kind,
        low: number(low.as_str())?,
        high: bound(high.as_str())?,
        of: components(universe, kind),
        last: number(last.as_str())?,
    };
    let times = number(times.as_str())?;
    match asked.as_str() {
        "counts" => repeat(alloc, pascal, universe, Asked::Counts, plan, times),
        "totals" => repeat(alloc, pascal, universe, Asked::Totals, plan, times),
        "planes" if plan.is_parts() => parts::planes(alloc, plan, times),
        _ => Err(Failure::Refused),
    }
}
