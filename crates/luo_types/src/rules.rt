// The rules of names, kinds, bounds and weights.
#![tactic(auto, using(luo_value_types::proofs::StopLemmas::stop_steps))]

ghost use Rattle.std.specs.Prelude.{◌≡◌, [], IfErr, OnOk, decimal, nat_le, if◌then◌else◌};
ghost use Rattle.luo_model.specs.Invariant.{greatest_weight};
ghost use Rattle.luo_rules.specs.declared.rule.Rule.TheVariants.{Y8};
ghost use Rattle.luo_rules.specs.Breaches.{broken, StopsAt};
ghost use Rattle.luo_rules.specs.TypeBreaches.{is_meaning, name_breaches, kind_word, kind_breaches, least_of, low_in, high_in, is_at_most, is_low, bound_breaches};

use itoa::Buffer;
use luo_model::{Kind, Universe};
use luo_rules::{Meaning, Names, Rule, Stop};
use luo_source::{Bound, Name, Range};
use luo_value_types::{breach, breach_at};
use std::alloc::Global;

// The meaning is this one.
fn is_meaning(meant: Option<Meaning>, own: Meaning) -> bool
    ensures { result ≡ is_meaning meant own }
{
    match (meant, own) {
        (Some(Meaning::Definition(i)), Meaning::Definition(j)) => i == j,
        (Some(Meaning::Measure { number, .. }), Meaning::Measure { number: other, .. }) => number
            == other,
        (Some(Meaning::Procedure(f)), Meaning::Procedure(g)) => f == g,
        _ => false,
    }
}

/// A name that is defined here to mean this has no other definition before.
pub(crate) fn check_name(
    alloc: Global,
    names: &Names,
    name: &Name,
    own: Meaning,
) -> Result<(), Stop>
    ensures ok { OnOk result (name_breaches names.now name.now own ≡ []) }
    ensures stops { IfErr result (λ s. StopsAt (name_breaches names.now name.now own) s) }
{
    if is_meaning(names.meaning(name.text.as_slice()), own) {
        return Ok(());
    }
    Err(breach_at(alloc, Rule::Y1, name))
}

fn kind_word(kind: Kind) -> &'static [u8]
    ensures { result.now ≡ kind_word kind }
{
    match kind {
        Kind::Sequence => b"sequence",
        Kind::Set => b"set",
        Kind::Cycle => b"cycle",
        Kind::Multiset => b"multiset",
        Kind::Powerset => b"powerset",
    }
}

/// The universe has collections of this kind.
pub(crate) fn check_kind(
    alloc: Global,
    universe: Universe,
    kind: Kind,
    at: usize,
) -> Result<(), Stop>
    ensures ok { OnOk result (kind_breaches universe kind at ≡ []) }
    ensures stops { IfErr result (λ s. StopsAt (kind_breaches universe kind at) s) }
{
    let rule = match (universe, kind) {
        (Universe::Unlabelled, Kind::Set) => Rule::Y5,
        (Universe::Labelled, Kind::Multiset | Kind::Powerset) => Rule::Y5,
        (Universe::Unlabelled, Kind::Cycle) => Rule::Y6,
        _ => return Ok(()),
    };
    Err(breach(alloc, rule, at, kind_word(kind)))
}

pub(crate) fn least_of(kind: Kind) -> u128
    ensures { result ≡ least_of kind }
{
    match kind {
        Kind::Cycle => 1,
        _ => 0,
    }
}

/// The least number of components that a range allows.
pub(crate) fn low_in(kind: Kind, range: Range) -> u128
    ensures { result ≡ low_in kind range }
{
    match range {
        Range::Exactly(number) => number,
        Range::AtMost(_) => least_of(kind),
        Range::AtLeast(number) => number,
        Range::Between(low, _) => low,
    }
}

/// The greatest number of components that a range allows, where there is one.
pub(crate) fn high_in(range: Range) -> Option<u128>
    ensures { result ≡ high_in range }
{
    match range {
        Range::Exactly(number) => Some(number),
        Range::AtMost(number) => Some(number),
        Range::AtLeast(_) => None,
        Range::Between(_, high) => Some(high),
    }
}

fn is_at_most(low: u128, high: Option<u128>) -> bool
    ensures { result ≡ is_at_most low high }
{
    match high {
        None => true,
        Some(high) => low <= high,
    }
}

// The kind may have so many components at least.
fn is_low(kind: Kind, low: u128) -> bool
    ensures { result ≡ is_low kind low }
{
    match kind {
        Kind::Cycle => 1 <= low,
        Kind::Powerset => low <= 1,
        _ => true,
    }
}

/// A bound holds of some number, and its low bound is one that the kind may have.
pub(crate) fn check_bound(alloc: Global, kind: Kind, bound: Option<Bound>) -> Result<(), Stop>
    ensures ok { OnOk result (bound_breaches kind bound ≡ []) }
    ensures stops { IfErr result (λ s. StopsAt (bound_breaches kind bound) s) }
{
    let Some(bound) = bound else {
        return Ok(());
    };
    let low = low_in(kind, bound.range);
    if is_at_most(low, high_in(bound.range)) && is_low(kind, low) {
        return Ok(());
    }
    Err(breach(alloc, Rule::Y7, bound.at, kind_word(kind)))
}

fn greatest_weight(universe: Universe) -> u128
    ensures { result ≡ greatest_weight universe }
{
    match universe {
        Universe::Labelled => 1,
        Universe::Unlabelled => 16,
    }
}

/// The weight is one that atoms of this universe may have.
pub(crate) fn check_weight(
    alloc: Global,
    universe: Universe,
    weight: u128,
    weight_at: usize,
) -> Result<(), Stop>
    ensures ok { OnOk result ((if nat_le weight
        (greatest_weight universe) then [] else broken Y8 weight_at (decimal weight)) ≡ []) }
    ensures stops { IfErr result
        (λ s. StopsAt (if nat_le weight (greatest_weight universe) then [] else broken Y8 weight_at
        (decimal weight)) s) }
{
    if weight <= greatest_weight(universe) {
        return Ok(());
    }
    let mut buffer = Buffer::new();
    Err(breach(alloc, Rule::Y8, weight_at, buffer.format(weight).as_bytes()))
}
