// The check of definitions and measures, in text order.
#![tactic(auto, using(luo_value_types::proofs::StopLemmas::stop_steps))]

ghost use Rattle.std.specs.Prelude.{◌≡◌, ◌+◌, ◌≤◌, [], map, length, sum_by, IfErr, IfOk, OnOk};
ghost use Rattle.luo_num.specs.declared.limits.TheConstants.{DEFINITION_LIMIT};
ghost use Rattle.luo_source.specs.View.{expr_of, type_def_of};
ghost use Rattle.luo_rules.specs.Breaches.{StopsAt};
ghost use Rattle.luo_rules.specs.TypeBreaches.{new_types, first_circle, circle_breaches, type_breaches, types_breaches, measures_breaches};

use crate::circles::circle;
use crate::definitions::{Entry, Measured};
use crate::expressions::Checker;
use crate::rules::check_name;
use luo_num::{Items, NoMemory, Text};
use luo_rules::{Breach, Meaning, Names, Rule, Stop};
use luo_source::{Name, TypeDef, TypeExpr};
use std::alloc::Global;

// Checks the names of definitions from this number on.
fn check_new_types(alloc: Global, names: &Names, first: usize, owners: &[Name]) -> Result<(), Stop>
    requires { first + length owners.now ≤ DEFINITION_LIMIT }
    ensures ok { OnOk result (new_types names.now first owners.now ≡ []) }
    ensures stops { IfErr result (λ s. StopsAt (new_types names.now first owners.now) s) }
{
    for (k, name) in owners.iter().enumerate() {
        check_name(alloc, names, name, Meaning::Definition(first + k))?;
    }
    Ok(())
}

// The first circle on which a definition of these names lies, from this number on.
fn first_circle(
    alloc: Global,
    names: &Names,
    defs: &[Entry],
    first: usize,
    owners: &[Name],
) -> Result<Option<Items<Text>>, NoMemory>
    requires { first + length owners.now ≤ DEFINITION_LIMIT }
    ensures { IfOk result (λ found. found ≡ first_circle names.now defs.now first owners.now) }
{
    for (k, _owner) in owners.iter().enumerate() {
        if let Some(chain) = circle(alloc, names, defs, first + k)? {
            return Ok(Some(chain));
        }
    }
    Ok(None)
}

// Checks that a right side which is a name leads to none of its owners.
fn check_circles(
    alloc: Global,
    names: &Names,
    defs: &[Entry],
    first: usize,
    def: &TypeDef,
) -> Result<(), Stop>
    requires { first + length def.now.names ≤ DEFINITION_LIMIT }
    ensures ok { OnOk result (circle_breaches names.now defs.now first def.now.names
        (expr_of def.now.body)
        ≡ []) }
    ensures stops { IfErr result
        (λ s. StopsAt (circle_breaches names.now defs.now first def.now.names
        (expr_of def.now.body)) s) }
{
    let TypeExpr::Named(name) = &def.body else {
        return Ok(());
    };
    match first_circle(alloc, names, defs, first, def.names.as_slice())? {
        None => return Ok(()),
        Some(chain) => {
            return Err(Stop::Breach(Breach {
                rule: Rule::Y4,
                token: name.at,
                names: chain,
            }));
        }
    }
}

// Checks the definitions of one line, from this number on.
fn check_type(checker: &Checker, defs: &[Entry], first: usize, def: &TypeDef) -> Result<(), Stop>
    requires { first + length def.now.names ≤ DEFINITION_LIMIT }
    ensures ok { OnOk result (type_breaches checker.now.universe checker.now.names.now defs.now
        first (type_def_of def.now) ≡ []) }
    ensures stops { IfErr result
        (λ s. StopsAt (type_breaches checker.now.universe checker.now.names.now defs.now first
        (type_def_of def.now)) s) }
{
    check_new_types(checker.alloc, checker.names, first, def.names.as_slice())?;
    checker.expr(&def.body)?;
    check_circles(checker.alloc, checker.names, defs, first, def)?;
    Ok(())
}

/// Checks the definitions.
pub(crate) fn check_types(checker: &Checker, defs: &[Entry], types: &[TypeDef]) -> Result<(), Stop>
    requires { sum_by (λ d. length d.names) types.now ≤ DEFINITION_LIMIT }
    ensures ok { OnOk result (types_breaches checker.now.universe checker.now.names.now defs.now 0
        (map type_def_of types.now) ≡ []) }
    ensures stops { IfErr result
        (λ s. StopsAt (types_breaches checker.now.universe checker.now.names.now defs.now 0
        (map type_def_of types.now)) s) }
{
    let mut first = 0;
    for def in types {
        check_type(checker, defs, first, def)?;
        first += def.names.len();
    }
    Ok(())
}

/// Checks the names of measures.
pub(crate) fn check_measures(
    alloc: Global,
    names: &Names,
    measures: &[Measured],
) -> Result<(), Stop>
    ensures ok { OnOk result (measures_breaches names.now 0 measures.now ≡ []) }
    ensures stops { IfErr result (λ s. StopsAt (measures_breaches names.now 0 measures.now) s) }
{
    for (number, measure) in measures.iter().enumerate() {
        let value = measure.value;
        check_name(
            alloc,
            names,
            measure.name,
            Meaning::Measure { number, value },
        )?;
    }
    Ok(())
}
