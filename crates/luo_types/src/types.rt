// The check of definitions and measures, and the setting that they make.
#![tactic(auto, using(luo_value_types::proofs::StopLemmas::stop_steps))]

ghost use Rattle.std.specs.Prelude.{◌≡◌, ◌≤◌, ◌++◌, [], map, length, sum_by, IfOk, IfErr, OnOk};
ghost use Rattle.luo_num.specs.declared.limits.TheConstants.{DEFINITION_LIMIT};
ghost use Rattle.luo_source.specs.View.{type_def_of, plain_source};
ghost use Rattle.luo_rules.specs.Breaches.{StopsAt};
ghost use Rattle.luo_rules.specs.Definitions.{names_of, definitions};
ghost use Rattle.luo_rules.specs.TypeBreaches.{types_breaches, measures_breaches, first_breaches};
ghost use Rattle.luo_rules.specs.Nodes.{setting_of};
ghost use Rattle.luo_rules.specs.Checks.{IsWithinLimits};

use crate::definition_check::{check_measures, check_types};
use crate::definitions::{Entry, Measured, definitions, measures};
use crate::expressions::Checker;
use crate::naming::names_of;
use crate::scheme::Scheme;
use crate::setting::setting;
use luo_rules::{Setting, Stop};
use luo_source::{Source, TypeDef};
use std::alloc::Global;

// Checks definitions and then measures.
fn check_all(
    checker: &Checker<'_>,
    defs: &[Entry],
    measures: &[Measured],
    types: &[TypeDef],
) -> Result<(), Stop>
    requires { sum_by (λ d. length d.names) types.now ≤ DEFINITION_LIMIT }
    ensures definitions { OnOk result
        (types_breaches checker.now.universe checker.now.names.now defs.now 0
        (map type_def_of types.now) ≡ []) }
    ensures measures { OnOk result (measures_breaches checker.now.names.now 0 measures.now ≡ []) }
    ensures stops { IfErr result (λ s. StopsAt
        (types_breaches checker.now.universe checker.now.names.now defs.now 0
        (map type_def_of types.now) ++ measures_breaches checker.now.names.now 0 measures.now) s) }
{
    check_types(checker, defs, types)?;
    check_measures(checker.alloc, checker.names, measures)?;
    Ok(())
}

// Checks the definitions and measures, and gives the definitions with the node of each.
fn checked<'s>(alloc: Global, source: &'s Source) -> Result<Scheme<'s>, Stop>
    requires { IsWithinLimits (plain_source source.now) }
    ensures ok { OnOk result (first_breaches (plain_source source.now) ≡ []) }
    ensures universe { IfOk result (λ s. s.universe ≡ source.now.universe) }
    ensures names { IfOk result (λ s. s.names ≡ names_of (plain_source source.now)) }
    ensures defs { IfOk result (λ s. s.defs.items ≡ definitions (plain_source source.now)) }
    ensures stops { IfErr result (λ s. StopsAt (first_breaches (plain_source source.now)) s) }
{
    let types = source.types.as_slice();
    let defs = definitions(alloc, types)?;
    let measured = measures(alloc, source.measures.as_slice())?;
    let names = names_of(
        alloc,
        defs.as_slice(),
        measured.as_slice(),
        source.procs.as_slice(),
    )?;
    let checker = Checker {
        alloc,
        universe: source.universe,
        names: &names,
    };
    check_all(&checker, defs.as_slice(), measured.as_slice(), types)?;
    let scheme = Scheme::new(alloc, source.universe, names, defs)?;
    Ok(scheme)
}

/// Checks the definitions and measures of a source within the limits, and makes its setting.
pub(crate) fn types(alloc: Global, source: &Source) -> Result<Setting, Stop>
    requires { IsWithinLimits (plain_source source.now) }
    ensures ok { OnOk result (first_breaches (plain_source source.now) ≡ []) }
    ensures setting { IfOk result (λ s. s ≡ setting_of (plain_source source.now)) }
    ensures stops { IfErr result (λ s. StopsAt (first_breaches (plain_source source.now)) s) }
{
    let scheme = checked(alloc, source)?;
    let made = setting(scheme, source.procs.as_slice())?;
    Ok(made)
}
