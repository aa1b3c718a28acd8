// The typing and core form of procedures and analyze lines.
#![tactic(auto, using(luo_value_types::proofs::StopLemmas::stop_steps))]

ghost use Rattle.std.specs.Prelude.{◌≡◌, [], ◌≤◌, Some, map, flat_map, length, sum_by, IfOk, IfErr, OnOk};
ghost use Rattle.luo_num.specs.declared.limits.TheConstants.{PROCEDURE_LIMIT, STATEMENT_LIMIT};
ghost use Rattle.luo_model.specs.Scopes.ValueBodies.{value_body, value_sites};
ghost use Rattle.luo_model.specs.View as model;
ghost use Rattle.luo_rules.specs.Breaches.{StopsAt};
ghost use Rattle.luo_rules.specs.Meanings.{type_use, procedure_use, procedure_of};
ghost use Rattle.luo_rules.specs.Settings.{meant, type_node, part_meant};
ghost use Rattle.luo_value_types.specs.inner.Room.{HasRoom};
ghost use Rattle.luo_rules.specs.Statements.{value_statements};
ghost use Rattle.luo_rules.specs.ValueBreaches.{value_breaches};
ghost use Rattle.luo_rules.specs.ValueCore.{value_core};
ghost use Rattle.luo_rules.specs.Counted.{stmts_statements, body_statements};
ghost use Rattle.luo_rules.specs.StatementBreaches.{stmts_breaches};
ghost use Rattle.luo_source.specs.View.{stmt_list, source_value_of, proc_body_of, proc_def_of};
ghost use Rattle.luo_types.specs.inner.Held.{body_statements_in};
ghost use Rattle.luo_types.specs.inner.ProceduresMade.{IsDone, IsBodyMade, IsProcMade, AreProcsMade};
ghost use Rattle.luo_rules.specs.StatementCore.{stmts_sites};
ghost use Rattle.luo_rules.specs.inner.StatementLists.{stmts_does};
ghost use Rattle.luo_rules.specs.Whole.{result_breaches, body_breaches, proc_breaches, procs_breaches};

use crate::rules::check_name;
use crate::statements::{one_variable, stmts};
use luo_model::{Body, Made, Part, Proc, Universe};
use luo_num::Items;
use luo_rules::{Meaning, Rule, Setting, Stop};
use luo_source::{Name, ProcBody, ProcDef, SourceValue, Stmt};
use luo_value_types::{Context, Maker, breach, take_site, use_procedure, use_type, value};
use std::alloc::Global;

// A procedure with a result stands in an unlabelled program.
fn check_universe(alloc: Global, universe: Universe, colon: usize, name: &Name) -> Result<(), Stop>
    ensures ok { OnOk result (result_breaches universe colon name.now ≡ []) }
    ensures stops { IfErr result (λ e. StopsAt (result_breaches universe colon name.now) e) }
{
    match universe {
        Universe::Unlabelled => Ok(()),
        Universe::Labelled => Err(breach(alloc, Rule::Y14, colon, name.text.as_slice())),
    }
}

// The body that runs statements in this scope.
fn run_body(context: &Context<'_>, inner: &[Stmt], next: &mut usize) -> Result<Body, Stop>
    requires room { HasRoom (stmts_statements (stmt_list inner.now)) 0 next.old }
    ensures ok { IfOk result (λ body. IsDone
        (stmts_breaches context.now.setting.now context.now.scope.now (stmt_list inner.now))
        (stmts_does context.now.setting.now context.now.scope.now next.old (stmt_list inner.now))
        (stmts_sites (stmt_list inner.now)) body next.old next.new) }
    ensures stops { IfErr result (λ e. StopsAt
        (stmts_breaches context.now.setting.now context.now.scope.now (stmt_list inner.now)) e) }
{
    let mut maker = Maker::new(context.alloc, *next);
    stmts(context, inner, &mut maker)?;
    *next = maker.next;
    Ok(maker.body)
}

// The body that makes a value of this node in this scope, and the value.
fn made_body(
    context: &Context<'_>,
    expected: usize,
    source: &SourceValue,
    next: &mut usize,
) -> Result<(Body, luo_model::Value), Stop>
    requires room { HasRoom (value_statements (source_value_of source.now)) 0 next.old }
    ensures ok { IfOk result (λ made. IsDone
        (value_breaches context.now.setting.now context.now.scope.now (Some expected)
        (source_value_of source.now))
        (value_body next.old
        (value_core context.now.setting.now context.now.scope.now (Some expected)
        (source_value_of source.now)))
        (value_sites
        (value_core context.now.setting.now context.now.scope.now (Some expected)
        (source_value_of source.now))) made.0 next.old next.new) }
    ensures formed { IfOk result (λ made. model.value_of made.1
        ≡ value_core context.now.setting.now context.now.scope.now (Some expected)
        (source_value_of source.now)) }
    ensures stops { IfErr result (λ e. StopsAt
        (value_breaches context.now.setting.now context.now.scope.now (Some expected)
        (source_value_of source.now)) e) }
{
    let mut maker = Maker::new(context.alloc, *next);
    let made = value(context, expected, source, &mut maker)?;
    *next = maker.next;
    Ok((maker.body, made))
}

// What a procedure on this part does, and its result.
fn body(
    context: &Context<'_>,
    proc: &ProcDef,
    on: Part,
    next: &mut usize,
) -> Result<(Body, Option<Made>), Stop>
    requires on { on ≡ part_meant context.now.setting.now
        (meant context.now.setting.now proc.now.on) }
    requires known { type_node context.now.setting.now proc.now.on ≡ Some on.node }
    requires room { HasRoom (body_statements (proc_body_of proc.now.body)) 0 next.old }
    ensures ok { IfOk result (λ made.
        IsBodyMade context.now.setting.now (proc_def_of proc.now) on.node
        made.0 made.1 next.old next.new) }
    ensures stops { IfErr result (λ e. StopsAt
        (body_breaches context.now.setting.now (proc_def_of proc.now) (Some on.node)
        (proc_body_of proc.now.body)) e) }
{
    match &proc.body {
        ProcBody::Statements(inner) => {
            let scope = one_variable(context.alloc, &proc.param, on)?;
            let inside = Context {
                alloc: context.alloc,
                setting: context.setting,
                scope: scope.as_slice(),
            };
            let body = run_body(&inside, inner.as_slice(), next)?;
            Ok((body, None))
        }
        ProcBody::Value {
            colon,
            result,
            value: source,
        } => {
            check_universe(context.alloc, context.setting.universe, *colon, &proc.name)?;
            let meant = context.setting.meant(result);
            use_type(context.alloc, meant, result)?;
            let made_on = context.setting.part_meant(meant);
            let scope = one_variable(context.alloc, &proc.param, on)?;
            let inside = Context {
                alloc: context.alloc,
                setting: context.setting,
                scope: scope.as_slice(),
            };
            let (body, value) = made_body(&inside, made_on.node, source, next)?;
            Ok((body, Some(Made { on: made_on, value })))
        }
    }
}

// Checks procedure `number` and makes it, with the next sites.
fn procedure(
    context: &Context<'_>,
    number: usize,
    proc: &ProcDef,
    next: &mut usize,
) -> Result<Proc, Stop>
    requires room { HasRoom (body_statements (proc_body_of proc.now.body)) 0 next.old }
    ensures ok { IfOk result (λ made.
        IsProcMade context.now.setting.now number (proc_def_of proc.now) made next.old next.new) }
    ensures stops { IfErr result (λ e. StopsAt
        (proc_breaches context.now.setting.now number (proc_def_of proc.now)) e) }
{
    check_name(
        context.alloc,
        &context.setting.names,
        &proc.name,
        Meaning::Procedure(number),
    )?;
    let meant = context.setting.meant(&proc.on);
    use_type(context.alloc, meant, &proc.on)?;
    let on = context.setting.part_meant(meant);
    let (body, result) = body(context, proc, on, next)?;
    let name = Items::from_slice(context.alloc, proc.name.text.as_slice())?;
    Ok(Proc {
        name,
        on,
        body,
        site: take_site(next),
        result,
    })
}

/// Checks procedures and makes them, with sites from 0. It stops at the first breach.
pub(crate) fn procedures(context: &Context<'_>, procs: &[ProcDef]) -> Result<Items<Proc>, Stop>
    requires statements { sum_by (λ p. body_statements_in p.body) procs.now
        ≤ STATEMENT_LIMIT }
    requires few { length procs.now ≤ PROCEDURE_LIMIT }
    ensures ok { IfOk result (λ made.
        AreProcsMade context.now.setting.now (map proc_def_of procs.now) made) }
    ensures stops { IfErr result (λ e. StopsAt
        (procs_breaches context.now.setting.now 0 (map proc_def_of procs.now)) e) }
{
    let mut made = Items::new(context.alloc);
    let mut next = 0;
    for (number, proc) in procs.iter().enumerate() {
        let done = procedure(context, number, proc, &mut next)?;
        made.push(done)?;
    }
    Ok(made)
}

/// The procedures that analyze lines name. It stops at the first breach.
pub(crate) fn analyses(
    alloc: Global,
    setting: &Setting,
    names: &[Name],
) -> Result<Items<usize>, Stop>
    ensures ok { OnOk result (flat_map
        (λ name. procedure_use (meant setting.now name) name) names.now ≡ []) }
    ensures formed { IfOk result (λ made. made ≡ map
        (λ name. procedure_of (meant setting.now name)) names.now) }
    ensures stops { IfErr result
        (λ e. StopsAt (flat_map
        (λ name. procedure_use (meant setting.now name) name) names.now) e) }
{
    let mut made = Items::new(alloc);
    for name in names {
        let procedure = use_procedure(alloc, setting.meant(name), name)?;
        made.push(procedure)?;
    }
    Ok(made)
}
