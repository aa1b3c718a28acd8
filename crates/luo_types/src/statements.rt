// The typing and core form of statements.
ghost use Rattle.std.specs.Prelude.{◌≡◌, [], ◌∷◌, ◌++◌, ◌+◌, ◌^◌, ◌<◌, true, List, Some, length, sum_by, slice_get, IfOk, IfErr, OnOk};
ghost use Rattle.luo_model.specs.Program.{Does, no_items};
ghost use Rattle.luo_model.specs.Scopes.Stands.{stands};
ghost use Rattle.luo_model.specs.View.{body_of, item_of};
ghost use Rattle.luo_source.specs.declared.statements.Stmt as form;
ghost use Rattle.luo_rules.specs.declared.rule.Breach.{Breach};
ghost use Rattle.luo_rules.specs.Breaches.{StopsAt};
ghost use Rattle.luo_rules.specs.Meanings.{measure_use, value_of};
ghost use Rattle.luo_rules.specs.Settings.{meant, shape_at, found};
ghost use Rattle.luo_value_types.specs.inner.Stands.{stand_of};
ghost use Rattle.luo_value_types.specs.inner.Room.{HasRoom};
ghost use Rattle.luo_source.specs.View.{stmt_of, stmt_list, source_arm_list};
ghost use Rattle.luo_rules.specs.Counted.{stmt_statements, stmts_statements, arms_statements};
ghost use Rattle.luo_rules.specs.StatementBreaches.{walk_breaches, stmt_breaches};
ghost use Rattle.luo_rules.specs.inner.StatementLists.{one_arm_breaches, arm_statements};
ghost use Rattle.luo_types.specs.inner.StatementsMade.{IsWalked};
ghost use Rattle.luo_types.specs.inner.StatementChecks.{ChecksCharge, ChecksStmt, ChecksStmts, ChecksArm, ChecksArms};
ghost use Rattle.luo_value_types.specs.inner.Values.{HasRoomFor};

use luo_model::{Arm, Body, Item, Part, Shape};
use luo_num::Items;
use luo_rules::{Rule, Stop, Variable};
use luo_source::{Name, SourceArm, Stmt};
use luo_value_types::{
    Context, Maker, Stand, argument, arm_stand, breach_at, case_variable, pattern, push_item,
    take_site, use_measure, use_procedure, variable,
};
use std::alloc::{AllocError, Global};

// Checks a charge and adds it to the body.
fn charge(context: &Context<'_>, measure: &Name, body: &mut Body) -> Result<(), Stop>
    requires room { HasRoom 1 body.old.own 0 }
    ensures { ChecksCharge context.now.setting.now measure.now result body.old body.new }
{
    let value = use_measure(context.alloc, context.setting.meant(measure), measure)?;
    body.own += value;
    Ok(())
}

// Checks a call and adds it to the body.
fn call(context: &Context<'_>, callee: &Name, arg: &Name, maker: &mut Maker) -> Result<(), Stop>
    requires { HasRoomFor 1 maker.old }
    ensures { ChecksStmt context.now.setting.now context.now.scope.now
        (form.Call callee.now arg.now) result maker.old maker.new }
{
    let meant = context.setting.meant(callee);
    let procedure = use_procedure(context.alloc, meant, callee)?;
    let place = argument(context, meant, arg, callee)?;
    let site = take_site(&mut maker.next);
    push_item(
        &mut maker.body,
        Item::Call {
            var: place,
            callee: procedure,
            site,
        },
    )?;
    Ok(())
}

// Checks an arm that stands for this, in a case on this variable, and makes it.
#[cycle(statements)]
fn arm(
    context: &Context<'_>,
    stand: Stand,
    var: &Name,
    arm: &SourceArm,
    next: &mut usize,
) -> Result<Arm, Stop>
    requires room { HasRoom (arm_statements arm.now) 0 next.old }
    ensures { ChecksArm context.now.setting.now (stand_of stand) var.now arm.now
        result next.old next.new }
{
    let opened = pattern(context, stand, var, &arm.pattern)?;
    let inside = Context {
        alloc: context.alloc,
        setting: context.setting,
        scope: opened.scope.as_slice(),
    };
    let mut maker = Maker::new(context.alloc, *next);
    stmt(&inside, &arm.body, &mut maker)?;
    *next = maker.next;
    Ok(Arm {
        bind: opened.bind,
        body: maker.body,
    })
}

// Checks the arms of a case on this part, and makes them.
#[cycle(statements)]
fn arms(
    context: &Context<'_>,
    on: Part,
    var: &Name,
    arms: &[SourceArm],
    next: &mut usize,
) -> Result<Items<Arm>, Stop>
    requires room { HasRoom (arms_statements (source_arm_list arms.now)) 0 next.old }
    requires even { length arms.now
        ≡ length (stands on (shape_at context.now.setting.now on.node)) }
    ensures { ChecksArms context.now.setting.now on var.now arms.now result next.old next.new }
{
    let mut made = Items::new(context.alloc);
    for (place, one) in arms.iter().enumerate() {
        let stand = arm_stand(context.setting, on, place);
        let done = arm(context, stand, var, one, next)?;
        made.push(done)?;
    }
    Ok(made)
}

// Checks a case and adds it to the body.
#[cycle(statements)]
fn case(
    context: &Context<'_>,
    var: &Name,
    branches: &[SourceArm],
    maker: &mut Maker,
) -> Result<(), Stop>
    requires room { HasRoomFor (stmt_statements
        (stmt_of (form.Case var.now branches.now))) maker.old }
    ensures { ChecksStmt context.now.setting.now context.now.scope.now
        (form.Case var.now branches.now) result maker.old maker.new }
{
    let there = case_variable(context, var, branches.len())?;
    let made = arms(context, there.1, var, branches, &mut maker.next)?;
    let site = take_site(&mut maker.next);
    push_item(
        &mut maker.body,
        Item::Case {
            var: there.0,
            arms: made,
            site,
        },
    )?;
    Ok(())
}

// The place of a walk's variable, and the part of what it binds. It has to be bound, and of a collection.
fn collection(context: &Context<'_>, source: &Name) -> Result<(usize, Part), Stop>
    ensures ok { IfOk result (λ walk. IsWalked context.now.setting.now
        (found context.now.scope.now source.now)
        source.now walk) }
    ensures stops { IfErr result (λ e. (inner : List Breach) → StopsAt
        (walk_breaches context.now.setting.now
        (found context.now.scope.now source.now) source.now inner) e) }
{
    let there = variable(context, source)?;
    match context.setting.shape(there.1.node) {
        Some(Shape::Coll { part, .. }) => Ok((there.0, *part)),
        _ => Err(breach_at(context.alloc, Rule::Y12, source)),
    }
}

// The scope of one variable, of this part.
pub(crate) fn one_variable(
    alloc: Global,
    name: &Name,
    part: Part,
) -> Result<Items<Variable>, AllocError>
    ensures { IfOk result (λ scope. scope ≡ record { name = name.now.text; part = part } ∷ []) }
{
    let mut scope = Items::new(alloc);
    scope.push(Variable {
        name: Items::from_slice(alloc, name.text.as_slice())?,
        part,
    })?;
    Ok(scope)
}

// Checks a walk and adds it to the body.
#[cycle(statements)]
fn walk(
    context: &Context<'_>,
    var: &Name,
    source: &Name,
    each: &Stmt,
    maker: &mut Maker,
) -> Result<(), Stop>
    requires room { HasRoomFor (stmt_statements
        (stmt_of (form.Forall var.now source.now each.now))) maker.old }
    ensures { ChecksStmt context.now.setting.now context.now.scope.now
        (form.Forall var.now source.now each.now) result maker.old maker.new }
{
    let there = collection(context, source)?;
    let inner = one_variable(context.alloc, var, there.1)?;
    let inside = Context {
        alloc: context.alloc,
        setting: context.setting,
        scope: inner.as_slice(),
    };
    let mut made = Maker::new(context.alloc, maker.next);
    stmt(&inside, each, &mut made)?;
    maker.next = made.next;
    let body_site = take_site(&mut maker.next);
    let walk_site = take_site(&mut maker.next);
    push_item(
        &mut maker.body,
        Item::Forall {
            var: there.0,
            body: made.body,
            body_site,
            site: walk_site,
        },
    )?;
    Ok(())
}

/// Checks statements one after the other, and adds what they do to the body, with the next sites.
///
/// It stops at the first breach.
#[cycle(statements)]
pub fn stmts(context: &Context<'_>, stmts: &[Stmt], maker: &mut Maker) -> Result<(), Stop>
    requires room { HasRoomFor (stmts_statements (stmt_list stmts.now)) maker.old }
    ensures { ChecksStmts context.now.setting.now context.now.scope.now
        stmts.now result maker.old maker.new }
{
    for one in stmts {
        stmt(context, one, maker)?;
    }
    Ok(())
}

// Checks a statement, and adds what it does to the body, with the next sites.
#[cycle(statements)]
fn stmt(context: &Context<'_>, stmt: &Stmt, maker: &mut Maker) -> Result<(), Stop>
    requires room { HasRoomFor (stmt_statements (stmt_of stmt.now)) maker.old }
    ensures { ChecksStmt context.now.setting.now context.now.scope.now
        stmt.now result maker.old maker.new }
{
    match stmt {
        Stmt::Skip => {}
        Stmt::Charge(measure) => charge(context, measure, &mut maker.body)?,
        Stmt::Call { callee, arg } => call(context, callee, arg, maker)?,
        Stmt::Block(inner) => stmts(context, inner.as_slice(), maker)?,
        Stmt::Case { var, arms } => case(context, var, arms.as_slice(), maker)?,
        Stmt::Forall {
            var,
            source,
            body: each,
        } => { walk(context, var, source, each.get(), maker)? }
    }
    Ok(())
}
