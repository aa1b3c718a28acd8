// The typing and the core form of values.
ghost use Rattle.std.specs.Prelude.{◌≡◌, ◌≤◌, ◌+◌, ◌*◌, List, length};
ghost use Rattle.luo_num.specs.declared.limits.TheConstants.{NUMBER_LIMIT, STATEMENT_LIMIT};
ghost use Rattle.luo_source.specs.declared.values.SourceValue as source;
ghost use Rattle.luo_model.specs.Scopes.Stands.{stands};
ghost use Rattle.luo_rules.specs.Settings.{shape_at};
ghost use Rattle.luo_rules.specs.Statements.{value_statements};
ghost use Rattle.luo_source.specs.View.{source_value_of};
ghost use Rattle.luo_value_types.specs.inner.Lists.{parts_statements, arms_statements};
ghost use Rattle.luo_value_types.specs.inner.Stands.{stand_of};
ghost use Rattle.luo_value_types.specs.inner.Room.{HasRoom};
ghost use Rattle.luo_value_types.specs.inner.Values.{HasRoomFor, ChecksValue, ChecksParts};
ghost use Rattle.luo_value_types.specs.inner.Values.{ChecksArms, ChecksArm};

use crate::context::{Context, Maker};
use crate::items::{push_item, take_site};
use crate::patterns::pattern;
use crate::scope::argument;
use crate::stands::{Stand, arm_stand, case_variable};
use crate::uses::breach;
use crate::value_leaves::{
    branch_node, callee_of, charge_at, factors_at, given, no_branch, weight_at,
};
use luo_model::{Arm, Item, Part, Value, ValueArm};
use luo_num::{Boxed, Items};
use luo_rules::{Rule, Stop};
use luo_source::{Name, SourceValue, SourceValueArm};

// What a case is on, a variable and its part, and the node of what its arms make.
#[derive(Drop)]
struct Subject<'s> {
    var: &'s Name,
    on: Part,
    expected: usize,
}

/// Checks a value where a structure of this node is expected, and makes its core form. Its charges,
/// calls and cases go after those of the maker's body, with its next sites. It stops at its first
/// breach.
#[cycle(values)]
pub fn value(
    context: &Context<'_>,
    expected: usize,
    value: &SourceValue,
    maker: &mut Maker,
) -> Result<Value, Stop>
    requires room { HasRoomFor (value_statements (source_value_of value.now)) maker.old }
    ensures { ChecksValue context.now.setting.now context.now.scope.now expected value.now
        result maker.old maker.new }
{
    match value {
        SourceValue::Given(name) => {
            let place = given(context, expected, name)?;
            Ok(Value::Given(place))
        }
        SourceValue::Made { callee, arg } => call(context, expected, callee, arg, maker),
        SourceValue::Atom { charge, at } => atom(context, expected, charge, *at, maker),
        SourceValue::Tuple { parts, at } => {
            tuple(context, expected, parts.as_slice(), *at, maker)
        }
        SourceValue::Branch { number, at, inner } => {
            branch(context, expected, (*number, *at), inner.get(), maker)
        }
        SourceValue::Case { var, arms } => case(context, expected, var, arms.as_slice(), maker),
    }
}

// A call.
fn call(
    context: &Context<'_>,
    expected: usize,
    callee: &Name,
    arg: &Name,
    maker: &mut Maker,
) -> Result<Value, Stop>
    requires { HasRoomFor (value_statements
        (source_value_of (source.Made callee.now arg.now))) maker.old }
    ensures { ChecksValue context.now.setting.now context.now.scope.now expected
        (source.Made callee.now arg.now)
        result maker.old maker.new }
{
    let procedure = callee_of(context, expected, callee)?;
    let var = argument(context, context.setting.meant(callee), arg, callee)?;
    let site = take_site(&mut maker.next);
    push_item(
        &mut maker.body,
        Item::Call {
            var,
            callee: procedure,
            site,
        },
    )?;
    Ok(Value::Call {
        var,
        callee: procedure,
    })
}

// An atom.
fn atom(
    context: &Context<'_>,
    expected: usize,
    charge: &Option<Name>,
    at: usize,
    maker: &mut Maker,
) -> Result<Value, Stop>
    requires room { maker.old.body.own + NUMBER_LIMIT ≤ STATEMENT_LIMIT * NUMBER_LIMIT }
    ensures { ChecksValue context.now.setting.now context.now.scope.now expected
        (source.Atom charge.now at)
        result maker.old maker.new }
{
    let own = charge_at(context, charge)?;
    match weight_at(context.setting, expected) {
        Some(weight) => {
            maker.body.own += own;
            Ok(Value::Atom { weight, own })
        }
        None => Err(breach(context.alloc, Rule::Y15, at, b"atom")),
    }
}

// A tuple.
#[cycle(values)]
fn tuple(
    context: &Context<'_>,
    expected: usize,
    parts: &[SourceValue],
    at: usize,
    maker: &mut Maker,
) -> Result<Value, Stop>
    requires room { HasRoomFor (value_statements
        (source_value_of (source.Tuple parts.now at))) maker.old }
    ensures { ChecksValue context.now.setting.now context.now.scope.now expected
        (source.Tuple parts.now at)
        result maker.old maker.new }
{
    match factors_at(context.setting, expected, parts.len()) {
        Some(factors) => {
            let made = all_parts(context, factors, parts, maker)?;
            Ok(Value::Tuple(made))
        }
        None => Err(breach(context.alloc, Rule::Y15, at, b"product")),
    }
}

// The parts of a tuple of these factors.
#[cycle(values)]
fn all_parts(
    context: &Context<'_>,
    factors: &[Part],
    parts: &[SourceValue],
    maker: &mut Maker,
) -> Result<Items<Value>, Stop>
    requires each { length factors.now ≡ length parts.now }
    requires room { HasRoomFor (parts_statements parts.now) maker.old }
    ensures { ChecksParts context.now.setting.now context.now.scope.now factors.now parts.now
        result maker.old maker.new }
{
    let mut made = Items::new(context.alloc);
    for (i, part) in parts.iter().enumerate() {
        let one = value(context, factors[i].node, part, maker)?;
        made.push(one)?;
    }
    Ok(made)
}

// A structure of the branch of this number, with the token where the number stands.
#[cycle(values)]
fn branch(
    context: &Context<'_>,
    expected: usize,
    place: (u128, usize),
    inner: &SourceValue,
    maker: &mut Maker,
) -> Result<Value, Stop>
    requires room { HasRoomFor (value_statements
        (source_value_of (source.Branch place.0 place.1 inner.now))) maker.old }
    ensures { ChecksValue context.now.setting.now context.now.scope.now expected
        (source.Branch place.0 place.1 inner.now)
        result maker.old maker.new }
{
    let (number, at) = place;
    match branch_node(context.setting, expected, number) {
        Some(node) => {
            let made = value(context, node, inner, maker)?;
            Ok(Value::Branch {
                number: number as u32,
                inner: Boxed::new(context.alloc, made)?,
            })
        }
        None => Err(no_branch(context.alloc, at, number)),
    }
}

// A case.
#[cycle(values)]
fn case(
    context: &Context<'_>,
    expected: usize,
    var: &Name,
    arms: &[SourceValueArm],
    maker: &mut Maker,
) -> Result<Value, Stop>
    requires room { HasRoomFor (value_statements
        (source_value_of (source.Case var.now arms.now))) maker.old }
    ensures { ChecksValue context.now.setting.now context.now.scope.now expected
        (source.Case var.now arms.now)
        result maker.old maker.new }
{
    let there = case_variable(context, var, arms.len())?;
    let subject = Subject {
        var,
        on: there.1,
        expected,
    };
    let made = all_arms(context, &subject, arms, &mut maker.next)?;
    let case_site = take_site(&mut maker.next);
    push_item(
        &mut maker.body,
        Item::Case {
            var: there.0,
            arms: made.1,
            site: case_site,
        },
    )?;
    Ok(Value::Case {
        var: there.0,
        arms: made.0,
    })
}

// The arms of a case: those of the value, and those of the body.
#[cycle(values)]
fn all_arms(
    context: &Context<'_>,
    subject: &Subject<'_>,
    arms: &[SourceValueArm],
    next: &mut usize,
) -> Result<(Items<ValueArm>, Items<Arm>), Stop>
    requires each { length arms.now
        ≡ length (stands subject.now.on
        (shape_at context.now.setting.now subject.now.on.node)) }
    requires room { HasRoom (arms_statements arms.now) 0 next.old }
    ensures { ChecksArms context.now.setting.now subject.now.on subject.now.expected
        subject.now.var.now arms.now result next.old next.new }
{
    let mut values = Items::new(context.alloc);
    let mut bodies = Items::new(context.alloc);
    for (i, arm) in arms.iter().enumerate() {
        let stand = arm_stand(context.setting, subject.on, i);
        let made = one_arm(context, subject, stand, arm, next)?;
        values.push(made.0)?;
        bodies.push(made.1)?;
    }
    Ok((values, bodies))
}

// An arm of a case that stands for this: that of the value, and that of the body.
#[cycle(values)]
fn one_arm(
    context: &Context<'_>,
    subject: &Subject<'_>,
    stand: Stand,
    arm: &SourceValueArm,
    next: &mut usize,
) -> Result<(ValueArm, Arm), Stop>
    requires room { HasRoom (value_statements (source_value_of arm.now.body)) 0 next.old }
    ensures { ChecksArm context.now.setting.now (stand_of stand) subject.now.expected
        subject.now.var.now arm.now result next.old next.new }
{
    let opened = pattern(context, stand, subject.var, &arm.pattern)?;
    let inside = Context {
        alloc: context.alloc,
        setting: context.setting,
        scope: opened.scope.as_slice(),
    };
    let mut maker = Maker::new(context.alloc, *next);
    let made = value(&inside, subject.expected, &arm.body, &mut maker)?;
    *next = maker.next;
    let bind = opened.bind;
    Ok((
        ValueArm { bind, value: made },
        Arm {
            bind,
            body: maker.body,
        },
    ))
}
