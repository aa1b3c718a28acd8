// What procedures with a result make of structures.
ghost use Rattle.std.specs.Prelude.{◌≡◌, ◌≤◌, IfOk};
ghost use Rattle.luo_model.specs.Tree.{Tree, Trees, to_list};
ghost use Rattle.luo_model.specs.Lists.{value_list, value_arm_list};
ghost use Rattle.luo_model.specs.View.{plain_of, value_of};
ghost use Rattle.luo_struct.specs.View.{tree_of, tree_list};
ghost use Rattle.luo_interp.specs.Makes.{ValueMakes, ValuesMake, ArmsMake, Makes};
ghost use Rattle.luo_interp.specs.Takes.{TakesForResult};
ghost use Rattle.luo_interp.specs.inner.Short.{Ends, IsShort};
ghost use Rattle.luo_interp.specs.inner.Values.{ValueIsShort, ValuesAreShort, StandsValue, StandValues, StandValueArms};
ghost use Rattle.luo_interp.specs.inner.ValueSizes.{value_size, values_size, value_arms_size, largest};

use crate::charges::bound;
use luo_founded::Ranks;
use luo_model::{Bind, Program, Value, ValueArm};
use luo_num::{Boxed, Items, NoMemory};
use luo_struct::Structure;
use std::alloc::Global;
use std::slice;

// What stands where nothing is made.
fn nothing(alloc: Global) -> Structure {
    Structure::Tup {
        parts: Items::new(alloc),
    }
}

// What a procedure makes. Calls on the same structure go on for less than `left` steps.
#[cycle(makes)]
fn procedure_makes(
    alloc: Global,
    program: &Program,
    left: usize,
    callee: usize,
    s: &Structure,
) -> Result<Structure, NoMemory>
    requires ends { Ends (plain_of program.now) }
    requires short { IsShort (plain_of program.now) left callee }
    ensures { (t : Tree) → Makes (plain_of program.now) callee
        (tree_of s.now) t → IfOk result (λ made. tree_of made ≡ t) }
{
    let Some(procedure) = program.procs.get(callee) else {
        return Ok(nothing(alloc));
    };
    match &procedure.result {
        Some(made) => value_makes(alloc, program, left - 1, &made.value, slice::from_ref(s)),
        None => Ok(nothing(alloc)),
    }
}

// What a value makes.
#[cycle(makes)]
fn value_makes(
    alloc: Global,
    program: &Program,
    left: usize,
    value: &Value,
    vars: &[Structure],
) -> Result<Structure, NoMemory>
    requires ends { Ends (plain_of program.now) }
    requires stands { StandsValue (plain_of program.now) (value_of value.now) }
    requires short { ValueIsShort (plain_of program.now) left (value_of value.now) }
    requires small { value_size (value_of value.now) ≤ largest (plain_of program.now) }
    ensures { (t : Tree) → ValueMakes (Makes (plain_of program.now)) (value_of value.now)
        (to_list (tree_list vars.now)) t → IfOk result (λ made. tree_of made ≡ t) }
{
    match value {
        Value::Given(var) => match vars.get(*var) {
            Some(s) => s.clone_in(alloc),
            None => Ok(nothing(alloc)),
        },
        Value::Call { var, callee } => match vars.get(*var) {
            Some(s) => procedure_makes(alloc, program, left, *callee, s),
            None => Ok(nothing(alloc)),
        },
        Value::Atom { weight, .. } => Ok(Structure::Atom {
            weight: *weight,
            label: 0,
        }),
        Value::Tuple(values) => {
            let parts = values_make(alloc, program, left, values.as_slice(), vars)?;
            Ok(Structure::Tup { parts })
        }
        Value::Branch { number, inner } => {
            let made = value_makes(alloc, program, left, inner.get(), vars)?;
            let inner = Boxed::new(alloc, made)?;
            Ok(Structure::Inj {
                branch: *number,
                inner,
            })
        }
        Value::Case { var, arms } => match vars.get(*var) {
            Some(s) => arms_make(alloc, program, arms.as_slice(), s),
            None => Ok(nothing(alloc)),
        },
    }
}

// What values make, in order.
#[cycle(makes)]
fn values_make(
    alloc: Global,
    program: &Program,
    left: usize,
    values: &[Value],
    vars: &[Structure],
) -> Result<Items<Structure>, NoMemory>
    requires ends { Ends (plain_of program.now) }
    requires stand { StandValues (plain_of program.now) (value_list values.now) }
    requires short { ValuesAreShort (plain_of program.now) left (value_list values.now) }
    requires small { values_size (value_list values.now) ≤ largest (plain_of program.now) }
    ensures { (ts : Trees) → ValuesMake (Makes (plain_of program.now)) (value_list values.now)
        (to_list (tree_list vars.now)) ts → IfOk result (λ made. tree_list made ≡ ts) }
{
    let mut parts = Items::new(alloc);
    for value in values {
        parts.push(value_makes(alloc, program, left, value, vars)?)?;
    }
    Ok(parts)
}

// What the arms of a case make of a structure.
#[cycle(makes)]
fn arms_make(
    alloc: Global,
    program: &Program,
    arms: &[ValueArm],
    s: &Structure,
) -> Result<Structure, NoMemory>
    requires ends { Ends (plain_of program.now) }
    requires stand { StandValueArms (plain_of program.now) (value_arm_list arms.now) }
    requires small { value_arms_size (value_arm_list arms.now) ≤ largest (plain_of program.now) }
    ensures { (t : Tree) → ArmsMake (Makes (plain_of program.now)) (value_arm_list arms.now)
        (tree_of s.now) t → IfOk result (λ made. tree_of made ≡ t) }
{
    match s {
        Structure::Inj { branch, inner } => {
            let Some(place) = branch.checked_sub(1) else {
                return Ok(nothing(alloc));
            };
            match arms.get(place as usize) {
                Some(arm) => arm_makes(alloc, program, arm, bound(arm.bind, inner.get())),
                None => Ok(nothing(alloc)),
            }
        }
        Structure::Tup { parts } => {
            if arms.len() != 1 {
                return Ok(nothing(alloc));
            }
            let arm = &arms[0];
            match arm.bind {
                Bind::Parts(_) => arm_makes(alloc, program, arm, parts.as_slice()),
                _ => arm_makes(alloc, program, arm, &[]),
            }
        }
        _ => Ok(nothing(alloc)),
    }
}

// What an arm makes of what it binds.
#[cycle(makes)]
fn arm_makes(
    alloc: Global,
    program: &Program,
    arm: &ValueArm,
    vars: &[Structure],
) -> Result<Structure, NoMemory>
    requires ends { Ends (plain_of program.now) }
    requires stands { StandsValue (plain_of program.now) (value_of arm.now.value) }
    requires small { value_size (value_of arm.now.value) ≤ largest (plain_of program.now) }
    ensures { (t : Tree) → ValueMakes (Makes (plain_of program.now)) (value_of arm.now.value)
        (to_list (tree_list vars.now)) t → IfOk result (λ made. tree_of made ≡ t) }
{
    value_makes(alloc, program, program.procs.len() + 1, &arm.value, vars)
}

/// What the procedure makes of the structure, or `NoMemory`.
///
/// The ranks are those of the program, the procedure has a result, and the structure belongs to the node of its
/// parameter.
pub fn make(
    alloc: Global,
    program: &Program,
    ranks: &Ranks,
    callee: usize,
    s: &Structure,
) -> Result<Structure, NoMemory>
    requires same { ranks.now ≡ program.now }
    requires there { TakesForResult (plain_of program.now) callee (tree_of s.now) }
    ensures { IfOk result (λ made. Makes (plain_of program.now) callee (tree_of s.now)
        (tree_of made)) }
{
    let program = ranks.program();
    procedure_makes(alloc, program, program.procs.len() + 1, callee, s)
}
