// The number of statements of a value.
ghost use Rattle.std.specs.Prelude.{◌≡◌};
ghost use Rattle.luo_num.specs.Mark.{capped};
ghost use Rattle.luo_rules.specs.Statements.{value_statements};
ghost use Rattle.luo_source.specs.View.{source_value_of};
ghost use Rattle.luo_value_types.specs.inner.Lists.{parts_statements, arms_statements};

use luo_num::marked_add;
use luo_source::{SourceValue, SourceValueArm};

/// How many statements a value is. Each atom, each variable that is handed on, each call and each case is
/// one; a tuple, a branch and a case have what is inside as well.
#[cycle(value_statements)]
pub fn count_statements(value: &SourceValue) -> u128
    ensures { result ≡ capped (value_statements (source_value_of value.now)) }
{
    match value {
        SourceValue::Given(_) => 1,
        SourceValue::Made { .. } => 1,
        SourceValue::Atom { .. } => 1,
        SourceValue::Tuple { parts, .. } => count_parts(parts.as_slice()),
        SourceValue::Branch { inner, .. } => count_statements(inner.get()),
        SourceValue::Case { arms, .. } => marked_add(1, count_arms(arms.as_slice())),
    }
}

// How many statements values are together.
#[cycle(value_statements)]
fn count_parts(parts: &[SourceValue]) -> u128
    ensures { result ≡ capped (parts_statements parts.now) }
{
    let mut sum = 0;
    for part in parts {
        sum = marked_add(sum, count_statements(part));
    }
    sum
}

// How many statements the values of arms are together.
#[cycle(value_statements)]
fn count_arms(arms: &[SourceValueArm]) -> u128
    ensures { result ≡ capped (arms_statements arms.now) }
{
    let mut sum = 0;
    for arm in arms {
        sum = marked_add(sum, count_statements(&arm.body));
    }
    sum
}
