// Breaches, and the uses of names as what they are.
ghost use Rattle.std.specs.Prelude.{◌≡◌, [], ◌∷◌, Some, is_some, if◌then◌else◌, IfOk, IfErr, OnOk};
ghost use Rattle.luo_rules.specs.declared.names.Meaning.TheVariants.{Definition, Procedure};
ghost use Rattle.luo_rules.specs.declared.rule.Rule.TheVariants.{Y2, Y3};
ghost use Rattle.luo_rules.specs.Breaches.{broken, broken_at, StopsAt};
ghost use Rattle.luo_rules.specs.Meanings.{type_use, measure_use, procedure_use, value_of};

use luo_num::Items;
use luo_rules::{Breach, Meaning, Rule, Stop};
use luo_source::Name;
use std::alloc::{AllocError, Global};

// A breach about one text.
fn about(alloc: Global, rule: Rule, token: usize, text: &[u8]) -> Result<Breach, AllocError>
    ensures { IfOk result (λ b. broken rule token text.now ≡ b ∷ []) }
{
    let mut names = Items::new(alloc);
    names.push(Items::from_slice(alloc, text)?)?;
    Ok(Breach { rule, token, names })
}

/// The stop at a breach of this rule at a token, about this text.
pub fn breach(alloc: Global, rule: Rule, token: usize, text: &[u8]) -> Stop
    ensures { StopsAt (broken rule token text.now) result }
{
    match about(alloc, rule, token, text) {
        Ok(made) => Stop::Breach(made),
        Err(_) => Stop::NoMemory,
    }
}

/// The stop at a breach of this rule at a name, about it.
pub fn breach_at(alloc: Global, rule: Rule, name: &Name) -> Stop
    ensures { StopsAt (broken_at rule name.now) result }
{
    breach(alloc, rule, name.at, name.text.as_slice())
}

// The stop at a name that means something else than it is used as, or nothing.
fn other_use(alloc: Global, meant: Option<Meaning>, name: &Name) -> Stop
    ensures { StopsAt (broken_at (if is_some meant then Y3 else Y2) name.now) result }
{
    match meant {
        Some(_) => breach_at(alloc, Rule::Y3, name),
        None => breach_at(alloc, Rule::Y2, name),
    }
}

/// The definition of a name that is used as a type, by its meaning.
pub fn use_type(alloc: Global, meant: Option<Meaning>, name: &Name) -> Result<usize, Stop>
    ensures ok { OnOk result (type_use meant name.now ≡ []) }
    ensures definition { IfOk result (λ i. meant ≡ Some (Definition i)) }
    ensures stops { IfErr result (λ s. StopsAt (type_use meant name.now) s) }
{
    match meant {
        Some(Meaning::Definition(definition)) => Ok(definition),
        _ => Err(other_use(alloc, meant, name)),
    }
}

/// The value of a name that is used as a measure, by its meaning.
pub fn use_measure(alloc: Global, meant: Option<Meaning>, name: &Name) -> Result<u128, Stop>
    ensures ok { OnOk result (measure_use meant name.now ≡ []) }
    ensures value { IfOk result (λ v. v ≡ value_of meant) }
    ensures stops { IfErr result (λ s. StopsAt (measure_use meant name.now) s) }
{
    match meant {
        Some(Meaning::Measure { value, .. }) => Ok(value),
        _ => Err(other_use(alloc, meant, name)),
    }
}

/// The procedure of a name that is used as one, by its meaning.
pub fn use_procedure(alloc: Global, meant: Option<Meaning>, name: &Name) -> Result<usize, Stop>
    ensures ok { OnOk result (procedure_use meant name.now ≡ []) }
    ensures procedure { IfOk result (λ f. meant ≡ Some (Procedure f)) }
    ensures stops { IfErr result (λ s. StopsAt (procedure_use meant name.now) s) }
{
    match meant {
        Some(Meaning::Procedure(procedure)) => Ok(procedure),
        _ => Err(other_use(alloc, meant, name)),
    }
}
