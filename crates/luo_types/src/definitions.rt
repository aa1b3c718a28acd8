// The definitions and measures of a source, one for each name.
ghost use Rattle.std.specs.Prelude.{◌≡◌, ◌++◌, flat_map, OnOk, IfOk};
ghost use Rattle.luo_rules.specs.Definitions.{values};
ghost use Rattle.luo_types.specs.inner.Held.{copies_of};

use luo_num::NoMemory;
use luo_source::{MeasureDef, Name, TypeDef, TypeExpr};
use std::alloc::Global;
use std::marker::Model;

/// A definition of one name, with its copy of the right side.
#[derive(Drop)]
pub(crate) struct Entry<'s> {
    pub name: &'s Name,
    pub right: &'s TypeExpr,
}

impl<'s> Model for Entry<'s> {
    ghost use Rattle.luo_rules.specs.Definitions.{Definition};
    ghost use Rattle.luo_source.specs.View.{expr_of};
    ghost use Rattle.luo_types.specs.inner.Codes.{coded_definition};

    ghost Value = { Definition };

    ghost coded = { coded_definition };

    ghost view = { λ e. record { name = e.name.now; right = expr_of e.right.now } };
}

/// A measure of one name.
#[derive(Drop)]
pub(crate) struct Measured<'s> {
    pub name: &'s Name,
    pub value: u128,
}

impl<'s> Model for Measured<'s> {
    ghost use Rattle.std.specs.Prelude.{ℕ};
    ghost use Rattle.luo_source.specs.declared.names.Name.{Name};

    ghost Value = { Name × ℕ };

    ghost view = { λ m. (m.name.now, m.value) };
}

// Puts a definition for each name after the others.
fn put_copies<'s>(all: &mut Vec<Entry<'s>>, def: &'s TypeDef) -> Result<(), NoMemory>
    ensures { OnOk result (all.new.items ≡ all.old.items ++ copies_of def.now) }
{
    for name in def.names.as_slice() {
        all.push(Entry {
            name,
            right: &def.body,
        })?;
    }
    Ok(())
}

/// The definitions, in text order.
pub(crate) fn definitions<'s>(
    alloc: Global,
    types: &'s [TypeDef],
) -> Result<Vec<Entry<'s>>, NoMemory>
    ensures { IfOk result (λ all. all.items ≡ flat_map copies_of types.now) }
{
    let mut all = Vec::new(alloc);
    for def in types {
        put_copies(&mut all, def)?;
    }
    Ok(all)
}

// Puts a measure for each name after the others.
fn put_values<'s>(all: &mut Vec<Measured<'s>>, def: &'s MeasureDef) -> Result<(), NoMemory>
    ensures { OnOk result (all.new.items ≡ all.old.items ++ values def.now) }
{
    for name in def.names.as_slice() {
        all.push(Measured {
            name,
            value: def.value,
        })?;
    }
    Ok(())
}

/// The measures, in text order.
pub(crate) fn measures<'s>(
    alloc: Global,
    defs: &'s [MeasureDef],
) -> Result<Vec<Measured<'s>>, NoMemory>
    ensures { IfOk result (λ all. all.items ≡ flat_map values defs.now) }
{
    let mut all = Vec::new(alloc);
    for def in defs {
        put_values(&mut all, def)?;
    }
    Ok(all)
}
