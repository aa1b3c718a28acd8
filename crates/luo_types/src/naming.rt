// What the names of a source mean.
ghost use Rattle.std.specs.Prelude.{◌≡◌, [], map, OnOk, IfOk};
ghost use Rattle.luo_source.specs.View.{proc_def_of};
ghost use Rattle.luo_rules.specs.Definitions.{with_definitions, with_measures, with_procedures};

use crate::definitions::{Entry, Measured};
use luo_num::NoMemory;
use luo_rules::{Meaning, Names};
use luo_source::ProcDef;
use std::alloc::Global;

fn add_definitions(alloc: Global, names: &mut Names, defs: &[Entry]) -> Result<(), NoMemory>
    ensures { OnOk result (names.new ≡ with_definitions names.old 0 defs.now) }
{
    for (i, def) in defs.iter().enumerate() {
        names.add(alloc, def.name.text.as_slice(), Meaning::Definition(i))?;
    }
    Ok(())
}

fn add_measures(alloc: Global, names: &mut Names, measures: &[Measured]) -> Result<(), NoMemory>
    ensures { OnOk result (names.new ≡ with_measures names.old 0 measures.now) }
{
    for (number, measure) in measures.iter().enumerate() {
        let value = measure.value;
        names.add(
            alloc,
            measure.name.text.as_slice(),
            Meaning::Measure { number, value },
        )?;
    }
    Ok(())
}

fn add_procedures(alloc: Global, names: &mut Names, procs: &[ProcDef]) -> Result<(), NoMemory>
    ensures { OnOk result (names.new ≡ with_procedures names.old 0 (map proc_def_of procs.now)) }
{
    for (f, proc) in procs.iter().enumerate() {
        names.add(alloc, proc.name.text.as_slice(), Meaning::Procedure(f))?;
    }
    Ok(())
}

/// The names of definitions, measures and procedures, each with the meaning of its first definition.
pub(crate) fn names_of(
    alloc: Global,
    defs: &[Entry],
    measures: &[Measured],
    procs: &[ProcDef],
) -> Result<Names, NoMemory>
    ensures { IfOk result (λ names. names ≡ with_procedures
        (with_measures (with_definitions [] 0 defs.now) 0 measures.now) 0
        (map proc_def_of procs.now)) }
{
    let mut names = Names::new(alloc);
    add_definitions(alloc, &mut names, defs)?;
    add_measures(alloc, &mut names, measures)?;
    add_procedures(alloc, &mut names, procs)?;
    Ok(names)
}
