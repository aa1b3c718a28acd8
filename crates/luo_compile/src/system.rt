// The equations of a program.
ghost use Rattle.std.specs.Prelude.{◌≡◌, ◌++◌, IfOk, OnOk, map};
ghost use Rattle.luo_model.specs.View.{plain_of};
ghost use Rattle.luo_equation.specs.Expr.{Table};
ghost use Rattle.luo_equation.specs.View.{equation_of};
ghost use Rattle.luo_model.specs.Founded.{IsFounded};
ghost use Rattle.luo_system.specs.System.{defs_from, procs_from, system};
ghost use Rattle.luo_system.specs.Holding.{Describe, IsTableOf};

use crate::bodies::body_descriptor;
use crate::parts::part_of;
use luo_equation::{Equation, Left};
use luo_model::Program;
use luo_num::NoMemory;
use std::alloc::Global;

// Puts the equations of the definitions after these.
fn put_definitions(
    alloc: Global,
    program: &Program,
    equations: &mut Vec<Equation>,
) -> Result<(), NoMemory>
    ensures { OnOk result (map equation_of equations.new.items
        ≡ map equation_of equations.old.items
        ++ defs_from (plain_of program.now) 0 (plain_of program.now).defs) }
{
    for (i, def) in program.defs.as_slice().iter().enumerate() {
        equations.push(Equation {
            left: Left::Series(i),
            right: part_of(alloc, program, &def.whole)?,
        })?;
    }
    Ok(())
}

// Puts the equations of the procedures after these.
fn put_procedures(
    alloc: Global,
    program: &Program,
    equations: &mut Vec<Equation>,
) -> Result<(), NoMemory>
    ensures { OnOk result (map equation_of equations.new.items
        ≡ map equation_of equations.old.items
        ++ procs_from (plain_of program.now) 0 (plain_of program.now).procs) }
{
    for (f, procedure) in program.procs.as_slice().iter().enumerate() {
        let parameter = [procedure.on];
        equations.push(Equation {
            left: Left::Tau(f),
            right: body_descriptor(alloc, program, &parameter, &parameter, &procedure.body)?,
        })?;
    }
    Ok(())
}

/// The equations of a program in plain form: for each definition that of its series, then for each
/// procedure that of its descriptor, the generating function of its charges (Flajolet, Salvy and
/// Zimmermann 1991). In a founded program they hold of its counts and totals at every size, and no
/// other numbers that start with zeros satisfy them; so one table of integers has the rows of all
/// procedures, and is the one of these equations.
pub fn descriptors(alloc: Global, program: &Program) -> Result<Vec<Equation>, NoMemory>
    ensures equations { IfOk result (λ es.
        map equation_of es.items ≡ system (plain_of program.now)) }
    ensures describe { IfOk result (λ es.
        IsFounded (plain_of program.now)
        → Describe (plain_of program.now) (map equation_of es.items)) }
    ensures table { IfOk result (λ es.
        IsFounded (plain_of program.now)
        → (t : Table) × IsTableOf (plain_of program.now) (map equation_of es.items) t) }
{
    program.known();
    let mut equations = Vec::new(alloc);
    put_definitions(alloc, program, &mut equations)?;
    put_procedures(alloc, program, &mut equations)?;
    Ok(equations)
}
