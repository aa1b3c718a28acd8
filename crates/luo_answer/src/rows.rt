// The tables of the analyze lines.
ghost use Rattle.std.specs.Prelude.{◌≡◌, ◌<◌, ◌≤◌, length, slice_get, Some, IfOk};
ghost use Rattle.luo_finite.specs.Listing.{In};
ghost use Rattle.luo_num.specs.declared.limits.TheConstants.{SIZE_LIMIT};
ghost use Rattle.luo_model.specs.View.{plain_of};
ghost use Rattle.luo_model.specs.Tables.{IsRow};
ghost use Rattle.luo_model.specs.declared.table.Fill.TheVariants.{All};
ghost use Rattle.luo_answer.specs.Report.{AreRows, IsTable, AreTables};
ghost use Rattle.luo_answer.specs.inner.Filled.{full};

use luo_engine::Engine;
use luo_model::{Proc, Program, Row};
use luo_num::{Items, NoMemory};
use luo_report::Table;
use std::alloc::Global;

/// Procedure f.
pub fn procedure_at(procs: &[Proc], f: usize) -> &Proc
    requires { f < length procs.now }
    ensures { slice_get procs.now f ≡ Some result.now }
{
    &procs[f]
}

/// The row of procedure f of size n.
pub fn row_at(program: &Program, engine: &Engine<'_>, last: u32, f: usize, n: u32) -> Row
    requires full { engine.now ≡ full program.now All last }
    requires there { f < length program.now.procs }
    requires size { n ≤ last }
    ensures size { result.n ≡ n }
    ensures right { IsRow (plain_of program.now) f result }
{
    let procedure = procedure_at(program.procs.as_slice(), f);
    Row {
        n,
        count: engine.count(procedure.on.node, n),
        total: engine.total(procedure.site, n),
    }
}

// The rows of procedure f.
fn rows_of(
    alloc: Global,
    program: &Program,
    engine: &Engine<'_>,
    last: u32,
    f: usize,
) -> Result<Items<Row>, NoMemory>
    requires small { last ≤ SIZE_LIMIT }
    requires full { engine.now ≡ full program.now All last }
    requires there { f < length program.now.procs }
    ensures { IfOk result (AreRows (plain_of program.now) last f) }
{
    let mut rows = Items::new(alloc);
    for n in 0..last + 1 {
        rows.push(row_at(program, engine, last, f, n))?;
    }
    Ok(rows)
}

// The table of procedure f.
fn table_of(
    alloc: Global,
    program: &Program,
    engine: &Engine<'_>,
    last: u32,
    f: usize,
) -> Result<Table, NoMemory>
    requires small { last ≤ SIZE_LIMIT }
    requires full { engine.now ≡ full program.now All last }
    requires there { f < length program.now.procs }
    ensures { IfOk result (IsTable (plain_of program.now) last f) }
{
    Ok(Table {
        callee: f,
        rows: rows_of(alloc, program, engine, last, f)?,
    })
}

/// The table of each analyze line for the sizes up to `last`, each of a procedure of the program.
pub fn tables_of(
    alloc: Global,
    program: &Program,
    engine: &Engine<'_>,
    last: u32,
) -> Result<Items<Table>, NoMemory>
    requires small { last ≤ SIZE_LIMIT }
    requires full { engine.now ≡ full program.now All last }
    ensures right { IfOk result (AreTables (plain_of program.now) last program.now.analyses) }
    ensures named { IfOk result (λ tables. (t : _) → In t tables
        → t.callee < length program.now.procs) }
{
    let mut tables = Items::new(alloc);
    for f in program.analyses.as_slice() {
        tables.push(table_of(alloc, program, engine, last, *f)?)?;
    }
    Ok(tables)
}
