// The check of a whole source.
ghost use Rattle.std.specs.Prelude.{◌≡◌, ◌≤◌, IfOk, IfErr, OnOk};
ghost use Rattle.luo_model.specs.Program as plain;
ghost use Rattle.luo_model.specs.View.{plain_of};
ghost use Rattle.luo_source.specs.View.{plain_source};
ghost use Rattle.luo_rules.specs.declared.rule.Breach.{Breach};
ghost use Rattle.luo_rules.specs.Breaches.{StopsAt};
ghost use Rattle.luo_rules.specs.declared.error.CheckError.TheVariants as error;
ghost use Rattle.luo_rules.specs.declared.error.CountLimit.{CountLimit};
ghost use Rattle.luo_rules.specs.declared.error.CountLimit.TheVariants as count;
ghost use Rattle.luo_rules.specs.Checks.{IsSource, IsWithinLimits, PassesFirst, BreaksFirst, WalksTooMuch, IsChecked, IsUnchecked, IsRefusal, IsProgramAnswer};
ghost use Rattle.luo_rules.specs.BrokenLaws.{BreaksNothing, IsFirstBroken, TellsFirstBroken};
ghost use Rattle.luo_types.specs.inner.Typed.{IsTyped};
ghost use Rattle.luo_rules.specs.Whole.{breaches};

use crate::limits::passed_limit;
use crate::procedure_sites::sites_of;
use crate::procedures::{analyses, procedures};
use crate::types::types;
use luo_model::{Proc, Program};
use luo_num::Items;
use luo_num::limits::WALK_LIMIT;
use luo_rules::{CheckError, CountLimit, Setting, Stop};
use luo_source::Source;
use luo_value_types::Context;
use std::alloc::Global;

/// The parts of a source that breaks no rule.
#[derive(Drop)]
pub(crate) struct Typed {
    pub setting: Setting,
    pub procs: Items<Proc>,
    pub analyses: Items<usize>,
}

// Checks definitions, measures, procedures and analyze lines, and makes what the core form has of them.
fn check_parts(alloc: Global, source: &Source) -> Result<Typed, Stop>
    requires source { IsSource (plain_source source.now) }
    requires within { IsWithinLimits (plain_source source.now) }
    ensures ok { IfOk result (λ t. IsTyped (plain_source source.now) t) }
    ensures stops { IfErr result (λ e. StopsAt (breaches (plain_source source.now)) e) }
{
    let setting = types(alloc, source)?;
    let context = Context {
        alloc,
        setting: &setting,
        scope: &[],
    };
    let procs = procedures(&context, source.procs.as_slice())?;
    let lines = analyses(alloc, &setting, source.analyses.as_slice())?;
    Ok(Typed {
        setting,
        procs,
        analyses: lines,
    })
}

// Decides between the program of a source and an error.
fn decide(alloc: Global, source: &Source) -> Result<Program, CheckError>
    requires { IsSource (plain_source source.now) }
    ensures ok { IfOk result (λ p. IsChecked (plain_source source.now) (plain_of p)) }
    ensures err { IfErr result (λ e. IsUnchecked (plain_source source.now) e) }
{
    if let Some(which) = passed_limit(source) {
        return Err(CheckError::Limit { which });
    }
    let Typed {
        setting,
        procs,
        analyses,
    } = check_parts(alloc, source)?;
    let (sites, walks) = sites_of(alloc, &setting, procs.as_slice())?;
    if walks > WALK_LIMIT {
        return Err(CheckError::Limit {
            which: CountLimit::Walks,
        });
    }
    let Setting {
        universe,
        defs,
        nodes,
        ..
    } = setting;
    Ok(Program {
        universe,
        defs,
        nodes,
        procs,
        sites,
        analyses,
    })
}

/// Checks a source, and makes its program.
///
/// `Limit` says the first limit that is passed, in the order of `CountLimit`; `Walks` comes only where no
/// other limit is passed and no rule is broken. `Rule` says the first breach of a rule in the text, where no
/// limit is passed but perhaps that on walks: its token, and what it is about. `NoMemory` says that memory
/// was refused.
pub fn check(alloc: Global, source: &Source) -> Result<Program, CheckError>
    requires { IsSource (plain_source source.now) }
    ensures ok { IfOk result (λ p. IsChecked (plain_source source.now) (plain_of p)) }
    ensures err { IfErr result (λ e. IsUnchecked (plain_source source.now) e) }
    ensures limit { (which : CountLimit) → PassesFirst (plain_source source.now) which
        → IsRefusal (error.Limit which) result }
    ensures rule { (b : Breach) → IsWithinLimits (plain_source source.now)
        → BreaksFirst (plain_source source.now) b
        → IsRefusal (error.Rule b.rule b.token b.names) result }
    ensures walks { IsWithinLimits (plain_source source.now)
        → WalksTooMuch (plain_source source.now)
        → IsRefusal (error.Limit count.Walks) result }
    ensures tells { IfErr result (λ e. TellsFirstBroken (plain_source source.now) e) }
    ensures first { (b : Breach) → IsWithinLimits (plain_source source.now)
        → IsFirstBroken (plain_source source.now) b
        → IsRefusal (error.Rule b.rule b.token b.names) result }
    ensures unbroken { IfOk result (λ p. BreaksNothing (plain_source source.now)) }
    ensures checked { (p : plain.Program) → IsChecked (plain_source source.now) p
        → IsProgramAnswer result }
{
    decide(alloc, source)
}
