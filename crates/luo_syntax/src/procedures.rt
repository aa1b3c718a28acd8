// Procedures and analyses.
#![tactic(auto, using(crate::proofs::ProcSteps::proc_steps))]

ghost use Rattle.std.specs.Prelude.{◌<◌, length, IfOk, IfErr, OnOk};
ghost use Rattle.luo_syntax.specs.inner.Next.{OnStop};
ghost use Rattle.luo_source.specs.Grammar.{IsProc, IsAnalyze};
ghost use Rattle.luo_syntax.specs.inner.StopsProgram.{IsParam, ParamStops, IsResult, ResultStops, IsWholeBody, BodyStops, ProcStops, AnalyzeStops};

use crate::cursor::Cursor;
use crate::fault::Fault;
use luo_num::Items;
use luo_scan::{Mark, Word};
use luo_source::{Name, ProcBody, ProcDef, SourceValue};
use std::alloc::Global;

impl<'t> Cursor<'t> {
    /// Reads a procedure.
    pub fn procedure(&mut self, alloc: Global) -> Result<ProcDef, Fault>
        ensures reads { IfOk result (λ p. IsProc self.old self.new p) }
        ensures stops { IfErr result (λ f. OnStop f (ProcStops self.old self.new)) }
        ensures shorter { OnOk result (length self.new < length self.old) }
    {
        self.expect_word(Word::KwProcedure)?;
        let name = self.name(alloc)?;
        let (param, on) = self.param(alloc)?;
        let body = self.body(alloc)?;
        Ok(ProcDef {
            name,
            param,
            on,
            body,
        })
    }

    fn param(&mut self, alloc: Global) -> Result<(Name, Name), Fault>
        ensures reads { IfOk result (λ p. IsParam self.old self.new p) }
        ensures stops { IfErr result (λ f. OnStop f (ParamStops self.old self.new)) }
    {
        self.expect_mark(Mark::LeftRound)?;
        let param = self.name(alloc)?;
        self.expect_mark(Mark::Colon)?;
        let on = self.name(alloc)?;
        self.expect_mark(Mark::RightRound)?;
        Ok((param, on))
    }

    fn body(&mut self, alloc: Global) -> Result<ProcBody, Fault>
        ensures reads { IfOk result (λ b. IsWholeBody self.old self.new b) }
        ensures stops { IfErr result (λ f. OnStop f (BodyStops self.old self.new)) }
    {
        if self.take_mark(Mark::Semicolon) {
            let stmts = self.block(alloc)?;
            self.expect_mark(Mark::Semicolon)?;
            return Ok(ProcBody::Statements(stmts));
        }
        if let Some(colon) = self.take_mark_at(Mark::Colon) {
            let (result, value) = self.result(alloc)?;
            return Ok(ProcBody::Value {
                colon,
                result,
                value,
            });
        }
        Err(Fault::Stops)
    }

    fn result(&mut self, alloc: Global) -> Result<(Name, SourceValue), Fault>
        ensures reads { IfOk result (λ r. IsResult self.old self.new r) }
        ensures stops { IfErr result (λ f. OnStop f (ResultStops self.old self.new)) }
    {
        let name = self.name(alloc)?;
        self.expect_mark(Mark::Semicolon)?;
        let value = self.value(alloc)?;
        self.expect_mark(Mark::Semicolon)?;
        Ok((name, value))
    }

    /// Reads an analysis.
    pub fn analysis(&mut self, alloc: Global) -> Result<Name, Fault>
        ensures reads { IfOk result (λ n. IsAnalyze self.old self.new n) }
        ensures stops { IfErr result (λ f. OnStop f (AnalyzeStops self.old self.new)) }
        ensures shorter { OnOk result (length self.new < length self.old) }
    {
        self.expect_word(Word::KwAnalyze)?;
        let name = self.name(alloc)?;
        self.expect_mark(Mark::Semicolon)?;
        Ok(name)
    }
}
