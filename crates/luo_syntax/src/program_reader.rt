// Whole programs.
#![tactic(auto, using(crate::proofs::ProgramSteps::program_steps))]

ghost use Rattle.std.specs.Prelude.{◌≡◌, List, [], length, IfOk, IfErr, OnOk};
ghost use Rattle.luo_syntax.specs.inner.Next.{OnStop};
ghost use Rattle.luo_source.specs.Grammar.{IsProgram, AreAnalyses};
ghost use Rattle.luo_syntax.specs.inner.StopsProgram.{IsHead, HeadStops, PassesTypes, FromTypesStop, PassesMeasures, FromMeasuresStop, PassesProcs, FromProcsStop, AnalysesStop, ProgramStops};

use crate::cursor::Cursor;
use crate::fault::Fault;
use luo_model::Universe;
use luo_num::Items;
use luo_scan::{Mark, Word};
use luo_source::{MeasureDef, Name, ProcDef, Source, TypeDef};
use std::alloc::Global;

impl<'t> Cursor<'t> {
    /// Reads a program, up to the end.
    pub fn program(&mut self, alloc: Global) -> Result<Source, Fault>
        ensures reads { IfOk result (λ s. IsProgram self.old [] s) }
        ensures stops { IfErr result (λ f. OnStop f (ProgramStops self.old self.new)) }
    {
        let universe = self.head()?;
        let types = self.types(alloc)?;
        let measures = self.measures(alloc)?;
        let procs = self.procs(alloc)?;
        let analyses = self.analyses(alloc)?;
        Ok(Source {
            universe,
            types,
            measures,
            procs,
            analyses,
        })
    }

    fn head(&mut self) -> Result<Universe, Fault>
        ensures reads { IfOk result (λ u. IsHead self.old self.new u) }
        ensures stops { IfErr result (λ f. OnStop f (HeadStops self.old self.new)) }
    {
        if self.take_word(Word::KwLabelled) {
            self.expect_mark(Mark::Semicolon)?;
            return Ok(Universe::Labelled);
        }
        if self.take_word(Word::KwUnlabelled) {
            self.expect_mark(Mark::Semicolon)?;
            return Ok(Universe::Unlabelled);
        }
        Ok(Universe::Unlabelled)
    }

    fn types(&mut self, alloc: Global) -> Result<Items<TypeDef>, Fault>
        ensures reads { IfOk result (λ ts. PassesTypes self.old self.new ts) }
        ensures stops { IfErr result (λ f. OnStop f (FromTypesStop self.old self.new)) }
    {
        let mut types = Items::new(alloc);
        'types: while self.sees_word(Word::KwType) {
            let def = self.type_def(alloc)?;
            types.push(def)?;
        }
        Ok(types)
    }

    fn measures(&mut self, alloc: Global) -> Result<Items<MeasureDef>, Fault>
        ensures reads { IfOk result (λ ms. PassesMeasures self.old self.new ms) }
        ensures stops { IfErr result (λ f. OnStop f (FromMeasuresStop self.old self.new)) }
    {
        let mut measures = Items::new(alloc);
        'measures: while self.sees_word(Word::KwMeasure) {
            let def = self.measure(alloc)?;
            measures.push(def)?;
        }
        Ok(measures)
    }

    fn procs(&mut self, alloc: Global) -> Result<Items<ProcDef>, Fault>
        ensures reads { IfOk result (λ ps. PassesProcs self.old self.new ps) }
        ensures stops { IfErr result (λ f. OnStop f (FromProcsStop self.old self.new)) }
    {
        let mut procs = Items::new(alloc);
        'procs: while self.sees_word(Word::KwProcedure) {
            let def = self.procedure(alloc)?;
            procs.push(def)?;
        }
        Ok(procs)
    }

    fn analyses(&mut self, alloc: Global) -> Result<Items<Name>, Fault>
        ensures reads { IfOk result (λ ns. AreAnalyses self.old [] ns) }
        ensures stops { IfErr result (λ f. OnStop f (AnalysesStop self.old self.new)) }
    {
        let mut analyses = Items::new(alloc);
        'analyses: loop {
            let name = self.analysis(alloc)?;
            analyses.push(name)?;
            if self.is_empty() {
                return Ok(analyses);
            }
        }
    }
}
