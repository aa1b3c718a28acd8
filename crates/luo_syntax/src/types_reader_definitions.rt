// Reading definitions of types and measures.
#![tactic(auto, using(crate::proofs::DefinitionSteps::definition_steps))]

ghost use Rattle.std.specs.Prelude.{◌<◌, length, IfOk, IfErr, OnOk};
ghost use Rattle.luo_syntax.specs.inner.Next.{OnStop};
ghost use Rattle.luo_source.specs.GrammarTypes.{IsTypeDef, IsMeasure};
ghost use Rattle.luo_syntax.specs.inner.StopsTypes.{TypeDefStops, MeasureStops};

use crate::cursor::Cursor;
use crate::fault::Fault;
use luo_scan::{Mark, Word};
use luo_source::{MeasureDef, TypeDef};
use std::alloc::Global;

impl<'t> Cursor<'t> {
    /// Reads the definition of types from its word on.
    pub fn type_def(&mut self, alloc: Global) -> Result<TypeDef, Fault>
        ensures reads { IfOk result (λ d. IsTypeDef self.old self.new d) }
        ensures stops { IfErr result (λ f. OnStop f (TypeDefStops self.old self.new)) }
        ensures shorter { OnOk result (length self.new < length self.old) }
    {
        self.expect_word(Word::KwType)?;
        let names = self.names(Mark::Equals, alloc)?;
        let body = self.expr(alloc)?;
        self.expect_mark(Mark::Semicolon)?;
        Ok(TypeDef { names, body })
    }

    /// Reads the definition of measures from its word on.
    pub fn measure(&mut self, alloc: Global) -> Result<MeasureDef, Fault>
        ensures reads { IfOk result (λ d. IsMeasure self.old self.new d) }
        ensures stops { IfErr result (λ f. OnStop f (MeasureStops self.old self.new)) }
        ensures shorter { OnOk result (length self.new < length self.old) }
    {
        self.expect_word(Word::KwMeasure)?;
        let names = self.names(Mark::Colon, alloc)?;
        let value = self.number()?;
        self.expect_mark(Mark::Semicolon)?;
        Ok(MeasureDef { names, value })
    }
}
