// Reading type expressions.
#![tactic(auto, using(crate::proofs::TermSteps::term_steps))]

ghost use Rattle.std.specs.Prelude.{◌<◌, length, IfOk, IfErr, OnOk};
ghost use Rattle.luo_source.specs.Ends.{EndsExpr};
ghost use Rattle.luo_syntax.specs.inner.Next.{OnStop};
ghost use Rattle.luo_source.specs.GrammarTypes.{IsExpr, IsTerm};
ghost use Rattle.luo_syntax.specs.inner.TypeParts.{AreParts, IsInside, ReadsTerms, ReadsFactors};
ghost use Rattle.luo_syntax.specs.inner.StopsTypes.{TermsStop, TermStops, ProductStops, FactorsStop, CollectionStops};

use crate::cursor::Cursor;
use crate::fault::Fault;
use luo_model::Kind;
use luo_num::{Boxed, Items};
use luo_scan::{Mark, Word};
use luo_source::TypeExpr;
use std::alloc::Global;

impl<'t> Cursor<'t> {
    /// Reads a type expression, up to where no `|` goes on with it.
    #[cycle(types)]
    pub fn expr(&mut self, alloc: Global) -> Result<TypeExpr, Fault>
        ensures reads { IfOk result (λ t. IsExpr self.old self.new t) }
        ensures ends { OnOk result (EndsExpr self.new) }
        ensures stops { IfErr result (λ f. OnStop f (TermsStop self.old self.new)) }
        ensures shorter { OnOk result (length self.new < length self.old) }
    {
        let first = self.term(alloc)?;
        if self.take_mark(Mark::Bar) {
            let parts = self.terms(first, alloc)?;
            Ok(TypeExpr::Union { parts })
        } else {
            Ok(first)
        }
    }

    #[cycle(types)]
    fn terms(&mut self, first: TypeExpr, alloc: Global) -> Result<Items<TypeExpr>, Fault>
        ensures reads { IfOk result (λ ts. ReadsTerms self.old self.new first ts) }
        ensures ends { OnOk result (EndsExpr self.new) }
        ensures stops { IfErr result (λ f. OnStop f (TermsStop self.old self.new)) }
        ensures shorter { OnOk result (length self.new < length self.old) }
    {
        let mut parts = Items::new(alloc);
        parts.push(first)?;
        'terms: loop {
            let part = self.term(alloc)?;
            parts.push(part)?;
            if !self.take_mark(Mark::Bar) {
                return Ok(parts);
            }
        }
    }

    #[cycle(types)]
    fn term(&mut self, alloc: Global) -> Result<TypeExpr, Fault>
        ensures reads { IfOk result (λ t. IsTerm self.old self.new t) }
        ensures stops { IfErr result (λ f. OnStop f (TermStops self.old self.new)) }
        ensures shorter { OnOk result (length self.new < length self.old) }
    {
        if let Some(at) = self.take_word_at(Word::KwEpsilon) {
            return Ok(TypeExpr::Epsilon { at });
        }
        if let Some(at) = self.take_word_at(Word::KwAtom) {
            let (weight, weight_at) = self.weight()?;
            return Ok(TypeExpr::Atom {
                weight,
                weight_at,
                at,
            });
        }
        if let Some(at) = self.take_word_at(Word::KwProduct) {
            let parts = self.product(alloc)?;
            return Ok(TypeExpr::Product { parts, at });
        }
        if let Some((kind, at)) = self.take_collection() {
            let collection = self.collection(kind, at, alloc)?;
            return Ok(collection);
        }
        let name = self.name(alloc)?;
        Ok(TypeExpr::Named(name))
    }

    #[cycle(types)]
    fn product(&mut self, alloc: Global) -> Result<Items<TypeExpr>, Fault>
        ensures reads { IfOk result (λ ts. AreParts self.old self.new ts) }
        ensures stops { IfErr result (λ f. OnStop f (ProductStops self.old self.new)) }
        ensures shorter { OnOk result (length self.new < length self.old) }
    {
        self.expect_mark(Mark::LeftRound)?;
        let first = self.expr(alloc)?;
        self.expect_mark(Mark::Comma)?;
        let parts = self.factors(first, alloc)?;
        Ok(parts)
    }

    #[cycle(types)]
    fn factors(&mut self, first: TypeExpr, alloc: Global) -> Result<Items<TypeExpr>, Fault>
        ensures reads { IfOk result (λ ts. ReadsFactors self.old self.new first ts) }
        ensures stops { IfErr result (λ f. OnStop f (FactorsStop self.old self.new)) }
        ensures shorter { OnOk result (length self.new < length self.old) }
    {
        let mut parts = Items::new(alloc);
        parts.push(first)?;
        'factors: loop {
            let part = self.expr(alloc)?;
            parts.push(part)?;
            if self.take_mark(Mark::RightRound) {
                return Ok(parts);
            }
            self.expect_mark(Mark::Comma)?;
        }
    }

    #[cycle(types)]
    fn collection(&mut self, kind: Kind, at: usize, alloc: Global) -> Result<TypeExpr, Fault>
        ensures reads { IfOk result (λ t. IsInside kind at self.old self.new t) }
        ensures stops { IfErr result (λ f. OnStop f (CollectionStops self.old self.new)) }
        ensures shorter { OnOk result (length self.new < length self.old) }
    {
        self.expect_mark(Mark::LeftRound)?;
        let part = self.expr(alloc)?;
        let bound = self.bound()?;
        let part = Boxed::new(alloc, part)?;
        Ok(TypeExpr::Coll {
            kind,
            part,
            bound,
            at,
        })
    }
}
