// Reading numbers in type expressions, and what stands around them.
#![tactic(auto, using(crate::proofs::TypesSteps::bound_steps))]

ghost use Rattle.std.specs.Prelude.{IfOk, IfErr};
ghost use Rattle.luo_syntax.specs.inner.Next.{OnStop};
ghost use Rattle.luo_source.specs.GrammarTypes.{IsRange, EndsCollection};
ghost use Rattle.luo_syntax.specs.inner.TypeParts.{IsBetween, IsBound, IsWeight, TakesCollection};
ghost use Rattle.luo_syntax.specs.inner.StopsTypes.{BetweenStops, RangeStops, BoundStops, EndStops, AtomStops};

use crate::cursor::Cursor;
use crate::fault::Fault;
use luo_model::Kind;
use luo_scan::{Mark, Word};
use luo_source::{Bound, Range};

impl<'t> Cursor<'t> {
    /// Reads two numbers with dots between them.
    fn between(&mut self) -> Result<Range, Fault>
        ensures reads { IfOk result (λ r. IsBetween self.old self.new r) }
        ensures stops { IfErr result (λ f. OnStop f (BetweenStops self.old self.new)) }
    {
        let low = self.number()?;
        self.expect_mark(Mark::Dots)?;
        let high = self.number()?;
        Ok(Range::Between(low, high))
    }

    /// Reads how many components a bound allows.
    fn range(&mut self) -> Result<Range, Fault>
        ensures reads { IfOk result (λ r. IsRange self.old self.new r) }
        ensures stops { IfErr result (λ f. OnStop f (RangeStops self.old self.new)) }
    {
        if self.take_mark(Mark::Equals) {
            let count = self.number()?;
            return Ok(Range::Exactly(count));
        }
        if self.take_mark(Mark::LessEqual) {
            let most = self.number()?;
            return Ok(Range::AtMost(most));
        }
        if self.take_mark(Mark::GreaterEqual) {
            let least = self.number()?;
            return Ok(Range::AtLeast(least));
        }
        self.expect_word(Word::KwIn)?;
        let limits = self.between()?;
        Ok(limits)
    }

    /// Reads a bound from its word on, and the bracket after it.
    fn card(&mut self) -> Result<Bound, Fault>
        ensures reads { IfOk result (λ b. IsBound self.old self.new b) }
        ensures stops { IfErr result (λ f. OnStop f (BoundStops self.old self.new)) }
    {
        let at = self.expect_word_at(Word::KwCard)?;
        let range = self.range()?;
        self.expect_mark(Mark::RightRound)?;
        Ok(Bound { range, at })
    }

    /// Reads a bound, if there is one, and the bracket after it.
    pub fn bound(&mut self) -> Result<Option<Bound>, Fault>
        ensures reads { IfOk result (λ b. EndsCollection self.old self.new b) }
        ensures stops { IfErr result (λ f. OnStop f (EndStops self.old self.new)) }
    {
        if self.take_mark(Mark::Comma) {
            let bound = self.card()?;
            return Ok(Some(bound));
        }
        self.expect_mark(Mark::RightRound)?;
        Ok(None)
    }

    /// Reads a number in brackets, and answers it with its number as a lexeme.
    pub fn weight(&mut self) -> Result<(u128, usize), Fault>
        ensures reads { IfOk result (λ w. IsWeight self.old self.new w) }
        ensures stops { IfErr result (λ f. OnStop f (AtomStops self.old self.new)) }
    {
        self.expect_mark(Mark::LeftRound)?;
        let weight = self.number_at()?;
        self.expect_mark(Mark::RightRound)?;
        Ok(weight)
    }

    /// Takes the word of a collection, if one comes next, and answers its kind and its number.
    pub fn take_collection(&mut self) -> Option<(Kind, usize)>
        ensures { TakesCollection self.old self.new result }
    {
        if let Some(at) = self.take_word_at(Word::KwSequence) {
            return Some((Kind::Sequence, at));
        }
        if let Some(at) = self.take_word_at(Word::KwSet) {
            return Some((Kind::Set, at));
        }
        if let Some(at) = self.take_word_at(Word::KwCycle) {
            return Some((Kind::Cycle, at));
        }
        if let Some(at) = self.take_word_at(Word::KwMultiset) {
            return Some((Kind::Multiset, at));
        }
        if let Some(at) = self.take_word_at(Word::KwPowerset) {
            return Some((Kind::Powerset, at));
        }
        None
    }
}
