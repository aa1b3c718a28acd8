// Values.
#![tactic(auto, using(crate::proofs::ValueSteps::value_steps))]

ghost use Rattle.std.specs.Prelude.{◌<◌, length, IfOk, IfErr, OnOk};
ghost use Rattle.luo_syntax.specs.inner.Next.{OnStop};
ghost use Rattle.luo_source.specs.GrammarValues.{IsValue, IsInner, AreValueArms};
ghost use Rattle.luo_syntax.specs.inner.StopsPatterns.{behind_name};
ghost use Rattle.luo_syntax.specs.inner.StopsValues.{IsBracketed, IsTuple, IsValueCase, IsMade, InnerEnds, WholeValue, WholeNumbered, WholeArm, ReadsParts, ValueStops, NumberedStops, InnerStops, BracketedStops, TupleStops, PartsStop, ValueCaseStops, ValueArmsStop, ValueArmStops, MadeStops};

use crate::cursor::Cursor;
use crate::fault::Fault;
use luo_num::{Boxed, Items};
use luo_scan::{Mark, Word};
use luo_source::{Name, SourceValue, SourceValueArm};
use std::alloc::Global;

impl<'t> Cursor<'t> {
    /// Reads a value.
    #[cycle(values)]
    pub fn value(&mut self, alloc: Global) -> Result<SourceValue, Fault>
        ensures reads { IfOk result (λ v. IsValue self.old self.new v) }
        ensures ends { IfOk result (λ v. WholeValue self.old self.new v) }
        ensures stops { IfErr result (λ f. OnStop f (ValueStops self.old self.new)) }
        ensures shorter { OnOk result (length self.new < length self.old) }
    {
        if let Some((number, at)) = self.take_number() {
            let read = self.numbered(number, at, alloc)?;
            return Ok(read);
        }
        let read = self.inner_value(alloc)?;
        Ok(read)
    }

    /// Reads a branch after its number.
    #[cycle(values)]
    fn numbered(&mut self, number: u128, at: usize, alloc: Global) -> Result<SourceValue, Fault>
        ensures reads { IfOk result (λ v. WholeNumbered number at self.old self.new v) }
        ensures stops { IfErr result (λ f. OnStop f (NumberedStops self.old self.new)) }
        ensures shorter { OnOk result (length self.new < length self.old) }
    {
        self.expect_mark(Mark::Colon)?;
        let read = self.inner_value(alloc)?;
        let inner = Boxed::new(alloc, read)?;
        Ok(SourceValue::Branch { number, at, inner })
    }

    /// Reads a value that doesn't begin with a branch's number.
    #[cycle(values)]
    fn inner_value(&mut self, alloc: Global) -> Result<SourceValue, Fault>
        ensures reads { IfOk result (λ v. IsInner self.old self.new v) }
        ensures ends { IfOk result (λ v. InnerEnds v self.new) }
        ensures stops { IfErr result (λ f. OnStop f (InnerStops self.old self.new)) }
        ensures shorter { OnOk result (length self.new < length self.old) }
    {
        if let Some(at) = self.take_word_at(Word::KwAtom) {
            return Ok(SourceValue::Atom { charge: None, at });
        }
        if self.take_mark(Mark::LeftRound) {
            let read = self.bracketed(alloc)?;
            return Ok(read);
        }
        if let Some(at) = self.take_word_at(Word::KwProduct) {
            let parts = self.tuple(alloc)?;
            return Ok(SourceValue::Tuple { parts, at });
        }
        if self.take_word(Word::KwCase) {
            let read = self.value_case(alloc)?;
            return Ok(read);
        }
        let name = self.name(alloc)?;
        let read = self.value_behind(name, alloc)?;
        Ok(read)
    }

    /// Reads a value whose first name has been read.
    fn value_behind(&mut self, name: Name, alloc: Global) -> Result<SourceValue, Fault>
        ensures reads { IfOk result (λ v. IsInner (behind_name name self.old) self.new v) }
        ensures ends { IfOk result (λ v. InnerEnds v self.new) }
        ensures stops { IfErr result
            (λ f. OnStop f (InnerStops (behind_name name self.old) self.new)) }
    {
        if self.take_mark(Mark::LeftRound) {
            let arg = self.argument(alloc)?;
            return Ok(SourceValue::Made { callee: name, arg });
        }
        if let Some(at) = self.take_word_at(Word::KwAtom) {
            return Ok(SourceValue::Atom {
                charge: Some(name),
                at,
            });
        }
        Ok(SourceValue::Given(name))
    }

    /// Reads an argument and the bracket after it.
    fn argument(&mut self, alloc: Global) -> Result<Name, Fault>
        ensures reads { IfOk result (λ n. IsMade self.old self.new n) }
        ensures stops { IfErr result (λ f. OnStop f (MadeStops self.old self.new)) }
    {
        let name = self.name(alloc)?;
        self.expect_mark(Mark::RightRound)?;
        Ok(name)
    }

    /// Reads a branch and the bracket after it.
    #[cycle(values)]
    fn bracketed(&mut self, alloc: Global) -> Result<SourceValue, Fault>
        ensures reads { IfOk result (λ v. IsBracketed self.old self.new v) }
        ensures stops { IfErr result (λ f. OnStop f (BracketedStops self.old self.new)) }
    {
        let (number, at) = self.number_at()?;
        let read = self.numbered(number, at, alloc)?;
        self.expect_mark(Mark::RightRound)?;
        Ok(read)
    }

    /// Reads the parts of a tuple in their brackets.
    #[cycle(values)]
    fn tuple(&mut self, alloc: Global) -> Result<Items<SourceValue>, Fault>
        ensures reads { IfOk result (λ vs. IsTuple self.old self.new vs) }
        ensures stops { IfErr result (λ f. OnStop f (TupleStops self.old self.new)) }
    {
        self.expect_mark(Mark::LeftRound)?;
        let first = self.value(alloc)?;
        self.expect_mark(Mark::Comma)?;
        let parts = self.parts(first, alloc)?;
        Ok(parts)
    }

    /// Reads the other parts of a tuple, and the bracket after them.
    #[cycle(values)]
    fn parts(&mut self, first: SourceValue, alloc: Global) -> Result<Items<SourceValue>, Fault>
        ensures reads { IfOk result (λ vs. ReadsParts self.old self.new first vs) }
        ensures stops { IfErr result (λ f. OnStop f (PartsStop self.old self.new)) }
    {
        let mut parts = Items::new(alloc);
        parts.push(first)?;
        'parts: loop {
            let part = self.value(alloc)?;
            parts.push(part)?;
            if self.take_mark(Mark::RightRound) {
                return Ok(parts);
            }
            self.expect_mark(Mark::Comma)?;
        }
    }

    /// Reads a case after its first word.
    #[cycle(values)]
    fn value_case(&mut self, alloc: Global) -> Result<SourceValue, Fault>
        ensures reads { IfOk result (λ v. IsValueCase self.old self.new v) }
        ensures stops { IfErr result (λ f. OnStop f (ValueCaseStops self.old self.new)) }
    {
        let var = self.name(alloc)?;
        self.expect_word(Word::KwOf)?;
        let arms = self.value_arms(alloc)?;
        Ok(SourceValue::Case { var, arms })
    }

    /// Reads the arms of a case, and the word after them.
    #[cycle(values)]
    fn value_arms(&mut self, alloc: Global) -> Result<Items<SourceValueArm>, Fault>
        ensures reads { IfOk result (λ arms. AreValueArms self.old self.new arms) }
        ensures stops { IfErr result (λ f. OnStop f (ValueArmsStop self.old self.new)) }
    {
        let mut arms = Items::new(alloc);
        'arms: loop {
            let arm = self.value_arm(alloc)?;
            arms.push(arm)?;
            if self.take_word(Word::KwEnd) {
                return Ok(arms);
            }
            self.expect_mark(Mark::Semicolon)?;
        }
    }

    /// Reads an arm of a case.
    #[cycle(values)]
    fn value_arm(&mut self, alloc: Global) -> Result<SourceValueArm, Fault>
        ensures reads { IfOk result (λ arm. WholeArm self.old self.new arm) }
        ensures stops { IfErr result (λ f. OnStop f (ValueArmStops self.old self.new)) }
    {
        let pattern = self.pattern(alloc)?;
        self.expect_mark(Mark::Colon)?;
        let body = self.value(alloc)?;
        Ok(SourceValueArm { pattern, body })
    }
}
