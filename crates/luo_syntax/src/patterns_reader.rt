// Patterns.
#![tactic(auto, using(crate::proofs::PatternSteps::pattern_steps))]

ghost use Rattle.std.specs.Prelude.{◌<◌, ◌∷◌, List, length, IfOk, IfErr, OnOk};
ghost use Rattle.luo_syntax.specs.inner.Next.{OnStop};
ghost use Rattle.luo_source.specs.GrammarStatements.{IsPattern};
ghost use Rattle.luo_syntax.specs.inner.StopsPatterns.{PatternEnds, PatternStops, behind_name};

use crate::cursor::Cursor;
use crate::fault::Fault;
use luo_scan::{Mark, Word};
use luo_source::{Name, Pattern};
use std::alloc::Global;

impl<'t> Cursor<'t> {
    /// Reads a pattern.
    pub fn pattern(&mut self, alloc: Global) -> Result<Pattern, Fault>
        ensures reads { IfOk result (λ p. IsPattern self.old self.new p) }
        ensures ends { IfOk result (λ p. PatternEnds p self.new) }
        ensures stops { IfErr result (λ f. OnStop f (PatternStops self.old self.new)) }
        ensures shorter { OnOk result (length self.new < length self.old) }
    {
        if let Some(at) = self.take_mark_at(Mark::LeftRound) {
            let names = self.names(Mark::RightRound, alloc)?;
            return Ok(Pattern::Parts { names, at });
        }
        if let Some(at) = self.take_mark_at(Mark::Underscore) {
            if !self.take_word(Word::KwAs) {
                return Ok(Pattern::Any { at });
            }
            let inner = self.name(alloc)?;
            return Ok(Pattern::AnyWhole { name: inner, at });
        }
        let name = self.name(alloc)?;
        let read = self.pattern_behind(name, alloc)?;
        Ok(read)
    }

    /// Reads a pattern whose first name has been read.
    fn pattern_behind(&mut self, name: Name, alloc: Global) -> Result<Pattern, Fault>
        ensures reads { IfOk result (λ p. IsPattern (behind_name name self.old) self.new p) }
        ensures ends { IfOk result (λ p. PatternEnds p self.new) }
        ensures stops { IfErr result
            (λ f. OnStop f (PatternStops (behind_name name self.old) self.new)) }
    {
        if self.take_word(Word::KwAs) {
            let inner = self.name(alloc)?;
            return Ok(Pattern::NamedWhole(name, inner));
        }
        if self.take_mark(Mark::LeftRound) {
            let names = self.names(Mark::RightRound, alloc)?;
            return Ok(Pattern::NamedParts(name, names));
        }
        Ok(Pattern::Named(name))
    }
}
