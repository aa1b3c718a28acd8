// A place among tokens, and what comes next there.
#![tactic(auto)]

ghost use Rattle.std.specs.Prelude.{◌≡◌, ◌∷◌, List, length, IfOk, IfErr, OnOk};
ghost use Rattle.luo_scan.specs.declared.token.TokenKind.TheVariants as kind;
ghost use Rattle.luo_scan.specs.Faults.{AllInside};
ghost use Rattle.luo_scan.specs.Lexemes.{Lexeme, lexeme, lexemes};
ghost use Rattle.luo_syntax.specs.inner.Next.{IsNext, IsNextAt, IsName, Misses, MissesName, MissesNumber, OnStop, Takes, TakesAt, TakesNumber, TakesKind, TakesAnyNumber, Sees, SeesKind, Ends};

use crate::fault::Fault;
use luo_num::Items;
use luo_scan::{Mark, Token, TokenKind, Word};
use luo_source::Name;
use std::alloc::Global;
use std::marker::Model;

/// What is left to be read: contracts see its lexemes.
#[derive(Drop)]
pub struct Cursor<'t> {
    text: &'t [u8],
    left: &'t [Token],
    at: usize,
}

impl<'t> Model for Cursor<'t> {
    ghost use Rattle.std.specs.Prelude.{List, length, ◌+◌, ◌≤◌, ◌^◌};
    ghost use Rattle.luo_scan.specs.Lexemes.{Lexeme, lexemes_from};
    ghost use Rattle.luo_scan.specs.Faults.{AllInside};

    ghost Value = { List Lexeme };

    ghost view = { λ r. lexemes_from r.at r.text.now r.left.now };

    ghost invariant = { λ r. AllInside (length r.text.now) r.left.now
        × (r.at + length r.left.now ≤ 2 ^ 63) };
}

impl<'t> Cursor<'t> {
    /// All the tokens of a text.
    pub fn new(text: &'t [u8], tokens: &'t [Token]) -> Cursor<'t>
        requires { AllInside (length text.now) tokens.now }
        ensures { result ≡ lexemes text.now tokens.now }
    {
        Cursor {
            text,
            left: tokens,
            at: 0,
        }
    }

    /// Nothing is left.
    pub fn is_empty(&self) -> bool
        ensures { Ends self.now result }
    {
        if let [_, ..] = self.left {
            return false;
        }
        true
    }

    /// How many lexemes are left.
    pub fn count(&self) -> usize
        ensures { result ≡ length self.now }
    {
        self.left.len()
    }

    /// A lexeme of this kind comes next.
    fn sees_kind(&self, wanted: TokenKind) -> bool
        ensures { SeesKind wanted self.now result }
    {
        if let [first, ..] = self.left {
            if first.kind == wanted {
                return true;
            }
        }
        false
    }

    /// Takes a lexeme of this kind, if one comes next, and answers its number.
    fn take_kind(&mut self, wanted: TokenKind) -> Option<usize>
        ensures { TakesKind wanted self.old self.new result }
    {
        if let [first, rest @ ..] = self.left {
            if first.kind == wanted {
                let at = self.at;
                self.left = rest;
                self.at = at + 1;
                return Some(at);
            }
        }
        None
    }

    fn take_any_number(&mut self) -> Option<(u128, usize)>
        ensures { TakesAnyNumber self.old self.new result }
    {
        if let [first, rest @ ..] = self.left {
            if let TokenKind::Number(value) = first.kind {
                let at = self.at;
                self.left = rest;
                self.at = at + 1;
                return Some((value, at));
            }
        }
        None
    }

    fn named(&mut self, alloc: Global) -> Result<Name, Fault>
        ensures reads { IfOk result (λ n. self.old ≡ lexeme kind.Name n.text n.at ∷ self.new) }
        ensures stops { IfErr result (λ f. OnStop f (MissesName self.old self.new)) }
    {
        if let [first, rest @ ..] = self.left {
            if first.kind == TokenKind::Name {
                let at = self.at;
                let text = Items::from_slice(alloc, &self.text[first.start..first.end])?;
                self.left = rest;
                self.at = at + 1;
                return Ok(Name { text, at });
            }
        }
        Err(Fault::Stops)
    }

    /// This word comes next.
    #[tactic(auto, using(crate::proofs::Nexts::nexts))]
    pub fn sees_word(&self, wanted: Word) -> bool
        ensures { Sees (kind.Word wanted) self.now result }
    {
        if self.sees_kind(TokenKind::Word(wanted)) {
            return true;
        }
        false
    }

    /// Takes this word, if it comes next, and answers its number.
    #[tactic(auto, using(crate::proofs::Nexts::nexts))]
    pub fn take_word_at(&mut self, wanted: Word) -> Option<usize>
        ensures { TakesAt (kind.Word wanted) self.old self.new result }
    {
        self.take_kind(TokenKind::Word(wanted))
    }

    /// Takes this mark, if it comes next, and answers its number.
    #[tactic(auto, using(crate::proofs::Nexts::nexts))]
    pub fn take_mark_at(&mut self, wanted: Mark) -> Option<usize>
        ensures { TakesAt (kind.Mark wanted) self.old self.new result }
    {
        self.take_kind(TokenKind::Mark(wanted))
    }

    /// Takes this word, if it comes next.
    #[tactic(auto, using(crate::proofs::Nexts::nexts))]
    pub fn take_word(&mut self, wanted: Word) -> bool
        ensures { Takes (kind.Word wanted) self.old self.new result }
    {
        if let Some(_) = self.take_kind(TokenKind::Word(wanted)) {
            return true;
        }
        false
    }

    /// Takes this mark, if it comes next.
    #[tactic(auto, using(crate::proofs::Nexts::nexts))]
    pub fn take_mark(&mut self, wanted: Mark) -> bool
        ensures { Takes (kind.Mark wanted) self.old self.new result }
    {
        if let Some(_) = self.take_kind(TokenKind::Mark(wanted)) {
            return true;
        }
        false
    }

    /// Takes this word, which has to come next.
    pub fn expect_word(&mut self, wanted: Word) -> Result<(), Fault>
        ensures reads { OnOk result (IsNext (kind.Word wanted) self.old self.new) }
        ensures stops { IfErr result (λ f. OnStop f (Misses (kind.Word wanted) self.old self.new)) }
    {
        if self.take_word(wanted) {
            Ok(())
        } else {
            Err(Fault::Stops)
        }
    }

    /// Takes this mark, which has to come next.
    pub fn expect_mark(&mut self, wanted: Mark) -> Result<(), Fault>
        ensures reads { OnOk result (IsNext (kind.Mark wanted) self.old self.new) }
        ensures stops { IfErr result (λ f. OnStop f (Misses (kind.Mark wanted) self.old self.new)) }
    {
        if self.take_mark(wanted) {
            Ok(())
        } else {
            Err(Fault::Stops)
        }
    }

    /// Takes this word, which has to come next, and answers its number.
    pub fn expect_word_at(&mut self, wanted: Word) -> Result<usize, Fault>
        ensures reads { IfOk result (λ at. IsNextAt (kind.Word wanted) at self.old self.new) }
        ensures stops { IfErr result (λ f. OnStop f (Misses (kind.Word wanted) self.old self.new)) }
    {
        if let Some(at) = self.take_word_at(wanted) {
            return Ok(at);
        }
        Err(Fault::Stops)
    }

    /// Takes a number and its number as a lexeme, if a number comes next.
    #[tactic(auto, using(crate::proofs::Nexts::nexts))]
    pub fn take_number(&mut self) -> Option<(u128, usize)>
        ensures { TakesNumber self.old self.new result }
    {
        self.take_any_number()
    }

    /// Takes a number, which has to come next, and its number as a lexeme.
    pub fn number_at(&mut self) -> Result<(u128, usize), Fault>
        ensures reads { IfOk result (λ r. IsNextAt (kind.Number r.0) r.1 self.old self.new) }
        ensures stops { IfErr result (λ f. OnStop f (MissesNumber self.old self.new)) }
    {
        if let Some(taken) = self.take_number() {
            return Ok(taken);
        }
        Err(Fault::Stops)
    }

    /// Takes a number, which has to come next.
    #[tactic(auto, using(crate::proofs::Nexts::nexts))]
    pub fn number(&mut self) -> Result<u128, Fault>
        ensures reads { IfOk result (λ n. IsNext (kind.Number n) self.old self.new) }
        ensures stops { IfErr result (λ f. OnStop f (MissesNumber self.old self.new)) }
    {
        if let Some((value, _)) = self.take_any_number() {
            return Ok(value);
        }
        Err(Fault::Stops)
    }

    /// Takes a name, which has to come next.
    #[tactic(auto, using(crate::proofs::Nexts::nexts))]
    pub fn name(&mut self, alloc: Global) -> Result<Name, Fault>
        ensures reads { IfOk result (λ n. IsName self.old self.new n) }
        ensures stops { IfErr result (λ f. OnStop f (MissesName self.old self.new)) }
    {
        let name = self.named(alloc)?;
        Ok(name)
    }
}
