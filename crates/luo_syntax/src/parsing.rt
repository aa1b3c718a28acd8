// Programs, read off tokens.
#![tactic(auto, using(crate::proofs::Texts::texts))]

ghost use Rattle.std.specs.Prelude.{◌≡◌, ◌≤◌, List, ℕ, length, IfOk, IfErr, OnOk, MatchOption};
ghost use Rattle.luo_scan.specs.Faults.{AllInside};
ghost use Rattle.luo_scan.specs.Lexemes.{lexemes};
ghost use Rattle.luo_scan.specs.Tokens.{Tokens};
ghost use Rattle.luo_source.specs.Grammar.{Derives};
ghost use Rattle.luo_syntax.specs.Viable.{opens_kind, closes_kind, IsShallow, IsFirstDeep, StopsWhole, Explains};

use crate::cursor::Cursor;
use crate::error::SyntaxError;
use crate::fault::Fault;
use luo_num::limits::DEPTH_LIMIT;
use luo_scan::{Mark, Token, TokenKind, Word};
use luo_source::Source;
use std::alloc::Global;

/// The source of the program that these tokens of a text are.
///
/// `Grammar` and `Depth` name a token by its number, from 0. `Grammar` says that the tokens before it are the most that
/// begin some program; it is the number of all tokens where only more of them could make a program. `Depth` says that the
/// tokens up to it begin some program, and that it opens more than `DEPTH_LIMIT` of `(`, `begin` and `case` at once.
pub fn parse(alloc: Global, text: &[u8], tokens: &[Token]) -> Result<Source, SyntaxError>
    requires { Tokens text.now tokens.now }
    ensures ok { IfOk result (λ s. Derives text.now tokens.now s) }
    ensures shallow { OnOk result (IsShallow (lexemes text.now tokens.now)) }
    ensures err { IfErr result (λ e. Explains (lexemes text.now tokens.now) e) }
{
    let Some(deep) = too_deep(tokens) else {
        let source = whole(alloc, text, tokens)?;
        return Ok(source);
    };
    match whole(alloc, text, &tokens[..deep + 1]) {
        Err(SyntaxError::Grammar { token }) if token <= deep => return Err(SyntaxError::Grammar {
            token,
        }),
        Err(SyntaxError::NoMemory) => return Err(SyntaxError::NoMemory),
        Err(SyntaxError::Grammar { .. }) => return Err(SyntaxError::Depth { token: deep }),
        Err(SyntaxError::Depth { .. }) => unreachable!(),
        Ok(_) => return Err(SyntaxError::Depth { token: deep }),
    }
}

/// Reads all of the tokens.
fn whole(alloc: Global, text: &[u8], tokens: &[Token]) -> Result<Source, SyntaxError>
    requires { AllInside (length text.now) tokens.now }
    ensures ok { IfOk result (λ s. Derives text.now tokens.now s) }
    ensures err { IfErr result (λ e. StopsWhole (lexemes text.now tokens.now) e) }
{
    let mut cursor = Cursor::new(text, tokens);
    match cursor.program(alloc) {
        Ok(source) => return Ok(source),
        Err(Fault::Stops) => {
            let left = cursor.count();
            return Err(SyntaxError::Grammar {
                token: tokens.len() - left,
            });
        }
        Err(Fault::NoMemory) => return Err(SyntaxError::NoMemory),
    }
}

/// The first token with which more than `DEPTH_LIMIT` are open.
fn too_deep(tokens: &[Token]) -> Option<usize>
    ensures { MatchOption result ((text : List ℕ) → IsShallow (lexemes text tokens.now))
        (λ k. (text : List ℕ) → IsFirstDeep (lexemes text tokens.now) k) }
{
    let mut opened = 0usize;
    let mut closed = 0usize;
    for i in 0..tokens.len() {
        opened += opens(tokens[i].kind);
        closed += closes(tokens[i].kind);
        if opened > closed + DEPTH_LIMIT {
            return Some(i);
        }
    }
    None
}

fn opens(kind: TokenKind) -> usize
    ensures count { result ≡ opens_kind kind }
    ensures most { result ≤ 1 }
{
    match kind {
        TokenKind::Mark(Mark::LeftRound) => 1,
        TokenKind::Word(Word::KwBegin) => 1,
        TokenKind::Word(Word::KwCase) => 1,
        _ => 0,
    }
}

fn closes(kind: TokenKind) -> usize
    ensures count { result ≡ closes_kind kind }
    ensures most { result ≤ 1 }
{
    match kind {
        TokenKind::Mark(Mark::RightRound) => 1,
        TokenKind::Word(Word::KwEnd) => 1,
        _ => 0,
    }
}
