// The refusals of a text, and their lines.
ghost use Rattle.std.specs.Prelude.{◌≡◌, ◌++◌, flat_map, IfOk, OnOk};
ghost use Rattle.luo_scan.specs.Faults.{IsFault};
ghost use Rattle.luo_scan.specs.Lexemes.{lexemes};
ghost use Rattle.luo_syntax.specs.Viable.{Explains};
ghost use Rattle.luo_source.specs.Plain.Source.{Source};
ghost use Rattle.luo_rules.specs.Checks.{IsUnchecked};
ghost use Rattle.luo_answer.specs.Lines.{line};
ghost use Rattle.luo_answer.specs.inner.Passes.{RefusedBy};
ghost use Rattle.luo_top.specs.Refusals.{at_token, byte_of_token, limit_line, rule_text, spaced, rule_line, LexicalRefusal, SyntaxRefusal};
ghost use Rattle.luo_top.specs.Steps.{CoreRefusal};

use itoa::Buffer;
use luo_answer::{Line, Refusal, line_at};
use luo_num::limits::{
    ANALYSIS_LIMIT_LINE, BOUND_LIMIT_LINE, DEFINITION_LIMIT_LINE, DEPTH_LIMIT_HEAD,
    MULTISET_LIMIT_LINE, NAME_LIMIT_HEAD, NODE_LIMIT_LINE, NUMBER_LIMIT_HEAD, PART_LIMIT_LINE,
    PROCEDURE_LIMIT_LINE, STATEMENT_LIMIT_LINE, WALK_LIMIT_LINE,
};
use luo_num::{Items, NoMemory, Text};
use luo_scan::{ScanError, Token};
use luo_syntax::SyntaxError;
use luo_types::{CheckError, CountLimit, Rule};
use std::alloc::Global;

// `HEAD at token TOKEN, byte BYTE`, as a line.
fn line_at_token(alloc: Global, head: &[u8], token: usize, byte: usize) -> Result<Vec<u8>, NoMemory>
    ensures { IfOk result (λ text. text.items ≡ line (head.now ++ at_token token byte)) }
{
    let mut buffer = Buffer::new();
    let mut text = Vec::from_slice(alloc, head)?;
    text.extend_from_slice(b" at token ")?;
    text.extend_from_slice(buffer.format(token).as_bytes())?;
    text.extend_from_slice(b", byte ")?;
    text.extend_from_slice(buffer.format(byte).as_bytes())?;
    text.push(b'\n')?;
    Ok(text)
}

/// The refusal of a lexical fault.
pub fn fault_refusal(alloc: Global, text: &[u8], error: ScanError) -> Refusal
    requires { IsFault text.now error }
    ensures { RefusedBy (LexicalRefusal text.now) result }
{
    match error {
        ScanError::BadByte { at } => match line_at(alloc, b"refused: G1", at) {
            Ok(text) => Refusal::Refused(Line::Made(text)),
            Err(_) => Refusal::NoMemory,
        },
        ScanError::NameLimit { at } => match line_at(alloc, NAME_LIMIT_HEAD, at) {
            Ok(text) => Refusal::Limit(Line::Made(text)),
            Err(_) => Refusal::NoMemory,
        },
        ScanError::NumberLimit { at } => match line_at(alloc, NUMBER_LIMIT_HEAD, at) {
            Ok(text) => Refusal::Limit(Line::Made(text)),
            Err(_) => Refusal::NoMemory,
        },
        ScanError::NoMemory => Refusal::NoMemory,
    }
}

// The first byte of a token, or the length of the text where there is no such token.
#[tactic(auto, using(crate::proofs::TokenBytes::byte_there, crate::proofs::TokenBytes::byte_past))]
fn byte_of(text: &[u8], tokens: &[Token], token: usize) -> usize
    ensures { result ≡ byte_of_token text.now tokens.now token }
{
    if token < tokens.len() {
        tokens[token].start
    } else {
        text.len()
    }
}

/// The refusal of tokens that are no program, or that open too much.
pub fn syntax_refusal(alloc: Global, text: &[u8], tokens: &[Token], error: SyntaxError) -> Refusal
    requires { Explains (lexemes text.now tokens.now) error }
    ensures { RefusedBy (SyntaxRefusal text.now tokens.now) result }
{
    match error {
        SyntaxError::Grammar { token } => {
            match line_at_token(alloc, b"refused: G2", token, byte_of(text, tokens, token)) {
                Ok(text) => Refusal::Refused(Line::Made(text)),
                Err(_) => Refusal::NoMemory,
            }
        }
        SyntaxError::Depth { token } => {
            match line_at_token(alloc, DEPTH_LIMIT_HEAD, token, byte_of(text, tokens, token)) {
                Ok(text) => Refusal::Limit(Line::Made(text)),
                Err(_) => Refusal::NoMemory,
            }
        }
        SyntaxError::NoMemory => Refusal::NoMemory,
    }
}

// The line of a limit.
fn limit_bytes(which: CountLimit) -> &'static [u8]
    ensures { result.now ≡ limit_line which }
{
    match which {
        CountLimit::Definitions => DEFINITION_LIMIT_LINE,
        CountLimit::Nodes => NODE_LIMIT_LINE,
        CountLimit::Parts => PART_LIMIT_LINE,
        CountLimit::Bounds => BOUND_LIMIT_LINE,
        CountLimit::Multisets => MULTISET_LIMIT_LINE,
        CountLimit::Procedures => PROCEDURE_LIMIT_LINE,
        CountLimit::Statements => STATEMENT_LIMIT_LINE,
        CountLimit::Analyses => ANALYSIS_LIMIT_LINE,
        CountLimit::Walks => WALK_LIMIT_LINE,
    }
}

// The name of a rule.
fn rule_bytes(rule: Rule) -> &'static [u8]
    ensures { result.now ≡ rule_text rule }
{
    match rule {
        Rule::Y1 => b"Y1",
        Rule::Y2 => b"Y2",
        Rule::Y3 => b"Y3",
        Rule::Y4 => b"Y4",
        Rule::Y5 => b"Y5",
        Rule::Y6 => b"Y6",
        Rule::Y7 => b"Y7",
        Rule::Y8 => b"Y8",
        Rule::Y9 => b"Y9",
        Rule::Y10 => b"Y10",
        Rule::Y11 => b"Y11",
        Rule::Y12 => b"Y12",
        Rule::Y13 => b"Y13",
        Rule::Y14 => b"Y14",
        Rule::Y15 => b"Y15",
    }
}

// Puts each name behind the text, with a space before it.
fn put_names(text: &mut Vec<u8>, names: &[Text]) -> Result<(), NoMemory>
    ensures { OnOk result (text.new.items ≡ text.old.items ++ flat_map spaced names.now) }
{
    for name in names {
        text.push(b' ')?;
        text.extend_from_slice(name.as_slice())?;
    }
    Ok(())
}

// The line of a breach.
fn rule_refusal_line(
    alloc: Global,
    rule: Rule,
    byte: usize,
    names: &[Text],
) -> Result<Vec<u8>, NoMemory>
    ensures { IfOk result (λ text. text.items ≡ rule_line rule byte names.now) }
{
    let mut buffer = Buffer::new();
    let mut text = Vec::from_slice(alloc, b"refused: ")?;
    text.extend_from_slice(rule_bytes(rule))?;
    text.extend_from_slice(b" at byte ")?;
    text.extend_from_slice(buffer.format(byte).as_bytes())?;
    text.push(b':')?;
    put_names(&mut text, names)?;
    text.push(b'\n')?;
    Ok(text)
}

/// The refusal of a source that is no program.
pub fn check_refusal(
    alloc: Global,
    text: &Text,
    tokens: &Items<Token>,
    error: CheckError,
) -> Refusal
    ensures { (source : Source) → IsUnchecked source error
        → RefusedBy (CoreRefusal text.now tokens.now source) result }
{
    match error {
        CheckError::Limit { which } => Refusal::Limit(Line::Fixed(limit_bytes(which))),
        CheckError::Rule { rule, token, names } => {
            let byte = byte_of(text.as_slice(), tokens.as_slice(), token);
            match rule_refusal_line(alloc, rule, byte, names.as_slice()) {
                Ok(text) => Refusal::Refused(Line::Made(text)),
                Err(_) => Refusal::NoMemory,
            }
        }
        CheckError::NoMemory => Refusal::NoMemory,
    }
}
