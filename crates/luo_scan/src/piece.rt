// What a text begins with.
ghost use Rattle.std.specs.Prelude.{◌≡◌, ◌<◌, ◌^◌, ◌+◌, length, slice_index, min};
ghost use Rattle.std.specs.List.{AllByRecursion};
ghost use Rattle.luo_scan.specs.Bytes.{IsDigit, IsLetter, IsSeparator};
ghost use Rattle.luo_scan.specs.Faults.{IsPieceOf};
ghost use Rattle.luo_scan.specs.Spellings.{value_after};

use crate::TokenKind;
use crate::bytes::{Class, is_digit, is_letter, is_separator, run};
use crate::marks::{mark_of, written};
use crate::words::word_of;
use luo_num::limits::{NAME_LIMIT, NUMBER_LIMIT};

/// What a text that is not empty begins with.
#[derive(Clone, Copy)]
pub(crate) enum Piece {
    Gap { length: usize },
    Token { kind: TokenKind, length: usize },
    BadByte,
    LongName,
    LargeNumber,
}

/// The piece that the text begins with, or the fault that is at its first byte.
pub(crate) fn first_piece(text: &[u8]) -> Piece
    requires { 0 < length text.now }
    ensures { IsPieceOf text.now result }
{
    let first = text[0];
    if is_separator(first) {
        Piece::Gap { length: 1 }
    } else if first == b'%' {
        comment_piece(text)
    } else if is_letter(first) {
        name_piece(text)
    } else if is_digit(first) {
        number_piece(text)
    } else {
        mark_piece(text)
    }
}

fn comment_piece(text: &[u8]) -> Piece
    requires some { 0 < length text.now }
    requires first { slice_index text.now 0 ≡ 37 }
    ensures { IsPieceOf text.now result }
{
    Piece::Gap {
        length: run(text, Class::Comment),
    }
}

fn name_piece(text: &[u8]) -> Piece
    requires some { 0 < length text.now }
    requires first { IsLetter (slice_index text.now 0) }
    ensures { IsPieceOf text.now result }
{
    let length = run(text, Class::Name);
    match word_of(&text[..length]) {
        Some(word) => Piece::Token {
            kind: TokenKind::Word(word),
            length,
        },
        None if length <= NAME_LIMIT => Piece::Token {
            kind: TokenKind::Name,
            length,
        },
        None => Piece::LongName,
    }
}

fn number_piece(text: &[u8]) -> Piece
    requires some { 0 < length text.now }
    requires first { IsDigit (slice_index text.now 0) }
    ensures { IsPieceOf text.now result }
{
    if text[0] == b'0' {
        return Piece::Token {
            kind: TokenKind::Number(0),
            length: 1,
        };
    }
    let length = run(text, Class::Digit);
    let number = number_of(&text[..length]);
    if number <= NUMBER_LIMIT {
        Piece::Token {
            kind: TokenKind::Number(number),
            length,
        }
    } else {
        Piece::LargeNumber
    }
}

/// The number that the digits give, and where it is larger than `NUMBER_LIMIT`, the next number after that.
fn number_of(digits: &[u8]) -> u128
    requires { AllByRecursion IsDigit digits.now }
    ensures { result ≡ min (value_after 0 digits.now) (NUMBER_LIMIT + 1) }
{
    let mut number: u128 = 0;
    for digit in digits {
        let next = 10 * number + u128::from(*digit - b'0');
        number = next.min(NUMBER_LIMIT + 1);
    }
    number
}

fn mark_piece(text: &[u8]) -> Piece
    requires some { 0 < length text.now }
    requires separator { IsSeparator (slice_index text.now 0) → ⊥ }
    requires percent { slice_index text.now 0 ≡ 37 → ⊥ }
    requires letter { IsLetter (slice_index text.now 0) → ⊥ }
    requires digit { IsDigit (slice_index text.now 0) → ⊥ }
    ensures { IsPieceOf text.now result }
{
    match mark_of(text) {
        Some(mark) => Piece::Token {
            kind: TokenKind::Mark(mark),
            length: written(mark).len(),
        },
        None => Piece::BadByte,
    }
}
