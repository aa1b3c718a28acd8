// The tokens of a text.
ghost use Rattle.std.specs.Prelude.{◌≤◌, length, IfOk, IfErr};
ghost use Rattle.luo_scan.specs.Faults.{AllInside, IsFault};
ghost use Rattle.luo_scan.specs.Tokens.{Tokens};

use crate::piece::{Piece, first_piece};
use crate::{ScanError, Token};
use luo_num::limits::TEXT_LIMIT;
use std::alloc::Global;

/// The tokens of a text, each the longest that begins where the one before ends.
///
/// `BadByte`, `NameLimit` and `NumberLimit` name the first fault of the text and the byte where it begins.
/// `NoMemory` says that there was no memory for the tokens.
pub fn scan(alloc: Global, text: &[u8]) -> Result<Vec<Token>, ScanError>
    requires { length text.now ≤ TEXT_LIMIT }
    ensures ok { IfOk result (λ ts. Tokens text.now ts.items) }
    ensures inside { IfOk result (λ ts. AllInside (length text.now) ts.items) }
    ensures err { IfErr result (λ e. IsFault text.now e) }
{
    let mut tokens = Vec::new(alloc);
    let mut at = 0;
    'pieces: while at < text.len() {
        match first_piece(&text[at..]) {
            Piece::Gap { length } => {
                at += length;
            }
            Piece::Token { kind, length } => {
                let start = at;
                at += length;
                tokens.push(Token {
                    kind,
                    start,
                    end: at,
                })?;
            }
            Piece::BadByte => return Err(ScanError::BadByte { at }),
            Piece::LongName => return Err(ScanError::NameLimit { at }),
            Piece::LargeNumber => return Err(ScanError::NumberLimit { at }),
        }
    }
    Ok(tokens)
}
