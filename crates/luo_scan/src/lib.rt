//! Tokens: a text is cut into its longest pieces, or its first lexical fault is named.
#![tactic(auto)]

mod bytes;
mod error;
mod laws;
mod marks;
mod piece;
mod scanning;
mod token;
mod words;

pub use error::ScanError;
pub use laws::{
    fault_is_unique, lexemes_are_fit, tokens_are_unique, tokens_lie_inside, tokens_or_fault,
};
pub use marks::written;
pub use scanning::scan;
pub use token::{Mark, Token, TokenKind, Word};
pub use words::spelled;
