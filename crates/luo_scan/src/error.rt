// Why a text has no tokens.
ghost use Rattle.std.specs.Prelude.{◌≡◌};
ghost use Rattle.luo_scan.specs.declared.error.ScanError.TheVariants.{NoMemory};

use std::alloc::{AllocError, AllocFailed};
use thiserror::Error;

/// Why a text has no tokens. `at` is the byte where the first fault begins.
#[derive(Clone, Copy, Debug, PartialEq, Eq, Error)]
pub enum ScanError {
    /// No piece begins at this byte.
    #[error("BadByte")]
    BadByte { at: usize },
    /// The name that begins at this byte has more than `NAME_LIMIT` bytes.
    #[error("NameLimit")]
    NameLimit { at: usize },
    /// The number that begins at this byte is larger than `NUMBER_LIMIT`.
    #[error("NumberLimit")]
    NumberLimit { at: usize },
    /// There was no memory for the tokens.
    #[error("NoMemory")]
    NoMemory,
}

impl From<AllocError> for ScanError {
    ghost from_gives = { λ _ e. e ≡ NoMemory };

    fn from(_: AllocError) -> Self {
        ScanError::NoMemory
    }
}

impl<T: Drop> From<AllocFailed<T>> for ScanError {
    ghost from_gives = { λ _ e. e ≡ NoMemory };

    fn from(_: AllocFailed<T>) -> Self {
        ScanError::NoMemory
    }
}
