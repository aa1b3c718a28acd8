// Why tokens are no program.
ghost use Rattle.std.specs.Prelude.{◌≡◌};
ghost use Rattle.luo_syntax.specs.declared.error.SyntaxError.TheVariants.{NoMemory};

use std::alloc::{AllocError, AllocFailed};
use thiserror::Error;

/// Why tokens are no program.
#[derive(Clone, Copy, Debug, PartialEq, Eq, Error)]
pub enum SyntaxError {
    /// So many tokens from the first on are the most that begin some program.
    #[error("Grammar")]
    Grammar { token: usize },
    /// With this token more than `DEPTH_LIMIT` of `(`, `begin` and `case` are open.
    #[error("Depth")]
    Depth { token: usize },
    /// There was no memory for the source.
    #[error("NoMemory")]
    NoMemory,
}

impl From<AllocError> for SyntaxError {
    ghost from_gives = { λ _ e. e ≡ NoMemory };

    fn from(_: AllocError) -> Self {
        SyntaxError::NoMemory
    }
}

impl<T: Drop> From<AllocFailed<T>> for SyntaxError {
    ghost from_gives = { λ _ e. e ≡ NoMemory };

    fn from(_: AllocFailed<T>) -> Self {
        SyntaxError::NoMemory
    }
}
