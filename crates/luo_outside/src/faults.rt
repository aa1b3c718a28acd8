// The answers of the calls that meet the outside.
ghost use Rattle.std.specs.Prelude.{◌≡◌};
ghost use Rattle.luo_outside.specs.declared.faults.ReadError.TheVariants.{NoMemory};

use std::alloc::AllocError;
use thiserror::Error;

/// A call on a source of files or on a sink failed.
#[derive(Clone, Copy, Debug, PartialEq, Eq)]
pub struct Failed;

/// A sink failed before it took everything.
#[derive(Clone, Copy, Debug, PartialEq, Eq)]
pub struct WriteFault;

/// Why a file was not read. Each message is the name of its variant.
#[derive(Clone, Copy, Debug, PartialEq, Eq, Error)]
pub enum ReadError {
    /// The source failed, as it counts for the name of the file.
    #[error("ReadFault")]
    ReadFault,

    /// The content has more than `TEXT_LIMIT` bytes.
    #[error("TooLong")]
    TooLong,

    /// Memory was refused.
    #[error("NoMemory")]
    NoMemory,
}

impl From<AllocError> for ReadError {
    ghost from_gives = { λ _ e. e ≡ NoMemory };

    fn from(_: AllocError) -> Self {
        ReadError::NoMemory
    }
}
