// Why a run ends early.
use luo_num::NoMemory;
use std::alloc::{AllocError, AllocFailed};

/// Why a run ends early.
#[derive(Clone, Copy)]
pub enum Failure {
    /// The words are of no form, or the bounds of a table are past the limits.
    Refused,
    /// Memory was refused.
    NoMemory,
}

impl From<NoMemory> for Failure {
    fn from(_: NoMemory) -> Self {
        Failure::NoMemory
    }
}

impl From<AllocError> for Failure {
    fn from(_: AllocError) -> Self {
        Failure::NoMemory
    }
}

impl<T: Drop> From<AllocFailed<T>> for Failure {
    fn from(_: AllocFailed<T>) -> Self {
        Failure::NoMemory
    }
}
