// Why a run ends without an output.
ghost use Rattle.std.specs.Prelude.{◌≡◌};
ghost use Rattle.luo_answer.specs.inner.Passes.{bytes_of, status_of, line_of};
ghost use Rattle.luo_answer.specs.declared.refusal.Refusal.TheVariants as why;

use crate::Status;
use crate::lines::USAGE_LINE;
use luo_num::NoMemory;
use std::alloc::AllocError;

/// The line of a refusal, with the line feed behind it.
#[derive(Drop)]
pub enum Line {
    /// A line that is the same for all words and files.
    Fixed(&'static [u8]),
    /// A line that was made of names, numbers and places.
    Made(Vec<u8>),
}

impl Line {
    /// Its bytes.
    pub fn as_slice(&self) -> &[u8]
        ensures { result.now ≡ bytes_of self.now }
    {
        match self {
            Line::Fixed(bytes) => bytes,
            Line::Made(bytes) => bytes.as_slice(),
        }
    }
}

/// Why a run ends without an output.
#[derive(Drop)]
pub enum Refusal {
    /// The words have the form of no command.
    Usage,
    /// A rule is broken.
    Refused(Line),
    /// A limit is passed.
    Limit(Line),
    /// A number is above the last one.
    Overflow(Line),
    /// A file that the words name failed.
    ReadFault,
    /// Memory was refused.
    NoMemory,
}

impl Refusal {
    /// The status that a run ends with.
    pub fn status(&self) -> Status
        ensures { result ≡ status_of self.now }
    {
        match self {
            Refusal::Usage => Status::Usage,
            Refusal::Refused(_) => Status::Refused,
            Refusal::Limit(_) => Status::Limit,
            Refusal::Overflow(_) => Status::Overflow,
            Refusal::ReadFault => Status::ReadFault,
            Refusal::NoMemory => Status::NoMemory,
        }
    }

    /// Its line.
    pub fn line(&self) -> &[u8]
        ensures { result.now ≡ line_of self.now }
    {
        match self {
            Refusal::Usage => USAGE_LINE,
            Refusal::Refused(line) => line.as_slice(),
            Refusal::Limit(line) => line.as_slice(),
            Refusal::Overflow(line) => line.as_slice(),
            Refusal::ReadFault => b"read fault\n",
            Refusal::NoMemory => b"no memory\n",
        }
    }
}

impl From<NoMemory> for Refusal {
    ghost from_gives = { λ _ e. e ≡ why.NoMemory };

    fn from(_: NoMemory) -> Self {
        Refusal::NoMemory
    }
}

impl From<AllocError> for Refusal {
    ghost from_gives = { λ _ e. e ≡ why.NoMemory };

    fn from(_: AllocError) -> Self {
        Refusal::NoMemory
    }
}
