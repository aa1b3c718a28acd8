// How far a text is read.
ghost use Rattle.std.specs.Prelude.{◌≡◌};

use luo_num::{Items, NoMemory};
use luo_struct::Structure;
use std::alloc::AllocError;

/// What is open: a branch, or a tuple or a collection with the parts that are read.
#[derive(Debug, Drop)]
pub(crate) enum Frame {
    Branch { number: u32 },
    Tuple { parts: Items<Structure> },
    Collection { parts: Items<Structure> },
}

/// What the last bytes belong to.
#[derive(Debug, Drop)]
pub(crate) enum Stage {
    /// A structure begins at the next byte.
    Begin,
    /// The first component of a collection begins there, or the collection ends.
    First,
    /// The weight of an atom, as far as it is read.
    Weight { number: Option<u32> },
    /// The label of an atom.
    Label { number: Option<u32> },
    /// The number of a branch.
    Branch { number: u32 },
    /// A structure stands before the next byte, and isn't the inside of a branch.
    Behind { s: Structure },
}

/// A text that is read up to some byte: what is open, the innermost last, and what the last bytes belong to.
#[derive(Debug, Drop)]
pub(crate) struct Reader {
    pub(crate) frames: Items<Frame>,
    pub(crate) stage: Stage,
}

/// Why a byte isn't read.
#[derive(Clone, Copy, Debug, PartialEq, Eq)]
pub(crate) enum Stop {
    /// It continues no text of a structure.
    Unreadable,
    /// It opens something beyond the limit.
    Deep,
    NoMemory,
}

impl From<NoMemory> for Stop {
    ghost use Rattle.luo_read.specs.declared.reader.Stop.TheVariants.{NoMemory};

    ghost from_gives = { λ _ e. e ≡ NoMemory };

    fn from(_: NoMemory) -> Self {
        Stop::NoMemory
    }
}

impl From<AllocError> for Stop {
    ghost use Rattle.luo_read.specs.declared.reader.Stop.TheVariants.{NoMemory};

    ghost from_gives = { λ _ e. e ≡ NoMemory };

    fn from(_: AllocError) -> Self {
        Stop::NoMemory
    }
}
