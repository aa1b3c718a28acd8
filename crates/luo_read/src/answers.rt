// Why no structure is read.
ghost use Rattle.std.specs.Prelude.{◌≡◌};

use luo_num::NoMemory;

/// Why a text gives no structure of a node.
#[derive(Clone, Copy, Debug, PartialEq, Eq)]
pub enum StructError {
    /// The text has so many bytes, above the limit.
    Long { len: usize },
    /// The text is no text of a structure; its longest part that begins one has this length.
    S1 { at: usize },
    /// The text nests beyond the limit first at this byte.
    Deep { at: usize },
    /// No structure of the node, with its labels, has this text.
    S2,
    /// The structure of the node with this text has a size above the limit.
    S3 { size: u64 },
    NoMemory,
}

impl From<NoMemory> for StructError {
    ghost use Rattle.luo_read.specs.declared.answers.StructError.TheVariants.{NoMemory};

    ghost from_gives = { λ _ e. e ≡ NoMemory };

    fn from(_: NoMemory) -> Self {
        StructError::NoMemory
    }
}
