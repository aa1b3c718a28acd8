// The lines of refusals.
ghost use Rattle.std.specs.Prelude.{◌≡◌, ◌++◌, IfOk};
ghost use Rattle.luo_answer.specs.Lines.{line, at_byte};

use itoa::Buffer;
use luo_num::NoMemory;
use std::alloc::Global;

pub const USAGE_LINE: &[u8] = b"usage\n";

/// `HEAD at byte BYTE`, as a line; a byte is told by its place in a text, from 0 on. `NoMemory` comes where memory is
/// refused.
pub fn line_at(alloc: Global, head: &[u8], byte: usize) -> Result<Vec<u8>, NoMemory>
    ensures { IfOk result (λ text. text.items ≡ line (head.now ++ at_byte byte)) }
{
    let mut buffer = Buffer::new();
    let mut text = Vec::from_slice(alloc, head)?;
    text.extend_from_slice(b" at byte ")?;
    text.extend_from_slice(buffer.format(byte).as_bytes())?;
    text.push(b'\n')?;
    Ok(text)
}
