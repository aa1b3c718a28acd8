//! Numbers as text.
ghost use Rattle.std.specs.Prelude.{◌≡◌, ◌++◌, decimal, IfOk, OnOk};

use crate::NoMemory;
use itoa::Buffer;
use std::alloc::Global;

/// Appends a number in decimal digits, without leading zeros. `NoMemory` comes where memory is refused.
pub fn put_number(text: &mut Vec<u8>, number: u128) -> Result<(), NoMemory>
    ensures { OnOk result (text.new.items ≡ text.old.items ++ decimal number) }
{
    let mut buffer = Buffer::new();
    text.extend_from_slice(buffer.format(number).as_bytes())?;
    Ok(())
}

/// The text of a number in decimal digits, without leading zeros. `NoMemory` comes where memory is refused.
pub fn number_text(alloc: Global, number: u128) -> Result<Vec<u8>, NoMemory>
    ensures { IfOk result (λ text. text.items ≡ decimal number) }
{
    let mut text = Vec::new(alloc);
    put_number(&mut text, number)?;
    Ok(text)
}
