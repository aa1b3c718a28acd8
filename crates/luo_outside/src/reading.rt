// Reading a whole file.
ghost use Rattle.std.specs.Prelude.{◌≡◌, ℕ, List, ◌<◌, ◌≤◌, length, IfOk, IfSome, IsErrOf};
ghost use Rattle.luo_outside.specs.Causes.{Rose, NoneFell};

use crate::{Files, ReadError};
use luo_num::limits::TEXT_LIMIT;
use std::alloc::Global;

const PIECE: usize = 4096;

/// The whole content of the file of this name.
///
/// `ReadFault` comes only where the count of this name rose, `TooLong` only where a content that is told
/// has more than `TEXT_LIMIT` bytes (and then `Ok` doesn't come), `NoMemory` where memory was refused.
pub fn read_all<F: Files>(alloc: Global, files: &mut F, name: &str) -> Result<Vec<u8>, ReadError>
    ensures content { IfOk result (λ bytes. IfSome (F.named files.old name.now)
        (λ c. bytes.items ≡ c)) }
    ensures length { IfOk result (λ bytes. length bytes.items ≤ TEXT_LIMIT) }
    ensures too_long { IsErrOf result ReadError.TooLong
        → IfSome (F.named files.old name.now) (λ c. TEXT_LIMIT < length c) }
    ensures fault { IsErrOf result ReadError.ReadFault
        → Rose (F.faults files.old name.now) (F.faults files.new name.now) }
    ensures faults { NoneFell (F.faults files.old) (F.faults files.new) }
    ensures named { (n : List ℕ) → F.named files.new n ≡ F.named files.old n }
{
    let Ok(()) = files.find(name) else {
        return Err(ReadError::ReadFault);
    };
    let mut bytes = Vec::new(alloc);
    let mut piece = [0u8; PIECE];
    loop {
        let Ok(count) = files.read(&mut piece) else {
            return Err(ReadError::ReadFault);
        };
        if count == 0 {
            return Ok(bytes);
        }
        if count > TEXT_LIMIT - bytes.len() {
            return Err(ReadError::TooLong);
        }
        bytes.extend_from_slice(&piece[..count])?;
    }
}
