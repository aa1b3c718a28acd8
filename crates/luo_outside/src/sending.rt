// Sending bytes to a sink.
ghost use Rattle.std.specs.Prelude.{◌≡◌, [], ◌≤◌, OnOk, OnErr};
ghost use Rattle.std.specs.Io.KnownBytes.{Appends};
ghost use Rattle.luo_outside.specs.Bytes.{TookPrefix};
ghost use Rattle.luo_outside.specs.Causes.{Rose};

use crate::{Sink, WriteFault};

/// Sends all the bytes, and takes no memory. Each write is given all the bytes that are left, and the
/// empty list is sent with no write.
///
/// `WriteFault` comes only where the count of the sink rose, and then it took a prefix of the
/// bytes.
#[tactic(auto, using(crate::proofs::Sent::sent_none, crate::proofs::Sent::sent_more, crate::proofs::Sent::sent_all, crate::proofs::Sent::sent_prefix))]
pub fn send<S: Sink>(sink: &mut S, bytes: &[u8]) -> Result<(), WriteFault>
    ensures ok { OnOk result (Appends (S.taken sink.old) (S.taken sink.new) bytes.now) }
    ensures fault { OnErr result (TookPrefix (S.taken sink.old) (S.taken sink.new) bytes.now) }
    ensures cause { OnErr result (Rose (S.faults sink.old) (S.faults sink.new)) }
    ensures faults { S.faults sink.old ≤ S.faults sink.new }
    ensures none { bytes.now ≡ [] → sink.new ≡ sink.old }
{
    let mut rest = bytes;
    while !rest.is_empty() {
        match sink.write(rest) {
            Ok(count) => rest = rest.split_at(count).1,
            Err(_) => return Err(WriteFault),
        }
    }
    Ok(())
}
