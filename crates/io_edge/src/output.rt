ghost use Rattle.std.specs.Prelude.{◌≡◌, [], OnOk, OnErr, IsOk};
ghost use Rattle.io_edge.specs.Faults.{HasCause};
ghost use Rattle.io_edge.specs.Bytes.{Took, TookPrefix};

use crate::edge::Sink;
use thiserror::Error;

/// A write failed before all bytes were taken.
#[derive(Clone, Copy, Debug, PartialEq, Eq, Error)]
#[error("a write failed")]
pub struct WriteFault;

/// Gives the sink all of the bytes, by as many writes as it takes, and flushes nothing.
///
/// # Errors
///
/// `WriteFault` at the first write that fails. The sink took a prefix of the bytes then.
pub fn write_all<K: Sink>(sink: &mut K, bytes: &[u8]) -> Result<(), WriteFault>
    ensures ok { OnOk result (Took (K.taken sink.old) (K.taken sink.new) bytes.now) }
    ensures err { OnErr result (TookPrefix (K.taken sink.old) (K.taken sink.new) bytes.now) }
    ensures flushed { K.flushed sink.new ≡ K.flushed sink.old }
    ensures cause { HasCause (K.fault_count sink.old) (K.fault_count sink.new) result }

    // With no bytes the sink is not called.
    ensures empty { bytes.now ≡ [] → IsOk result × (sink.new ≡ sink.old) }
{
    let mut done = 0;
    while done < bytes.len() {
        match sink.write(&bytes[done..]) {
            Ok(count) => done += count,
            Err(_) => return Err(WriteFault),
        }
    }
    Ok(())
}
