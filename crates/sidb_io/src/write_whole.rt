// Whole outputs.
ghost use Rattle.std.specs.Prelude.{OnOk, OnErr};
ghost use Rattle.sidb_io.specs.Outside.{HasFault, IsCountAfter, Took, TookFront};

use crate::{Failed, Sink};

/// Writes all the bytes, or after `Failed` a front of them.
pub fn write_all<K: Sink>(sink: &mut K, bytes: &[u8]) -> Result<(), Failed>
    ensures ok { OnOk result (Took (K.written sink.old) bytes.now (K.written sink.new)) }
    ensures failed { OnErr result (HasFault (K.faults sink.old) (K.faults sink.new)) }
    ensures front { OnErr result (TookFront (K.written sink.old) bytes.now (K.written sink.new)) }
    ensures counts { IsCountAfter (K.faults sink.old) (K.faults sink.new) result }
{
    let mut at = 0;
    while at < bytes.len() {
        at += sink.write(&bytes[at..])?;
    }
    Ok(())
}
