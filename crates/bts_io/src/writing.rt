// Writing all of some bytes to a sink.
ghost use Rattle.std.specs.Prelude.{OnOk};
ghost use Rattle.std.specs.Io.KnownBytes.{Appends};
ghost use Rattle.bts_io.specs.Faults.{HasCause};
ghost use Rattle.bts_io.specs.Streams.{AppendsFront};

use crate::{Sink, SinkFail};

/// Writes all the bytes. Where the sink fails it holds a front of them, which may be empty.
pub fn write_all<K: Sink>(sink: &mut K, bytes: &[u8]) -> Result<(), SinkFail>
    ensures ok { OnOk result (Appends (K.held sink.old) (K.held sink.new) bytes.now) }
    ensures front { AppendsFront (K.held sink.old) (K.held sink.new) bytes.now }
    ensures cause { HasCause (K.faults sink.old) (K.faults sink.new) result }
{
    let mut rest = bytes;
    while !rest.is_empty() {
        let n = sink.write(rest)?;
        let (_, left) = rest.split_at(n);
        rest = left;
    }
    Ok(())
}
