// Reading a source to its end, or to a limit.
ghost use Rattle.std.specs.Prelude.{◌≡◌, ◌<◌, ◌≤◌, ◌+◌, length, IfOk, IsErrOf};
ghost use Rattle.std.specs.Io.KnownBytes.{Consumes, IsAtEnd};
ghost use Rattle.bts_io.specs.Faults.{Rose};
ghost use Rattle.bts_io.specs.Streams.{ConsumesWithin, Follows};

use crate::Source;
use bts_names::Blob;
use std::alloc::Global;
use thiserror::Error;

/// Why the bytes of a source aren't there.
#[derive(Clone, Copy, Debug, PartialEq, Eq, Error)]
pub enum ReadFault {
    #[error("the source failed")]
    Source,
    #[error("no memory")]
    NoMemory,
}

/// Reads once, and adds what came at the end of `bytes`.
fn read_once<S: Source>(
    source: &mut S,
    buffer: &mut [u8],
    bytes: &mut Blob,
) -> Result<usize, ReadFault>
    requires { 0 < length buffer.old }
    ensures bound { IfOk result (λ n. n ≤ length buffer.old) }
    ensures length { IfOk result (λ n. length bytes.new ≡ length bytes.old + n) }
    ensures ok { IfOk result (λ _. Follows (S.left source.old) (S.left source.new) bytes.old bytes.new) }
    ensures end { IfOk result (λ n. n ≡ 0 → IsAtEnd (S.left source.new)) }
    ensures within { ConsumesWithin (S.left source.old) (S.left source.new) (length buffer.old) }
    ensures later { S.faults source.old ≤ S.faults source.new }
    ensures cause { IsErrOf result ReadFault.Source → Rose (S.faults source.old) (S.faults source.new) }
{
    match source.read(buffer) {
        Ok(n) => {
            let (piece, _) = buffer.split_at(n);
            match bytes.extend(piece) {
                Ok(()) => Ok(n),
                Err(_) => Err(ReadFault::NoMemory),
            }
        }
        Err(_) => Err(ReadFault::Source),
    }
}

/// All the bytes of a source, or the first `most` of them. Where the source fails or there is no memory,
/// what was read until then is lost.
pub fn read_all<S: Source>(alloc: Global, source: &mut S, most: usize) -> Result<Blob, ReadFault>
    ensures bound { IfOk result (λ bytes. length bytes ≤ most) }
    ensures ok { IfOk result (λ bytes. Consumes (S.left source.old) (S.left source.new) bytes) }
    ensures end { IfOk result (λ bytes. length bytes < most → IsAtEnd (S.left source.new)) }
    ensures within { ConsumesWithin (S.left source.old) (S.left source.new) most }
    ensures later { S.faults source.old ≤ S.faults source.new }
    ensures cause { IsErrOf result ReadFault.Source → Rose (S.faults source.old) (S.faults source.new) }
{
    let mut bytes = Blob::new(alloc);
    let mut buffer = [0; 4096];
    while bytes.len() < most {
        let room = (most - bytes.len()).min(4096);
        let n = read_once(source, &mut buffer[..room], &mut bytes)?;
        if n == 0 {
            return Ok(bytes);
        }
    }
    Ok(bytes)
}
