// The bytes of a file: its header, its gates, and the records behind open gates.
ghost use Rattle.std.specs.Prelude.{◌≡◌, ◌≤◌, ◌<◌, ◌+◌, ◌^◌, length};
ghost use Rattle.std.specs.Option.{option_map};
ghost use Rattle.std.specs.Vec.{vec_capacity};
ghost use Rattle.bts_journal.specs.Gates.{frame, frame_length, record_at, is_repository, is_closed, goes_on_within};

/// An open gate: behind it stands a record. Every other byte is a closed gate.
pub const OPEN_GATE: u8 = 0xA5;

/// Where the first gate of a file stands.
pub const FIRST_GATE: usize = 64;

/// A new file: the signature, two empty slots and a closed gate.
pub const FRESH: [u8; 65] =
    *b"BTSREP01\0\0\0\0\0\0\0\0\0\0\0\0\0\0\0\0\0\0\0\0\0\0\0\0\0\0\0\0\0\0\0\0\0\0\0\0\0\0\0\0\0\0\0\0\0\0\0\0\0\0\0\0\0\0\0\0\0";

/// Whether bytes may be those of a repository: there are enough of them, and they begin with the signature.
pub fn is_repository(bytes: &[u8]) -> bool
    ensures { result ≡ is_repository bytes.now }
{
    if bytes.len() < FIRST_GATE {
        return false;
    }
    let (front, _) = bytes.split_at(8);
    *front == *b"BTSREP01".as_slice()
}

/// Whether a gate that isn't open stands at the front of the bytes.
pub fn is_closed(bytes: &[u8]) -> bool
    ensures { result ≡ is_closed bytes.now }
{
    match bytes {
        [gate, ..] => *gate != OPEN_GATE,
        _ => false,
    }
}

/// Whether a gate stands at the front of so many bytes, and behind an open one a whole record. Only their
/// first ones are at hand, five at least.
pub fn goes_on(front: &[u8], len: u64) -> bool
    ensures { result ≡ goes_on_within len front.now }
{
    match front {
        [gate, a, b, c, d, ..] => {
            let claimed = u64::from(u32::from_be_bytes([*a, *b, *c, *d]));
            *gate != OPEN_GATE || claimed + 5 <= len
        }
        _ => false,
    }
}

/// Puts together what is written behind a closed gate: the length and the bytes of a payload, and a closed
/// gate behind them. It takes no memory, since there is room.
pub fn put_together(buffer: &mut Vec<u8>, payload: &[u8])
    requires room { frame_length (length payload.now) ≤ vec_capacity buffer.old }
    requires short { length payload.now < 2 ^ 31 }
    ensures frame { buffer.new.items ≡ frame payload.now }
    ensures room { vec_capacity buffer.old ≤ vec_capacity buffer.new }
{
    let len = payload.len() as u32;
    buffer.clear();
    buffer
        .extend_from_slice(len.to_be_bytes().as_slice())
        .unwrap();
    buffer.extend_from_slice(payload).unwrap();
    buffer.push_reserved(0);
}

/// The payload of the record at the front of the bytes, and what stands behind it.
pub fn split_record(bytes: &[u8]) -> Option<(&[u8], &[u8])>
    ensures { option_map (λ x. (x.0.now, x.1.now)) result ≡ record_at bytes.now }
{
    match bytes {
        [gate, a, b, c, d, behind @ ..] => {
            let len = u32::from_be_bytes([*a, *b, *c, *d]) as usize;
            if *gate != OPEN_GATE || behind.len() < len {
                return None;
            }
            Some(behind.split_at(len))
        }
        _ => None,
    }
}
