// Payloads of units, whole.
ghost use Rattle.std.specs.Prelude.{◌≡◌, ◌↔◌, ◌≤◌, ◌<◌, ◌+◌, ◌*◌, ◌^◌, IsTrue, IfOk, Some, length};
ghost use Rattle.bts_names.specs.Names.{Bytes};
ghost use Rattle.bts_command.specs.declared.ended.Ended.{Ended};
ghost use Rattle.bts_codec.specs.Units.{unit, is_unit, payload, unit_in};
ghost use Rattle.bts_codec.specs.Laws.{NoPrefix};
ghost use Rattle.bts_command.specs.Sizes.{data_bytes};
ghost use Rattle.bts_codec.specs.Sizes.{most_around, most_of_call, IsStored};
ghost use Rattle.bts_codec.specs.Answers.{Decodes, IsPayload, IfMalformed};

use crate::DecodeError;
use crate::cursor::Cursor;
use crate::units::{add_unit, read_unit};
use bts_command::Ended;
use bts_names::{Blob, NoMemory};
use std::alloc::Global;

/// The payload of a unit, in time linear in its length, into one blob that grows by doubling.
///
/// The caller owes a unit that has one: a Request, Activation, Notice or Expiry that ended by Commit or
/// Abend, with a number from 1 to 2^40, at most 500 calls and no rows; whose names are in their grammar,
/// whose replies keep their rule, and in which no value has the mode ACTIVE. A Notice or an Expiry ends by
/// Commit and has no calls.
pub fn encode(alloc: Global, ended: &Ended) -> Result<Blob, NoMemory>
    requires { IsTrue (is_unit ended.now) }
    ensures { IfOk result (λ bytes. bytes ≡ payload ended.now) }
{
    let mut out = Blob::new(alloc);
    add_unit(&mut out, ended)?;
    Ok(out)
}

fn whole_unit(alloc: Global, bytes: &[u8]) -> Result<Ended, DecodeError>
    ensures { Decodes result (unit_in bytes.now) }
{
    let mut cursor = Cursor::new(bytes);
    let ended = read_unit(alloc, &mut cursor)?;
    if !cursor.is_empty() {
        return Err(DecodeError::Malformed);
    }
    Ok(ended)
}

/// The unit whose payload these bytes are. Malformed comes only where they are no unit's payload. Where memory
/// runs out before that is seen NoMemory is told in its place, so it says nothing of the bytes.
///
/// The bytes are read in place, each once, and only the data of containers, the names of sub-events and
/// the list of calls are copied: time and memory are linear in the length.
pub fn decode(alloc: Global, bytes: &[u8]) -> Result<Ended, DecodeError>
    ensures found { IfOk result (λ ended. IsPayload ended bytes.now) }
    ensures malformed { IfMalformed result ((e : Ended) → IsPayload e bytes.now → ⊥) }
    ensures value { Decodes result (unit_in bytes.now) }
    ensures stored { IfOk result (λ ended. IsStored ended) }
{
    whole_unit(alloc, bytes)
}

/// Bytes are read as a unit exactly where they are its payload: so every unit's payload is read again, and
/// bytes are the payload of one unit at most.
pub fn reads_what_is_spelled()
    ensures { (bytes : Bytes) (e : Ended) → (unit_in bytes ≡ Some e) ↔ IsPayload e bytes }
{}

/// No unit's payload begins the payload of another.
pub fn no_payload_begins_another()
    ensures { NoPrefix unit }
{}

/// A payload is longer than the data that its calls put and got by 466 bytes and 664 a call at most. So one of
/// calls that carry less than 2^30 bytes fits into a record, whose length is below 2^31.
pub fn payloads_are_short()
    ensures bound { (e : Ended) → IsTrue (is_unit e) → length (payload e) ≤ most_around + most_of_call * length e.calls + data_bytes e.calls }
    ensures fits { (e : Ended) → IsTrue (is_unit e) → data_bytes e.calls < 2 ^ 30 → length (payload e) < 2 ^ 31 }
{}

/// A unit that has a payload has at most 500 calls, each of a command that a line of a session gives, and a
/// number of at most 2^40.
pub fn stored_units_are_given()
    ensures { (e : Ended) → IsTrue (is_unit e) → IsStored e }
{}
