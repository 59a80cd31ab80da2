// The units that are measured, as their payloads and as a file of them.
ghost use Rattle.std.specs.Prelude.{◌≡◌, ◌∷◌, ◌++◌, OnOk, length};
ghost use Rattle.std.specs.Int.{w32, to_be_bytes};
ghost use Rattle.bts_journal.specs.Gates.{open_gate};

use crate::fault::Fault;
use crate::size::Size;
use std::alloc::Global;

/// The most bytes of data in a container.
const MOST_DATA: u32 = 32_768;

/// The most bytes of a number.
const MOST_BYTES: usize = 10;

/// The signature of a file, and its two empty slots.
const HEADER: [u8; 64] =
    *b"BTSREP01\0\0\0\0\0\0\0\0\0\0\0\0\0\0\0\0\0\0\0\0\0\0\0\0\0\0\0\0\0\0\0\0\0\0\0\0\0\0\0\0\0\0\0\0\0\0\0\0\0\0\0\0\0\0\0\0";

const OPEN_GATE: u8 = 0xA5;

const CLOSED_GATE: u8 = 0;

/// A request.
const REQUEST: u8 = 1;

/// At the first moment, for the process P of the type T, as the first item, committed.
const FRONT: [u8; 7] = [0, 1, b'T', 1, b'P', 1, 1];

/// PUT CONTAINER(C) ACQPROCESS.
const PUT: [u8; 4] = [14, 1, b'C', 2];

/// NORMAL, with no value.
const NORMAL: [u8; 3] = [0, 0, 0];

/// The payloads of all units, which are numbered from 1.
pub fn payloads(alloc: Global, size: &Size) -> Result<Vec<Vec<u8>>, Fault> {
    let mut payloads = Vec::new(alloc);
    for number in 0..size.units {
        payloads.push(payload(alloc, u64::from(number) + 1, size.data)?)?;
    }
    Ok(payloads)
}

/// The bytes of a file of all units.
pub fn file(alloc: Global, size: &Size) -> Result<Vec<u8>, Fault> {
    let mut file = Vec::from_slice(alloc, HEADER.as_slice())?;
    for number in 0..size.units {
        let payload = payload(alloc, u64::from(number) + 1, size.data)?;
        add_record(&mut file, &payload)?;
    }
    file.push(CLOSED_GATE)?;
    Ok(file)
}

/// Puts the record of a payload at the end.
fn add_record(file: &mut Vec<u8>, payload: &[u8]) -> Result<(), Fault>
    ensures { OnOk result (file.new.items ≡ file.old.items ++ open_gate ∷ to_be_bytes w32 (length payload.now) ++ payload.now) }
{
    let len = u32::try_from(payload.len()).map_err(|_| Fault::Refused)?;
    file.push(OPEN_GATE)?;
    file.extend_from_slice(len.to_be_bytes().as_slice())?;
    file.extend_from_slice(payload)?;
    Ok(())
}

/// The payload of a request of this number whose calls put so many bytes of data.
pub fn payload(alloc: Global, number: u64, data: u32) -> Result<Vec<u8>, Fault> {
    let full = data / MOST_DATA;
    let left = data % MOST_DATA;
    let mut out = Vec::new(alloc);
    out.push(REQUEST)?;
    add_number(&mut out, number)?;
    out.extend_from_slice(FRONT.as_slice())?;
    add_number(&mut out, u64::from(full) + u64::from(left > 0))?;
    for _ in 0..full {
        add_put(&mut out, MOST_DATA)?;
    }
    if left > 0 {
        add_put(&mut out, left)?;
    }
    Ok(out)
}

/// Puts a call at the end that puts so many bytes into a container.
fn add_put(out: &mut Vec<u8>, data: u32) -> Result<(), Fault> {
    out.extend_from_slice(PUT.as_slice())?;
    add_number(out, u64::from(data))?;
    out.resize(out.len().saturating_add(data as usize), b'x')?;
    out.extend_from_slice(NORMAL.as_slice())?;
    Ok(())
}

/// Puts a number at the end, seven bits a byte, the lowest first.
fn add_number(out: &mut Vec<u8>, number: u64) -> Result<(), Fault> {
    let mut left = number;
    for _ in 0..MOST_BYTES {
        if left < 128 {
            return Ok(out.push(left as u8)?);
        }
        out.push(128 + (left % 128) as u8)?;
        left /= 128;
    }
    Err(Fault::Refused)
}
