// The rounds that are measured.
use crate::done::Done;
use crate::fault::Fault;
use crate::made::{file, payload, payloads};
use crate::sample::Sample;
use crate::size::Size;
use bts_codec::decode;
use bts_disk::MemoryDisk;
use bts_journal::{Found, OpenError, scan};
use bts_names::Blob;
use std::alloc::Global;

/// Encodes each unit, so many times.
pub fn play_encode(alloc: Global, size: &Size) -> Result<Done, Fault> {
    let samples = samples(alloc, size)?;
    let mut done = Done::nothing();
    for _ in 0..size.rounds {
        encode_each(alloc, &samples, &mut done)?;
    }
    Ok(done)
}

/// Decodes each payload, so many times.
pub fn play_decode(alloc: Global, size: &Size) -> Result<Done, Fault> {
    let payloads = payloads(alloc, size)?;
    let mut done = Done::nothing();
    for _ in 0..size.rounds {
        decode_each(alloc, &payloads, &mut done)?;
    }
    Ok(done)
}

/// Scans a file of all units, so many times.
pub fn play_scan(alloc: Global, size: &Size) -> Result<Done, Fault> {
    let bytes = Blob::from_vec(file(alloc, size)?);
    let mut disk = MemoryDisk::new(alloc, bytes, Vec::new(alloc));
    let mut done = Done::nothing();
    for _ in 0..size.rounds {
        disk = scan_once(alloc, disk, &mut done)?;
    }
    Ok(done)
}

fn samples(alloc: Global, size: &Size) -> Result<Vec<Sample>, Fault> {
    let mut samples = Vec::new(alloc);
    for number in 0..size.units {
        let payload = payload(alloc, u64::from(number) + 1, size.data)?;
        samples.push(Sample::read(alloc, &payload)?)?;
    }
    Ok(samples)
}

fn encode_each(alloc: Global, samples: &[Sample], done: &mut Done) -> Result<(), Fault> {
    for sample in samples {
        let payload = sample.payload(alloc)?;
        done.count_unit(sample.calls());
        done.count_bytes(payload.len() as u64);
    }
    Ok(())
}

fn decode_each(alloc: Global, payloads: &[Vec<u8>], done: &mut Done) -> Result<(), Fault> {
    for payload in payloads {
        let ended = decode(alloc, payload)?;
        done.count_unit(ended.calls.len());
        done.count_bytes(payload.len() as u64);
    }
    Ok(())
}

/// Scans the file of a disk, and gives the disk back.
fn scan_once(alloc: Global, disk: MemoryDisk, done: &mut Done) -> Result<MemoryDisk, Fault> {
    match scan(alloc, disk) {
        Ok((journal, founds)) => {
            count_each(&founds, done);
            done.count_bytes(journal.end());
            Ok(journal.into_disk())
        }
        Err((OpenError::NoMemory, _)) => Err(Fault::NoMemory),
        Err(_) => Err(Fault::Refused),
    }
}

fn count_each(founds: &[Found], done: &mut Done) {
    for found in founds {
        done.count_unit(found.unit.calls.len());
    }
}
