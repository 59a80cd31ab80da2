// The bytes of a disk in memory, and what became of them call by call.
ghost use Rattle.std.specs.Prelude.{◌≡◌, ◌≤◌, ◌<◌, ◌^◌, ◌+◌, ℕ, List, length, IfOk, OnOk, OnErr};
ghost use Rattle.bts_disk.specs.Disks.{written};
ghost use Rattle.bts_disk.specs.Memory.{new_disk, with_call, content_of, content_behind, content_after, IsQuiet, IsOrHas, moment_of, picked, picked_write, picked_call, picked_calls, IsBehindSyncs, first_of};
ghost use Rattle.bts_disk.specs.declared.device_call.DeviceCall.TheVariants.{Write};

use crate::Pick;
use crate::device_call::DeviceCall;
use bts_names::{Blob, NoMemory};
use std::alloc::Global;
use std::marker::Model;

/// Bytes and the calls since, which contracts see as these two. The content behind all calls is kept
/// beside them, so that a call takes the time of its own bytes alone.
#[derive(Drop)]
pub struct Recording {
    alloc: Global,
    /// None as long as the content is what it was at first.
    first: Option<Blob>,
    content: Vec<u8>,
    calls: Vec<DeviceCall>,
}

impl Model for Recording {
    ghost use Rattle.std.specs.Prelude.{◌≡◌};
    ghost use Rattle.bts_disk.specs.Memory.{Recorded, content_after, first_of};

    ghost Value = { Recorded };

    ghost view = { λ r. record { first = first_of r.first r.content.items; calls = r.calls.items } };

    ghost invariant = { λ r. r.content.items ≡ content_after (first_of r.first r.content.items) r.calls.items };
}

impl Recording {
    /// These bytes, and no call yet.
    pub fn new(alloc: Global, bytes: Blob) -> Recording
        ensures { result ≡ new_disk bytes }
    {
        Recording {
            alloc,
            first: None,
            content: bytes.into_vec(),
            calls: Vec::new(alloc),
        }
    }

    /// The content behind all calls.
    pub fn content(&self) -> &[u8]
        ensures { result.now ≡ content_of self.now }
    {
        self.content.as_slice()
    }

    /// How many calls were recorded, which memory keeps below 2^63.
    pub fn len(&self) -> u64
        ensures calls { result ≡ moment_of self.now }
        ensures bound { result < 2 ^ 63 }
    {
        self.calls.len() as u64
    }

    /// Records a call that isn't a write.
    pub fn add(&mut self, call: DeviceCall) -> Result<(), NoMemory>
        requires { IsQuiet call }
        ensures ok { OnOk result (self.new ≡ with_call call self.old) }
        ensures err { OnErr result (self.new ≡ self.old) }
        ensures kept { IsOrHas call self.old self.new }
        ensures few { moment_of self.new < 2 ^ 63 }
    {
        self.calls.push(call)?;
        Ok(())
    }

    /// Records a write, and does it where it is to be done. The bytes are copied.
    pub fn write(&mut self, done: bool, at: u64, bytes: &[u8]) -> Result<(), NoMemory>
        ensures ok { OnOk result (self.new ≡ with_call (Write done at bytes.now) self.old) }
        ensures err { OnErr result (self.new ≡ self.old) }
        ensures kept { IsOrHas (Write done at bytes.now) self.old self.new }
        ensures few { moment_of self.new < 2 ^ 63 }
    {
        let call = DeviceCall::Write {
            done,
            at,
            bytes: Blob::copy_of(self.alloc, bytes)?,
        };
        self.calls.reserve(1)?;
        change(
            self.alloc,
            done,
            &mut self.first,
            &mut self.content,
            at as usize,
            bytes,
        )?;
        self.calls.push_reserved(call);
        Ok(())
    }

    /// The image that a pick names. It takes the time of all bytes ever written.
    pub fn image(&self, pick: Pick) -> Result<Vec<u8>, NoMemory>
        ensures { IfOk result (λ image. image.items ≡ picked pick self.now) }
    {
        let (synced, since) = self.calls.as_slice().split_at(behind_syncs(&self.calls));
        let mut image = Vec::from_slice(self.alloc, first_bytes(&self.first, &self.content))?;
        write_again(&mut image, synced)?;
        write_picked(self.alloc, &mut image, pick, since)?;
        Ok(image)
    }
}

/// Does a write that is to be done, and keeps what the content was at first.
fn change(
    alloc: Global,
    done: bool,
    first: &mut Option<Blob>,
    content: &mut Vec<u8>,
    at: usize,
    bytes: &[u8],
) -> Result<(), NoMemory>
    ensures first { first_of first.new content.new.items ≡ first_of first.old content.old.items }
    ensures ok { OnOk result (content.new.items ≡ content_behind content.old.items (Write done at bytes.now)) }
    ensures err { OnErr result (content.new.items ≡ content.old.items) }
{
    if !done {
        return Ok(());
    }
    if first.is_none() {
        *first = Some(Blob::copy_of(alloc, content.as_slice())?);
    }
    overwrite(content, at, bytes)
}

fn first_bytes<'a>(first: &'a Option<Blob>, content: &'a [u8]) -> &'a [u8]
    ensures { result.now ≡ first_of first.now content.now }
{
    match first {
        Some(bytes) => bytes.as_slice(),
        None => content,
    }
}

/// Puts the bytes at an offset, or behind the content where the offset is past its end.
fn overwrite(content: &mut Vec<u8>, at: usize, bytes: &[u8]) -> Result<(), NoMemory>
    ensures ok { OnOk result (content.new.items ≡ written at bytes.now content.old.items) }
    ensures err { OnErr result (content.new.items ≡ content.old.items) }
{
    let start = at.min(content.len());
    let inside = bytes.len().min(content.len() - start);
    let (over, past) = bytes.split_at(inside);
    content.extend_from_slice(past)?;
    put(content.as_mut_slice(), start, over);
    Ok(())
}

fn put(content: &mut [u8], at: usize, bytes: &[u8])
    requires { at + length bytes.now ≤ length content.old }
    ensures { content.new ≡ written at bytes.now content.old }
{
    content[at..at + bytes.len()].copy_from_slice(bytes);
}

/// How many calls there were up to the last sync, which is among them.
fn behind_syncs(calls: &[DeviceCall]) -> usize
    ensures bound { result ≤ length calls.now }
    ensures picked { IsBehindSyncs calls.now result }
{
    let mut place = 0;
    for (i, call) in calls.iter().enumerate() {
        if let DeviceCall::Sync = call {
            place = i + 1;
        }
    }
    place
}

/// Does the writes of these calls again that were done.
fn write_again(image: &mut Vec<u8>, calls: &[DeviceCall]) -> Result<(), NoMemory>
    ensures { OnOk result (image.new.items ≡ content_after image.old.items calls.now) }
{
    for call in calls {
        if let DeviceCall::Write {
            done: true,
            at,
            bytes,
        } = call
        {
            overwrite(image, *at as usize, bytes.as_slice())?;
        }
    }
    Ok(())
}

/// Puts into the places of these writes what a crash leaves there.
fn write_picked(
    alloc: Global,
    image: &mut Vec<u8>,
    pick: Pick,
    calls: &[DeviceCall],
) -> Result<(), NoMemory>
    ensures { OnOk result (image.new.items ≡ picked_calls pick image.old.items calls.now) }
{
    for call in calls {
        if let DeviceCall::Write { at, bytes, .. } = call {
            write_pick(alloc, image, pick, *at as usize, bytes.as_slice())?;
        }
    }
    Ok(())
}

fn write_pick(
    alloc: Global,
    image: &mut Vec<u8>,
    pick: Pick,
    at: usize,
    bytes: &[u8],
) -> Result<(), NoMemory>
    ensures { OnOk result (image.new.items ≡ picked_write pick at bytes.now image.old.items) }
{
    match pick {
        Pick::Old => Ok(()),
        Pick::New => overwrite(image, at, bytes),
        Pick::Filled(byte) => {
            let filler = vec![in alloc; byte; bytes.len()]?;
            overwrite(image, at, filler.as_slice())
        }
    }
}
