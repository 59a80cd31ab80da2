// A disk in memory whose calls fail by their numbers.
ghost use Rattle.std.specs.Prelude.{Bool, ◌≡◌, ◌≤◌, ◌<◌, ◌+◌, ◌^◌, ℕ, [], List, Some, not, ◌||◌, if◌then◌else◌, IfOk, OnOk, OnErr, is_err, length, slice_range};
ghost use Rattle.bts_io.specs.Faults.{HasCause, last_count, next_count};
ghost use Rattle.bts_io.specs.Plan.{plan_of, is_next_failing, behind_call};
ghost use Rattle.bts_disk.specs.Disks.{written, Torn, Follows, Only, SameImages, Elapses, EndsAtLast};
ghost use Rattle.bts_disk.specs.Memory.{new_disk, content_of, IsImage, WasImage, moment_of, picked, Records, sync_call, StartWithin};
ghost use Rattle.bts_disk.specs.MemoryLaws.{shows_image, counts_image_now, only_image_now, StartWithin-prop};
ghost use Rattle.bts_disk.specs.declared.device_call.DeviceCall.TheVariants.{Idle, Write, Sync};

use crate::device_call::DeviceCall;
use crate::recording::Recording;
use crate::{Disk, DiskFail, Pick};
use bts_io::FaultPlan;
use bts_names::{Blob, NoMemory};
use std::alloc::Global;

/// A disk in memory. It keeps all calls, so that it can tell what a crash at each moment may leave, and its
/// moment is their number, which memory keeps below the last one. It fails the calls whose numbers, from 1,
/// stand in a list, and those that find no memory. A write that fails by its number isn't done, and counts
/// among the writes that a crash may leave; a call that finds no memory changes nothing.
#[derive(Drop)]
pub struct MemoryDisk {
    recording: Recording,
    plan: FaultPlan,
    calls: u64,
    ghost within: { StartWithin recording.first recording.calls } by { StartWithin-prop recording.first recording.calls },
    ghost few: { moment_of recording < 2 ^ 63 },
}

impl MemoryDisk {
    /// Has these bytes, synced, and fails the calls of these numbers.
    pub fn new(alloc: Global, bytes: Blob, failing: Vec<u64>) -> MemoryDisk
        ensures recording { result.recording ≡ new_disk bytes }
        ensures plan { result.plan ≡ plan_of failing.items }
        ensures calls { result.calls ≡ 0 }
    {
        MemoryDisk {
            recording: Recording::new(alloc, bytes),
            plan: FaultPlan::new(failing),
            calls: 0,
        }
    }

    /// How many calls there were, those that failed among them, up to 2^64 - 1.
    pub fn calls(&self) -> u64
        ensures { result ≡ self.now.calls }
    {
        self.calls
    }

    /// The disk as a crash leaves it whose image the pick names. No call of it fails by its number. It takes
    /// the time and the memory of all bytes that were ever written.
    pub fn crashed(&self, alloc: Global, pick: Pick) -> Result<MemoryDisk, NoMemory>
        ensures recording { IfOk result (λ disk. disk.recording ≡ new_disk (picked pick self.now.recording)) }
        ensures plan { IfOk result (λ disk. disk.plan ≡ plan_of []) }
        ensures image { IsImage self.now.recording (picked pick self.now.recording) }
    {
        let image = self.recording.image(pick)?;
        Ok(MemoryDisk::new(alloc, Blob::from_vec(image), Vec::new(alloc)))
    }

    /// Counts a call that changes nothing.
    fn idle(&mut self) -> Result<(), DiskFail>
        ensures content { content_of self.new.recording ≡ content_of self.old.recording }
        ensures images { SameImages (IsImage self.old.recording) (IsImage self.new.recording) }
        ensures time { Elapses (moment_of self.old.recording) (moment_of self.new.recording) (WasImage self.old.recording) (WasImage self.new.recording) (IsImage self.old.recording) (IsImage self.new.recording) }
        ensures recorded { Records (is_next_failing self.old.plan) Idle self.old.recording self.new.recording result }
        ensures counted { self.new.plan ≡ behind_call (is_err result) self.old.plan }
        ensures calls { self.new.calls ≡ next_count self.old.calls }
        ensures cause { HasCause self.old.plan.faults self.new.plan.faults result }
    {
        let listed = self.plan.next_fails();
        let recorded = self.recording.add(DeviceCall::Idle);
        self.calls = self.calls.saturating_add(1);
        ended(&mut self.plan, listed, recorded)
    }
}

/// The end of a call, which fails where it is listed or wasn't recorded.
fn ended(plan: &mut FaultPlan, listed: bool, recorded: Result<(), NoMemory>) -> Result<(), DiskFail>
    ensures failed { is_err result ≡ (listed || is_err recorded) }
    ensures counted { plan.new ≡ record plan.old { faults = if is_err result then next_count plan.old.faults else plan.old.faults } }
    ensures cause { HasCause plan.old.faults plan.new.faults result }
{
    if listed || recorded.is_err() {
        plan.count_fault();
        return Err(DiskFail);
    }
    Ok(())
}

/// What a sync is recorded as.
fn sync_call(listed: bool) -> DeviceCall
    ensures { result ≡ sync_call listed }
{
    if listed {
        DeviceCall::Idle
    } else {
        DeviceCall::Sync
    }
}

impl Disk for MemoryDisk {
    ghost content = { λ d. Some (content_of d.recording) };

    ghost may_leave = { λ d. IsImage d.recording };

    ghost left_since = { λ d. WasImage d.recording };

    ghost moment = { λ d. moment_of d.recording };

    ghost faults = { λ d. d.plan.faults };

    ghost calls = { λ d. d.calls };

    ghost shows = { λ d. shows_image d.recording d.within };

    ghost counts_now = { λ d. counts_image_now d.recording };

    ghost only_now = { λ d. only_image_now d.recording };

    fn len(&mut self) -> Result<u64, DiskFail>
        ensures length { IfOk result (λ n. n ≡ length (content_of self.old.recording)) }
        ensures content { Some (content_of self.new.recording) ≡ Some (content_of self.old.recording) }
        ensures images { SameImages (IsImage self.old.recording) (IsImage self.new.recording) }
        ensures time { Elapses (moment_of self.old.recording) (moment_of self.new.recording) (WasImage self.old.recording) (WasImage self.new.recording) (IsImage self.old.recording) (IsImage self.new.recording) }
        ensures cause { HasCause self.old.plan.faults self.new.plan.faults result }
        ensures last { EndsAtLast (moment_of self.old.recording) (moment_of self.new.recording) self.new.plan.faults result }
        ensures recorded { Records (is_next_failing self.old.plan) Idle self.old.recording self.new.recording result }
        ensures counted { self.new.plan ≡ behind_call (is_err result) self.old.plan }
        ensures calls { self.new.calls ≡ next_count self.old.calls }
    {
        self.idle()?;
        Ok(self.recording.content().len() as u64)
    }

    fn read(&mut self, at: u64, into: &mut [u8]) -> Result<(), DiskFail>
        requires { at + length into.old ≤ length (content_of self.old.recording) }
        ensures filled { OnOk result (into.new ≡ slice_range (content_of self.old.recording) at (at + length into.old)) }
        ensures content { Some (content_of self.new.recording) ≡ Some (content_of self.old.recording) }
        ensures images { SameImages (IsImage self.old.recording) (IsImage self.new.recording) }
        ensures time { Elapses (moment_of self.old.recording) (moment_of self.new.recording) (WasImage self.old.recording) (WasImage self.new.recording) (IsImage self.old.recording) (IsImage self.new.recording) }
        ensures cause { HasCause self.old.plan.faults self.new.plan.faults result }
        ensures last { EndsAtLast (moment_of self.old.recording) (moment_of self.new.recording) self.new.plan.faults result }
        ensures recorded { Records (is_next_failing self.old.plan) Idle self.old.recording self.new.recording result }
        ensures counted { self.new.plan ≡ behind_call (is_err result) self.old.plan }
        ensures calls { self.new.calls ≡ next_count self.old.calls }
    {
        self.idle()?;
        let content = self.recording.content();
        let start = at as usize;
        let end = start + into.len();
        into.copy_from_slice(&content[start..end]);
        Ok(())
    }

    fn write_at(&mut self, at: u64, bytes: &[u8]) -> Result<(), DiskFail>
        requires place { at ≤ length (content_of self.old.recording) }
        requires room { at + length bytes.now ≤ 2 ^ 63 }
        ensures written { OnOk result (Some (content_of self.new.recording) ≡ Some (written at bytes.now (content_of self.old.recording))) }
        ensures torn { Torn at (length bytes.now) (content_of self.old.recording) (content_of self.new.recording) }
        ensures images { Follows (Torn at (length bytes.now)) (IsImage self.old.recording) (IsImage self.new.recording) }
        ensures time { Elapses (moment_of self.old.recording) (moment_of self.new.recording) (WasImage self.old.recording) (WasImage self.new.recording) (IsImage self.old.recording) (IsImage self.new.recording) }
        ensures cause { HasCause self.old.plan.faults self.new.plan.faults result }
        ensures last { EndsAtLast (moment_of self.old.recording) (moment_of self.new.recording) self.new.plan.faults result }
        ensures last_content { moment_of self.old.recording ≡ last_count → Some (content_of self.new.recording) ≡ Some (content_of self.old.recording) }
        ensures last_images { moment_of self.old.recording ≡ last_count → SameImages (IsImage self.old.recording) (IsImage self.new.recording) }
        ensures recorded { Records (is_next_failing self.old.plan) (Write (not (is_next_failing self.old.plan)) at bytes.now) self.old.recording self.new.recording result }
        ensures counted { self.new.plan ≡ behind_call (is_err result) self.old.plan }
        ensures calls { self.new.calls ≡ next_count self.old.calls }
    {
        let listed = self.plan.next_fails();
        let recorded = self.recording.write(!listed, at, bytes);
        self.calls = self.calls.saturating_add(1);
        ended(&mut self.plan, listed, recorded)
    }

    fn sync(&mut self) -> Result<(), DiskFail>
        ensures durable { OnOk result (Only (content_of self.old.recording) (IsImage self.new.recording)) }
        ensures failed { OnErr result (SameImages (IsImage self.old.recording) (IsImage self.new.recording)) }
        ensures content { Some (content_of self.new.recording) ≡ Some (content_of self.old.recording) }
        ensures images { (c : List ℕ) → IsImage self.new.recording c → IsImage self.old.recording c }
        ensures time { Elapses (moment_of self.old.recording) (moment_of self.new.recording) (WasImage self.old.recording) (WasImage self.new.recording) (IsImage self.old.recording) (IsImage self.new.recording) }
        ensures cause { HasCause self.old.plan.faults self.new.plan.faults result }
        ensures last { EndsAtLast (moment_of self.old.recording) (moment_of self.new.recording) self.new.plan.faults result }
        ensures recorded { Records (is_next_failing self.old.plan) (sync_call (is_next_failing self.old.plan)) self.old.recording self.new.recording result }
        ensures counted { self.new.plan ≡ behind_call (is_err result) self.old.plan }
        ensures calls { self.new.calls ≡ next_count self.old.calls }
    {
        let listed = self.plan.next_fails();
        let recorded = self.recording.add(sync_call(listed));
        self.calls = self.calls.saturating_add(1);
        ended(&mut self.plan, listed, recorded)
    }

    fn device_moment(&self) -> u64
        ensures { result ≡ moment_of self.now.recording }
    {
        self.recording.len()
    }
}
