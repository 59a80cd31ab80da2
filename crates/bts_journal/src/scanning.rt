// Reading the units of a file.
ghost use Rattle.std.specs.Prelude.{◌≡◌, ◌≤◌, ◌+◌, ◌^◌, ◌<◌, ℕ, List, Some, length, take, IfOk, IfErr, OnOk, IfSome};
ghost use Rattle.bts_io.specs.Faults.{Rose};
ghost use Rattle.bts_disk.specs.Disks.{Only, LeavesOnly, behind_calls};
ghost use Rattle.bts_journal.specs.Gates.{HasGate};
ghost use Rattle.bts_journal.specs.Units.{HoldsUnits, IsFirstBad};
ghost use Rattle.bts_command.specs.declared.ended.Ended.{Ended};
ghost use Rattle.bts_journal.specs.Scans.{Scans, GoesOn, WhyNotScanned, FindsNext, StandsWith, scan_calls, units_of};
ghost use Rattle.bts_journal.specs.declared.found.OpenError.TheVariants as error;

use crate::record::{FIRST_GATE, goes_on, is_closed, is_repository, split_record};
use crate::{Found, Journal, OpenError};
use bts_codec::{DecodeError, decode};
use bts_disk::Disk;
use std::alloc::Global;

/// How many bytes are read before memory is asked for.
const AT_HAND: usize = 4_096;

/// Reads the units of a file, and makes it ready for appends. It makes three device calls: a sync, so that
/// what is read is what stays, the length, and one read. Of a file that has more than 4,096 bytes these are
/// read first, and then, in a fourth call, all. It writes nothing. Time and memory are linear in the length.
/// Want of memory is told only behind what is known without it: that the bytes are no repository, or that at
/// a gate behind units none stands, or an open one without its whole record. Where it isn't opened the disk
/// comes back.
pub fn scan<D: Disk>(alloc: Global, disk: D) -> Result<(Journal<D>, Vec<Found>), (OpenError, D)>
    ensures ok { IfOk result (λ x. IfSome (D.content disk) (λ c. Scans c x.1.items x.0.end)) }
    ensures durable { IfOk result (λ x. IfSome (D.content disk) (λ c. Only c (D.may_leave x.0.disk))) }
    ensures stands { IfOk result (λ x. IfSome (D.content disk) (λ _. StandsWith D.content D.may_leave x.0 (units_of x.1.items))) }
    ensures ready { IfOk result (λ x. HasGate (D.content x.0.disk) x.0.end) }
    ensures err { IfErr result (λ x. IfSome (D.content disk) (λ c. WhyNotScanned x.0 c)) }
    ensures content { IfOk result (λ x. D.content x.0.disk ≡ D.content disk) }
    ensures content_err { IfErr result (λ x. D.content x.1 ≡ D.content disk) }
    ensures images { IfOk result (λ x. LeavesOnly D.moment D.left_since disk x.0.disk (D.may_leave disk)) }
    ensures images_err { IfErr result (λ x. LeavesOnly D.moment D.left_since disk x.1 (D.may_leave disk)) }
    ensures calls { IfOk result (λ x. IfSome (D.content disk) (λ c. D.calls x.0.disk ≡ behind_calls (scan_calls (length c)) (D.calls disk))) }
    ensures calls_err { IfErr result (λ x. IfSome (D.content disk) (λ c. D.calls x.1 ≤ behind_calls (scan_calls (length c)) (D.calls disk))) }
    ensures few { IfOk result (λ x. D.calls x.0.disk ≤ behind_calls 4 (D.calls disk)) }
    ensures few_err { IfErr result (λ x. D.calls x.1 ≤ behind_calls 4 (D.calls disk)) }
    ensures later { IfOk result (λ x. D.faults disk ≤ D.faults x.0.disk) }
    ensures later_err { IfErr result (λ x. D.faults disk ≤ D.faults x.1) }
    ensures cause { IfErr result (λ x. x.0 ≡ error.DiskFault → Rose (D.faults disk) (D.faults x.1)) }
{
    let mut disk = disk;
    match scan_disk(alloc, &mut disk) {
        Ok((founds, end)) => Ok((Journal::at(alloc, disk, end), founds)),
        Err(error) => Err((error, disk)),
    }
}

/// The units of a disk with their gates, and the offset of its last gate.
fn scan_disk<D: Disk>(alloc: Global, disk: &mut D) -> Result<(Vec<Found>, u64), OpenError>
    ensures ok { IfOk result (λ x. (c : List ℕ) → D.content disk.old ≡ Some c → Scans c x.0.items x.1) }
    ensures durable { OnOk result ((c : List ℕ) → D.content disk.old ≡ Some c → Only c (D.may_leave disk.new)) }
    ensures err { IfErr result (λ e. (c : List ℕ) → D.content disk.old ≡ Some c → WhyNotScanned e c) }
    ensures content { D.content disk.new ≡ D.content disk.old }
    ensures images { LeavesOnly D.moment D.left_since disk.old disk.new (D.may_leave disk.old) }
    ensures calls { OnOk result ((c : List ℕ) → D.content disk.old ≡ Some c → D.calls disk.new ≡ behind_calls (scan_calls (length c)) (D.calls disk.old)) }
    ensures most { (c : List ℕ) → D.content disk.old ≡ Some c → D.calls disk.new ≤ behind_calls (scan_calls (length c)) (D.calls disk.old) }
    ensures few { D.calls disk.new ≤ behind_calls 4 (D.calls disk.old) }
    ensures later { D.faults disk.old ≤ D.faults disk.new }
    ensures cause { IfErr result (λ e. e ≡ error.DiskFault → Rose (D.faults disk.old) (D.faults disk.new)) }
{
    disk.sync()?;
    let len = disk.len()?;
    let mut front = [0; AT_HAND];
    if len <= AT_HAND as u64 {
        let bytes = &mut front[..len as usize];
        disk.read(0, bytes)?;
        return scan_bytes(alloc, bytes);
    }
    disk.read(0, front.as_mut_slice())?;
    look_at_front(front.as_slice(), len)?;
    let mut bytes = vec![in alloc; 0; len as usize]?;
    disk.read(0, bytes.as_mut_slice())?;
    scan_bytes(alloc, bytes.as_slice())
}

/// Tells from the first bytes of a file, of which there are so many, what can be told: that it is a
/// repository, and that its first record is whole.
fn look_at_front(front: &[u8], len: u64) -> Result<(), OpenError>
    requires enough { 69 ≤ length front.now }
    requires within { length front.now ≤ len }
    ensures ok { OnOk result ((c : List ℕ) → length c ≡ len → front.now ≡ take (length front.now) c → GoesOn c) }
    ensures err { IfErr result (λ e. (c : List ℕ) → length c ≡ len → front.now ≡ take (length front.now) c → WhyNotScanned e c) }
    ensures fault { IfErr result (λ e. e ≡ error.DiskFault → ⊥) }
{
    if !is_repository(front) {
        return Err(OpenError::NotRepository);
    }
    let (_, ahead) = front.split_at(FIRST_GATE);
    if !goes_on(ahead, len - FIRST_GATE as u64) {
        return Err(OpenError::BadRecord {
            offset: FIRST_GATE as u64,
        });
    }
    Ok(())
}

/// The units of a file with their gates, and the offset of its last gate.
fn scan_bytes(alloc: Global, bytes: &[u8]) -> Result<(Vec<Found>, u64), OpenError>
    ensures ok { IfOk result (λ x. Scans bytes.now x.0.items x.1) }
    ensures err { IfErr result (λ e. WhyNotScanned e bytes.now) }
    ensures fault { IfErr result (λ e. e ≡ error.DiskFault → ⊥) }
{
    if !is_repository(bytes) {
        return Err(OpenError::NotRepository);
    }
    let mut founds = Vec::new(alloc);
    let (_, records) = bytes.split_at(FIRST_GATE);
    let mut rest = records;
    let mut offset = FIRST_GATE as u64;
    while let Some((payload, behind)) = split_record(rest) {
        if let Err(error) = add_next(alloc, &mut founds, payload, offset) {
            return Err(error);
        }
        offset += 5 + payload.len() as u64;
        rest = behind;
    }
    if !is_closed(rest) {
        return Err(OpenError::BadRecord { offset });
    }
    Ok((founds, offset))
}

/// Puts the unit of a payload behind the others, where its number is the next.
fn add_next(
    alloc: Global,
    founds: &mut Vec<Found>,
    payload: &[u8],
    gate: u64,
) -> Result<(), OpenError>
    ensures { FindsNext result founds.old.items founds.new.items payload.now gate }
{
    match decode(alloc, payload) {
        Ok(unit) => {
            if unit.seq != founds.len() as u64 + 1 {
                return Err(OpenError::BadRecord { offset: gate });
            }
            match founds.push(Found { unit, gate }) {
                Ok(()) => Ok(()),
                Err(_) => Err(OpenError::NoMemory),
            }
        }
        Err(DecodeError::Malformed) => Err(OpenError::BadRecord { offset: gate }),
        Err(DecodeError::NoMemory) => Err(OpenError::NoMemory),
    }
}

/// A file holds one list of units, or has one first bad gate, and not both: so a scan that doesn't fail
/// answers in one way.
pub fn a_file_reads_in_one_way()
    ensures units { (bytes : List ℕ) (us vs : List Ended) (end end' : ℕ) → HoldsUnits bytes us end → HoldsUnits bytes vs end' → (us ≡ vs) × (end ≡ end') }
    ensures bad { (bytes : List ℕ) (at at' : ℕ) → IsFirstBad bytes at → IsFirstBad bytes at' → at ≡ at' }
    ensures apart { (bytes : List ℕ) (us : List Ended) (end at : ℕ) → HoldsUnits bytes us end → IsFirstBad bytes at → ⊥ }
{}
