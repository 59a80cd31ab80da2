// What no clause says: files that are given byte for byte, whole and damaged, what is left where calls
// fail, and that there is memory.
ghost use Rattle.std.specs.Prelude.{Some, IsTrue};
ghost use Rattle.bts_disk.specs.Memory.{content_of};
ghost use Rattle.bts_journal.specs.Gates.{HasGate};

use crate::{CreateError, Journal, OpenError, create, scan};
use bts_disk::{Disk, MemoryDisk, Pick};
use bts_names::Blob;
use std::alloc::Global;
use std::test::Fail;

/// A new file.
const NEW: &str =
    "42 54 53 52 45 50 30 31 00 00 00 00 00 00 00 00 00 00 00 00 00 00 00 00 00 00 00 00 00 00 00 00 00 00 00 00 00 00 00 00 00 00 00 00 00 00 00 00 00 00 00 00 00 00 00 00 00 00 00 00 00 00 00 00 00";

/// A file with one unit of 65 bytes: a request that defines a process, puts a container, gets it and
/// returns.
const FIRST_RUN: &str =
    "42 54 53 52 45 50 30 31 00 00 00 00 00 00 00 00 00 00 00 00 00 00 00 00 00 00 00 00 00 00 00 00 00 00 00 00 00 00 00 00 00 00 00 00 00 00 00 00 00 00 00 00 00 00 00 00 00 00 00 00 00 00 00 00 A5 00 00 00 41 01 01 00 06 4F 52 44 45 52 53 02 50 31 01 01 04 01 04 4F 52 44 31 04 52 4F 4F 54 00 00 00 0E 03 4D 53 47 02 05 68 65 6C 6C 6F 00 00 00 0F 03 4D 53 47 02 00 00 01 05 68 65 6C 6C 6F 1D 00 00 00 00 00";

/// Notices for the child /1 of a process, which are the units 1, 2 and 5 of a file.
const NOTICE_1: [u8; 11] = [3, 1, 0, 1, 0x54, 1, 0x50, 1, 1, 1, 0];

const NOTICE_2: [u8; 11] = [3, 2, 0, 1, 0x54, 1, 0x50, 1, 1, 1, 0];

const NOTICE_5: &str = "A5 00 00 00 0B 03 05 00 01 54 01 50 01 01 01 00";

/// What a scan says of a file.
#[derive(Clone, Copy, Debug, PartialEq, Eq)]
enum Told {
    Units(usize, u64),
    NotRepository,
    Bad(u64),
    Failed,
}

/// How many bytes of the file of one unit are kept, one byte of it that is written anew, how many bytes
/// are put behind, and what is said of it.
const DAMAGED: [(usize, usize, u8, usize, Told); 17] = [
    (135, 134, 0x00, 0, Told::Units(1, 134)),
    (135, 134, 0x17, 0, Told::Units(1, 134)),
    (135, 134, 0x00, 40, Told::Units(1, 134)),
    (135, 64, 0x00, 0, Told::Units(0, 64)),
    (135, 64, 0x11, 0, Told::Units(0, 64)),
    (135, 134, 0xA5, 0, Told::Bad(134)),
    (134, 0, 0x42, 0, Told::Bad(134)),
    (133, 0, 0x42, 0, Told::Bad(64)),
    (135, 69, 0x05, 0, Told::Bad(64)),
    (135, 70, 0x02, 0, Told::Bad(64)),
    (64, 0, 0x42, 0, Told::Bad(64)),
    (63, 0, 0x42, 0, Told::NotRepository),
    (135, 0, 0x43, 0, Told::NotRepository),
    (135, 134, 0x00, 5000, Told::Units(1, 134)),
    (135, 66, 0x7F, 5000, Told::Bad(64)),
    (135, 70, 0x02, 5000, Told::Bad(64)),
    (135, 0, 0x43, 5000, Told::NotRepository),
];

/// The bytes that the text has as hexadecimal pairs.
fn bytes_of(alloc: Global, text: &str) -> Result<Vec<u8>, Fail> {
    let mut bytes = Vec::new(alloc);
    for pair in text.split(' ') {
        bytes.push(u8::from_str_radix(pair, 16)?)?;
    }
    Ok(bytes)
}

fn disk_of(alloc: Global, bytes: Vec<u8>, failing: Vec<u64>) -> MemoryDisk {
    MemoryDisk::new(alloc, Blob::from_vec(bytes), failing)
}

/// What a scan says of a disk.
fn told_of(alloc: Global, disk: MemoryDisk) -> Told {
    match scan(alloc, disk) {
        Ok((journal, founds)) => Told::Units(founds.len(), journal.end()),
        Err((OpenError::NotRepository, _)) => Told::NotRepository,
        Err((OpenError::BadRecord { offset }, _)) => Told::Bad(offset),
        Err(_) => Told::Failed,
    }
}

/// Whether the disk holds these bytes.
fn holds(alloc: Global, disk: &mut MemoryDisk, bytes: &[u8]) -> bool {
    let Ok(mut buffer) = Vec::from_slice(alloc, bytes) else {
        return false;
    };
    match disk.len() {
        Ok(len) => {
            len == bytes.len() as u64
                && disk.read(0, buffer.as_mut_slice()).is_ok()
                && buffer.as_slice() == bytes
        }
        Err(_) => false,
    }
}

#[test]
fn damaged_files_are_told(rt: HostRuntime) -> Result<(), Fail> {
    let alloc = rt.alloc();
    for (kept, place, byte, behind, expected) in DAMAGED {
        let mut bytes = bytes_of(alloc, FIRST_RUN)?;
        if place < bytes.len() {
            bytes[place] = byte;
        }
        bytes.truncate(kept);
        bytes.resize(bytes.len().saturating_add(behind), 0xA5)?;
        let disk = disk_of(alloc, bytes, Vec::new(alloc));
        assert_eq!(rt; told_of(alloc, disk), expected);
    }
    Ok(())
}

#[test]
fn records_that_are_none_are_told(rt: HostRuntime) -> Result<(), Fail> {
    let alloc = rt.alloc();
    for record in [
        "A5 00 00 00 05 01 02 03",
        "A5 41 00 00 00",
        "A5 00 00",
        NOTICE_5,
    ] {
        let mut bytes = bytes_of(alloc, NEW)?;
        bytes.truncate(64);
        bytes.extend_from_slice(bytes_of(alloc, record)?.as_slice())?;
        let disk = disk_of(alloc, bytes, Vec::new(alloc));
        assert_eq!(rt; told_of(alloc, disk), Told::Bad(64));
    }
    Ok(())
}

#[test]
fn a_new_file_has_its_bytes(rt: HostRuntime) -> Result<(), Fail> {
    let alloc = rt.alloc();
    let mut disk = disk_of(alloc, Vec::new(alloc), Vec::new(alloc));
    assert_eq!(rt; create(&mut disk), Ok(()));
    let bytes = bytes_of(alloc, NEW)?;
    assert!(rt; holds(alloc, &mut disk, &bytes));
    assert_eq!(rt; create(&mut disk), Err(CreateError::NotEmpty { len: 65 }));
    assert_eq!(rt; told_of(alloc, disk), Told::Units(0, 64));
    let mut failing = disk_of(alloc, Vec::new(alloc), vec![in alloc; 3]?);
    assert_eq!(rt; create(&mut failing), Err(CreateError::DiskFault));
    Ok(())
}

/// How many bytes of a new file a disk holds, and the number of its call that fails.
const KEPT: [(usize, u64); 5] = [(65, 0), (65, 1), (64, 1), (1, 0), (1, 1)];

/// Whether a disk of these bytes whose call of this number fails is no new file, and holds them behind the
/// answer and behind a crash.
fn is_kept(alloc: Global, bytes: &[u8], failing: u64) -> Result<bool, Fail> {
    let mut disk = disk_of(
        alloc,
        Vec::from_slice(alloc, bytes)?,
        vec![in alloc; failing]?,
    );
    let refused = create(&mut disk).is_err();
    let mut crashed = disk.crashed(alloc, Pick::New)?;
    Ok(refused && holds(alloc, &mut disk, bytes) && holds(alloc, &mut crashed, bytes))
}

#[test]
fn a_file_with_bytes_is_kept(rt: HostRuntime) -> Result<(), Fail> {
    let alloc = rt.alloc();
    for (kept, failing) in KEPT {
        let mut bytes = bytes_of(alloc, NEW)?;
        bytes.truncate(kept);
        assert!(rt;
            is_kept(alloc, &bytes, failing)?,
            "{kept} bytes, call {failing}"
        );
    }
    Ok(())
}

/// Makes room and appends, where the file is short.
fn appends(journal: &mut Journal<MemoryDisk>, payload: &[u8]) -> bool
    requires { HasGate (Some (content_of journal.old.disk.recording)) journal.old.end }
    ensures { IsTrue result → HasGate (Some (content_of journal.new.disk.recording)) journal.new.end }
{
    if payload.len() > 1000 || journal.end() > 1000 {
        return false;
    }
    if journal.reserve(payload.len()).is_err() {
        return false;
    }
    journal.append(payload).is_ok()
}

/// How many of the two notices are appended to a new file on a disk whose call of this number fails, and
/// the disk behind that.
fn two_appended(alloc: Global, disk: MemoryDisk) -> (usize, MemoryDisk) {
    match scan(alloc, disk) {
        Ok((mut journal, _)) => {
            if !appends(&mut journal, NOTICE_1.as_slice()) {
                return (0, journal.into_disk());
            }
            if !appends(&mut journal, NOTICE_2.as_slice()) {
                return (1, journal.into_disk());
            }
            (2, journal.into_disk())
        }
        Err((_, disk)) => (0, disk),
    }
}

/// Whether the file that a crash leaves has so many units, or one more.
fn keeps(alloc: Global, disk: &MemoryDisk, pick: Pick, acknowledged: usize) -> bool {
    match disk.crashed(alloc, pick) {
        Ok(crashed) => match told_of(alloc, crashed) {
            Told::Units(count, _) => count == acknowledged
                || count == acknowledged.saturating_add(1),
            _ => false,
        },
        Err(_) => false,
    }
}

/// How many units are acknowledged where the call of this number fails: the first three are those of the
/// scan, and then there are four for each append.
const ACKNOWLEDGED: [(u64, usize); 12] = [
    (0, 2),
    (1, 0),
    (2, 0),
    (3, 0),
    (4, 0),
    (5, 0),
    (6, 0),
    (7, 0),
    (8, 1),
    (9, 1),
    (10, 1),
    (11, 1),
];

#[test]
fn acknowledged_units_outlast_a_crash(rt: HostRuntime) -> Result<(), Fail> {
    let alloc = rt.alloc();
    for (failing, expected) in ACKNOWLEDGED {
        let new = disk_of(alloc, bytes_of(alloc, NEW)?, vec![in alloc; failing]?);
        let (acknowledged, disk) = two_appended(alloc, new);
        assert_eq!(rt; acknowledged, expected);
        for pick in [Pick::Old, Pick::New, Pick::Filled(0), Pick::Filled(0xA5)] {
            assert!(rt; keeps(alloc, &disk, pick, acknowledged), "call {failing}");
        }
    }
    Ok(())
}

/// Whether the file of the first run comes of an append of its unit to a new file.
fn first_run_is_written(alloc: Global, new: Vec<u8>, file: &[u8]) -> bool {
    if file.len() != 135 {
        return false;
    }
    match scan(alloc, disk_of(alloc, new, Vec::new(alloc))) {
        Ok((mut journal, _)) => {
            let moment = journal.device_moment();
            let done = appends(&mut journal, &file[69..134]);
            let told = moment == 3 && journal.device_moment() == 7 && journal.end() == 134;
            let mut disk = journal.into_disk();
            done && told && holds(alloc, &mut disk, file)
        }
        Err(_) => false,
    }
}

#[test]
fn the_first_run_is_written_and_read(rt: HostRuntime) -> Result<(), Fail> {
    let alloc = rt.alloc();
    let file = bytes_of(alloc, FIRST_RUN)?;
    assert!(rt; first_run_is_written(alloc, bytes_of(alloc, NEW)?, file.as_slice()));
    assert_eq!(rt;
        told_of(alloc, disk_of(alloc, file, Vec::new(alloc))),
        Told::Units(1, 134)
    );
    Ok(())
}
