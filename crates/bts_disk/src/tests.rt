// What no clause says: that there is memory, and so what a crash leaves byte by byte.
use crate::{Disk, MemoryDisk, Pick};
use bts_names::Blob;
use std::alloc::Global;
use std::test::Fail;

/// What a disk reads behind five calls, and what it leaves as Old, New and filled with `-`, where the call
/// of this number fails.
const LEFT: [(u64, &str, &str, &str, &str); 6] = [
    (0, "Ybcd78", "Xbcd", "Ybcd78", "-bcd--"),
    (1, "Ybcd78", "abcd", "Ybcd78", "-bcd--"),
    (2, "Ybcd78", "abcd", "Ybcd78", "-bcd--"),
    (3, "Xbcd78", "Xbcd", "Ybcd78", "-bcd--"),
    (4, "Ybcd", "Xbcd", "Ybcd", "-bcd"),
    (5, "Ybcd", "Xbcd", "Ybcd78", "-bcd--"),
];

/// Writes, syncs, writes again and asks for the length, to write there too; the number of calls that
/// failed.
fn faults_of_five(disk: &mut MemoryDisk) -> u64 {
    let mut faults = 0;
    if disk.write_at(0, b"X".as_slice()).is_err() {
        faults = 1;
    }
    if disk.sync().is_err() {
        faults = 1;
    }
    if disk.write_at(0, b"Y".as_slice()).is_err() {
        faults = 1;
    }
    match disk.len() {
        Ok(end) => {
            if end < 9 && disk.write_at(end, b"78".as_slice()).is_err() {
                faults = 1;
            }
        }
        Err(_) => faults = 1,
    }
    faults
}

/// Whether the disk reads so, asked by its length and one read.
fn reads(disk: &mut MemoryDisk, text: &str) -> bool {
    let mut buffer = [0; 8];
    match disk.len() {
        Ok(len) => {
            if len != text.len() as u64 || len > 8 {
                return false;
            }
            let into = &mut buffer[..text.len()];
            disk.read(0, into).is_ok() && *into == *text.as_bytes()
        }
        Err(_) => false,
    }
}

/// Whether the disk that a crash leaves reads so.
fn leaves(alloc: Global, disk: &MemoryDisk, pick: Pick, text: &str) -> bool {
    match disk.crashed(alloc, pick) {
        Ok(mut crashed) => reads(&mut crashed, text),
        Err(_) => false,
    }
}

#[test]
fn a_crash_leaves_what_the_pick_names(rt: HostRuntime) -> Result<(), Fail> {
    let alloc = rt.alloc();
    for (failing, now, old, new, filled) in LEFT {
        let bytes = Blob::copy_of(alloc, b"abcd".as_slice())?;
        let mut disk = MemoryDisk::new(alloc, bytes, vec![in alloc; failing]?);
        assert_eq!(rt; faults_of_five(&mut disk), failing.min(1));
        assert!(rt; leaves(alloc, &disk, Pick::Old, old), "old, {failing}");
        assert!(rt; leaves(alloc, &disk, Pick::New, new), "new, {failing}");
        assert!(rt;
            leaves(alloc, &disk, Pick::Filled(b'-'), filled),
            "filled, {failing}"
        );
        assert!(rt; reads(&mut disk, now), "now, {failing}");
    }
    Ok(())
}

#[test]
fn calls_are_counted(rt: HostRuntime) -> Result<(), Fail> {
    let alloc = rt.alloc();
    let mut disk = MemoryDisk::new(alloc, Blob::new(alloc), Vec::new(alloc));
    assert!(rt; reads(&mut disk, ""));
    assert!(rt; disk.sync().is_ok());
    assert_eq!(rt; disk.calls(), 3);
    assert_eq!(rt; disk.device_moment(), 3);
    Ok(())
}
