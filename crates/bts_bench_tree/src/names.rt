// The names of what is measured.
use crate::fault::Fault;
use bts_container::Format;
use bts_names::{Key, Name16, ProcName, ProcType, ProgName, Transid};
use bts_tree::Activity;
use std::alloc::Global;

/// The key of the process of that number.
pub fn key_numbered(alloc: Global, number: u32) -> Result<Key, Fault> {
    let text = format!(in alloc; "P{number}")?;
    let ptype = ProcType::read(b"BENCH".as_slice())?;
    let pname = ProcName::read(text.as_bytes())?;
    Ok(Key { ptype, pname })
}

/// A name of letters and a number.
pub fn name_numbered(alloc: Global, letters: &str, number: u32) -> Result<Name16, Fault> {
    let text = format!(in alloc; "{letters}{number}")?;
    Ok(Name16::read(text.as_bytes())?)
}

/// A new activity below a root.
pub fn new_activity(alloc: Global, number: u32) -> Result<Activity, Fault> {
    let name = name_numbered(alloc, "A", number)?;
    let transid = Transid::read(b"TRAN".as_slice())?;
    let program = ProgName::read(b"PROGRAM".as_slice())?;
    Ok(Activity::new(alloc, Format::One, name, transid, program, Some(name)))
}

pub fn new_root(alloc: Global) -> Result<Activity, Fault> {
    let transid = Transid::read(b"TRAN".as_slice())?;
    let program = ProgName::read(b"PROGRAM".as_slice())?;
    Ok(Activity::new_root(alloc, Format::One, transid, program))
}
