// What all kinds of units have: the front with number, moment and key, and the back with end and calls.
ghost use Rattle.std.specs.Prelude.{◌≡◌, ◌++◌, OnOk};
ghost use Rattle.bts_codec.specs.Formats.{only};
ghost use Rattle.bts_codec.specs.Units as form;
ghost use Rattle.bts_codec.specs.Answers.{Gives};

use crate::DecodeError;
use crate::calls::{add_calls, read_calls};
use crate::cursor::Cursor;
use crate::numbers::{add_number, read_moment, read_number};
use crate::strings::{add_key, add_string, read_key, read_name};
use bts_command::{Calls, End, Ended};
use bts_names::{Blob, Key, Moment, NoMemory};
use std::alloc::Global;

/// The number of a repository's last unit.
const LAST_UNIT: u64 = 1 << 40;

/// What stands in front of that which a kind of units adds.
#[derive(Clone, Copy, Debug)]
pub struct Front {
    pub seq: u64,
    pub moment: Moment,
    pub key: Key,
}

/// What stands behind it.
#[derive(Debug, Drop)]
pub struct Back {
    pub end: End,
    pub calls: Calls,
}

fn add_end(out: &mut Blob, end: &End) -> Result<(), NoMemory>
    ensures { OnOk result (out.new ≡ out.old ++ form.end.spell end.now) }
{
    match end {
        End::Commit => out.push(1),
        End::Rollback => Ok(()),
        End::Abend(code) => {
            out.push(2)?;
            add_string(out, code.as_bytes())
        }
    }
}

fn read_end(bytes: &mut Cursor<'_>) -> Result<End, DecodeError>
    ensures { Gives result bytes.new (form.end.at bytes.old) }
{
    match bytes.byte()? {
        1 => Ok(End::Commit),
        2 => {
            let code = read_name(bytes)?;
            Ok(End::Abend(code))
        }
        _ => Err(DecodeError::Malformed),
    }
}

/// Puts the front of a unit of this key at the end.
pub fn add_front(out: &mut Blob, ended: &Ended, key: &Key) -> Result<(), NoMemory>
    ensures { OnOk result (out.new ≡ out.old ++ form.front.spell (form.front_of ended.now key.now)) }
{
    add_number(out, ended.seq)?;
    add_number(out, ended.moment.seconds())?;
    add_key(out, key)
}

/// Reads the front of a unit.
pub fn read_front(bytes: &mut Cursor<'_>) -> Result<Front, DecodeError>
    ensures { Gives result bytes.new (form.front.at bytes.old) }
{
    let seq = read_number(bytes, 1, LAST_UNIT)?;
    let moment = read_moment(bytes)?;
    let key = read_key(bytes)?;
    Ok(Front { seq, moment, key })
}

/// Puts the back of a unit at the end.
pub fn add_back(out: &mut Blob, ended: &Ended) -> Result<(), NoMemory>
    ensures { OnOk result (out.new ≡ out.old ++ form.back.spell (form.back_of ended.now)) }
{
    add_end(out, &ended.end)?;
    add_calls(out, &ended.calls)
}

/// Reads the back of a unit.
pub fn read_back(alloc: Global, bytes: &mut Cursor<'_>) -> Result<Back, DecodeError>
    ensures { Gives result bytes.new (form.back.at bytes.old) }
{
    let end = read_end(bytes)?;
    let calls = read_calls(alloc, bytes)?;
    Ok(Back { end, calls })
}

fn is_commit(end: &End) -> bool
    ensures { result ≡ form.is_commit end.now }
{
    matches!(end, End::Commit)
}

/// Reads the back of a unit that commits and makes no call.
pub fn read_quiet_back(alloc: Global, bytes: &mut Cursor<'_>) -> Result<Back, DecodeError>
    ensures { Gives result bytes.new ((only form.is_quiet form.back).at bytes.old) }
{
    let back = read_back(alloc, bytes)?;
    if !is_commit(&back.end) || back.calls.len() != 0 {
        return Err(DecodeError::Malformed);
    }
    Ok(back)
}
