// The calls of a unit: commands and replies.
ghost use Rattle.std.specs.Prelude.{◌≡◌, ◌++◌, OnOk};
ghost use Rattle.std.specs.List.{flat_map};
ghost use Rattle.bts_codec.specs.Formats.{so_many_at};
ghost use Rattle.bts_codec.specs.Units as form;
ghost use Rattle.bts_codec.specs.Answers.{Gives};

use crate::DecodeError;
use crate::commands::{add_command, read_command};
use crate::cursor::Cursor;
use crate::numbers::{add_number, read_number};
use crate::replies::{add_reply, read_reply};
use bts_command::{Call, Calls};
use bts_names::{Blob, NoMemory};
use std::alloc::Global;

/// The most calls of a unit.
const MOST_CALLS: u64 = 500;

fn add_call(out: &mut Blob, call: &Call) -> Result<(), NoMemory>
    ensures { OnOk result (out.new ≡ out.old ++ form.call.spell call.now) }
{
    add_command(out, &call.command)?;
    add_reply(out, &call.reply)
}

fn read_call(alloc: Global, bytes: &mut Cursor<'_>) -> Result<Call, DecodeError>
    ensures { Gives result bytes.new (form.call.at bytes.old) }
{
    let command = read_command(alloc, bytes)?;
    let reply = read_reply(alloc, bytes)?;
    Ok(Call { command, reply })
}

fn add_each_call(out: &mut Blob, calls: &[Call]) -> Result<(), NoMemory>
    ensures { OnOk result (out.new ≡ out.old ++ flat_map form.call.spell calls.now) }
{
    for call in calls {
        add_call(out, call)?;
    }
    Ok(())
}

/// Puts calls at the end.
pub fn add_calls(out: &mut Blob, calls: &Calls) -> Result<(), NoMemory>
    ensures { OnOk result (out.new ≡ out.old ++ form.calls.spell calls.now) }
{
    add_number(out, calls.len() as u64)?;
    add_each_call(out, calls.as_slice())
}

fn read_each_call(alloc: Global, bytes: &mut Cursor<'_>, count: u64) -> Result<Calls, DecodeError>
    ensures { Gives result bytes.new (so_many_at form.call.at count bytes.old) }
{
    let mut calls = Calls::new(alloc);
    for turn in 0..count {
        let call = read_call(alloc, bytes)?;
        calls.push(call)?;
    }
    Ok(calls)
}

/// Reads calls.
pub fn read_calls(alloc: Global, bytes: &mut Cursor<'_>) -> Result<Calls, DecodeError>
    ensures { Gives result bytes.new (form.calls.at bytes.old) }
{
    let count = read_number(bytes, 0, MOST_CALLS)?;
    read_each_call(alloc, bytes, count)
}
