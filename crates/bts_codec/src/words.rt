// Flags and the words of replies, one byte each.
ghost use Rattle.std.specs.Prelude.{◌≡◌, ◌++◌, OnOk};
ghost use Rattle.bts_codec.specs.Fields as field;
ghost use Rattle.bts_codec.specs.Answers.{Gives};

use crate::DecodeError;
use crate::cursor::Cursor;
use bts_names::{Blob, EventKind, Mode, NoMemory, Reason, Resp, Status, TimerStatus};

/// Puts 01 at the end where the flag is set, else 00.
pub fn add_flag(out: &mut Blob, flag: bool) -> Result<(), NoMemory>
    ensures { OnOk result (out.new ≡ out.old ++ field.flag.spell flag) }
{
    out.push(u8::from(flag))
}

/// Reads a flag.
pub fn read_flag(bytes: &mut Cursor<'_>) -> Result<bool, DecodeError>
    ensures { Gives result bytes.new (field.flag.at bytes.old) }
{
    match bytes.byte()? {
        0 => Ok(false),
        1 => Ok(true),
        _ => Err(DecodeError::Malformed),
    }
}

/// Puts a mode at the end; ACTIVE, which is never stored, has no byte.
pub fn add_mode(out: &mut Blob, mode: Mode) -> Result<(), NoMemory>
    ensures { OnOk result (out.new ≡ out.old ++ field.mode.spell mode) }
{
    match mode.number() {
        None => Ok(()),
        Some(number) => out.push(number),
    }
}

/// Reads a mode.
pub fn read_mode(bytes: &mut Cursor<'_>) -> Result<Mode, DecodeError>
    ensures { Gives result bytes.new (field.mode.at bytes.old) }
{
    let number = bytes.byte()?;
    Mode::from_number(number).ok_or(DecodeError::Malformed)
}

/// Reads a status.
pub fn read_status(bytes: &mut Cursor<'_>) -> Result<Status, DecodeError>
    ensures { Gives result bytes.new (field.status.at bytes.old) }
{
    let number = bytes.byte()?;
    Status::from_number(number).ok_or(DecodeError::Malformed)
}

/// Reads a response.
pub fn read_resp(bytes: &mut Cursor<'_>) -> Result<Resp, DecodeError>
    ensures { Gives result bytes.new (field.resp.at bytes.old) }
{
    let number = bytes.byte()?;
    Resp::from_number(number).ok_or(DecodeError::Malformed)
}

/// Reads a reason.
pub fn read_reason(bytes: &mut Cursor<'_>) -> Result<Reason, DecodeError>
    ensures { Gives result bytes.new (field.reason.at bytes.old) }
{
    let number = bytes.byte()?;
    Reason::from_number(number).ok_or(DecodeError::Malformed)
}

/// Reads the kind of an event.
pub fn read_kind(bytes: &mut Cursor<'_>) -> Result<EventKind, DecodeError>
    ensures { Gives result bytes.new (field.kind.at bytes.old) }
{
    let number = bytes.byte()?;
    EventKind::from_number(number).ok_or(DecodeError::Malformed)
}

/// Reads the status of a timer.
pub fn read_timer_status(bytes: &mut Cursor<'_>) -> Result<TimerStatus, DecodeError>
    ensures { Gives result bytes.new (field.timer_status.at bytes.old) }
{
    let number = bytes.byte()?;
    TimerStatus::from_number(number).ok_or(DecodeError::Malformed)
}
