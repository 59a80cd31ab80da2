// Replies: response, reason and value.
ghost use Rattle.std.specs.Prelude.{◌≡◌, ◌++◌, OnOk};
ghost use Rattle.bts_names.specs.declared.reply.Value.TheVariants as value_;
ghost use Rattle.bts_codec.specs.Formats.{reads, ◌&◌};
ghost use Rattle.bts_codec.specs.Fields as field;
ghost use Rattle.bts_codec.specs.Replies as form;
ghost use Rattle.bts_codec.specs.Answers.{Gives};

use crate::DecodeError;
use crate::cursor::Cursor;
use crate::lists::{add_path, read_path};
use crate::strings::{add_string, read_blob, read_name};
use crate::words::{
    add_flag, add_mode, read_flag, read_kind, read_mode, read_reason, read_resp, read_status,
    read_timer_status,
};
use bts_names::{
    Abcode, Blob, Leaving, Mode, Name16, NoMemory, Reason, Reply, Resp, Status, Value,
};
use std::alloc::Global;

/// Puts the code of an abend at the end, and no bytes where there is none.
fn add_code_or_none(out: &mut Blob, code: &Option<Abcode>) -> Result<(), NoMemory>
    ensures { OnOk result (out.new ≡ out.old ++ form.code_or_none.spell code.now) }
{
    match code {
        None => add_string(out, b""),
        Some(code) => add_string(out, code.as_bytes()),
    }
}

/// Reads the code of an abend, or no bytes.
fn read_code_or_none(bytes: &mut Cursor<'_>) -> Result<Option<Abcode>, DecodeError>
    ensures { Gives result bytes.new (form.code_or_none.at bytes.old) }
{
    let word = bytes.string()?;
    if word.is_empty() {
        return Ok(None);
    }
    match Abcode::read(word) {
        Ok(code) => Ok(Some(code)),
        Err(_) => Err(DecodeError::Malformed),
    }
}

/// Reads the name of a retrieved event, DFHINITIAL besides.
fn read_event_name(bytes: &mut Cursor<'_>) -> Result<Name16, DecodeError>
    ensures { Gives result bytes.new (form.event_name.at bytes.old) }
{
    let word = bytes.string()?;
    match Name16::read_any(word) {
        Ok(name) => Ok(name),
        Err(_) => Err(DecodeError::Malformed),
    }
}

fn add_leaving(out: &mut Blob, leaving: &Leaving) -> Result<(), NoMemory>
    ensures { OnOk result (out.new ≡ out.old ++ form.leaving.spell leaving.now) }
{
    match leaving {
        Leaving::Dormant => out.push(0),
        Leaving::Complete => out.push(1),
        Leaving::Abended(code) => {
            out.push(2)?;
            add_string(out, code.as_bytes())
        }
    }
}

fn read_leaving(bytes: &mut Cursor<'_>) -> Result<Leaving, DecodeError>
    ensures { Gives result bytes.new (form.leaving.at bytes.old) }
{
    match bytes.byte()? {
        0 => Ok(Leaving::Dormant),
        1 => Ok(Leaving::Complete),
        2 => {
            let code = read_name(bytes)?;
            Ok(Leaving::Abended(code))
        }
        _ => Err(DecodeError::Malformed),
    }
}

fn add_activity(
    out: &mut Blob,
    mode: Mode,
    status: Status,
    suspended: bool,
    code: &Option<Abcode>,
) -> Result<(), NoMemory>
    ensures { OnOk result (out.new ≡ out.old ++ (field.mode & field.status & field.flag & form.code_or_none).spell (mode, (status, (suspended, code.now)))) }
{
    add_mode(out, mode)?;
    out.push(status.number())?;
    add_flag(out, suspended)?;
    add_code_or_none(out, code)
}

/// Puts a value at the end.
fn add_value(out: &mut Blob, value: &Value) -> Result<(), NoMemory>
    ensures { OnOk result (out.new ≡ out.old ++ form.value.spell value.now) }
{
    match value {
        Value::Nothing => out.push(0),
        Value::Bytes(bytes) => {
            out.push(1)?;
            add_string(out, bytes.as_slice())
        }
        Value::Id(path) => {
            out.push(2)?;
            add_path(out, path)
        }
        Value::Event { name, kind } => {
            out.push(3)?;
            add_string(out, name.as_bytes())?;
            out.push(kind.number())
        }
        Value::Fired(fired) => {
            out.push(4)?;
            add_flag(out, *fired)
        }
        Value::Activity {
            mode,
            status,
            suspended,
            code,
        } => {
            out.push(5)?;
            add_activity(out, *mode, *status, *suspended, code)
        }
        Value::Timer(status) => {
            out.push(6)?;
            out.push(status.number())
        }
        Value::Ran(ran) => {
            out.push(7)?;
            add_flag(out, *ran)
        }
        Value::Left(leaving) => {
            out.push(8)?;
            add_leaving(out, leaving)
        }
    }
}

fn read_event(bytes: &mut Cursor<'_>) -> Result<Value, DecodeError>
    ensures { Gives result bytes.new (reads (form.event_name & field.kind) (λ x. value_.Event x.0 x.1) bytes.old) }
{
    let name = read_event_name(bytes)?;
    let kind = read_kind(bytes)?;
    Ok(Value::Event { name, kind })
}

fn read_activity(bytes: &mut Cursor<'_>) -> Result<Value, DecodeError>
    ensures { Gives result bytes.new (reads (field.mode & field.status & field.flag & form.code_or_none) (λ x. value_.Activity x.0 x.1.0 x.1.1.0 x.1.1.1) bytes.old) }
{
    let mode = read_mode(bytes)?;
    let status = read_status(bytes)?;
    let suspended = read_flag(bytes)?;
    let code = read_code_or_none(bytes)?;
    Ok(Value::Activity {
        mode,
        status,
        suspended,
        code,
    })
}

/// Reads a value.
fn read_value(alloc: Global, bytes: &mut Cursor<'_>) -> Result<Value, DecodeError>
    ensures { Gives result bytes.new (form.value.at bytes.old) }
{
    match bytes.byte()? {
        0 => Ok(Value::Nothing),
        1 => {
            let blob = read_blob(alloc, bytes)?;
            Ok(Value::Bytes(blob))
        }
        2 => {
            let path = read_path(bytes)?;
            Ok(Value::Id(path))
        }
        3 => read_event(bytes),
        4 => {
            let fired = read_flag(bytes)?;
            Ok(Value::Fired(fired))
        }
        5 => read_activity(bytes),
        6 => {
            let status = read_timer_status(bytes)?;
            Ok(Value::Timer(status))
        }
        7 => {
            let ran = read_flag(bytes)?;
            Ok(Value::Ran(ran))
        }
        8 => {
            let leaving = read_leaving(bytes)?;
            Ok(Value::Left(leaving))
        }
        _ => Err(DecodeError::Malformed),
    }
}

fn is_normal(resp: Resp) -> bool
    ensures { result ≡ form.is_normal resp }
{
    matches!(resp, Resp::Normal)
}

fn is_no_reason(reason: Reason) -> bool
    ensures { result ≡ form.is_no_reason reason }
{
    matches!(reason, Reason::None)
}

fn is_nothing(value: &Value) -> bool
    ensures { result ≡ form.is_nothing value.now }
{
    matches!(value, Value::Nothing)
}

/// Whether a reply NORMAL has the reason None, and any other one another reason and the value Nothing.
fn is_reply(reply: &Reply) -> bool
    ensures { result ≡ form.is_reply reply.now }
{
    if is_normal(reply.resp) {
        is_no_reason(reply.reason)
    } else {
        !is_no_reason(reply.reason) && is_nothing(&reply.value)
    }
}

/// Puts a reply at the end.
pub fn add_reply(out: &mut Blob, reply: &Reply) -> Result<(), NoMemory>
    ensures { OnOk result (out.new ≡ out.old ++ form.reply.spell reply.now) }
{
    out.push(reply.resp.number())?;
    out.push(reply.reason.number())?;
    add_value(out, &reply.value)
}

fn read_any_reply(alloc: Global, bytes: &mut Cursor<'_>) -> Result<Reply, DecodeError>
    ensures { Gives result bytes.new (form.any_reply.at bytes.old) }
{
    let resp = read_resp(bytes)?;
    let reason = read_reason(bytes)?;
    let value = read_value(alloc, bytes)?;
    Ok(Reply {
        resp,
        reason,
        value,
    })
}

/// Reads a reply.
pub fn read_reply(alloc: Global, bytes: &mut Cursor<'_>) -> Result<Reply, DecodeError>
    ensures { Gives result bytes.new (form.reply.at bytes.old) }
{
    let reply = read_any_reply(alloc, bytes)?;
    if !is_reply(&reply) {
        return Err(DecodeError::Malformed);
    }
    Ok(reply)
}
