// The words of replies, each behind a space.
ghost use Rattle.std.specs.Prelude.{◌≡◌, ◌++◌, OnOk};
ghost use Rattle.bts_report.specs.Reports.{spaced};
ghost use Rattle.bts_report.specs.Words.{reason_words, leaving_words, value_words, reply_words};

use crate::words::{add_bytes, add_code, add_path, add_suspended, add_word};
use bts_names::{Blob, Leaving, NoMemory, Reason, Reply, Value};

fn add_reason(out: &mut Blob, reason: Reason) -> Result<(), NoMemory>
    ensures { OnOk result (out.new ≡ out.old ++ spaced (reason_words reason)) }
{
    match reason {
        Reason::None => Ok(()),
        _ => add_word(out, reason.word().as_bytes()),
    }
}

fn add_leaving(out: &mut Blob, leaving: &Leaving) -> Result<(), NoMemory>
    ensures { OnOk result (out.new ≡ out.old ++ spaced (leaving_words leaving.now)) }
{
    match leaving {
        Leaving::Dormant => add_word(out, b"DORMANT"),
        Leaving::Complete => add_word(out, b"COMPLETE"),
        Leaving::Abended(code) => {
            add_word(out, b"ABEND")?;
            add_word(out, code.as_bytes())
        }
    }
}

fn add_value(out: &mut Blob, value: &Value) -> Result<(), NoMemory>
    ensures { OnOk result (out.new ≡ out.old ++ spaced (value_words value.now)) }
{
    match value {
        Value::Nothing => Ok(()),
        Value::Bytes(bytes) => add_bytes(out, bytes.as_slice()),
        Value::Id(path) => add_path(out, path),
        Value::Event { name, kind } => {
            add_word(out, name.as_bytes())?;
            add_word(out, kind.word().as_bytes())
        }
        Value::Fired(fired) => add_word(out, if *fired { b"FIRED" } else { b"NOTFIRED" }),
        Value::Activity {
            mode,
            status,
            suspended,
            code,
        } => {
            add_word(out, mode.word().as_bytes())?;
            add_word(out, status.word().as_bytes())?;
            add_suspended(out, *suspended)?;
            add_code(out, code)
        }
        Value::Timer(status) => add_word(out, status.word().as_bytes()),
        Value::Ran(ran) => add_word(out, if *ran { b"RAN" } else { b"WAITS" }),
        Value::Left(leaving) => add_leaving(out, leaving),
    }
}

pub fn add_reply(out: &mut Blob, reply: &Reply) -> Result<(), NoMemory>
    ensures { OnOk result (out.new ≡ out.old ++ spaced (reply_words reply.now)) }
{
    add_word(out, reply.resp.word().as_bytes())?;
    add_reason(out, reply.reason)?;
    add_value(out, &reply.value)
}
