// What a frame's own calls have shown, and what depends on it.
ghost use Rattle.std.specs.Prelude.{◌≡◌, Option, IfOk};
ghost use Rattle.std.specs.Option.{option_copied};
ghost use Rattle.bts_names.specs.Names.{same};
ghost use Rattle.bts_interp.specs.Facts as facts;
ghost use Rattle.bts_names.specs.declared.reply.Value.{Value};

use bts_command::Call;
use bts_forms::{Cond, Given};
use bts_names::{Blob, Name16, NoMemory, Resp, Status, Value};
use std::alloc::Global;

fn event_in(value: &Value) -> Option<&Name16>
    ensures { option_copied result ≡ facts.event_in value.now }
{
    match value {
        Value::Event { name, .. } => Some(name),
        _ => None,
    }
}

fn status_in(value: &Value) -> Option<&Status>
    ensures { option_copied result ≡ facts.status_in value.now }
{
    match value {
        Value::Activity { status, .. } => Some(status),
        _ => None,
    }
}

fn bytes_in(value: &Value) -> Option<&Blob>
    ensures { option_copied result ≡ facts.bytes_in value.now }
{
    match value {
        Value::Bytes(bytes) => Some(bytes),
        _ => None,
    }
}

fn fired_in(value: &Value) -> Option<&bool>
    ensures { option_copied result ≡ facts.fired_in value.now }
{
    match value {
        Value::Fired(fired) => Some(fired),
        _ => None,
    }
}

/// What the last of the calls shows that show something.
fn latest<'a, T, F: Fn(&'a Value) -> Option<&'a T>>(own: &'a [Call], shows: F) -> Option<&'a T>
    requires { F.IsAlwaysCallable shows }
    ensures { (shown : Value → Option T) → ((v : _) (r : _) → F.post shows v r → option_copied r ≡ shown v.now)
        → option_copied result ≡ facts.latest (λ c. shown c.reply.value) own.now }
{
    let mut rest = own;
    while let Some((last, before)) = rest.split_last() {
        if let Some(found) = shows(&last.reply.value) {
            return Some(found);
        }
        rest = before;
    }
    None
}

fn last_response(own: &[Call]) -> Option<Resp>
    ensures { result ≡ facts.last_response own.now }
{
    let (last, _) = own.split_last()?;
    Some(last.reply.resp)
}

fn last_event(own: &[Call]) -> Option<&Name16>
    ensures { option_copied result ≡ facts.last_event own.now }
{
    latest(own, event_in)
}

fn last_status(own: &[Call]) -> Option<&Status>
    ensures { option_copied result ≡ facts.last_status own.now }
{
    latest(own, status_in)
}

fn last_bytes(own: &[Call]) -> Option<&Blob>
    ensures { option_copied result ≡ facts.last_bytes own.now }
{
    latest(own, bytes_in)
}

fn last_fired(own: &[Call]) -> Option<&bool>
    ensures { option_copied result ≡ facts.last_fired own.now }
{
    latest(own, fired_in)
}

/// Whether the bytes are the same.
#[tactic(auto, using(bts_unit::proofs::Alike::same_bytes))]
fn are_same(given: &Blob, found: &Blob) -> bool
    ensures { result ≡ same given.now found.now }
{
    given == found
}

/// Whether a condition holds behind a frame's own calls.
pub(crate) fn is_so(own: &[Call], cond: &Cond) -> bool
    ensures { result ≡ facts.is_so own.now cond.now }
{
    match cond {
        Cond::Resp(resp) => last_response(own).is_some_and(|found| *resp == found),
        Cond::Event(name) => last_event(own).is_some_and(|found| name == found),
        Cond::Status(status) => last_status(own).is_some_and(|found| status == found),
        Cond::Gave(bytes) => last_bytes(own).is_some_and(|found| are_same(bytes, found)),
        Cond::Fired => last_fired(own).is_some_and(|fired| *fired),
    }
}

/// The bytes that a FROM gives.
pub(crate) fn bytes_of(alloc: Global, own: &[Call], given: &Given) -> Result<Blob, NoMemory>
    ensures { IfOk result (λ bytes. bytes ≡ facts.bytes_of own.now given.now) }
{
    match given {
        Given::Literal(bytes) => Blob::copy_of(alloc, bytes.as_slice()),
        Given::Fill(count) => Ok(Blob::from_vec(Vec::from_elem(alloc, b'*', *count as usize)?)),
        Given::Last => match last_bytes(own) {
            Some(bytes) => Blob::copy_of(alloc, bytes.as_slice()),
            None => Ok(Blob::new(alloc)),
        },
    }
}
