// What no clause says: that ended units are applied where there is memory.
ghost use Rattle.std.specs.Prelude.{◌≡◌, ◌≤◌, ◌^◌, IfSome, IsTrue, Option, true, length};
ghost use Rattle.std.specs.List.{AllByRecursion, list_all};
ghost use Rattle.bts_command.specs.Given.{IsGiven};
ghost use Rattle.bts_names.specs.Names.{ActivityPath};
ghost use Rattle.bts_tree.specs.Soundness.{AreSound, is_within};
ghost use Rattle.bts_unit.specs.OneFrame.{is_of_one_frame};
ghost use Rattle.bts_unit.specs.Refusals.{is_played};

use crate::{ApplyError, apply};
use bts_command::{Call, Calls, Command, End, Ended, Target, UnitKind};
use bts_names::{
    Abcode, EventKind, Key, Leaving, Moment, Name16, Path, ProcName, ProcType, ProgName, Reason,
    Reply, Resp, Rows, Transid, Value,
};
use bts_tree::{Repository, what_is_new_is_sound};
use std::alloc::Global;
use std::test::Fail;

/// The calls that a unit is told to have made.
#[derive(Clone, Copy, Debug)]
enum Told {
    Nothing,
    Return,
    /// A RETURN that is refused, though none is.
    Refusal,
    Rollback,
    /// The second one stands behind the end.
    TwoReturns,
    /// A process is defined and run.
    Start,
    /// The entry of that run is retrieved, and the activity ends.
    Woken,
    /// Another entry is, which doesn't wait.
    WokenByAnother,
    /// None is.
    Unwoken,
}

fn call_of(command: Command, resp: Resp, reason: Reason) -> Call
    ensures { result.command ≡ command }
{
    call_that_gives(command, resp, reason, Value::Nothing)
}

fn call_that_gives(command: Command, resp: Resp, reason: Reason, value: Value) -> Call
    ensures { result.command ≡ command }
{
    Call {
        command,
        reply: Reply {
            resp,
            reason,
            value,
        },
    }
}

fn a_return(resp: Resp, reason: Reason) -> Call
    ensures given { IsGiven result.command }
    ensures one_frame { (at : Option ActivityPath) → is_of_one_frame at result.command ≡ true }
{
    let command = Command::Return {
        end_activity: false,
    };
    call_of(command, resp, reason)
}

fn a_rollback() -> Call
    ensures given { IsGiven result.command }
    ensures one_frame { (at : Option ActivityPath) → is_of_one_frame at result.command ≡ true }
{
    call_of(Command::Rollback, Resp::Normal, Reason::None)
}

/// A RETURN in an activity's frame, which leaves it so.
fn a_return_that_leaves(leaving: Leaving) -> Call
    ensures given { IsGiven result.command }
    ensures one_frame { (at : Option ActivityPath) → is_of_one_frame at result.command ≡ true }
{
    let command = Command::Return {
        end_activity: false,
    };
    call_that_gives(command, Resp::Normal, Reason::None, Value::Left(leaving))
}

fn a_retrieval(name: Name16, kind: EventKind) -> Call
    ensures given { IsGiven result.command }
    ensures one_frame { (at : Option ActivityPath) → is_of_one_frame at result.command ≡ true }
{
    let value = Value::Event { name, kind };
    call_that_gives(Command::RetrieveReattach, Resp::Normal, Reason::None, value)
}

fn a_definition() -> Option<Call>
    ensures given { IfSome result (λ c. IsGiven c.command) }
    ensures one_frame { (at : Option ActivityPath) → IfSome result (λ c. is_of_one_frame at c.command ≡ true) }
{
    let transid = Transid::read(b"ORD1").ok()?;
    let program = ProgName::read(b"ROOT").ok()?;
    let command = Command::DefineProcess { transid, program };
    Some(call_of(command, Resp::Normal, Reason::None))
}

fn a_run() -> Call
    ensures given { IsGiven result.command }
    ensures one_frame { (at : Option ActivityPath) → is_of_one_frame at result.command ≡ true }
{
    let command = Command::Run {
        target: Target::AcqProcess,
        synchronous: false,
        input: None,
    };
    call_of(command, Resp::Normal, Reason::None)
}

fn calls_of(alloc: Global, told: Told) -> Option<Calls>
    ensures given { (at : Option ActivityPath) → IfSome result (λ calls. AllByRecursion (λ c. IsGiven c.command × (is_of_one_frame at c.command ≡ true)) calls) }
    ensures few { IfSome result (λ calls. length calls ≤ 3) }
{
    let mut calls = Vec::new(alloc);
    match told {
        Told::Nothing => {}
        Told::Return => calls.push(a_return(Resp::Normal, Reason::None)).ok()?,
        Told::Refusal => calls.push(a_return(Resp::Invreq, Reason::Place)).ok()?,
        Told::Rollback => calls.push(a_rollback()).ok()?,
        Told::TwoReturns => {
            calls.push(a_return(Resp::Normal, Reason::None)).ok()?;
            calls.push(a_return(Resp::Normal, Reason::None)).ok()?;
        }
        Told::Start => {
            calls.push(a_definition()?).ok()?;
            calls.push(a_run()).ok()?;
            calls.push(a_return(Resp::Normal, Reason::None)).ok()?;
        }
        Told::Woken => {
            calls
                .push(a_retrieval(Name16::initial(), EventKind::System))
                .ok()?;
            calls.push(a_return_that_leaves(Leaving::Complete)).ok()?;
        }
        Told::WokenByAnother => {
            calls
                .push(a_retrieval(Name16::read(b"E").ok()?, EventKind::Input))
                .ok()?;
            calls.push(a_return_that_leaves(Leaving::Complete)).ok()?;
        }
        Told::Unwoken => {
            let code = Abcode::read(b"NORT").ok()?;
            calls
                .push(a_return_that_leaves(Leaving::Abended(code)))
                .ok()?;
        }
    }
    Some(Calls::from_vec(calls))
}

/// A unit that is told so.
fn told_so(alloc: Global, unit: &UnitKind, told: Told, end: End) -> Option<Ended>
    ensures unit { IfSome result (λ ended. ended.unit ≡ unit.now) }
    ensures given { (at : Option ActivityPath) → IfSome result (λ ended. AllByRecursion (λ c. IsGiven c.command × (is_of_one_frame at c.command ≡ true)) ended.calls) }
    ensures few { IfSome result (λ ended. length ended.calls ≤ 3) }
{
    let moment = Moment::from_seconds(0)?;
    let calls = calls_of(alloc, told)?;
    Some(Ended {
        unit: *unit,
        moment,
        end,
        calls,
        rows: Rows::new(alloc),
        seq: 1,
    })
}

/// Whether a unit that is told so is applied, or refused with this number of a call.
fn is_answered_by(
    alloc: Global,
    repository: &mut Repository,
    unit: &UnitKind,
    told: Told,
    end: End,
    refused: Option<u32>,
) -> bool
    requires played { IsTrue (is_played unit.now) }
    requires sound { AreSound repository.old.processes }
    requires within { list_all (is_within (2 ^ 63) (2 ^ 63)) repository.old.processes.items ≡ true }
{
    let Some(ended) = told_so(alloc, unit, told, end) else {
        return false;
    };
    match (apply(alloc, repository, &ended), refused) {
        (Ok(()), None) => true,
        (Err(ApplyError::NotLegal { call }), Some(number)) => call == number,
        _ => false,
    }
}

/// The same where there are no processes.
fn is_answered(alloc: Global, unit: &UnitKind, told: Told, end: End, refused: Option<u32>) -> bool
    requires { IsTrue (is_played unit.now) }
{
    let mut repository = Repository::empty(alloc);
    what_is_new_is_sound();
    is_answered_by(alloc, &mut repository, unit, told, end, refused)
}

fn a_key() -> Option<Key> {
    let ptype = ProcType::read(b"ORDERS").ok()?;
    let pname = ProcName::read(b"P1").ok()?;
    Some(Key { ptype, pname })
}

fn a_request(key: &Key) -> UnitKind
    ensures { IsTrue (is_played result) }
{
    UnitKind::Request { item: 1, key: *key }
}

fn an_activation(key: &Key) -> UnitKind
    ensures { IsTrue (is_played result) }
{
    let path = Path::root();
    UnitKind::Activation { key: *key, path }
}

/// The same for a request.
fn request_is_answered(alloc: Global, told: Told, end: End, refused: Option<u32>) -> bool {
    match a_key() {
        Some(key) => is_answered(alloc, &a_request(&key), told, end, refused),
        None => false,
    }
}

/// The same for a SETTLE.
fn settle_is_answered(alloc: Global, told: Told, end: End, refused: Option<u32>) -> bool {
    is_answered(alloc, &UnitKind::Settle { item: 1 }, told, end, refused)
}

/// What a request leaves that defines a process and runs it.
fn started(alloc: Global, key: &Key) -> Option<Repository>
    ensures sound { IfSome result (λ r. AreSound r.processes) }
    ensures within { IfSome result
        (λ r. list_all (is_within (2 ^ 63) (2 ^ 63)) r.processes.items ≡ true) }
{
    let ended = told_so(alloc, &a_request(key), Told::Start, End::Commit)?;
    let mut repository = Repository::empty(alloc);
    what_is_new_is_sound();
    match apply(alloc, &mut repository, &ended) {
        Ok(()) => Some(repository),
        Err(_) => None,
    }
}

/// The same for an activation of its root.
fn activation_is_answered(alloc: Global, told: Told, end: End, refused: Option<u32>) -> bool {
    let Some(key) = a_key() else {
        return false;
    };
    let Some(mut repository) = started(alloc, &key) else {
        return false;
    };
    let unit = an_activation(&key);
    is_answered_by(alloc, &mut repository, &unit, told, end, refused)
}

#[test]
fn requests_are_applied_as_they_went(rt: HostRuntime) -> Result<(), Fail> {
    let alloc = rt.alloc();
    let limit = End::Abend(Abcode::read(b"STEP")?);
    let other = End::Abend(Abcode::read(b"OTHR")?);
    let table = [
        (Told::Return, End::Commit, None),
        (Told::Rollback, End::Rollback, None),
        (Told::Nothing, limit, None),
        (Told::Nothing, End::Commit, Some(0)),
        (Told::Nothing, other, Some(0)),
        (Told::Return, limit, Some(0)),
        (Told::Return, End::Rollback, Some(0)),
        (Told::Refusal, End::Commit, Some(1)),
        (Told::TwoReturns, End::Commit, Some(2)),
    ];
    for (told, end, refused) in table {
        assert!(rt;
            request_is_answered(alloc, told, end, refused),
            "{told:?} {end:?}"
        );
    }
    Ok(())
}

#[test]
fn other_units_are_applied_without_calls(rt: HostRuntime) -> Result<(), Fail> {
    let alloc = rt.alloc();
    let table = [
        (Told::Nothing, End::Commit, None),
        (Told::Nothing, End::Rollback, Some(0)),
        (Told::Return, End::Commit, Some(1)),
    ];
    for (told, end, refused) in table {
        assert!(rt;
            settle_is_answered(alloc, told, end, refused),
            "{told:?} {end:?}"
        );
    }
    Ok(())
}

#[test]
fn activations_are_applied_as_they_went(rt: HostRuntime) -> Result<(), Fail> {
    let alloc = rt.alloc();
    let limit = End::Abend(Abcode::read(b"STEP")?);
    let unwoken = End::Abend(Abcode::read(b"NORT")?);
    let table = [
        (Told::Woken, End::Commit, None),
        (Told::Unwoken, unwoken, None),
        (Told::Nothing, limit, None),
        (Told::Unwoken, End::Commit, Some(0)),
        (Told::Woken, unwoken, Some(0)),
        (Told::WokenByAnother, End::Commit, Some(1)),
        (Told::Return, End::Commit, Some(1)),
        (Told::TwoReturns, End::Commit, Some(1)),
    ];
    for (told, end, refused) in table {
        assert!(rt;
            activation_is_answered(alloc, told, end, refused),
            "{told:?} {end:?}"
        );
    }
    Ok(())
}

#[test]
fn no_activation_is_applied_where_none_is_enabled(rt: HostRuntime) -> Result<(), Fail> {
    let alloc = rt.alloc();
    let key = a_key().expect(&rt, "a key");
    let unit = an_activation(&key);
    assert!(rt; is_answered(alloc, &unit, Told::Nothing, End::Commit, Some(0)));
    Ok(())
}
