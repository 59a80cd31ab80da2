// What no clause says: that commands succeed where there is memory, and in the tables' order.
ghost use Rattle.std.specs.Prelude.{◌≡◌, IsTrue, IfSome, not, ◌&&◌, ◌-◌, ◌^◌, nat_le, nat_lt};
ghost use Rattle.std.specs.List.{list_all};
ghost use Rattle.bts_command.specs.Numbers.{command_number};
ghost use Rattle.bts_tree.specs.Slots.{filled};
ghost use Rattle.bts_tree.specs.Soundness.{numbers_below};
ghost use Rattle.bts_command.specs.Given.{IsGiven, is_systems};

use crate::{act, none_is_early};
use bts_command::{Command, Due, Names, Spot};
use bts_container::Format;
use bts_event::{Event, Trigger};
use bts_names::{
    Blob, EventKind, Key, Moment, Name16, Path, ProcName, ProcType, ProgName, Reason, Reply, Resp,
    TimerStatus, Transid, Value,
};
use bts_timer::TimerPool;
use bts_tree::{Activity, Scope, Slot};
use std::alloc::Global;
use std::collections::BTreeMap;
use std::test::Fail;

/// What is done: by a command, or, as a fire and an expiry, from outside.
#[derive(Clone, Copy)]
enum Step {
    Input(&'static str),
    Either(&'static str, &'static str),
    Timer(&'static str, u32),
    Force(&'static str),
    Check(&'static str),
    Delete(&'static str),
    Reattach,
    Subevent,
    Put(&'static str),
    Get(&'static str),
    Drop(&'static str),
    Fire(&'static str),
    Expire(&'static str),
}

/// What is answered.
#[derive(Clone, Copy)]
enum Want {
    Normal,
    Event(&'static str, EventKind),
    Timer(TimerStatus),
    Bytes(&'static str),
    Refused(Resp, Reason),
}

pub(crate) fn named(text: &str) -> Name16 {
    Name16::read(text.as_bytes()).unwrap_or(Name16::root())
}

pub(crate) fn is_free(name: Name16) -> bool
    ensures { IsTrue result → IsTrue (not (is_systems name)) }
{
    name != Name16::initial() && name != Name16::root()
}

pub(crate) fn root_scope(alloc: Global) -> Option<Scope> {
    let key = Key {
        ptype: ProcType::read(b"ORDERS".as_slice()).ok()?,
        pname: ProcName::read(b"P7".as_slice()).ok()?,
    };
    let transid = Transid::read(b"ORD1".as_slice()).ok()?;
    let program = ProgName::read(b"ANY".as_slice()).ok()?;
    let mut scope = Scope::undefined(alloc, Format::One, key);
    let root = Activity::new_root(alloc, scope.format(), transid, program);
    if scope.has_tree() || scope.generation() > 1000 {
        return None;
    }
    scope.plant(alloc, root).ok()?;
    Some(scope)
}

/// Whether every last entry number is below the last of all.
pub(crate) fn numbered(scope: &Scope) -> bool
    ensures { IsTrue result → IsTrue (numbers_below (2 ^ 64 - 1) scope.now.process) }
{
    match scope.activities() {
        Some(activities) => all_numbered(activities),
        None => true,
    }
}

fn all_numbered(activities: &BTreeMap<Path, Slot>) -> bool
    ensures { result ≡ list_all (λ x. nat_lt x.1.pool.last (2 ^ 64 - 1)) (filled activities.now.entries) }
{
    for (path, slot) in activities {
        let _ = path;
        if let Some(activity) = slot.get() {
            if activity.pool.last_number() == u64::MAX {
                return false;
            }
        }
    }
    true
}

/// The command of a step that is one.
fn command_of(alloc: Global, step: Step) -> Option<Command>
    ensures given { IfSome result (λ c. IsGiven c) }
    ensures number { IfSome result (λ c. IsTrue (nat_le 14 (command_number c) && nat_le (command_number c) 28)) }
{
    match step {
        Step::Input(text) => input(named(text)),
        Step::Either(first, second) => either(alloc, named(first), named(second)),
        Step::Timer(text, seconds) => timer(named(text), seconds),
        Step::Force(text) => force(named(text)),
        Step::Check(text) => check(named(text)),
        Step::Delete(text) => delete(named(text)),
        Step::Reattach => Some(Command::RetrieveReattach),
        Step::Subevent => subevent(named("EITHER")),
        Step::Put(text) => put(alloc, named(text)),
        Step::Get(text) => get(named(text)),
        Step::Drop(text) => drop_container(named(text)),
        Step::Fire(_) | Step::Expire(_) => None,
    }
}

fn input(name: Name16) -> Option<Command>
    ensures given { IfSome result (λ c. IsGiven c) }
    ensures number { IfSome result (λ c. IsTrue (nat_le 14 (command_number c) && nat_le (command_number c) 28)) }
{
    if !is_free(name) {
        return None;
    }
    Some(Command::DefineInput { event: name })
}

fn timer(name: Name16, seconds: u32) -> Option<Command>
    ensures given { IfSome result (λ c. IsGiven c) }
    ensures number { IfSome result (λ c. IsTrue (nat_le 14 (command_number c) && nat_le (command_number c) 28)) }
{
    if !is_free(name) {
        return None;
    }
    Some(Command::DefineTimer {
        timer: name,
        event: None,
        due: Due::After(seconds),
    })
}

fn force(name: Name16) -> Option<Command>
    ensures given { IfSome result (λ c. IsGiven c) }
    ensures number { IfSome result (λ c. IsTrue (nat_le 14 (command_number c) && nat_le (command_number c) 28)) }
{
    if !is_free(name) {
        return None;
    }
    Some(Command::ForceTimer {
        timer: name,
        target: None,
    })
}

fn check(name: Name16) -> Option<Command>
    ensures given { IfSome result (λ c. IsGiven c) }
    ensures number { IfSome result (λ c. IsTrue (nat_le 14 (command_number c) && nat_le (command_number c) 28)) }
{
    if !is_free(name) {
        return None;
    }
    Some(Command::CheckTimer { timer: name })
}

fn delete(name: Name16) -> Option<Command>
    ensures given { IfSome result (λ c. IsGiven c) }
    ensures number { IfSome result (λ c. IsTrue (nat_le 14 (command_number c) && nat_le (command_number c) 28)) }
{
    if !is_free(name) {
        return None;
    }
    Some(Command::DeleteTimer { timer: name })
}

fn subevent(name: Name16) -> Option<Command>
    ensures given { IfSome result (λ c. IsGiven c) }
    ensures number { IfSome result (λ c. IsTrue (nat_le 14 (command_number c) && nat_le (command_number c) 28)) }
{
    if !is_free(name) {
        return None;
    }
    Some(Command::RetrieveSubevent { event: name })
}

fn get(name: Name16) -> Option<Command>
    ensures given { IfSome result (λ c. IsGiven c) }
    ensures number { IfSome result (λ c. IsTrue (nat_le 14 (command_number c) && nat_le (command_number c) 28)) }
{
    if !is_free(name) {
        return None;
    }
    Some(Command::GetContainer {
        container: name,
        spot: Spot::Own,
    })
}

fn drop_container(name: Name16) -> Option<Command>
    ensures given { IfSome result (λ c. IsGiven c) }
    ensures number { IfSome result (λ c. IsTrue (nat_le 14 (command_number c) && nat_le (command_number c) 28)) }
{
    if !is_free(name) {
        return None;
    }
    Some(Command::DeleteContainer {
        container: name,
        spot: Spot::Own,
    })
}

fn put(alloc: Global, name: Name16) -> Option<Command>
    ensures given { IfSome result (λ c. IsGiven c) }
    ensures number { IfSome result (λ c. IsTrue (nat_le 14 (command_number c) && nat_le (command_number c) 28)) }
{
    if !is_free(name) {
        return None;
    }
    let from = Blob::copy_of(alloc, b"six".as_slice()).ok()?;
    Some(Command::PutContainer {
        container: name,
        spot: Spot::Own,
        from,
    })
}

/// The composite EITHER of two events.
fn either(alloc: Global, first: Name16, second: Name16) -> Option<Command>
    ensures given { IfSome result (λ c. IsGiven c) }
    ensures number { IfSome result (λ c. IsTrue (nat_le 14 (command_number c) && nat_le (command_number c) 28)) }
{
    let event = named("EITHER");
    if !is_free(event) || !is_free(first) || !is_free(second) {
        return None;
    }
    let mut subs = Names::new(alloc);
    subs.push(first).ok()?;
    subs.push(second).ok()?;
    Some(Command::DefineComposite {
        event,
        all: false,
        subs,
    })
}

/// Fires an event, as one who runs the activity with it does.
fn fires(scope: &mut Scope, name: Name16) -> bool {
    let root = Path::root();
    if scope.save(&root, false).is_err() || scope.activity(&root).is_none() {
        return false;
    }
    let activity = scope.edit(&root);
    activity.pool.last_number() < 1000 && activity.pool.fire(name).is_ok()
}

/// Lets a timer expire, whose event has its name.
fn expires(scope: &mut Scope, name: Name16) -> bool {
    let root = Path::root();
    if !fires(scope, name) || scope.save(&root, false).is_err() || scope.activity(&root).is_none() {
        return false;
    }
    let activity = scope.edit(&root);
    match activity.timers.get(name) {
        Some(timer) => {
            let due = timer.is_unexpired();
            if due {
                activity.timers.expire(name);
            }
            due
        }
        None => false,
    }
}

fn is_wanted(reply: &Reply, want: Want) -> bool {
    match want {
        Want::Normal => reply.resp == Resp::Normal && reply.value == Value::Nothing,
        Want::Event(text, kind) => {
            let name = named(text);
            reply.value == Value::Event { name, kind }
        }
        Want::Timer(status) => reply.value == Value::Timer(status),
        Want::Bytes(text) => match &reply.value {
            Value::Bytes(bytes) => bytes.as_slice() == text.as_bytes(),
            _ => false,
        },
        Want::Refused(resp, reason) => reply.resp == resp && reply.reason == reason,
    }
}

fn answers(alloc: Global, scope: &mut Scope, step: Step, want: Want) -> bool {
    let root = Path::root();
    let Some(command) = command_of(alloc, step) else {
        return false;
    };
    if scope.activity(&root).is_none() || !numbered(scope) || !none_is_early(scope) {
        return false;
    }
    match act(scope, alloc, &root, Moment::first(), &command) {
        Ok(reply) => is_wanted(&reply, want),
        Err(_) => false,
    }
}

fn goes(alloc: Global, scope: &mut Scope, step: Step, want: Want) -> bool {
    match step {
        Step::Fire(text) => fires(scope, named(text)),
        Step::Expire(text) => expires(scope, named(text)),
        _ => answers(alloc, scope, step, want),
    }
}

/// The place of the first step of a play on a new process that isn't answered as wanted.
fn first_wrong(alloc: Global, play: &[(Step, Want)]) -> Option<usize> {
    let Some(mut scope) = root_scope(alloc) else {
        return Some(0);
    };
    for (i, (step, want)) in play.iter().enumerate() {
        if !goes(alloc, &mut scope, *step, *want) {
            return Some(i);
        }
    }
    None
}

const END: Want = Want::Refused(Resp::End, Reason::Empty);

const EITHER: Want = Want::Event("EITHER", EventKind::Composite);

#[test]
fn two_subevents_fire_before_one_retrieval(rt: HostRuntime) -> Result<(), Fail> {
    let alloc = rt.alloc();
    let play = [
        (Step::Input("I1"), Want::Normal),
        (Step::Input("I2"), Want::Normal),
        (
            Step::Input("I2"),
            Want::Refused(Resp::Eventerr, Reason::Taken),
        ),
        (Step::Either("I1", "I2"), Want::Normal),
        (Step::Fire("I2"), Want::Normal),
        (Step::Fire("I1"), Want::Normal),
        (Step::Reattach, EITHER),
        (Step::Subevent, Want::Event("I2", EventKind::Input)),
        (Step::Subevent, Want::Event("I1", EventKind::Input)),
        (Step::Subevent, END),
    ];
    assert_eq!(rt; first_wrong(alloc, &play), None);
    Ok(())
}

#[test]
fn one_composite_enters_twice(rt: HostRuntime) -> Result<(), Fail> {
    let alloc = rt.alloc();
    let play = [
        (Step::Timer("T1", 60), Want::Normal),
        (Step::Timer("T2", 60), Want::Normal),
        (Step::Either("T1", "T2"), Want::Normal),
        (Step::Force("T1"), Want::Normal),
        (Step::Subevent, Want::Event("T1", EventKind::Timer)),
        (Step::Force("T2"), Want::Normal),
        (Step::Reattach, EITHER),
        (Step::Subevent, Want::Event("T2", EventKind::Timer)),
        (Step::Reattach, EITHER),
        (Step::Subevent, END),
    ];
    assert_eq!(rt; first_wrong(alloc, &play), None);
    Ok(())
}

#[test]
fn timers_expire_and_are_checked(rt: HostRuntime) -> Result<(), Fail> {
    let alloc = rt.alloc();
    let play = [
        (Step::Timer("T1", 60), Want::Normal),
        (Step::Timer("T2", 61), Want::Normal),
        (
            Step::Timer("T2", 61),
            Want::Refused(Resp::Timererr, Reason::Taken),
        ),
        (Step::Expire("T1"), Want::Normal),
        (Step::Reattach, Want::Event("T1", EventKind::Timer)),
        (
            Step::Force("T1"),
            Want::Refused(Resp::Timererr, Reason::Ended),
        ),
        (Step::Check("T1"), Want::Timer(TimerStatus::Expired)),
        (Step::Check("T2"), Want::Timer(TimerStatus::Unexpired)),
        (Step::Delete("T2"), Want::Normal),
        (
            Step::Check("T2"),
            Want::Refused(Resp::Timererr, Reason::Missing),
        ),
    ];
    assert_eq!(rt; first_wrong(alloc, &play), None);
    Ok(())
}

#[test]
fn containers_come_and_go(rt: HostRuntime) -> Result<(), Fail> {
    let alloc = rt.alloc();
    let play = [
        (
            Step::Get("C"),
            Want::Refused(Resp::Containererr, Reason::Missing),
        ),
        (Step::Put("C"), Want::Normal),
        (Step::Get("C"), Want::Bytes("six")),
        (Step::Drop("C"), Want::Normal),
        (
            Step::Drop("C"),
            Want::Refused(Resp::Containererr, Reason::Missing),
        ),
    ];
    assert_eq!(rt; first_wrong(alloc, &play), None);
    Ok(())
}
