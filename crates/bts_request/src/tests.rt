// What no clause says: that commands succeed where there is memory, and in the tables' order.
ghost use Rattle.std.specs.Prelude.{◌≡◌, ◌&&◌, ◌-◌, ◌^◌, IsTrue, IfSome, false, not, nat_lt};
ghost use Rattle.std.specs.List.{list_all, list_any};
ghost use Rattle.bts_tree.specs.Slots.{filled};
ghost use Rattle.bts_tree.specs.Soundness.{numbers_below};
ghost use Rattle.bts_command.specs.Given.{IsGiven, is_systems, names_of_spot, names_of_target};
ghost use Rattle.bts_rows.specs.Families.{resets};

use crate::request;
use bts_act::none_is_early;
use bts_command::{Command, Spot, Target};
use bts_container::Format;
use bts_names::{
    Blob, Key, Mode, Moment, Name16, Path, ProcName, ProcType, ProgName, Reason, Reply, Resp,
    Transid, Value,
};
use bts_rows::Held;
use bts_tree::{Activity, Scope, Slot};
use std::alloc::Global;
use std::collections::BTreeMap;
use std::test::Fail;

/// The bytes of a container that is too long in the first format.
const LONG: usize = 32_769;

/// Where something is done.
#[derive(Clone, Copy)]
pub(crate) enum At {
    Own,
    Process,
    Child,
    Root,
    Acquired,
}

/// What is done: by a command, or from outside.
#[derive(Clone, Copy)]
pub(crate) enum Step {
    Define,
    Acquire,
    AcquireRoot,
    AcquireChild,
    Purge,
    Put(At),
    PutLong(At),
    Get(At),
    Drop(At),
    Run,
    RunWith(&'static str),
    RunNow,
    Link(At),
    Check(At),
    Suspend(At),
    Resume(At),
    Force(At),
    Reattach,
    Cancel(At),
    /// The next request begins.
    Again,
    /// The root is brought into a mode.
    Mode(Mode),
    /// The root has an input event more.
    Input(&'static str),
    /// The root has a timer more, and its event.
    Timer,
}

/// What is answered.
#[derive(Clone, Copy)]
enum Want {
    Normal,
    Bytes(&'static str),
    Is(Mode, bool),
    Ran(bool),
    Refused(Resp, Reason),
}

pub(crate) fn named(text: &str) -> Name16 {
    Name16::read(text.as_bytes()).unwrap_or(Name16::root())
}

pub(crate) fn is_free(name: Name16) -> bool
    ensures { IsTrue result → IsTrue (not (is_systems name)) }
{
    name != Name16::initial() && name != Name16::root()
}

/// Whether every last entry number is below the last of all.
pub(crate) fn numbered(scope: &Scope) -> bool
    ensures { IsTrue result → IsTrue (numbers_below (2 ^ 64 - 1) scope.now.process) }
{
    match scope.activities() {
        Some(activities) => all_numbered(activities),
        None => true,
    }
}

fn all_numbered(activities: &BTreeMap<Path, Slot>) -> bool
    ensures { result ≡ list_all (λ x. nat_lt x.1.pool.last (2 ^ 64 - 1)) (filled activities.now.entries) }
{
    for (path, slot) in activities {
        let _ = path;
        if let Some(activity) = slot.get() {
            if activity.pool.last_number() == u64::MAX {
                return false;
            }
        }
    }
    true
}

/// The command of a step that is one.
pub(crate) fn command_of(alloc: Global, step: Step) -> Option<Command>
    ensures given { IfSome result (λ c. IsGiven c) }
    ensures today { IfSome result (λ c. resets c ≡ false) }
{
    match step {
        Step::Define => define(),
        Step::Acquire => Some(Command::AcquireProcess),
        Step::AcquireRoot => Some(Command::AcquireActivity { path: Path::root() }),
        Step::AcquireChild => acquire_child(),
        Step::Purge => Some(Command::PurgeProcess),
        Step::Put(at) => put(alloc, at, b"six".as_slice()),
        Step::PutLong(at) => put_long(alloc, at),
        Step::Get(at) => get(at),
        Step::Drop(at) => drop_container(at),
        Step::Force(at) => force(at),
        _ => command_on_activity(step),
    }
}

/// The same for commands on an activity.
fn command_on_activity(step: Step) -> Option<Command>
    ensures given { IfSome result (λ c. IsGiven c) }
    ensures today { IfSome result (λ c. resets c ≡ false) }
{
    match step {
        Step::Run => Some(run(false)),
        Step::RunNow => Some(run(true)),
        Step::RunWith(text) => run_with(named(text)),
        Step::Link(at) => link(at),
        Step::Check(at) => check(at),
        Step::Suspend(at) => suspend(at),
        Step::Resume(at) => resume(at),
        Step::Reattach => Some(Command::RetrieveReattach),
        Step::Cancel(at) => cancel(at),
        _ => None,
    }
}

fn define() -> Option<Command>
    ensures given { IfSome result (λ c. IsGiven c) }
    ensures today { IfSome result (λ c. resets c ≡ false) }
{
    let transid = Transid::read(b"ORD1".as_slice()).ok()?;
    let program = ProgName::read(b"ANY".as_slice()).ok()?;
    Some(Command::DefineProcess { transid, program })
}

fn acquire_child() -> Option<Command>
    ensures given { IfSome result (λ c. IsGiven c) }
    ensures today { IfSome result (λ c. resets c ≡ false) }
{
    let path = Path::root().child(7)?;
    Some(Command::AcquireActivity { path })
}

fn target_of(at: At) -> Option<Target>
    ensures { IfSome result (λ t. IsTrue (not (list_any is_systems (names_of_target t)))) }
{
    match at {
        At::Child => child(named("A")),
        At::Root => Some(Target::AcqProcess),
        At::Acquired => Some(Target::AcqActivity),
        At::Own | At::Process => None,
    }
}

fn child(name: Name16) -> Option<Target>
    ensures { IfSome result (λ t. IsTrue (not (list_any is_systems (names_of_target t)))) }
{
    if !is_free(name) {
        return None;
    }
    Some(Target::Activity(name))
}

fn spot_of(at: At) -> Option<Spot>
    ensures { IfSome result (λ x. IsTrue (not (list_any is_systems (names_of_spot x)))) }
{
    match at {
        At::Own => Some(Spot::Own),
        At::Process => Some(Spot::Process),
        _ => {
            let target = target_of(at)?;
            Some(Spot::Of(target))
        }
    }
}

fn put(alloc: Global, at: At, bytes: &[u8]) -> Option<Command>
    ensures given { IfSome result (λ c. IsGiven c) }
    ensures today { IfSome result (λ c. resets c ≡ false) }
{
    let container = named("C");
    if !is_free(container) {
        return None;
    }
    let spot = spot_of(at)?;
    let from = Blob::copy_of(alloc, bytes).ok()?;
    Some(Command::PutContainer {
        container,
        spot,
        from,
    })
}

/// A PUT of one byte more than a container holds in the first format.
fn put_long(alloc: Global, at: At) -> Option<Command>
    ensures given { IfSome result (λ c. IsGiven c) }
    ensures today { IfSome result (λ c. resets c ≡ false) }
{
    let mut bytes = Vec::new(alloc);
    for _ in 0..LONG {
        bytes.push(b'x').ok()?;
    }
    put(alloc, at, &bytes)
}

fn get(at: At) -> Option<Command>
    ensures given { IfSome result (λ c. IsGiven c) }
    ensures today { IfSome result (λ c. resets c ≡ false) }
{
    let container = named("C");
    if !is_free(container) {
        return None;
    }
    let spot = spot_of(at)?;
    Some(Command::GetContainer { container, spot })
}

fn drop_container(at: At) -> Option<Command>
    ensures given { IfSome result (λ c. IsGiven c) }
    ensures today { IfSome result (λ c. resets c ≡ false) }
{
    let container = named("C");
    if !is_free(container) {
        return None;
    }
    let spot = spot_of(at)?;
    Some(Command::DeleteContainer { container, spot })
}

/// RUN of the root.
fn run(synchronous: bool) -> Command
    ensures given { IsGiven result }
    ensures today { resets result ≡ false }
{
    Command::Run {
        target: Target::AcqProcess,
        synchronous,
        input: None,
    }
}

fn run_with(event: Name16) -> Option<Command>
    ensures given { IfSome result (λ c. IsGiven c) }
    ensures today { IfSome result (λ c. resets c ≡ false) }
{
    if !is_free(event) {
        return None;
    }
    Some(Command::Run {
        target: Target::AcqProcess,
        synchronous: false,
        input: Some(event),
    })
}

fn link(at: At) -> Option<Command>
    ensures given { IfSome result (λ c. IsGiven c) }
    ensures today { IfSome result (λ c. resets c ≡ false) }
{
    let target = target_of(at)?;
    Some(Command::Link {
        target,
        input: None,
    })
}

fn check(at: At) -> Option<Command>
    ensures given { IfSome result (λ c. IsGiven c) }
    ensures today { IfSome result (λ c. resets c ≡ false) }
{
    let target = target_of(at)?;
    Some(Command::Check { target })
}

fn suspend(at: At) -> Option<Command>
    ensures given { IfSome result (λ c. IsGiven c) }
    ensures today { IfSome result (λ c. resets c ≡ false) }
{
    let target = target_of(at)?;
    Some(Command::Suspend { target })
}

fn resume(at: At) -> Option<Command>
    ensures given { IfSome result (λ c. IsGiven c) }
    ensures today { IfSome result (λ c. resets c ≡ false) }
{
    let target = target_of(at)?;
    Some(Command::Resume { target })
}

fn force(at: At) -> Option<Command>
    ensures given { IfSome result (λ c. IsGiven c) }
    ensures today { IfSome result (λ c. resets c ≡ false) }
{
    let timer = named("T");
    if !is_free(timer) {
        return None;
    }
    let target = target_of(at)?;
    Some(Command::ForceTimer {
        timer,
        target: Some(target),
    })
}

fn cancel(at: At) -> Option<Command>
    ensures given { IfSome result (λ c. IsGiven c) }
    ensures today { IfSome result (λ c. resets c ≡ false) }
{
    let target = target_of(at)?;
    Some(Command::Cancel { target })
}

/// Changes the root from outside.
fn changes(scope: &mut Scope, step: Step) -> bool {
    let root = Path::root();
    if scope.save(&root, false).is_err() || scope.activity(&root).is_none() {
        return false;
    }
    let activity = scope.edit(&root);
    match step {
        Step::Mode(mode) => {
            activity.mode = mode;
            true
        }
        Step::Input(text) => gains_input(activity, named(text)),
        Step::Timer => gains_timer(activity, named("T")),
        _ => false,
    }
}

fn gains_input(activity: &mut Activity, name: Name16) -> bool {
    is_free(name) && activity.pool.define_input(name).is_ok()
}

/// A timer and its event, of the same name.
fn gains_timer(activity: &mut Activity, name: Name16) -> bool {
    is_free(name)
        && activity.timers.define(name, Moment::first()).is_ok()
        && activity.pool.define_timer_event(name, name).is_ok()
}

fn is_wanted(reply: &Reply, want: Want) -> bool {
    match want {
        Want::Normal => reply.resp == Resp::Normal && reply.value == Value::Nothing,
        Want::Bytes(text) => match &reply.value {
            Value::Bytes(bytes) => bytes.as_slice() == text.as_bytes(),
            _ => false,
        },
        Want::Is(wanted, stopped) => match &reply.value {
            Value::Activity {
                mode,
                suspended,
                ..
            } => *mode == wanted && *suspended == stopped,
            _ => false,
        },
        Want::Ran(ran) => reply.value == Value::Ran(ran),
        Want::Refused(resp, reason) => reply.resp == resp && reply.reason == reason,
    }
}

fn answers(alloc: Global, scope: &mut Scope, held: &mut Held, step: Step, want: Want) -> bool {
    let Some(command) = command_of(alloc, step) else {
        return false;
    };
    if scope.generation() > 1000 || !numbered(scope) || !none_is_early(scope) {
        return false;
    }
    match request(
        scope,
        alloc,
        held,
        depth_of(step),
        Moment::first(),
        &command,
    ) {
        Ok(reply) => is_wanted(&reply, want),
        Err(_) => false,
    }
}

/// LINK is done where eight frames are open.
fn depth_of(step: Step) -> u32 {
    match step {
        Step::Link(_) => 8,
        _ => 1,
    }
}

fn goes(alloc: Global, scope: &mut Scope, held: &mut Held, step: Step, want: Want) -> bool {
    match step {
        Step::Again => {
            *held = Held::Never;
            true
        }
        Step::Mode(_) | Step::Input(_) | Step::Timer => changes(scope, step),
        _ => answers(alloc, scope, held, step, want),
    }
}

pub(crate) fn undefined(alloc: Global, format: Format) -> Option<Scope> {
    let key = Key {
        ptype: ProcType::read(b"ORDERS".as_slice()).ok()?,
        pname: ProcName::read(b"P7".as_slice()).ok()?,
    };
    Some(Scope::undefined(alloc, format, key))
}

/// The place of the first step of a play that isn't answered as wanted, where the key was never defined.
fn first_wrong(alloc: Global, play: &[(Step, Want)]) -> Option<usize> {
    first_wrong_in(alloc, Format::One, play)
}

/// The same for a process of this format.
fn first_wrong_in(alloc: Global, format: Format, play: &[(Step, Want)]) -> Option<usize> {
    let Some(mut scope) = undefined(alloc, format) else {
        return Some(0);
    };
    let mut held = Held::Never;
    for (i, (step, want)) in play.iter().enumerate() {
        if !goes(alloc, &mut scope, &mut held, *step, *want) {
            return Some(i);
        }
    }
    None
}

const ACQUIRED: Want = Want::Refused(Resp::Invreq, Reason::Acquired);

const NOT_ACQUIRED: Want = Want::Refused(Resp::Invreq, Reason::NotAcquired);

const PLACE: Want = Want::Refused(Resp::Invreq, Reason::Place);

#[test]
fn processes_are_acquired_once(rt: HostRuntime) -> Result<(), Fail> {
    let alloc = rt.alloc();
    let play = [
        (
            Step::Acquire,
            Want::Refused(Resp::Processerr, Reason::Missing),
        ),
        (
            Step::AcquireRoot,
            Want::Refused(Resp::Processerr, Reason::Missing),
        ),
        (Step::Purge, NOT_ACQUIRED),
        (Step::Define, Want::Normal),
        (Step::Define, ACQUIRED),
        (Step::Acquire, ACQUIRED),
        (Step::AcquireRoot, ACQUIRED),
        (Step::Again, Want::Normal),
        (Step::Define, Want::Refused(Resp::Processerr, Reason::Taken)),
        (
            Step::AcquireChild,
            Want::Refused(Resp::Activityerr, Reason::Missing),
        ),
        (Step::Acquire, Want::Normal),
        (Step::Acquire, ACQUIRED),
    ];
    assert_eq!(rt; first_wrong(alloc, &play), None);
    Ok(())
}

#[test]
fn a_purged_process_can_not_be_acquired_again(rt: HostRuntime) -> Result<(), Fail> {
    let alloc = rt.alloc();
    let play = [
        (Step::Define, Want::Normal),
        (Step::Put(At::Root), Want::Normal),
        (Step::Mode(Mode::Active), Want::Normal),
        (Step::Purge, Want::Refused(Resp::Processerr, Reason::Mode)),
        (Step::Mode(Mode::Complete), Want::Normal),
        (Step::Purge, Want::Normal),
        (Step::Define, ACQUIRED),
        (Step::Purge, NOT_ACQUIRED),
        (Step::Get(At::Root), NOT_ACQUIRED),
        (Step::Again, Want::Normal),
        (
            Step::Acquire,
            Want::Refused(Resp::Processerr, Reason::Missing),
        ),
        (Step::Define, Want::Normal),
        (
            Step::Get(At::Root),
            Want::Refused(Resp::Containererr, Reason::Missing),
        ),
    ];
    assert_eq!(rt; first_wrong(alloc, &play), None);
    Ok(())
}

#[test]
fn containers_stand_with_what_is_acquired(rt: HostRuntime) -> Result<(), Fail> {
    let alloc = rt.alloc();
    let play = [
        (Step::Put(At::Own), PLACE),
        (Step::Put(At::Process), PLACE),
        (Step::Put(At::Child), PLACE),
        (Step::Put(At::Root), NOT_ACQUIRED),
        (Step::Put(At::Acquired), NOT_ACQUIRED),
        (Step::Define, Want::Normal),
        (
            Step::PutLong(At::Root),
            Want::Refused(Resp::Lengerr, Reason::Long),
        ),
        (Step::Put(At::Root), Want::Normal),
        (Step::Get(At::Root), Want::Bytes("six")),
        (Step::Put(At::Acquired), NOT_ACQUIRED),
        (Step::Again, Want::Normal),
        (Step::AcquireRoot, Want::Normal),
        (Step::Get(At::Root), NOT_ACQUIRED),
        (
            Step::Get(At::Acquired),
            Want::Refused(Resp::Containererr, Reason::Missing),
        ),
        (Step::Put(At::Acquired), Want::Normal),
        (Step::Get(At::Acquired), Want::Bytes("six")),
        (Step::Drop(At::Acquired), Want::Normal),
        (
            Step::Drop(At::Acquired),
            Want::Refused(Resp::Containererr, Reason::Missing),
        ),
    ];
    assert_eq!(rt; first_wrong(alloc, &play), None);
    Ok(())
}

#[test]
fn the_second_format_takes_longer_containers(rt: HostRuntime) -> Result<(), Fail> {
    let alloc = rt.alloc();
    let play = [
        (Step::Define, Want::Normal),
        (Step::PutLong(At::Root), Want::Normal),
        (Step::Again, Want::Normal),
        (Step::AcquireRoot, Want::Normal),
        (Step::PutLong(At::Acquired), Want::Normal),
        (Step::Again, Want::Normal),
        (Step::Acquire, Want::Normal),
        (Step::Purge, Want::Normal),
        (Step::Again, Want::Normal),
        (Step::Define, Want::Normal),
        (Step::PutLong(At::Root), Want::Normal),
    ];
    assert_eq!(rt; first_wrong_in(alloc, Format::Two, &play), None);
    Ok(())
}

#[test]
fn the_root_is_run(rt: HostRuntime) -> Result<(), Fail> {
    let alloc = rt.alloc();
    let play = [
        (Step::Run, NOT_ACQUIRED),
        (Step::Define, Want::Normal),
        (Step::Link(At::Child), PLACE),
        (
            Step::RunWith("I"),
            Want::Refused(Resp::Invreq, Reason::InputGiven),
        ),
        (
            Step::Link(At::Root),
            Want::Refused(Resp::Invreq, Reason::Depth),
        ),
        (Step::RunNow, Want::Ran(true)),
        (Step::Run, Want::Refused(Resp::Activityerr, Reason::Started)),
        (Step::Mode(Mode::Dormant), Want::Normal),
        (Step::Run, Want::Refused(Resp::Invreq, Reason::InputMissing)),
        (
            Step::RunWith("I"),
            Want::Refused(Resp::Eventerr, Reason::Missing),
        ),
        (Step::Timer, Want::Normal),
        (
            Step::RunWith("T"),
            Want::Refused(Resp::Eventerr, Reason::Kind),
        ),
        (Step::Input("I"), Want::Normal),
        (Step::RunWith("I"), Want::Normal),
        (
            Step::RunWith("I"),
            Want::Refused(Resp::Eventerr, Reason::Fired),
        ),
        (Step::Mode(Mode::Complete), Want::Normal),
        (Step::Run, Want::Refused(Resp::Activityerr, Reason::Mode)),
    ];
    assert_eq!(rt; first_wrong(alloc, &play), None);
    Ok(())
}

#[test]
fn a_suspended_root_waits(rt: HostRuntime) -> Result<(), Fail> {
    let alloc = rt.alloc();
    let play = [
        (Step::Check(At::Root), NOT_ACQUIRED),
        (Step::Define, Want::Normal),
        (Step::Check(At::Child), PLACE),
        (Step::Check(At::Acquired), NOT_ACQUIRED),
        (Step::Check(At::Root), Want::Is(Mode::Initial, false)),
        (Step::Suspend(At::Root), Want::Normal),
        (Step::Check(At::Root), Want::Is(Mode::Initial, true)),
        (Step::RunNow, Want::Ran(false)),
        (Step::Resume(At::Root), Want::Normal),
        (Step::Check(At::Root), Want::Is(Mode::Initial, false)),
        (Step::Mode(Mode::Complete), Want::Normal),
        (
            Step::Suspend(At::Root),
            Want::Refused(Resp::Activityerr, Reason::Mode),
        ),
        (
            Step::Resume(At::Root),
            Want::Refused(Resp::Activityerr, Reason::Mode),
        ),
    ];
    assert_eq!(rt; first_wrong(alloc, &play), None);
    Ok(())
}

#[test]
fn timers_are_forced_where_they_are_acquired(rt: HostRuntime) -> Result<(), Fail> {
    let alloc = rt.alloc();
    let play = [
        (Step::Define, Want::Normal),
        (Step::Force(At::Child), PLACE),
        (Step::Force(At::Acquired), NOT_ACQUIRED),
        (
            Step::Force(At::Root),
            Want::Refused(Resp::Timererr, Reason::Missing),
        ),
        (Step::Timer, Want::Normal),
        (Step::Force(At::Root), Want::Normal),
        (
            Step::Force(At::Root),
            Want::Refused(Resp::Timererr, Reason::Ended),
        ),
        (Step::Reattach, PLACE),
        (Step::Cancel(At::Child), PLACE),
    ];
    assert_eq!(rt; first_wrong(alloc, &play), None);
    Ok(())
}

#[test]
fn a_cancelled_root_is_complete(rt: HostRuntime) -> Result<(), Fail> {
    let alloc = rt.alloc();
    let play = [
        (Step::Cancel(At::Root), NOT_ACQUIRED),
        (Step::Define, Want::Normal),
        (Step::Cancel(At::Acquired), NOT_ACQUIRED),
        (Step::Run, Want::Normal),
        (Step::Timer, Want::Normal),
        (Step::Cancel(At::Root), Want::Normal),
        (Step::Check(At::Root), Want::Is(Mode::Complete, false)),
        (
            Step::Cancel(At::Root),
            Want::Refused(Resp::Activityerr, Reason::Mode),
        ),
        (
            Step::Force(At::Root),
            Want::Refused(Resp::Timererr, Reason::Missing),
        ),
    ];
    assert_eq!(rt; first_wrong(alloc, &play), None);
    Ok(())
}
