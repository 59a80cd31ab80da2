// What no clause says: that units go on where there is memory.
ghost use Rattle.std.specs.Prelude.{◌≡◌, ◌<◌, ◌-◌, ◌^◌, IfSome, IsTrue, None, Some, [], not, nat_lt, is_none, true};
ghost use Rattle.std.specs.List.{list_all};
ghost use Rattle.bts_command.specs.declared.ended.UnitKind.TheVariants as unit;
ghost use Rattle.bts_container.specs.declared.format.Format.TheVariants as format;
ghost use Rattle.bts_tree.specs.Processes.{no_process};
ghost use Rattle.bts_tree.specs.Slots.{filled};
ghost use Rattle.bts_tree.specs.Soundness.{numbers_below};
ghost use Rattle.bts_command.specs.Given.{IsGiven, is_systems};
ghost use Rattle.bts_act.specs.Early.{none_early};
ghost use Rattle.bts_unit.specs.Frames.{start};
ghost use Rattle.bts_names.specs.declared.key.Key.{Key};
ghost use Rattle.bts_unit.specs.OneFrame.{is_of_one_frame, is_ready_in};
ghost use Rattle.bts_unit.specs.Systems.{may_expire};

use crate::{Change, Frame, Unit, system};
use bts_act::none_is_early;
use bts_command::{Command, Due, End, Target, UnitKind};
use bts_container::Format;
use bts_names::{
    Abcode, Key, Leaving, Mode, Moment, Name16, Path, ProcName, ProcType, ProgName, Reason, Resp,
    TimerStatus, Transid, Value,
};
use bts_tree::{Activity, Scope, Slot};
use std::alloc::Global;
use std::collections::BTreeMap;
use std::test::Fail;

/// What is done in the frame of an activity.
#[derive(Clone, Copy)]
enum Step {
    Input,
    Timer,
    Reattach,
    Return,
    Rollback,
    /// CANCEL of what a request acquires.
    Cancel,
    /// DELETE ACTIVITY of a child that isn't there.
    Delete,
}

fn a_key() -> Option<Key> {
    let ptype = ProcType::read(b"ORDERS").ok()?;
    let pname = ProcName::read(b"P1").ok()?;
    Some(Key { ptype, pname })
}

/// A request on a process that was never defined.
fn a_request(alloc: Global, key: &Key, moment: Moment) -> Option<Unit>
    ensures { IfSome result
        (λ u. u ≡ start (unit.Request 1 key.now) moment (no_process format.One key.now)) }
{
    let kind = UnitKind::Request { item: 1, key: *key };
    Unit::start(
        alloc,
        Scope::undefined(alloc, Format::One, *key),
        kind,
        moment,
    )
    .ok()
}

/// Whether such a request answers a command so, and ends so. One that goes on behind it is ended by an abend.
fn goes(alloc: Global, command: Command, resp: Resp, end: End) -> bool
    requires given { IsGiven command }
    requires one_frame { IsTrue (is_of_one_frame None command) }
{
    let (Some(key), Some(moment)) = (a_key(), Moment::from_seconds(0)) else {
        return false;
    };
    let Some(mut unit) = a_request(alloc, &key, moment) else {
        return false;
    };
    if unit.call(command).is_err() {
        return false;
    }
    if !unit.has_ended() {
        let Ok(code) = Abcode::read(b"STEP") else {
            return false;
        };
        unit.abend_all(code);
    }
    if !unit.has_ended() {
        return false;
    }
    let change = unit.end();
    let answered = change.calls.as_slice().iter().all(|c| c.reply.resp == resp);
    answered && change.calls.len() == 1 && change.end == end
}

#[test]
fn requests_end(rt: HostRuntime) -> Result<(), Fail> {
    let alloc = rt.alloc();
    let code = Abcode::read(b"STEP")?;
    assert!(rt;
        goes(
            alloc,
            Command::Return {
                end_activity: false
            },
            Resp::Normal,
            End::Commit
        )
    );
    assert!(rt; goes(alloc, Command::Rollback, Resp::Normal, End::Rollback));
    assert!(rt;
        goes(
            alloc,
            Command::RetrieveReattach,
            Resp::Invreq,
            End::Abend(code)
        )
    );
    Ok(())
}

/// Whether every last entry number is below the last of all.
fn numbered(scope: &Scope) -> bool
    ensures { IsTrue result → IsTrue (numbers_below (2 ^ 64 - 1) scope.now.process) }
{
    match scope.activities() {
        Some(activities) => all_numbered(activities),
        None => true,
    }
}

fn all_numbered(activities: &BTreeMap<Path, Slot>) -> bool
    ensures { result ≡ list_all (λ x. nat_lt x.1.pool.last (2 ^ 64 - 1)) (filled activities.now.entries) }
{
    for (path, slot) in activities {
        let _ = path;
        if let Some(activity) = slot.get() {
            if activity.pool.last_number() == u64::MAX {
                return false;
            }
        }
    }
    true
}

/// Whether a unit may be called, but for the activity of its frame.
fn goes_on(unit: &Unit) -> bool
    ensures open { IsTrue result → is_none unit.now.end ≡ true }
    ensures late { IsTrue result → IsTrue (none_early unit.now.now.process) }
    ensures numbers { IsTrue result → IsTrue (numbers_below (2 ^ 64 - 1) unit.now.now.process) }
    ensures generation { IsTrue result → unit.now.now.process.generation < 2 ^ 64 - 1 }
{
    let scope = unit.scope();
    !unit.has_ended() && none_is_early(scope) && numbered(scope) && scope.generation() < u64::MAX
}

/// Does a command in the first frame of a request.
fn call_in_request(unit: &mut Unit, command: Command) -> bool
    requires given { IsGiven command }
    requires one_frame { IsTrue (is_of_one_frame None command) }
{
    let Some(frame) = unit.frame() else {
        return false;
    };
    if frame.at.is_some() || !goes_on(unit) {
        return false;
    }
    unit.call(command).is_ok()
}

/// Does a command in the frame of an activity.
fn call_in_activity(unit: &mut Unit, command: Command) -> bool
    requires given { IsGiven command }
    requires one_frame { IsTrue (is_of_one_frame (Some []) command) }
{
    let Some(frame) = unit.frame() else {
        return false;
    };
    let Some(path) = frame.at else {
        return false;
    };
    if unit.scope().activity(&path).is_none() || !goes_on(unit) {
        return false;
    }
    unit.call(command).is_ok()
}

fn define() -> Option<Command>
    ensures given { IfSome result (λ c. IsGiven c) }
    ensures one_frame { IfSome result (λ c. IsTrue (is_of_one_frame None c)) }
{
    let transid = Transid::read(b"ORD1").ok()?;
    let program = ProgName::read(b"ANY").ok()?;
    Some(Command::DefineProcess { transid, program })
}

fn is_free(name: Name16) -> bool
    ensures { IsTrue result → IsTrue (not (is_systems name)) }
{
    name != Name16::initial() && name != Name16::root()
}

fn input() -> Option<Command>
    ensures given { IfSome result (λ c. IsGiven c) }
    ensures one_frame { IfSome result (λ c. IsTrue (is_of_one_frame (Some []) c)) }
{
    let event = Name16::read(b"GO").ok()?;
    if !is_free(event) {
        return None;
    }
    Some(Command::DefineInput { event })
}

/// A timer that is due at once.
fn timer() -> Option<Command>
    ensures given { IfSome result (λ c. IsGiven c) }
    ensures one_frame { IfSome result (λ c. IsTrue (is_of_one_frame (Some []) c)) }
{
    let timer = Name16::read(b"T").ok()?;
    if !is_free(timer) {
        return None;
    }
    Some(Command::DefineTimer {
        timer,
        event: None,
        due: Due::After(0),
    })
}

fn delete() -> Option<Command>
    ensures given { IfSome result (λ c. IsGiven c) }
    ensures one_frame { IfSome result (λ c. IsTrue (is_of_one_frame (Some []) c)) }
{
    let activity = Name16::read(b"KID").ok()?;
    if !is_free(activity) {
        return None;
    }
    Some(Command::DeleteActivity { activity })
}

fn command_of(step: Step) -> Option<Command>
    ensures given { IfSome result (λ c. IsGiven c) }
    ensures one_frame { IfSome result (λ c. IsTrue (is_of_one_frame (Some []) c)) }
{
    match step {
        Step::Input => input(),
        Step::Timer => timer(),
        Step::Reattach => Some(Command::RetrieveReattach),
        Step::Return => Some(Command::Return {
            end_activity: false,
        }),
        Step::Rollback => Some(Command::Rollback),
        Step::Cancel => Some(Command::Cancel {
            target: Target::AcqProcess,
        }),
        Step::Delete => delete(),
    }
}

/// Whether an activation of the root is enabled.
fn is_ready(scope: &Scope) -> bool
    ensures { IsTrue result → IsTrue (is_ready_in [] scope.now.process) }
{
    match scope.activity(&Path::root()) {
        Some(root) => root.is_ready(),
        None => false,
    }
}

fn activate(alloc: Global, scope: Scope, key: Key, moment: Moment) -> Option<Unit> {
    if !is_ready(&scope) {
        return None;
    }
    let path = Path::root();
    Unit::start(alloc, scope, UnitKind::Activation { key, path }, moment).ok()
}

/// What a request leaves that defines a process and runs its root: DFHINITIAL waits for it.
fn a_started_process(alloc: Global, key: &Key, moment: Moment) -> Option<Scope> {
    let mut request = a_request(alloc, key, moment)?;
    let run = Command::Run {
        target: Target::AcqProcess,
        synchronous: false,
        input: None,
    };
    let leave = Command::Return {
        end_activity: false,
    };
    if !call_in_request(&mut request, define()?)
        || !call_in_request(&mut request, run)
        || !call_in_request(&mut request, leave)
        || !request.has_ended()
    {
        return None;
    }
    Some(request.end().after)
}

/// The activation of that root.
fn an_activation(alloc: Global) -> Option<Unit> {
    let key = a_key()?;
    let moment = Moment::from_seconds(0)?;
    let scope = a_started_process(alloc, &key, moment)?;
    activate(alloc, scope, key, moment)
}

/// Whether the root was left so by the last call, and is in this mode.
fn was_left(change: &Change, leaving: Leaving, end: End, mode: Mode) -> bool {
    let left = Value::Left(leaving);
    let told = match change.calls.as_slice().last() {
        Some(call) => call.reply.value == left,
        None => false,
    };
    let stands = match change.after.activity(&Path::root()) {
        Some(root) => root.mode == mode,
        None => false,
    };
    told && stands && change.end == end
}

fn call_all(unit: &mut Unit, steps: &[Step]) -> bool {
    for step in steps {
        let Some(command) = command_of(*step) else {
            return false;
        };
        if !call_in_activity(unit, command) {
            return false;
        }
    }
    true
}

/// Whether an activation that takes these steps ends so.
fn ends(alloc: Global, steps: &[Step], leaving: Leaving, end: End, mode: Mode) -> bool {
    let Some(mut unit) = an_activation(alloc) else {
        return false;
    };
    if !call_all(&mut unit, steps) || !unit.has_ended() {
        return false;
    }
    let ended = unit.frame().is_none();
    ended && was_left(&unit.end(), leaving, end, mode)
}

#[test]
fn activations_return(rt: HostRuntime) -> Result<(), Fail> {
    let alloc = rt.alloc();
    let code = Abcode::read(b"NORT")?;
    let plainly = [Step::Return];
    let waiting = [Step::Reattach, Step::Input, Step::Return];
    let done = [Step::Reattach, Step::Return];
    let abended = Leaving::Abended(code);
    assert!(rt; ends(alloc, &plainly, abended, End::Abend(code), Mode::Complete));
    assert!(rt;
        ends(
            alloc,
            &waiting,
            Leaving::Dormant,
            End::Commit,
            Mode::Dormant
        )
    );
    assert!(rt; ends(alloc, &done, Leaving::Complete, End::Commit, Mode::Complete));
    Ok(())
}

/// Whether a frame is the only one, that of the root, in which its program runs.
fn is_of_root(frame: &Frame) -> bool {
    let Ok(program) = ProgName::read(b"ANY") else {
        return false;
    };
    frame.at == Some(Path::root()) && frame.program == Some(program) && frame.depth == 1
}

/// Whether an activation answers a command so, and its frame stays open.
fn stays_open(alloc: Global, step: Step, resp: Resp, reason: Reason) -> bool {
    let Some(mut unit) = an_activation(alloc) else {
        return false;
    };
    if !call_all(&mut unit, &[step]) {
        return false;
    }
    let answered = match unit.calls().last() {
        Some(call) => call.reply.resp == resp && call.reply.reason == reason,
        None => false,
    };
    let open = match unit.frame() {
        Some(frame) => is_of_root(&frame),
        None => false,
    };
    answered && open && unit.calls().len() == 1
}

#[test]
fn refusals_leave_the_frame_open(rt: HostRuntime) -> Result<(), Fail> {
    let alloc = rt.alloc();
    assert!(rt; stays_open(alloc, Step::Rollback, Resp::Invreq, Reason::Place));
    assert!(rt; stays_open(alloc, Step::Cancel, Resp::Invreq, Reason::Place));
    assert!(rt; stays_open(alloc, Step::Delete, Resp::Activityerr, Reason::Missing));
    Ok(())
}

/// Whether that timer of the root is due.
fn is_due(scope: &Scope, timer: Name16, moment: Moment) -> bool
    ensures { IsTrue result → (key : Key) → IsTrue (may_expire (unit.Expiry key [] timer) moment scope.now.process) }
{
    match scope.activity(&Path::root()) {
        Some(root) => match root.timers.get(timer) {
            Some(found) => found.is_due(moment),
            None => false,
        },
        None => false,
    }
}

/// What the expiry of that timer leaves of the root: whether it commits, and how many entries wait.
fn expires(alloc: Global, scope: Scope, key: Key, timer: Name16, moment: Moment) -> Option<u64> {
    if !is_due(&scope, timer, moment) {
        return None;
    }
    if !none_is_early(&scope) || !numbered(&scope) {
        return None;
    }
    let path = Path::root();
    let change = system(alloc, scope, UnitKind::Expiry { key, path, timer }, moment).ok()?;
    let root = change.after.activity(&path)?;
    let expired = root.timers.get(timer)?.status == TimerStatus::Expired;
    if !expired || change.end != End::Commit || !change.calls.is_empty() {
        return None;
    }
    Some(root.pool.queued())
}

/// The root behind an activation that defined the timer.
fn with_timer(alloc: Global) -> Option<Scope> {
    let mut unit = an_activation(alloc)?;
    let steps = [Step::Reattach, Step::Timer, Step::Return];
    if !call_all(&mut unit, &steps) || !unit.has_ended() {
        return None;
    }
    Some(unit.end().after)
}

#[test]
fn timers_expire(rt: HostRuntime) -> Result<(), Fail> {
    let alloc = rt.alloc();
    let timer = Name16::read(b"T")?;
    let moment = Moment::from_seconds(0).expect(&rt, "a moment");
    let scope = with_timer(alloc).expect(&rt, "a timer");
    let key = scope.key();
    assert_eq!(rt; expires(alloc, scope, key, timer, moment), Some(1));
    Ok(())
}
