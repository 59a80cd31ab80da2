// RUN, LINK, CHECK, SUSPEND and RESUME, as they are done on one activity.
ghost use Rattle.std.specs.Prelude.{◌≡◌, ◌<◌, ◌-◌, ◌^◌, OnOk, OnErr, None, Ok, true, false};
ghost use Rattle.bts_tree.specs.Activities as activities;
ghost use Rattle.bts_rows.specs.Signals as rows;
ghost use Rattle.bts_act.specs.Does.{Does, Reads, is_done};
ghost use Rattle.bts_rows.specs.OnActivity as on;

use crate::replies::{normal_reply, refused};
use crate::timers::fire_unfired;
use bts_event::{Event, EventPool, Trigger};
use bts_names::{Mode, Name16, NoMemory, Reason, Reply, Resp, Value};
use bts_rows::FRAME_LIMIT;
use bts_tree::Activity;

pub(crate) fn refuses_run(
    activity: &Activity,
    depth: u32,
    opens: bool,
    input: Option<Name16>,
) -> Option<Reply>
    ensures { Reads false (Ok result) activity.now (on.run depth opens input activity.now) }
{
    if activity.is_complete() {
        return Some(refused(Resp::Activityerr, Reason::Mode));
    }
    if is_initial(activity) && activity.pool.queued() > 0 {
        return Some(refused(Resp::Activityerr, Reason::Started));
    }
    if is_initial(activity) && input.is_some() {
        return Some(refused(Resp::Invreq, Reason::InputGiven));
    }
    if is_dormant(activity) && input.is_none() {
        return Some(refused(Resp::Invreq, Reason::InputMissing));
    }
    if let Some(reason) = refuses_input(&activity.pool, input) {
        return Some(refused(Resp::Eventerr, reason));
    }
    if opens && depth >= FRAME_LIMIT {
        return Some(refused(Resp::Invreq, Reason::Depth));
    }
    None
}

/// RUN and LINK. Where a frame is to open, the value says whether it does.
pub(crate) fn run_activity(
    activity: &mut Activity,
    depth: u32,
    opens: bool,
    input: Option<Name16>,
) -> Result<Reply, NoMemory>
    requires below { activity.old.pool.last < 2 ^ 64 - 1 }
    requires allowed { is_done (on.run depth opens input activity.old) ≡ true }
    ensures { Does result activity.old activity.new (on.run depth opens input activity.old) }
{
    signal(&mut activity.pool, input)?;
    if opens {
        Ok(normal_reply(Value::Ran(can_run(activity))))
    } else {
        Ok(normal_reply(Value::Nothing))
    }
}

/// Whether a frame opens on an activity that was signalled.
fn can_run(activity: &Activity) -> bool
    ensures { result ≡ rows.can_run activity.now }
{
    !activity.suspended && activity.pool.queued() > 0
}

fn is_initial(activity: &Activity) -> bool
    ensures { result ≡ activities.is_initial activity.now }
{
    matches!(activity.mode, Mode::Initial)
}

fn is_dormant(activity: &Activity) -> bool
    ensures { result ≡ activities.is_dormant activity.now }
{
    matches!(activity.mode, Mode::Dormant)
}

/// Why a program can't fire an event, if it is to fire one.
fn refuses_input(pool: &EventPool, input: Option<Name16>) -> Option<Reason>
    ensures { result ≡ rows.input_refusal pool.now.events input }
{
    let event = input?;
    let Some(found) = pool.events().get(&event) else {
        return Some(Reason::Missing);
    };
    let Event::Atomic(atomic) = found else {
        return Some(Reason::Kind);
    };
    if !matches!(atomic.trigger, Trigger::Input) {
        return Some(Reason::Kind);
    }
    if atomic.fired {
        return Some(Reason::Fired);
    }
    None
}

/// The signal of a run: DFHINITIAL enters the queue, or the input event fires.
fn signal(pool: &mut EventPool, input: Option<Name16>) -> Result<(), NoMemory>
    requires below { pool.old.last < 2 ^ 64 - 1 }
    requires allowed { rows.input_refusal pool.old.events input ≡ None }
    ensures ok { OnOk result (pool.new ≡ rows.signalled input pool.old) }
    ensures err { OnErr result (pool.new ≡ pool.old) }
{
    match input {
        None => pool.start(),
        Some(event) => fire_unfired(pool, event),
    }
}

/// CHECK, but for what it tells a parent.
pub(crate) fn check_activity(activity: &Activity) -> Reply
    ensures { Does (Ok result) activity.now activity.now (on.check activity.now) }
{
    normal_reply(Value::Activity {
        mode: activity.mode,
        status: activity.status,
        suspended: activity.suspended,
        code: activity.code,
    })
}

/// The reply of SUSPEND and RESUME where the activity is COMPLETE.
pub(crate) fn refuses_suspend(activity: &Activity, to: bool) -> Option<Reply>
    ensures { Reads false (Ok result) activity.now (on.suspend to activity.now) }
{
    if activity.is_complete() {
        return Some(refused(Resp::Activityerr, Reason::Mode));
    }
    None
}

/// SUSPEND and RESUME.
pub(crate) fn suspend_activity(activity: &mut Activity, to: bool) -> Reply
    requires { is_done (on.suspend to activity.old) ≡ true }
    ensures { Does (Ok result) activity.old activity.new (on.suspend to activity.old) }
{
    activity.suspended = to;
    normal_reply(Value::Nothing)
}
