// The commands on timers, as they are done on one activity.
ghost use Rattle.std.specs.Prelude.{◌≡◌, ◌<◌, ◌-◌, ◌^◌, false, true, None, IsSome, Some, Ok, OnOk, OnErr, cond};
ghost use Rattle.std.specs.Option.{unwrap_or};
ghost use Rattle.bts_names.specs.Names.{Name, same, initial_name};
ghost use Rattle.bts_names.specs.Named.{lookup};
ghost use Rattle.bts_event.specs.Events.{event_of};
ghost use Rattle.bts_event.specs.Pool.{fired};
ghost use Rattle.bts_event.specs.Refusals.{define_refusal, fire_refusal};
ghost use Rattle.bts_timer.specs.Timers.{force_refusal};
ghost use Rattle.bts_rows.specs.OnActivity as on;
ghost use Rattle.bts_rows.specs.Timing as timing;
ghost use Rattle.bts_act.specs.Does.{Does, Reads, is_done};
ghost use Rattle.bts_act.specs.Early.{has_none_early};

use crate::replies::{normal_reply, refused};
use bts_command::Due;
use bts_event::{EventPool, PoolError};
use bts_names::{Moment, Name16, NoMemory, Reason, Reply, Resp, Value};
use bts_tree::Activity;

/// The most events of a pool.
const EVENT_LIMIT: u32 = 256;

/// When a timer is due that is defined now; None where that is past the last moment.
fn due_moment(now: Moment, due: Due) -> Option<Moment>
    ensures { result ≡ cond (timing.is_past_last now due) None (Some (timing.due_at now due)) }
{
    match due {
        Due::After(seconds) => now.plus(seconds),
        Due::At(moment) => Some(moment),
    }
}

pub(crate) fn refuses_define_timer(
    activity: &Activity,
    timer: Name16,
    event: Option<Name16>,
    due: Due,
    now: Moment,
) -> Option<Reply>
    ensures { Reads false (Ok result) activity.now (on.define_timer now timer event due activity.now) }
{
    let event = event.unwrap_or(timer);
    if activity.timers.get(timer).is_some() {
        return Some(refused(Resp::Timererr, Reason::Taken));
    }
    if activity.pool.kind(event).is_some() {
        return Some(refused(Resp::Eventerr, Reason::Taken));
    }
    if due_moment(now, due).is_none() {
        return Some(refused(Resp::Invreq, Reason::Range));
    }
    if activity.pool.count() >= EVENT_LIMIT {
        return Some(refused(Resp::Eventerr, Reason::Limit));
    }
    None
}

pub(crate) fn define_timer(
    activity: &mut Activity,
    timer: Name16,
    event: Option<Name16>,
    due: Due,
    now: Moment,
) -> Result<Reply, NoMemory>
    requires named { same (unwrap_or event timer) initial_name ≡ false }
    requires allowed { is_done (on.define_timer now timer event due activity.old) ≡ true }
    ensures { Does result activity.old activity.new (on.define_timer now timer event due activity.old) }
{
    let event = event.unwrap_or(timer);
    let Some(moment) = due_moment(now, due) else {
        unreachable!()
    };
    start_timer(activity, timer, event, moment)?;
    Ok(normal_reply(Value::Nothing))
}

/// Starts a timer, and defines its event. Where there is no memory for the event, the timer goes again.
fn start_timer(
    activity: &mut Activity,
    timer: Name16,
    event: Name16,
    due: Moment,
) -> Result<(), NoMemory>
    requires named { same event initial_name ≡ false }
    requires free { lookup timer activity.old.timers ≡ None }
    requires room { define_refusal event activity.old.pool.events ≡ None }
    ensures ok { OnOk result (activity.new ≡ timing.with_timer timer event due activity.old) }
    ensures err { OnErr result (activity.new ≡ activity.old) }
{
    if activity.timers.define(timer, due).is_err() {
        return Err(NoMemory);
    }
    if activity.pool.define_timer_event(event, timer).is_err() {
        let _ = activity.timers.delete(timer);
        return Err(NoMemory);
    }
    Ok(())
}

pub(crate) fn refuses_force_timer(activity: &Activity, timer: Name16) -> Option<Reply>
    ensures { Reads false (Ok result) activity.now (on.force_timer timer activity.now) }
{
    let Some(found) = activity.timers.get(timer) else {
        return Some(refused(Resp::Timererr, Reason::Missing));
    };
    if !found.is_unexpired() {
        return Some(refused(Resp::Timererr, Reason::Ended));
    }
    None
}

pub(crate) fn force_timer(activity: &mut Activity, timer: Name16) -> Result<Reply, NoMemory>
    requires below { activity.old.pool.last < 2 ^ 64 - 1 }
    requires late { has_none_early activity.old ≡ true }
    requires allowed { force_refusal timer activity.old.timers ≡ None }
    ensures { Does result activity.old activity.new (on.force_timer timer activity.old) }
{
    activity.pool.facts();
    fire_event_of(&mut activity.pool, timer)?;
    let _ = activity.timers.force(timer);
    Ok(normal_reply(Value::Nothing))
}

/// Fires the event of a timer, where there is one; it may be fired.
fn fire_event_of(pool: &mut EventPool, timer: Name16) -> Result<(), NoMemory>
    requires below { pool.old.last < 2 ^ 64 - 1 }
    requires unfired { (event : Name) → event_of timer pool.old.events ≡ Some event
        → fire_refusal event pool.old.events ≡ None }
    ensures ok { OnOk result
        (pool.new ≡ timing.fired_if (event_of timer pool.old.events) pool.old) }
    ensures err { OnErr result (pool.new ≡ pool.old) }
{
    if let Some(event) = pool.event_of(timer) {
        fire_unfired(pool, event)?;
    }
    Ok(())
}

/// Fires an event that may be fired: it fails only for want of memory.
pub fn fire_unfired(pool: &mut EventPool, event: Name16) -> Result<(), NoMemory>
    requires below { pool.old.last < 2 ^ 64 - 1 }
    requires unfired { fire_refusal event pool.old.events ≡ None }
    ensures ok { OnOk result (pool.new ≡ fired event pool.old) }
    ensures err { OnErr result (pool.new ≡ pool.old) }
{
    match pool.fire(event) {
        Ok(()) => Ok(()),
        Err(PoolError::NoMemory) => Err(NoMemory),
        Err(PoolError::Refused(_)) => unreachable!(),
    }
}

/// The reply of CHECK TIMER and DELETE TIMER where there is no such timer.
pub(crate) fn refuses_timer(activity: &Activity, timer: Name16) -> Option<Reply>
    ensures check { Reads false (Ok result) activity.now (on.check_timer timer activity.now) }
    ensures delete { Reads false (Ok result) activity.now (on.delete_timer timer activity.now) }
{
    if activity.timers.get(timer).is_none() {
        return Some(refused(Resp::Timererr, Reason::Missing));
    }
    None
}

pub(crate) fn check_timer(activity: &mut Activity, timer: Name16) -> Result<Reply, NoMemory>
    requires below { activity.old.pool.last < 2 ^ 64 - 1 }
    requires allowed { is_done (on.check_timer timer activity.old) ≡ true }
    ensures { Does result activity.old activity.new (on.check_timer timer activity.old) }
{
    let Some(found) = activity.timers.get(timer) else {
        unreachable!()
    };
    if !found.is_unexpired() {
        drop_timer(activity, timer)?;
    }
    Ok(normal_reply(Value::Timer(found.status)))
}

pub(crate) fn delete_timer(activity: &mut Activity, timer: Name16) -> Result<Reply, NoMemory>
    requires below { activity.old.pool.last < 2 ^ 64 - 1 }
    requires allowed { is_done (on.delete_timer timer activity.old) ≡ true }
    ensures { Does result activity.old activity.new (on.delete_timer timer activity.old) }
{
    drop_timer(activity, timer)?;
    Ok(normal_reply(Value::Nothing))
}

/// Takes a timer and its event away.
fn drop_timer(activity: &mut Activity, timer: Name16) -> Result<(), NoMemory>
    requires there { IsSome (lookup timer activity.old.timers) }
    requires below { activity.old.pool.last < 2 ^ 64 - 1 }
    ensures ok { OnOk result (activity.new ≡ timing.without_timer timer activity.old) }
    ensures err { OnErr result (activity.new ≡ activity.old) }
{
    activity.pool.facts();
    if let Some(event) = activity.pool.event_of(timer) {
        activity.pool.remove(event)?;
    }
    let _ = activity.timers.delete(timer);
    Ok(())
}
