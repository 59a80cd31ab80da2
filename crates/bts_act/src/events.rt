// The commands on events, as they are done on one activity.
ghost use Rattle.std.specs.Prelude.{◌≡◌, ◌<◌, ◌≤◌, ◌-◌, ◌^◌, length, false, true, Ok};
ghost use Rattle.bts_names.specs.Names.{same, initial_name};
ghost use Rattle.bts_rows.specs.OnActivity as on;
ghost use Rattle.bts_act.specs.Does.{Does, Reads, is_done};

use crate::replies::{normal_reply, refused, reply_to_pool};
use bts_command::Names;
use bts_event::next_subevent;
use bts_names::{Name16, NoMemory, Reason, Reply, Resp, Value};
use bts_tree::Activity;
use std::alloc::Global;

pub(crate) fn define_input(activity: &mut Activity, event: Name16) -> Result<Reply, NoMemory>
    requires named { same event initial_name ≡ false }
    requires allowed { is_done (on.define_input event activity.old) ≡ true }
    ensures { Does result activity.old activity.new (on.define_input event activity.old) }
{
    reply_to_pool(activity.pool.define_input(event))
}

pub(crate) fn define_composite(
    activity: &mut Activity,
    alloc: Global,
    event: Name16,
    all: bool,
    subs: &Names,
) -> Result<Reply, NoMemory>
    requires named { same event initial_name ≡ false }
    requires few { length subs.now ≤ 8 }
    requires allowed { is_done (on.define_composite event all subs.now activity.old) ≡ true }
    ensures { Does result activity.old activity.new (on.define_composite event all subs.now activity.old) }
{
    reply_to_pool(
        activity
            .pool
            .define_composite(alloc, event, all, subs.as_slice()),
    )
}

pub(crate) fn add_subevent(
    activity: &mut Activity,
    sub: Name16,
    event: Name16,
) -> Result<Reply, NoMemory>
    requires { is_done (on.add_subevent sub event activity.old) ≡ true }
    ensures { Does result activity.old activity.new (on.add_subevent sub event activity.old) }
{
    reply_to_pool(activity.pool.add_subevent(event, sub))
}

pub(crate) fn remove_subevent(
    activity: &mut Activity,
    sub: Name16,
    event: Name16,
) -> Result<Reply, NoMemory>
    requires below { activity.old.pool.last < 2 ^ 64 - 1 }
    requires allowed { is_done (on.remove_subevent sub event activity.old) ≡ true }
    ensures { Does result activity.old activity.new (on.remove_subevent sub event activity.old) }
{
    reply_to_pool(activity.pool.remove_subevent(event, sub))
}

pub(crate) fn delete_event(activity: &mut Activity, event: Name16) -> Result<Reply, NoMemory>
    requires below { activity.old.pool.last < 2 ^ 64 - 1 }
    requires allowed { is_done (on.delete_event event activity.old) ≡ true }
    ensures { Does result activity.old activity.new (on.delete_event event activity.old) }
{
    reply_to_pool(activity.pool.delete(event))
}

pub(crate) fn test_event(activity: &Activity, event: Name16) -> Reply
    ensures { Does (Ok result) activity.now activity.now (on.test_event event activity.now) }
{
    match activity.pool.test(event) {
        Ok(fired) => normal_reply(Value::Fired(fired)),
        Err(reason) => refused(Resp::Eventerr, reason),
    }
}

pub(crate) fn refuses_retrieve(activity: &Activity) -> Option<Reply>
    ensures { Reads false (Ok result) activity.now (on.retrieve_reattach activity.now) }
{
    match activity.pool.entries().front() {
        Some(_) => None,
        None => Some(refused(Resp::End, Reason::Empty)),
    }
}

pub(crate) fn retrieve_reattach(activity: &mut Activity) -> Reply
    requires { is_done (on.retrieve_reattach activity.old) ≡ true }
    ensures { Does (Ok result) activity.old activity.new (on.retrieve_reattach activity.old) }
{
    match activity.pool.retrieve() {
        Some((name, kind)) => normal_reply(Value::Event { name, kind }),
        None => unreachable!(),
    }
}

pub(crate) fn refuses_retrieve_subevent(activity: &Activity, event: Name16) -> Option<Reply>
    ensures { Reads false (Ok result) activity.now (on.retrieve_subevent event activity.now) }
{
    match next_subevent(activity.pool.events(), &event) {
        Ok(_) => None,
        Err(Reason::Empty) => Some(refused(Resp::End, Reason::Empty)),
        Err(reason) => Some(refused(Resp::Eventerr, reason)),
    }
}

pub(crate) fn retrieve_subevent(activity: &mut Activity, event: Name16) -> Reply
    requires { is_done (on.retrieve_subevent event activity.old) ≡ true }
    ensures { Does (Ok result) activity.old activity.new (on.retrieve_subevent event activity.old) }
{
    match activity.pool.retrieve_subevent(event) {
        Ok((name, kind)) => normal_reply(Value::Event { name, kind }),
        Err(_) => unreachable!(),
    }
}
