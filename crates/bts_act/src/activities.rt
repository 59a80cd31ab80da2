// The commands on one activity.
ghost use Rattle.std.specs.Prelude.{◌≡◌, ◌<◌, ◌-◌, ◌^◌, IsTrue, false, true};
ghost use Rattle.bts_command.specs.Given.{IsGiven};
ghost use Rattle.bts_tree.specs.Scopes.{LeavesMarks};
ghost use Rattle.bts_tree.specs.Soundness.{numbers_below};
ghost use Rattle.bts_rows.specs.OnActivity.{on_activity};
ghost use Rattle.bts_rows.specs.Rows.{on_thing};
ghost use Rattle.bts_rows.specs.declared.places.Thing.TheVariants as thing;
ghost use Rattle.bts_act.specs.Built.{only_reads};
ghost use Rattle.bts_act.specs.Does.{Does, Reads, is_done};
ghost use Rattle.bts_act.specs.Early.{has_none_early, none_early};

use crate::containers::{
    delete_container, get_container, put_container, refuses_delete as refuses_delete_container,
    refuses_put,
};
use crate::events::{
    add_subevent, define_composite, define_input, delete_event, refuses_retrieve,
    refuses_retrieve_subevent, remove_subevent, retrieve_reattach, retrieve_subevent, test_event,
};
use crate::finding::reply_of;
use crate::replies::{refused, refused_event};
use crate::running::{
    check_activity, refuses_run, refuses_suspend, run_activity, suspend_activity,
};
use crate::timers::{
    check_timer, define_timer, delete_timer, force_timer, refuses_define_timer,
    refuses_force_timer, refuses_timer,
};
use bts_command::Command;
use bts_event::{refuses_add, refuses_composite, refuses_define, refuses_delete, refuses_leave};
use bts_names::{Moment, NoMemory, Path, Reason, Reply, Resp};
use bts_rows::Unfound;
use bts_tree::{Activity, Scope};
use std::alloc::Global;

/// A command on the activity at a path: answered on what is read where that is all, and else done.
pub(crate) fn change_at(
    scope: &mut Scope,
    alloc: Global,
    path: &Path,
    depth: u32,
    moment: Moment,
    command: &Command,
) -> Result<Reply, NoMemory>
    requires numbers { IsTrue (numbers_below (2 ^ 64 - 1) scope.old.process) }
    requires late { IsTrue (none_early scope.old.process) }
    requires given { IsGiven command.now }
    ensures row { Does result scope.old.process scope.new.process
        (on_thing (thing.Activity path.now) depth moment scope.old.process command.now) }
    ensures rest { LeavesMarks scope.old scope.new }
{
    let Some(activity) = scope.activity(path) else {
        return Ok(reply_of(Unfound::Missing));
    };
    if let Some(reply) = read_activity(activity, alloc, depth, moment, command)? {
        return Ok(reply);
    }
    scope.save(path, false)?;
    change_activity(scope.edit(path), alloc, depth, moment, command)
}

/// The reply of a command that is refused, or that only reads.
#[tactic(auto, unfolding(bts_rows::specs::OnActivity::on_activity))]
fn read_activity(
    activity: &Activity,
    alloc: Global,
    depth: u32,
    moment: Moment,
    command: &Command,
) -> Result<Option<Reply>, NoMemory>
    ensures { Reads (only_reads command.now) result activity.now
        (on_activity depth moment command.now activity.now) }
{
    let events = activity.pool.events();
    match command {
        Command::Run {
            target: _,
            synchronous,
            input,
        } => Ok(refuses_run(activity, depth, *synchronous, *input)),
        Command::Link { target: _, input } => Ok(refuses_run(activity, depth, true, *input)),
        Command::Check { .. } => Ok(Some(check_activity(activity))),
        Command::Suspend { .. } => Ok(refuses_suspend(activity, true)),
        Command::Resume { .. } => Ok(refuses_suspend(activity, false)),
        Command::PutContainer {
            container,
            spot: _,
            from,
        } => Ok(refuses_put(&activity.containers, *container, from.as_slice())),
        Command::GetContainer { container, spot: _ } => {
            Ok(Some(get_container(&activity.containers, alloc, *container)?))
        }
        Command::DeleteContainer { container, spot: _ } => {
            Ok(refuses_delete_container(&activity.containers, *container))
        }
        Command::DefineInput { event } => Ok(refused_event(refuses_define(events, event))),
        Command::DefineComposite {
            event,
            all: _,
            subs,
        } => Ok(refused_event(refuses_composite(events, event, subs.as_slice()))),
        Command::AddSubevent { sub, event } => Ok(refused_event(refuses_add(events, event, sub))),
        Command::RemoveSubevent { sub, event } => {
            Ok(refused_event(refuses_leave(events, event, sub)))
        }
        Command::DeleteEvent { event } => Ok(refused_event(refuses_delete(events, event))),
        Command::TestEvent { event } => Ok(Some(test_event(activity, *event))),
        Command::RetrieveReattach => Ok(refuses_retrieve(activity)),
        Command::RetrieveSubevent { event } => Ok(refuses_retrieve_subevent(activity, *event)),
        Command::DefineTimer { timer, event, due } => {
            Ok(refuses_define_timer(activity, *timer, *event, *due, moment))
        }
        Command::ForceTimer { timer, target: _ } => Ok(refuses_force_timer(activity, *timer)),
        Command::CheckTimer { timer } => Ok(refuses_timer(activity, *timer)),
        Command::DeleteTimer { timer } => Ok(refuses_timer(activity, *timer)),
        // these are about no activity alone
        Command::DefineProcess { .. }
        | Command::AcquireProcess
        | Command::AcquireActivity { .. }
        | Command::PurgeProcess
        | Command::DefineActivity { .. }
        | Command::DeleteActivity { .. }
        | Command::Cancel { .. }
        | Command::Reset { .. }
        | Command::Return { .. }
        | Command::Abend { .. }
        | Command::Rollback => Ok(Some(refused(Resp::Invreq, Reason::Place))),
    }
}

/// Does a command that isn't refused, and that doesn't only read.
#[tactic(auto, unfolding(bts_rows::specs::OnActivity::on_activity))]
fn change_activity(
    activity: &mut Activity,
    alloc: Global,
    depth: u32,
    moment: Moment,
    command: &Command,
) -> Result<Reply, NoMemory>
    requires below { activity.old.pool.last < 2 ^ 64 - 1 }
    requires late { has_none_early activity.old ≡ true }
    requires given { IsGiven command.now }
    requires allowed { is_done (on_activity depth moment command.now activity.old) ≡ true }
    requires changes { only_reads command.now ≡ false }
    ensures { Does result activity.old activity.new
        (on_activity depth moment command.now activity.old) }
{
    match command {
        Command::Run {
            target: _,
            synchronous,
            input,
        } => run_activity(activity, depth, *synchronous, *input),
        Command::Link { target: _, input } => run_activity(activity, depth, true, *input),
        Command::Suspend { .. } => Ok(suspend_activity(activity, true)),
        Command::Resume { .. } => Ok(suspend_activity(activity, false)),
        Command::PutContainer {
            container,
            spot: _,
            from,
        } => put_container(&mut activity.containers, alloc, *container, from.as_slice()),
        Command::DeleteContainer { container, spot: _ } => {
            Ok(delete_container(&mut activity.containers, *container))
        }
        Command::DefineInput { event } => define_input(activity, *event),
        Command::DefineComposite { event, all, subs } => {
            define_composite(activity, alloc, *event, *all, subs)
        }
        Command::AddSubevent { sub, event } => add_subevent(activity, *sub, *event),
        Command::RemoveSubevent { sub, event } => remove_subevent(activity, *sub, *event),
        Command::DeleteEvent { event } => delete_event(activity, *event),
        Command::RetrieveReattach => Ok(retrieve_reattach(activity)),
        Command::RetrieveSubevent { event } => Ok(retrieve_subevent(activity, *event)),
        Command::DefineTimer { timer, event, due } => {
            define_timer(activity, *timer, *event, *due, moment)
        }
        Command::ForceTimer { timer, target: _ } => force_timer(activity, *timer),
        Command::CheckTimer { timer } => check_timer(activity, *timer),
        Command::DeleteTimer { timer } => delete_timer(activity, *timer),
        // these only read, or are about no activity alone
        Command::Check { .. }
        | Command::GetContainer { .. }
        | Command::TestEvent { .. }
        | Command::DefineProcess { .. }
        | Command::AcquireProcess
        | Command::AcquireActivity { .. }
        | Command::PurgeProcess
        | Command::DefineActivity { .. }
        | Command::DeleteActivity { .. }
        | Command::Cancel { .. }
        | Command::Reset { .. }
        | Command::Return { .. }
        | Command::Abend { .. }
        | Command::Rollback => unreachable!(),
    }
}
