// The ends of a unit's frame.
ghost use Rattle.std.specs.Prelude.{◌≡◌, true, false, None, IsSome};
ghost use Rattle.bts_tree.specs.Activities.{by_cause};
ghost use Rattle.bts_tree.specs.Modes.{waits};
ghost use Rattle.bts_tree.specs.Processes.{activity_at};
ghost use Rattle.bts_tree.specs.Scopes.{gone_back, held_whole};
ghost use Rattle.bts_unit.specs.Ends.{leaving_of as leaving_by};
ghost use Rattle.bts_unit.specs.Frames.{is_there_at};
ghost use Rattle.bts_unit.specs.OnWork as on;

use crate::codes::{children_left, no_retrieval};
use crate::unmarked::unmark;
use crate::work::{FirstFrame, Work};
use bts_act::{normal_reply, refused};
use bts_command::End;
use bts_event::EventPool;
use bts_names::{Abcode, Leaving, Mode, Path, Reason, Reply, Resp, Status, Value};
use bts_tree::{Activity, Scope};

fn close(work: &mut Work, end: End)
    ensures { work.new ≡ on.closed end work.old }
{
    work.frame = None;
    work.end = Some(end);
}

/// Goes back to the unit's start, where the activity of its frame is COMPLETE then.
pub(crate) fn abend(work: &mut Work, code: Abcode)
    requires { on.IsMarked work.old.frame work.old.scope }
    ensures { work.new ≡ on.abended code work.old }
{
    if let Some(frame) = work.frame.take() {
        go_back(&mut work.scope, &frame.at, code);
        work.end = Some(End::Abend(code));
    }
}

fn go_back(scope: &mut Scope, at: &Option<Path>, code: Abcode)
    requires { on.IsMarkedAt at.now scope.old }
    ensures { scope.new ≡ held_whole (on.completed_by at.now code (gone_back 0 scope.old).process) }
{
    scope.back_to(0);
    if let Some(path) = at {
        scope.complete(path, Status::Abend, Some(code));
    }
}

/// How a RETURN leaves the activity of its frame.
fn leaving_of(pool: &EventPool, end_activity: bool, retrieved: bool) -> Leaving
    ensures { result ≡ leaving_by end_activity retrieved pool.now }
{
    if end_activity {
        return leaving_for_good(pool);
    }
    if !retrieved {
        return Leaving::Abended(no_retrieval());
    }
    leaving_plainly(pool)
}

fn leaving_for_good(pool: &EventPool) -> Leaving
    ensures { result ≡ leaving_by true true pool.now }
{
    if pool.has_completion() {
        return Leaving::Abended(children_left());
    }
    Leaving::Complete
}

fn leaving_plainly(pool: &EventPool) -> Leaving
    ensures { result ≡ leaving_by false true pool.now }
{
    if pool.count() == 0 {
        return Leaving::Complete;
    }
    Leaving::Dormant
}

/// The activity waits for its events.
fn wait(activity: &mut Activity)
    ensures { activity.new ≡ by_cause waits None activity.old }
{
    activity.mode = Mode::Dormant;
    activity.status = Status::Incomplete;
    activity.code = None;
}

/// Leaves the frame of the activity at a path so.
fn leave(work: &mut Work, path: &Path, leaving: &Leaving)
    requires there { IsSome (activity_at path.now work.old.scope.process) }
    requires marked { on.IsMarked work.old.frame work.old.scope }
    ensures { work.new ≡ on.left path.now leaving.now work.old }
{
    match leaving {
        Leaving::Dormant => {
            unmark(&mut work.scope);
            wait(work.scope.edit(path));
            close(work, End::Commit);
        }
        Leaving::Complete => {
            unmark(&mut work.scope);
            work.scope.complete(path, Status::Normal, None);
            close(work, End::Commit);
        }
        Leaving::Abended(code) => abend(work, *code),
    }
}

fn return_at(work: &mut Work, path: &Path, end_activity: bool, retrieved: bool) -> Reply
    requires there { IsSome (activity_at path.now work.old.scope.process) }
    requires marked { on.IsMarked work.old.frame work.old.scope }
    ensures { (result, work.new)
        ≡ on.returned_at end_activity retrieved path.now (activity_at path.now work.old.scope.process) work.old }
{
    let activity = work.scope.activity(path).unwrap();
    let leaving = leaving_of(&activity.pool, end_activity, retrieved);
    leave(work, path, &leaving);
    normal_reply(Value::Left(leaving))
}

fn return_from_request(work: &mut Work, end_activity: bool) -> Reply
    ensures { (result, work.new) ≡ on.returned_in end_activity false None work.old }
{
    if end_activity {
        return refused(Resp::Invreq, Reason::Place);
    }
    unmark(&mut work.scope);
    close(work, End::Commit);
    normal_reply(Value::Nothing)
}

/// RETURN: how it leaves an activity's frame is told.
pub(crate) fn return_from(work: &mut Work, end_activity: bool) -> Reply
    requires there { is_there_at (on.at_of work.old.frame) work.old.scope.process ≡ true }
    requires marked { on.IsMarked work.old.frame work.old.scope }
    ensures { (result, work.new) ≡ on.returned end_activity work.old }
{
    let Some(frame) = &work.frame else {
        return refused(Resp::Invreq, Reason::Place);
    };
    let retrieved = frame.retrieved;
    match frame.at {
        None => return_from_request(work, end_activity),
        Some(path) => return_at(work, &path, end_activity, retrieved),
    }
}

/// ROLLBACK, which goes back to the unit's start.
pub(crate) fn roll_back(work: &mut Work) -> Reply
    requires { on.IsMarked work.old.frame work.old.scope }
    ensures { (result, work.new) ≡ on.rolled_back work.old }
{
    if !is_of_request(&work.frame) {
        return refused(Resp::Invreq, Reason::Place);
    }
    work.scope.back_to(0);
    close(work, End::Rollback);
    normal_reply(Value::Nothing)
}

fn is_of_request(frame: &Option<FirstFrame>) -> bool
    ensures { result ≡ on.is_of_request frame.now }
{
    match frame {
        Some(frame) => frame.at.is_none(),
        None => false,
    }
}
