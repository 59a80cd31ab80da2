// The commands on a process, from an activity on.
ghost use Rattle.std.specs.Prelude.{◌≡◌, ◌<◌, IsSome, IsTrue, Ok, false, true, ◌-◌, ◌^◌, OnOk, OnErr};
ghost use Rattle.bts_tree.specs.Activities as activities;
ghost use Rattle.bts_tree.specs.Paths.{is_child_of, number_of, parent_of};
ghost use Rattle.bts_names.specs.Answer.{mapped};
ghost use Rattle.bts_tree.specs.Processes.{activity_at, child_of, edited, removed, with_pool};
ghost use Rattle.bts_tree.specs.Scopes.{holding, IsSaved, LeavesMarks};
ghost use Rattle.bts_tree.specs.Soundness.{numbers_below};
ghost use Rattle.bts_act.specs.Does.{Does};
ghost use Rattle.bts_rows.specs.OnFamily as family;
ghost use Rattle.bts_rows.specs.Places.{about_of, find};
ghost use Rattle.bts_rows.specs.Rows.{at_path};
ghost use Rattle.bts_rows.specs.declared.places.Thing.TheVariants as thing;
ghost use Rattle.bts_act.specs.Built.{is_built};
ghost use Rattle.bts_rows.specs.Completions.{without_child, without_completion};
ghost use Rattle.bts_act.specs.Children as children;
ghost use Rattle.bts_act.specs.Children.{frame_path};

use crate::finding::reply_of;
use crate::replies::{normal_reply, refused};
use crate::running::check_activity;
use bts_command::Command;
use bts_event::EventPool;
use bts_names::{Mode, Name16, NoMemory, Path, Reason, Reply, Resp, Status, Value};
use bts_rows::{Here, Unfound};
use bts_tree::{Activity, Scope};

/// A row on the process, from the activity at a path on.
pub(crate) fn change_family(
    scope: &mut Scope,
    here: &Here,
    path: &Path,
    command: &Command,
) -> Result<Reply, NoMemory>
    requires found { find here.now scope.old.process (about_of command.now) ≡ Ok (thing.Family path.now) }
    requires numbers { IsTrue (numbers_below (2 ^ 64 - 1) scope.old.process) }
    requires built { IsTrue (is_built here.now command.now) }
    ensures row { Does result scope.old.process scope.new.process
        (at_path path.now scope.old.process (λ a. mapped (λ change. change scope.old.process) (family.on_family command.now path.now a scope.old.process))) }
    ensures rest { LeavesMarks scope.old scope.new }
{
    if scope.activity(path).is_none() {
        return Ok(reply_of(Unfound::Missing));
    }
    match command {
        Command::Check { .. } => check_child(scope, &path_of_frame(here), path),
        Command::Cancel { .. } => cancel(scope, path),
        Command::DeleteActivity { activity } => delete_activity(scope, path, activity),
        // no other command is about a family
        _ => Ok(refused(Resp::Invreq, Reason::Place)),
    }
}

/// CANCEL. Its time grows with the number of activities of the process, and with what those that it ends lose.
fn cancel(scope: &mut Scope, path: &Path) -> Result<Reply, NoMemory>
    requires { IsSome (activity_at path.now scope.old.process) }
    ensures row { Does result scope.old.process scope.new.process
        (at_path path.now scope.old.process (λ a. mapped (λ change. change scope.old.process) (family.cancel path.now a))) }
    ensures rest { LeavesMarks scope.old scope.new }
{
    if scope.activity(path).unwrap().is_complete() {
        return Ok(refused(Resp::Activityerr, Reason::Mode));
    }
    scope.save(path, true)?;
    scope.complete(path, Status::Forced, None);
    Ok(normal_reply(Value::Nothing))
}

/// DELETE ACTIVITY. Its time grows with the number of activities of the process.
fn delete_activity(scope: &mut Scope, at: &Path, name: &Name16) -> Result<Reply, NoMemory>
    requires there { IsSome (activity_at at.now scope.old.process) }
    requires numbers { IsTrue (numbers_below (2 ^ 64 - 1) scope.old.process) }
    ensures row { Does result scope.old.process scope.new.process
        (at_path at.now scope.old.process (λ a. mapped (λ change. change scope.old.process) (family.delete_activity (child_of at.now name.now scope.old.process)))) }
    ensures rest { LeavesMarks scope.old scope.new }
{
    delete_child(scope, at, name)
}

/// The child of that name goes, where it may.
fn delete_child(scope: &mut Scope, at: &Path, name: &Name16) -> Result<Reply, NoMemory>
    requires numbers { IsTrue (numbers_below (2 ^ 64 - 1) scope.old.process) }
    ensures row { Does result scope.old.process scope.new.process
        (mapped (λ change. change scope.old.process) (family.delete_activity (child_of at.now name.now scope.old.process))) }
    ensures rest { LeavesMarks scope.old scope.new }
{
    match resting_child(scope, at, name) {
        Ok(path) => {
            remove_child(scope, at, &path)?;
            Ok(normal_reply(Value::Nothing))
        }
        Err(reason) => Ok(refused(Resp::Activityerr, reason)),
    }
}

/// The path of a child that may go, or why it can't.
fn resting_child(scope: &Scope, at: &Path, name: &Name16) -> Result<Path, Reason>
    ensures { result ≡ children.resting (child_of at.now name.now scope.now.process) }
{
    match scope.child(at, name) {
        Some((path, child)) => {
            if is_at_rest(child) {
                Ok(path)
            } else {
                Err(Reason::Mode)
            }
        }
        None => Err(Reason::Missing),
    }
}

/// Whether no work of an activity is under way.
fn is_at_rest(activity: &Activity) -> bool
    ensures { result ≡ activities.is_at_rest activity.now }
{
    matches!(activity.mode, Mode::Initial | Mode::Complete)
}

/// A child goes with all below it, and its completion event: the event first, since that may want memory.
fn remove_child(scope: &mut Scope, at: &Path, path: &Path) -> Result<(), NoMemory>
    requires child { is_child_of at.now path.now ≡ true }
    requires there { IsSome (activity_at path.now scope.old.process) }
    requires numbers { IsTrue (numbers_below (2 ^ 64 - 1) scope.old.process) }
    ensures ok { OnOk result (scope.new.process ≡ without_completion path.now (removed path.now true scope.old.process)) }
    ensures err { OnErr result (scope.new.process ≡ scope.old.process) }
    ensures rest { LeavesMarks scope.old scope.new }
{
    scope.save(at, false)?;
    scope.save(path, true)?;
    forget_child(scope, at, last_number(path))?;
    scope.remove_below(path, true);
    Ok(())
}

/// CHECK of a child: its parent is told, where the child is COMPLETE.
fn check_child(scope: &mut Scope, at: &Path, path: &Path) -> Result<Reply, NoMemory>
    requires parent { parent_of path.now ≡ at.now }
    requires there { IsSome (activity_at path.now scope.old.process) }
    requires numbers { IsTrue (numbers_below (2 ^ 64 - 1) scope.old.process) }
    ensures row { Does result scope.old.process scope.new.process
        (at_path path.now scope.old.process (λ a. mapped (λ change. change scope.old.process) (family.check_child path.now a))) }
    ensures rest { LeavesMarks scope.old scope.new }
{
    let child = scope.activity(path).unwrap();
    let reply = check_activity(child);
    if child.is_complete() {
        tell(scope, at, path)?;
    }
    Ok(reply)
}

/// The parent of a child is told, and loses the child's completion event.
fn tell(scope: &mut Scope, at: &Path, path: &Path) -> Result<(), NoMemory>
    requires parent { parent_of path.now ≡ at.now }
    requires numbers { IsTrue (numbers_below (2 ^ 64 - 1) scope.old.process) }
    ensures ok { OnOk result (scope.new.process ≡ family.told path.now scope.old.process) }
    ensures err { OnErr result (scope.new.process ≡ scope.old.process) }
    ensures rest { LeavesMarks scope.old scope.new }
{
    scope.save(at, false)?;
    scope.save(path, false)?;
    forget_child(scope, at, last_number(path))?;
    set_told(scope, path);
    Ok(())
}

/// The path of the frame's activity.
fn path_of_frame(here: &Here) -> Path
    ensures { result ≡ frame_path here.now }
{
    match here {
        Here::Activity(path) => *path,
        Here::Request(_) => Path::root(),
    }
}

/// The completion event of a child goes.
fn forget_child(scope: &mut Scope, at: &Path, child: u32) -> Result<(), NoMemory>
    requires saved { IsSaved at.now false scope.old }
    requires numbers { IsTrue (numbers_below (2 ^ 64 - 1) scope.old.process) }
    ensures ok { OnOk result (scope.new ≡ holding (with_pool at.now (without_child child) scope.old.process) scope.old) }
    ensures err { OnErr result (scope.new ≡ scope.old) }
{
    if scope.activity(at).is_none() {
        return Ok(());
    }
    let activity = scope.edit(at);
    remove_completion(&mut activity.pool, child)
}

fn remove_completion(pool: &mut EventPool, child: u32) -> Result<(), NoMemory>
    requires { pool.old.last < 2 ^ 64 - 1 }
    ensures ok { OnOk result (pool.new ≡ without_child child pool.old) }
    ensures err { OnErr result (pool.new ≡ pool.old) }
{
    pool.facts();
    if let Some(event) = pool.completion_of(child) {
        pool.remove(event)?;
    }
    Ok(())
}

fn set_told(scope: &mut Scope, path: &Path)
    requires { IsSaved path.now false scope.old }
    ensures { scope.new ≡ holding (edited path.now family.as_told scope.old.process) scope.old }
{
    if scope.activity(path).is_some() {
        let activity = scope.edit(path);
        activity.told = true;
    }
}

fn last_number(path: &Path) -> u32
    ensures { result ≡ number_of path.now }
{
    match path.as_slice().last() {
        Some(number) => *number,
        None => 0,
    }
}
