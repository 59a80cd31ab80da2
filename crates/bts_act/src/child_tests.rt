// What no clause says: that commands on children succeed where there is memory; and where there is none, all is as it
// was.
ghost use Rattle.std.specs.Prelude.{IsTrue, IfSome};
ghost use Rattle.bts_names.specs.Names.{ActivityPath};
ghost use Rattle.bts_command.specs.Given.{IsGiven};
ghost use Rattle.bts_rows.specs.declared.places.Here.TheVariants as here;
ghost use Rattle.bts_act.specs.Built.{is_built};

use crate::tests::{is_free, named, numbered, root_scope};
use crate::{none_is_early, perform};
use bts_command::{Command, Target};
use bts_container::Format;
use bts_names::{Mode, Moment, Path, ProgName, Reason, Reply, Resp, Status, Transid, Value};
use bts_rows::Here;
use bts_tree::{Activity, Repository, Scope};
use std::alloc::Global;
use std::test::Fail;

/// What is done in the frame of the root.
#[derive(Clone, Copy)]
enum Step {
    Check,
    Delete,
    /// DELETE ACTIVITY of a child that isn't there.
    DeleteOther,
}

/// What is answered.
#[derive(Clone, Copy)]
enum Want {
    Normal,
    Is(Mode, Status),
    Refused(Resp, Reason),
}

/// What stands there then.
#[derive(Clone, Copy, PartialEq, Eq)]
enum Left {
    /// The child, untold, and its completion event.
    Both,
    /// The child, told.
    Told,
    Nothing,
    /// Any other state.
    Other,
}

/// How a case went.
#[derive(Clone, Copy, Debug, PartialEq, Eq)]
enum Outcome {
    AsWanted,
    Wrong,
    /// There was no memory, and nothing changed.
    NoMemory,
}

fn command_of(step: Step) -> Option<Command>
    ensures given { IfSome result (λ c. IsGiven c) }
    ensures built { IfSome result (λ c. (p : ActivityPath) → IsTrue (is_built (here.Activity p) c)) }
{
    let name = match step {
        Step::DeleteOther => named("OTHER"),
        _ => named("CHILD"),
    };
    if !is_free(name) {
        return None;
    }
    match step {
        Step::Check => Some(Command::Check {
            target: Target::Activity(name),
        }),
        _ => Some(Command::DeleteActivity { activity: name }),
    }
}

/// A root with a child in that mode, whose completion event is fired where it is COMPLETE.
fn family(alloc: Global, mode: Mode) -> Option<Scope> {
    let root = Path::root();
    let path = root.child(1)?;
    let mut scope = root_scope(alloc)?;
    if scope.save(&root, false).is_err() || scope.activity(&root).is_none() {
        return None;
    }
    if !expects(scope.edit(&root), mode) || scope.activity(&path).is_some() {
        return None;
    }
    if scope.activity(&root).is_none() {
        return None;
    }
    scope.add(&path, child(alloc, mode)?).ok()?;
    Some(scope)
}

/// The parent has the completion event of the first child.
fn expects(parent: &mut Activity, mode: Mode) -> bool {
    let done = named("DONE");
    parent.made = 1;
    if !is_free(done) || parent.pool.define_completion(done, 1).is_err() {
        return false;
    }
    if !matches!(mode, Mode::Complete) {
        return true;
    }
    parent.pool.last_number() < 1000 && parent.pool.fire(done).is_ok()
}

fn child(alloc: Global, mode: Mode) -> Option<Activity> {
    let transid = Transid::read(b"CH1".as_slice()).ok()?;
    let program = ProgName::read(b"ANY".as_slice()).ok()?;
    let done = Some(named("DONE"));
    let mut child = Activity::new(alloc, Format::One, named("CHILD"), transid, program, done);
    child.mode = mode;
    if matches!(mode, Mode::Complete) {
        child.status = Status::Normal;
    }
    Some(child)
}

fn state_of(scope: &Scope) -> Left {
    let root = Path::root();
    let Some(parent) = scope.activity(&root) else {
        return Left::Other;
    };
    let event = parent.pool.completion_of(1).is_some();
    let found = match scope.child(&root, &named("CHILD")) {
        Some((_, child)) => Some(child.told),
        None => None,
    };
    match (found, event) {
        (Some(false), true) => Left::Both,
        (Some(true), false) => Left::Told,
        (None, false) => Left::Nothing,
        _ => Left::Other,
    }
}

fn is_wanted(reply: &Reply, want: Want) -> bool {
    match want {
        Want::Normal => reply.resp == Resp::Normal && reply.value == Value::Nothing,
        Want::Is(mode, status) => {
            reply.value
                == Value::Activity {
                    mode,
                    status,
                    suspended: false,
                    code: None,
                }
        }
        Want::Refused(resp, reason) => reply.resp == resp && reply.reason == reason,
    }
}

/// A repository of this process alone.
fn holding(alloc: Global, scope: &Scope) -> Option<Repository> {
    let mut repository = Repository::empty(alloc);
    repository.reserve_for(&scope.key()).ok()?;
    let copy = scope.copy(alloc).ok()?;
    repository.put_scope(copy);
    Some(repository)
}

fn played(alloc: Global, mode: Mode, step: Step, want: Want, after: Left) -> Outcome {
    let Some(mut scope) = family(alloc, mode) else {
        return Outcome::NoMemory;
    };
    let Some(before) = holding(alloc, &scope) else {
        return Outcome::NoMemory;
    };
    let Some(command) = command_of(step) else {
        return Outcome::Wrong;
    };
    if !numbered(&scope) || !none_is_early(&scope) {
        return Outcome::Wrong;
    }
    let frame = Here::Activity(Path::root());
    let right = match perform(&mut scope, alloc, &frame, 1, Moment::first(), &command) {
        Ok(reply) => is_wanted(&reply, want) && state_of(&scope) == after,
        Err(_) => {
            if before.same(&scope) {
                return Outcome::NoMemory;
            }
            false
        }
    };
    if right {
        Outcome::AsWanted
    } else {
        Outcome::Wrong
    }
}

/// The place of the first case that doesn't go as wanted, and how it goes.
fn first_other(alloc: Global, cases: &[(Mode, Step, Want, Left)]) -> Option<(usize, Outcome)> {
    for (i, (mode, step, want, after)) in cases.iter().enumerate() {
        let outcome = played(alloc, *mode, *step, *want, *after);
        if outcome != Outcome::AsWanted {
            return Some((i, outcome));
        }
    }
    None
}

#[test]
fn children_are_checked_and_deleted(rt: HostRuntime) -> Result<(), Fail> {
    let alloc = rt.alloc();
    let running = Want::Is(Mode::Active, Status::Incomplete);
    let ended = Want::Is(Mode::Complete, Status::Normal);
    let busy = Want::Refused(Resp::Activityerr, Reason::Mode);
    let missing = Want::Refused(Resp::Activityerr, Reason::Missing);
    let cases = [
        (Mode::Active, Step::Check, running, Left::Both),
        (Mode::Complete, Step::Check, ended, Left::Told),
        (Mode::Initial, Step::Delete, Want::Normal, Left::Nothing),
        (Mode::Complete, Step::Delete, Want::Normal, Left::Nothing),
        (Mode::Dormant, Step::Delete, busy, Left::Both),
        (Mode::Initial, Step::DeleteOther, missing, Left::Both),
    ];
    assert_eq!(rt; first_other(alloc, &cases), None);
    Ok(())
}
