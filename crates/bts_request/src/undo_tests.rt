// Commands of every kind behind a mark, gone back to; and want of memory in each of them.
ghost use Rattle.std.specs.Prelude.{IfSome, IsTrue};
ghost use Rattle.bts_names.specs.Names.{ActivityPath};
ghost use Rattle.bts_command.specs.Given.{IsGiven};
ghost use Rattle.bts_act.specs.Built.{is_built};
ghost use Rattle.bts_rows.specs.declared.places.Here.TheVariants as here;

use crate::request;
use crate::tests::{Step, command_of, is_free, named, numbered, undefined};
use bts_act::{none_is_early, perform};
use bts_command::{Command, Due, Names, Spot, Target};
use bts_container::Format;
use bts_names::{Blob, Moment, Name16, NoMemory, Path, ProgName, Reply, Resp, Transid};
use bts_rows::{Held, Here};
use bts_tree::{Activity, Repository, Scope};
use std::alloc::Global;
use std::test::Fail;

/// A command in the root's frame.
#[derive(Clone, Copy)]
enum Kind {
    Put,
    PutShared,
    Get,
    Drop,
    Input,
    Either,
    Leave,
    Join(&'static str),
    Test,
    Timer,
    CheckTimer,
    Force,
    Reattach,
    Subevent,
    DeleteTimer,
    DeleteEvent,
    Suspend,
    Resume,
    Run,
    Link,
    Cancel,
    Check,
    Delete,
}

/// What is done.
#[derive(Clone, Copy)]
enum Deed {
    Request(Step),
    Frame(Kind),
    /// The root has a child more, and its completion event of the same name.
    Child(u32, &'static str),
}

/// A process with two children is defined.
const BUILT: [Deed; 3] = [
    Deed::Request(Step::Define),
    Deed::Child(1, "A"),
    Deed::Child(2, "B"),
];

/// Every command once that isn't refused then.
const ALL: [Deed; 29] = [
    Deed::Frame(Kind::Put),
    Deed::Frame(Kind::PutShared),
    Deed::Frame(Kind::Get),
    Deed::Frame(Kind::Drop),
    Deed::Frame(Kind::Input),
    Deed::Frame(Kind::Either),
    Deed::Frame(Kind::Leave),
    Deed::Frame(Kind::Join("I")),
    Deed::Frame(Kind::Test),
    Deed::Frame(Kind::Timer),
    Deed::Frame(Kind::CheckTimer),
    Deed::Frame(Kind::Join("T")),
    Deed::Frame(Kind::Force),
    Deed::Frame(Kind::Reattach),
    Deed::Frame(Kind::Subevent),
    Deed::Frame(Kind::DeleteTimer),
    Deed::Frame(Kind::DeleteEvent),
    Deed::Frame(Kind::Suspend),
    Deed::Frame(Kind::Resume),
    Deed::Frame(Kind::Run),
    Deed::Frame(Kind::Link),
    Deed::Frame(Kind::Cancel),
    Deed::Frame(Kind::Check),
    Deed::Frame(Kind::Delete),
    Deed::Request(Step::Again),
    Deed::Request(Step::AcquireRoot),
    Deed::Request(Step::Again),
    Deed::Request(Step::Acquire),
    Deed::Request(Step::Purge),
];

fn command_in_frame(alloc: Global, kind: Kind) -> Option<Command>
    ensures given { IfSome result (λ c. IsGiven c) }
    ensures built { IfSome result (λ c. (p : ActivityPath) → IsTrue (is_built (here.Activity p) c)) }
{
    match kind {
        Kind::Put | Kind::PutShared | Kind::Get | Kind::Drop => {
            on_container(alloc, kind, named("C"))
        }
        Kind::Timer | Kind::CheckTimer | Kind::Force | Kind::DeleteTimer => {
            on_timer(kind, named("T"))
        }
        Kind::Link => on_child(kind, named("B")),
        Kind::Suspend | Kind::Resume | Kind::Run | Kind::Cancel | Kind::Check | Kind::Delete =>
            on_child(kind, named("A")),
        Kind::Either => either(alloc, named("E"), named("I")),
        Kind::Join(text) => on_subevent(kind, named("E"), named(text)),
        Kind::Leave => on_subevent(kind, named("E"), named("I")),
        Kind::Input | Kind::Test => on_event(kind, named("I")),
        Kind::Reattach | Kind::Subevent | Kind::DeleteEvent => on_event(kind, named("E")),
    }
}

fn on_container(alloc: Global, kind: Kind, container: Name16) -> Option<Command>
    ensures given { IfSome result (λ c. IsGiven c) }
    ensures built { IfSome result (λ c. (p : ActivityPath) → IsTrue (is_built (here.Activity p) c)) }
{
    if !is_free(container) {
        return None;
    }
    let spot = Spot::Own;
    match kind {
        Kind::Put => {
            let from = Blob::copy_of(alloc, b"six".as_slice()).ok()?;
            Some(Command::PutContainer {
                container,
                spot,
                from,
            })
        }
        Kind::PutShared => {
            let from = Blob::copy_of(alloc, b"six".as_slice()).ok()?;
            Some(Command::PutContainer {
                container,
                spot: Spot::Process,
                from,
            })
        }
        Kind::Get => Some(Command::GetContainer { container, spot }),
        Kind::Drop => Some(Command::DeleteContainer { container, spot }),
        _ => None,
    }
}

/// The commands on the timer T, whose event has its name.
fn on_timer(kind: Kind, timer: Name16) -> Option<Command>
    ensures given { IfSome result (λ c. IsGiven c) }
    ensures built { IfSome result (λ c. (p : ActivityPath) → IsTrue (is_built (here.Activity p) c)) }
{
    if !is_free(timer) {
        return None;
    }
    match kind {
        Kind::Timer => Some(Command::DefineTimer {
            timer,
            event: None,
            due: Due::After(60),
        }),
        Kind::CheckTimer => Some(Command::CheckTimer { timer }),
        Kind::Force => Some(Command::ForceTimer {
            timer,
            target: None,
        }),
        Kind::DeleteTimer => Some(Command::DeleteTimer { timer }),
        _ => None,
    }
}

fn on_child(kind: Kind, activity: Name16) -> Option<Command>
    ensures given { IfSome result (λ c. IsGiven c) }
    ensures built { IfSome result (λ c. (p : ActivityPath) → IsTrue (is_built (here.Activity p) c)) }
{
    if !is_free(activity) {
        return None;
    }
    let target = Target::Activity(activity);
    match kind {
        Kind::Suspend => Some(Command::Suspend { target }),
        Kind::Resume => Some(Command::Resume { target }),
        Kind::Run => Some(Command::Run {
            target,
            synchronous: false,
            input: None,
        }),
        Kind::Link => Some(Command::Link {
            target,
            input: None,
        }),
        Kind::Cancel => Some(Command::Cancel { target }),
        Kind::Check => Some(Command::Check { target }),
        Kind::Delete => Some(Command::DeleteActivity { activity }),
        _ => None,
    }
}

fn either(alloc: Global, event: Name16, sub: Name16) -> Option<Command>
    ensures given { IfSome result (λ c. IsGiven c) }
    ensures built { IfSome result (λ c. (p : ActivityPath) → IsTrue (is_built (here.Activity p) c)) }
{
    if !is_free(event) || !is_free(sub) {
        return None;
    }
    let mut subs = Names::new(alloc);
    subs.push(sub).ok()?;
    Some(Command::DefineComposite {
        event,
        all: false,
        subs,
    })
}

fn on_subevent(kind: Kind, event: Name16, sub: Name16) -> Option<Command>
    ensures given { IfSome result (λ c. IsGiven c) }
    ensures built { IfSome result (λ c. (p : ActivityPath) → IsTrue (is_built (here.Activity p) c)) }
{
    if !is_free(event) || !is_free(sub) {
        return None;
    }
    match kind {
        Kind::Leave => Some(Command::RemoveSubevent { sub, event }),
        Kind::Join(_) => Some(Command::AddSubevent { sub, event }),
        _ => None,
    }
}

fn on_event(kind: Kind, event: Name16) -> Option<Command>
    ensures given { IfSome result (λ c. IsGiven c) }
    ensures built { IfSome result (λ c. (p : ActivityPath) → IsTrue (is_built (here.Activity p) c)) }
{
    if !is_free(event) {
        return None;
    }
    match kind {
        Kind::Input => Some(Command::DefineInput { event }),
        Kind::Test => Some(Command::TestEvent { event }),
        Kind::Reattach => Some(Command::RetrieveReattach),
        Kind::Subevent => Some(Command::RetrieveSubevent { event }),
        Kind::DeleteEvent => Some(Command::DeleteEvent { event }),
        _ => None,
    }
}

/// Whether the reply says that the command was done; None for want of memory.
fn is_done(answer: Result<Reply, NoMemory>) -> Option<bool> {
    match answer {
        Ok(reply) => Some(reply.resp == Resp::Normal),
        Err(NoMemory) => None,
    }
}

fn requests(alloc: Global, scope: &mut Scope, held: &mut Held, step: Step) -> Option<bool> {
    if let Step::Again = step {
        *held = Held::Never;
        return Some(true);
    }
    let Some(command) = command_of(alloc, step) else {
        return None;
    };
    if scope.generation() > 1000 || !numbered(scope) || !none_is_early(scope) {
        return Some(false);
    }
    is_done(request(scope, alloc, held, 1, Moment::first(), &command))
}

fn performs(alloc: Global, scope: &mut Scope, kind: Kind) -> Option<bool> {
    let Some(command) = command_in_frame(alloc, kind) else {
        return None;
    };
    if !numbered(scope) || !none_is_early(scope) {
        return Some(false);
    }
    let here = Here::Activity(Path::root());
    is_done(perform(scope, alloc, &here, 1, Moment::first(), &command))
}

/// Adds a child to the root, where it isn't there.
fn gains_child(alloc: Global, scope: &mut Scope, number: u32, name: Name16) -> Option<bool> {
    let root = Path::root();
    let path = root.child(number)?;
    if scope.activity(&root).is_none() {
        return Some(false);
    }
    if scope.activity(&path).is_none() {
        let transid = Transid::read(b"ORD1".as_slice()).ok()?;
        let program = ProgName::read(b"ANY".as_slice()).ok()?;
        let child = Activity::new(alloc, scope.format(), name, transid, program, Some(name));
        scope.add(&path, child).ok()?;
    }
    Some(true)
}

/// Gives the root a child's completion event, where it has none.
fn waits_for_child(scope: &mut Scope, number: u32, event: Name16) -> Option<bool> {
    let root = Path::root();
    scope.save(&root, false).ok()?;
    if scope.activity(&root).is_none() || !is_free(event) {
        return Some(false);
    }
    let activity = scope.edit(&root);
    if activity.pool.kind(event).is_none() {
        activity.pool.define_completion(event, number).ok()?;
    }
    Some(true)
}

/// Whether it was done; None for want of memory.
fn once(alloc: Global, scope: &mut Scope, held: &mut Held, deed: Deed) -> Option<bool> {
    match deed {
        Deed::Request(step) => requests(alloc, scope, held, step),
        Deed::Frame(kind) => performs(alloc, scope, kind),
        Deed::Child(number, text) => {
            let name = named(text);
            let added = gains_child(alloc, scope, number, name)?;
            Some(added && waits_for_child(scope, number, name)?)
        }
    }
}

/// A repository of a copy of the process alone.
fn copied(alloc: Global, scope: &Scope) -> Option<Repository> {
    let copy = scope.copy(alloc).ok()?;
    let mut repo = Repository::empty(alloc);
    repo.reserve_for(&copy.key()).ok()?;
    repo.put_scope(copy);
    Some(repo)
}

/// Does it, and once more where memory was wanted; a command leaves all as it was then.
fn does(alloc: Global, scope: &mut Scope, held: &mut Held, deed: Deed) -> bool {
    for _ in 0..2 {
        let Some(before) = copied(alloc, scope) else {
            continue;
        };
        let (marks, had) = (scope.mark_count(), *held);
        if let Some(done) = once(alloc, scope, held, deed) {
            return done;
        }
        let as_it_was = before.same(scope) && *held == had;
        if scope.mark_count() != marks || !(as_it_was || matches!(deed, Deed::Child(..))) {
            return false;
        }
    }
    false
}

/// The place of the first of these that isn't done.
fn first_undone(
    alloc: Global,
    scope: &mut Scope,
    held: &mut Held,
    deeds: &[Deed],
) -> Option<usize> {
    for (i, deed) in deeds.iter().enumerate() {
        if !does(alloc, scope, held, *deed) {
            return Some(i);
        }
    }
    None
}

fn marks(scope: &mut Scope) -> bool {
    if scope.mark_count() >= 8 {
        return false;
    }
    scope.mark();
    true
}

fn goes_back(scope: &mut Scope, mark: u64) -> bool {
    if mark >= scope.mark_count() {
        return false;
    }
    scope.back_to(mark);
    scope.mark_count() == mark
}

#[test]
fn what_commands_did_goes_back(rt: HostRuntime) -> Result<(), Fail> {
    let alloc = rt.alloc();
    let mut scope = undefined(alloc, Format::One).ok_or(NoMemory)?;
    let never = Repository::empty(alloc);
    let mut held = Held::Never;
    assert!(rt; marks(&mut scope));
    assert_eq!(rt; first_undone(alloc, &mut scope, &mut held, &BUILT), None);
    let built = copied(alloc, &scope).ok_or(NoMemory)?;
    assert!(rt; marks(&mut scope));
    assert_eq!(rt; first_undone(alloc, &mut scope, &mut held, &ALL), None);
    assert!(rt; !built.same(&scope));
    assert!(rt; goes_back(&mut scope, 1));
    assert!(rt; built.same(&scope));
    assert!(rt; goes_back(&mut scope, 0));
    assert!(rt; never.same(&scope));
    Ok(())
}
