// What no clause says: that activations follow the programs of their session.
ghost use Rattle.std.specs.Prelude.{◌≡◌, ◌+◌, ◌<◌, [], length, IfSome, IsTrue, None, true};
ghost use Rattle.std.specs.List.{AllByRecursion};
ghost use Rattle.bts_command.specs.Given.{IsGiven};
ghost use Rattle.bts_interp.specs.Ready.{IsExecutable, number_limit};
ghost use Rattle.bts_tree.specs.Soundness.{IsSoundInFrames, is_within};
ghost use Rattle.bts_unit.specs.OneFrame.{is_of_one_frame, is_ready_in};
ghost use Rattle.bts_unit.specs.Soundness.{IsSoundUnit, IsSoundWithin};

use crate::{Job, Naming, Steps, run_job};
use bts_command::{Command, End, Target, UnitKind};
use bts_container::Format;
use bts_forms::{Script, Statement};
use bts_names::{Abcode, Key, Moment, Path, ProcName, ProcType, ProgName, Status, Transid};
use bts_script::Programs;
use bts_session::{Items, Session};
use bts_tree::Scope;
use bts_unit::Unit;
use std::alloc::Global;
use std::marker::Brand;
use std::sync::Arc;
use std::sync::ledger::{Blank, Ledger};
use std::test::Fail;

fn a_key() -> Option<Key> {
    let ptype = ProcType::read(b"ORDERS").ok()?;
    let pname = ProcName::read(b"P1").ok()?;
    Some(Key { ptype, pname })
}

/// A request on a process that was never defined, before its first call.
fn a_request(alloc: Global, key: &Key, moment: Moment) -> Option<Unit>
    ensures sound { IfSome result (λ u. IsSoundUnit u) }
    ensures within { IfSome result (λ u. IsSoundWithin 0 (0 + length u.calls) u) }
{
    let kind = UnitKind::Request { item: 1, key: *key };
    let base = Scope::undefined(alloc, Format::One, *key);
    match Unit::start(alloc, base, kind, moment) {
        Ok(unit) => Some(unit),
        Err(_) => None,
    }
}

/// Does a command in it.
fn call(unit: &mut Unit, command: Command) -> bool
    requires given { IsGiven command }
    requires one_frame { IsTrue (is_of_one_frame None command) }
    requires sound { IsSoundUnit unit.old }
    requires within { IsSoundWithin 0 (0 + length unit.old.calls) unit.old }
    ensures sound { IsSoundUnit unit.new }
    ensures within { IsSoundWithin 0 (0 + length unit.new.calls) unit.new }
{
    let Some(frame) = unit.frame() else {
        return false;
    };
    if frame.at.is_some() || unit.calls().len() > 500 {
        return false;
    }
    unit.call(command).is_ok()
}

fn define() -> Option<Command>
    ensures given { IfSome result (λ c. IsGiven c) }
    ensures one_frame { IfSome result (λ c. IsTrue (is_of_one_frame None c)) }
{
    let transid = Transid::read(b"ORD1").ok()?;
    let program = ProgName::read(b"ROOT").ok()?;
    Some(Command::DefineProcess { transid, program })
}

/// What a request leaves that defines a process, whose root has the program ROOT, and runs it.
fn a_started_process(alloc: Global, key: &Key, moment: Moment) -> Option<Scope>
    ensures sound { IfSome result (λ s. IsSoundInFrames [] s.process) }
    ensures within { IfSome result (λ s. is_within number_limit number_limit s.process ≡ true) }
{
    let mut request = a_request(alloc, key, moment)?;
    let run = Command::Run {
        target: Target::AcqProcess,
        synchronous: false,
        input: None,
    };
    let leave = Command::Return {
        end_activity: false,
    };
    if !call(&mut request, define()?)
        || !call(&mut request, run)
        || !call(&mut request, leave)
        || !request.has_ended()
        || request.calls().len() > 500
    {
        return None;
    }
    Some(request.end().after)
}

/// Whether an activation of the root is enabled.
fn is_ready(scope: &Scope) -> bool
    ensures { IsTrue result → IsTrue (is_ready_in [] scope.now.process) }
{
    match scope.activity(&Path::root()) {
        Some(root) => root.is_ready(),
        None => false,
    }
}

/// A session of one program, which retrieves its entry.
fn a_session(alloc: Global, program: &str) -> Option<Session>
    ensures { IfSome result (λ s. AllByRecursion (λ p. IsExecutable p.1) s.programs) }
{
    let name = ProgName::read(program.as_bytes()).ok()?;
    let mut script = Script::new(alloc);
    script
        .push(Statement::Command(Command::RetrieveReattach))
        .ok()?;
    let mut programs = Programs::new(alloc);
    programs.push(name, script).ok()?;
    Some(Session {
        items: Items::new(alloc),
        programs,
    })
}

/// The first activation of that root.
fn an_activation<N: Naming>(alloc: Global, key: &Key, session: Session) -> Option<Job<N>>
    requires named { session ≡ N.name.session }
    requires executable { AllByRecursion (λ p. IsExecutable p.1) session.programs }
{
    let moment = Moment::from_seconds(0)?;
    let base = a_started_process(alloc, key, moment)?;
    if !is_ready(&base) {
        return None;
    }
    let path = Path::root();
    let session = Arc::new(alloc, session).ok()?;
    let kind = UnitKind::Activation { key: *key, path };
    Some(Job::new(0, kind, base, moment, session))
}

/// How many calls it makes, its end, and how its activity completed.
fn run_counted<N: Naming, L: Ledger>(
    alloc: Global,
    key: &Key,
    session: Session,
    blank: Blank,
) -> Option<(usize, End, Status, Option<Abcode>)>
    requires named { session ≡ N.name.session }
    requires executable { AllByRecursion (λ p. IsExecutable p.1) session.programs }
    requires name { blank.name ≡ L.name }
    requires parts { blank.parts ≡ L.parts }
    requires some_part { 0 < blank.parts }
{
    let (book, share) = blank.open::<L>();
    let mut steps = Steps::of(book, share);
    let job = an_activation::<N>(alloc, key, session)?;
    let Ok(done) = run_job(alloc, job, &mut steps) else {
        return None;
    };
    let (calls, after, end) = done.into_result();
    let root = after.activity(&Path::root())?;
    Some((calls.len(), end, root.status, root.code))
}

/// Whether it makes so many calls and ends with that code, or with none, where the session has this program.
fn ends(alloc: Global, program: &str, calls: usize, code: Option<Abcode>) -> bool {
    let (Some(session), Some(key)) = (a_session(alloc, program), a_key()) else {
        return false;
    };
    let Some((made, end, status, left)) = run_counted::<Brand, Brand>(
        alloc,
        &key,
        session,
        Blank::new(1),
    ) else {
        return false;
    };
    let (wanted_end, wanted_status) = match code {
        Some(code) => (End::Abend(code), Status::Abend),
        None => (End::Commit, Status::Normal),
    };
    made == calls && end == wanted_end && status == wanted_status && left == code
}

#[test]
fn activations_follow_their_program(rt: HostRuntime) -> Result<(), Fail> {
    let alloc = rt.alloc();
    assert!(rt; ends(alloc, "ROOT", 2, None));
    Ok(())
}

/// Where the session lacks the program there is one call, that of the abend.
#[test]
fn activations_abend_without_a_program(rt: HostRuntime) -> Result<(), Fail> {
    let alloc = rt.alloc();
    let code = Abcode::read(b"NOPG")?;
    assert!(rt; ends(alloc, "OTHER", 1, Some(code)));
    Ok(())
}
