// What no clause says: that units end where there is memory, at their limits and not before.
ghost use Rattle.std.specs.Prelude.{◌≡◌, ◌<◌, IfSome, [], ◌∷◌};
ghost use Rattle.bts_session.specs.declared.session.Item.TheVariants as item;
ghost use Rattle.bts_command.specs.declared.ended.UnitKind.TheVariants as unit;
ghost use Rattle.bts_interp.specs.Items.{texts_of};
ghost use Rattle.bts_interp.specs.Ready.{AreExecutable, IsExecutable, MayBeExecuted};

use crate::{Job, Naming, Steps, run_job};
use bts_command::{Command, End, Spot, Target, UnitKind};
use bts_container::Format;
use bts_forms::{Cond, Given, Script, Statement};
use bts_names::{Abcode, Key, Moment, Name16, ProcName, ProcType, ProgName, Resp, Transid};
use bts_script::Programs;
use bts_session::{Item, Items, Session};
use bts_tree::Scope;
use std::alloc::Global;
use std::marker::Brand;
use std::sync::Arc;
use std::sync::ledger::{Blank, Ledger};
use std::test::Fail;

fn a_key() -> Option<Key> {
    let ptype = ProcType::read(b"ORDERS").ok()?;
    let pname = ProcName::read(b"P1").ok()?;
    Some(Key { ptype, pname })
}

/// A session with one request.
fn a_session(alloc: Global, key: &Key, script: Script) -> Option<Session>
    ensures { IfSome result (λ s. s ≡ record { items = item.Request key.now script ∷ []; programs = [] }) }
{
    let mut items = Items::new(alloc);
    items.push(Item::Request { key: *key, script }).ok()?;
    Some(Session {
        items,
        programs: Programs::new(alloc),
    })
}

fn shared(alloc: Global, session: Session) -> Option<Arc<Session>>
    ensures { IfSome result (λ a. a.value ≡ session) }
{
    Arc::new(alloc, session).ok()
}

/// That request, on a process that was never defined.
fn a_request<N: Naming>(alloc: Global, key: &Key, session: Session) -> Option<Job<N>>
    requires named { session ≡ N.name.session }
    requires executable { AreExecutable (texts_of session (unit.Request 1 key.now)) }
{
    let moment = Moment::from_seconds(0)?;
    let session = shared(alloc, session)?;
    let kind = UnitKind::Request { item: 1, key: *key };
    let base = Scope::undefined(alloc, Format::One, *key);
    Some(Job::new(1, kind, base, moment, session))
}

fn run_counted<N: Naming, L: Ledger>(
    alloc: Global,
    key: &Key,
    session: Session,
    blank: Blank,
) -> Option<(usize, End)>
    requires named { session ≡ N.name.session }
    requires executable { AreExecutable (texts_of session (unit.Request 1 key.now)) }
    requires name { blank.name ≡ L.name }
    requires parts { blank.parts ≡ L.parts }
    requires some_part { 0 < blank.parts }
{
    let (book, share) = blank.open::<L>();
    let mut steps = Steps::of(book, share);
    let job = a_request::<N>(alloc, key, session)?;
    let Ok(done) = run_job(alloc, job, &mut steps) else {
        return None;
    };
    let (calls, _, end) = done.into_result();
    Some((calls.len(), end))
}

/// Whether such a request makes so many calls, and ends so.
fn ends(alloc: Global, script: Option<Script>, calls: usize, end: End) -> bool
    requires { IfSome script (λ s. IsExecutable s) }
{
    let (Some(script), Some(key)) = (script, a_key()) else {
        return false;
    };
    let Some(session) = a_session(alloc, &key, script) else {
        return false;
    };
    let Some((made, found)) = run_counted::<Brand, Brand>(alloc, &key, session, Blank::new(1))
    else {
        return false;
    };
    made == calls && found == end
}

/// What the scripts below are made of.
#[derive(Clone, Copy, Debug)]
enum Part {
    Define,
    /// RETRIEVE REATTACH, which is refused in a request.
    Refused,
    /// PUT of so many bytes: refused where no process is acquired, or where there are more than 32,768.
    Put(u32),
    Get,
    Label,
    Goto,
    /// WHEN RESP(NORMAL).
    When,
}

fn statement_of(part: Part) -> Option<Statement>
    ensures { IfSome result (λ s. MayBeExecuted s) }
{
    match part {
        Part::Define => define(),
        Part::Refused => Some(Statement::Command(Command::RetrieveReattach)),
        Part::Put(count) => put(count),
        Part::Get => get(),
        Part::Label => Some(Statement::Label(Name16::read(b"A").ok()?)),
        Part::Goto => Some(Statement::Goto(Name16::read(b"A").ok()?)),
        Part::When => {
            let cond = Cond::Resp(Resp::Normal);
            let label = Name16::read(b"A").ok()?;
            Some(Statement::When { cond, label })
        }
    }
}

fn define() -> Option<Statement>
    ensures { IfSome result (λ s. MayBeExecuted s) }
{
    let transid = Transid::read(b"ORD1").ok()?;
    let program = ProgName::read(b"ROOT").ok()?;
    Some(Statement::Command(Command::DefineProcess { transid, program }))
}

fn put(count: u32) -> Option<Statement>
    ensures { IfSome result (λ s. MayBeExecuted s) }
{
    Some(Statement::Put {
        container: Name16::read(b"C").ok()?,
        spot: Spot::Of(Target::AcqProcess),
        given: Given::Fill(count),
    })
}

fn get() -> Option<Statement>
    ensures { IfSome result (λ s. MayBeExecuted s) }
{
    Some(Statement::Command(Command::GetContainer {
        container: Name16::read(b"C").ok()?,
        spot: Spot::Of(Target::AcqProcess),
    }))
}

/// The script with a part so many times behind it.
#[tactic(auto, using(crate::proofs::Executable::one_more_may))]
fn with_part(script: Script, part: Part, count: usize) -> Option<Script>
    requires { IsExecutable script }
    ensures { IfSome result (λ s. IsExecutable s) }
{
    let mut script = script;
    let most = script.len().saturating_add(count);
    while script.len() < most {
        script.push(statement_of(part)?).ok()?;
    }
    Some(script)
}

/// The parts one after the other, each so many times.
fn script_of(alloc: Global, parts: [(Part, usize); 4]) -> Option<Script>
    ensures { IfSome result (λ s. IsExecutable s) }
{
    let script = with_part(Script::new(alloc), parts[0].0, parts[0].1)?;
    let script = with_part(script, parts[1].0, parts[1].1)?;
    let script = with_part(script, parts[2].0, parts[2].1)?;
    with_part(script, parts[3].0, parts[3].1)
}

/// Whether a request of these parts makes so many calls, and abends with that code, or commits where there is none.
fn spends(alloc: Global, parts: [(Part, usize); 4], calls: usize, code: &str) -> bool {
    let end = match Abcode::read(code.as_bytes()) {
        Ok(code) => End::Abend(code),
        Err(_) => End::Commit,
    };
    ends(alloc, script_of(alloc, parts), calls, end)
}

const NONE: (Part, usize) = (Part::Label, 0);

#[test]
fn conditions_lead_on(rt: HostRuntime) -> Result<(), Fail> {
    let alloc = rt.alloc();
    let behind = [(Part::When, 1), (Part::Refused, 1), (Part::Label, 1)];
    for (part, calls) in [(Part::Define, 2), (Part::Refused, 3)] {
        let parts = [(part, 1), behind[0], behind[1], behind[2]];
        assert!(rt; spends(alloc, parts, calls, ""), "at {part:?}");
    }
    Ok(())
}

#[test]
fn statements_are_limited(rt: HostRuntime) -> Result<(), Fail> {
    let alloc = rt.alloc();
    let refused = (Part::Refused, 1);
    let table = [
        ([(Part::When, 9_999), NONE, NONE, NONE], 1, ""),
        ([(Part::When, 10_000), NONE, NONE, NONE], 0, "STEP"),
        ([(Part::Label, 9), (Part::When, 9_999), NONE, NONE], 1, ""),
        ([(Part::When, 9_998), refused, NONE, NONE], 2, ""),
        ([(Part::When, 9_999), refused, NONE, NONE], 1, "STEP"),
        ([(Part::When, 10_000), refused, NONE, NONE], 0, "STEP"),
        ([(Part::Label, 1), (Part::Goto, 1), NONE, NONE], 0, "STEP"),
    ];
    for (parts, calls, code) in table {
        assert!(rt; spends(alloc, parts, calls, code), "at {parts:?}");
    }
    Ok(())
}

/// The 500th call may be the RETURN behind the last line.
#[test]
fn calls_are_limited(rt: HostRuntime) -> Result<(), Fail> {
    let alloc = rt.alloc();
    let refused = (Part::Refused, 1);
    let table = [
        ([(Part::Refused, 499), NONE, NONE, NONE], 500, ""),
        ([(Part::Refused, 500), NONE, NONE, NONE], 500, "CMDS"),
        (
            [(Part::Label, 1), refused, (Part::Goto, 1), NONE],
            500,
            "CMDS",
        ),
    ];
    for (parts, calls, code) in table {
        assert!(rt; spends(alloc, parts, calls, code), "at {parts:?}");
    }
    Ok(())
}

/// 256 times 32,768 bytes are all that a unit may put and get.
#[test]
fn data_are_limited(rt: HostRuntime) -> Result<(), Fail> {
    let alloc = rt.alloc();
    let half = (Part::Put(4_194_304), 1);
    let define = (Part::Define, 1);
    let first = (Part::Put(32_768), 1);
    let table = [
        ([half, half, NONE, NONE], 3, ""),
        ([half, (Part::Put(4_194_305), 1), NONE, NONE], 2, "SIZE"),
        ([define, first, (Part::Get, 255), NONE], 258, ""),
        (
            [define, first, (Part::Get, 255), (Part::Put(1), 1)],
            258,
            "SIZE",
        ),
        ([define, first, (Part::Get, 256), NONE], 258, "SIZE"),
    ];
    for (parts, calls, code) in table {
        assert!(rt; spends(alloc, parts, calls, code), "at {parts:?}");
    }
    Ok(())
}

/// Where more than one limit is met, that of the bytes comes first, then that of the statements.
#[test]
fn limits_have_an_order(rt: HostRuntime) -> Result<(), Fail> {
    let alloc = rt.alloc();
    let much = (Part::Put(8_388_609), 1);
    let calls_made = (Part::Refused, 500);
    let table = [
        ([much, (Part::When, 10_000), NONE, NONE], 1, "SIZE"),
        ([(Part::Refused, 499), much, NONE, NONE], 500, "SIZE"),
        ([calls_made, (Part::When, 9_500), NONE, NONE], 500, "STEP"),
        ([calls_made, (Part::When, 9_499), NONE, NONE], 500, "CMDS"),
    ];
    for (parts, calls, code) in table {
        assert!(rt; spends(alloc, parts, calls, code), "at {parts:?}");
    }
    Ok(())
}
