// What no clause says: texts that are given byte for byte, and that there is memory.
use crate::{add_number, list_text, report};
use bts_command::{Call, Calls, Command, Due, End, Ended, Names, Spot, Target, UnitKind};
use bts_names::{
    Abcode, Blob, EventKind, Key, Leaving, Mode, Moment, Name16, Path, ProcName, ProcType,
    ProgName, Reason, Reply, Resp, Row, Rows, Status, TimerStatus, Transid, Value,
};
use std::alloc::Global;
use std::slice;
use std::test::Fail;

fn name(text: &str) -> Result<Name16, Fail> {
    Ok(Name16::read(text.as_bytes())?)
}

fn transid(text: &str) -> Result<Transid, Fail> {
    Ok(Transid::read(text.as_bytes())?)
}

fn program(text: &str) -> Result<ProgName, Fail> {
    Ok(ProgName::read(text.as_bytes())?)
}

fn code(text: &str) -> Result<Abcode, Fail> {
    Ok(Abcode::read(text.as_bytes())?)
}

fn orders(pname: &str) -> Result<Key, Fail> {
    let ptype = ProcType::read(b"ORDERS".as_slice())?;
    let pname = ProcName::read(pname.as_bytes())?;
    Ok(Key { ptype, pname })
}

fn path_of(numbers: &[u32]) -> Result<Path, Fail> {
    let mut path = Path::root();
    for n in numbers {
        path = path.child(*n).ok_or("too deep")?;
    }
    Ok(path)
}

fn child(text: &str) -> Result<Target, Fail> {
    Ok(Target::Activity(name(text)?))
}

/// The command of that number from 1 to 13.
fn family_command(number: u8) -> Result<Command, Fail> {
    match number {
        1 => Ok(Command::DefineProcess {
            transid: transid("ORD1")?,
            program: program("ROOT")?,
        }),
        2 => Ok(Command::AcquireProcess),
        3 => Ok(Command::AcquireActivity {
            path: path_of(&[1, 20])?,
        }),
        4 => Ok(Command::PurgeProcess),
        5 => Ok(Command::DefineActivity {
            activity: name("A")?,
            event: Some(name("E")?),
            transid: transid("T1")?,
            program: program("KID")?,
        }),
        6 => Ok(Command::DeleteActivity {
            activity: name("A")?,
        }),
        7 => Ok(Command::Run {
            target: child("A")?,
            synchronous: true,
            input: Some(name("E")?),
        }),
        8 => Ok(Command::Link {
            target: Target::AcqProcess,
            input: None,
        }),
        9 => Ok(Command::Check {
            target: Target::AcqActivity,
        }),
        10 => Ok(Command::Cancel {
            target: child("A")?,
        }),
        11 => Ok(Command::Reset {
            target: child("A")?,
        }),
        12 => Ok(Command::Suspend {
            target: Target::AcqProcess,
        }),
        _ => Ok(Command::Resume {
            target: Target::AcqActivity,
        }),
    }
}

/// The command of that number from 14 to 24.
fn pool_command(alloc: Global, number: u8) -> Result<Command, Fail> {
    match number {
        14 => Ok(Command::PutContainer {
            container: name("C")?,
            spot: Spot::Process,
            from: Blob::copy_of(alloc, b"x".as_slice())?,
        }),
        15 => Ok(Command::GetContainer {
            container: name("C")?,
            spot: Spot::Own,
        }),
        16 => Ok(Command::DeleteContainer {
            container: name("C")?,
            spot: Spot::Of(Target::AcqActivity),
        }),
        17 => Ok(Command::DefineInput { event: name("E")? }),
        18 => Ok(Command::DefineComposite {
            event: name("E")?,
            all: true,
            subs: Names::new(alloc),
        }),
        19 => Ok(Command::AddSubevent {
            sub: name("S")?,
            event: name("E")?,
        }),
        20 => Ok(Command::RemoveSubevent {
            sub: name("S")?,
            event: name("E")?,
        }),
        21 => Ok(Command::DeleteEvent { event: name("E")? }),
        22 => Ok(Command::TestEvent { event: name("E")? }),
        23 => Ok(Command::RetrieveReattach),
        _ => Ok(Command::RetrieveSubevent { event: name("E")? }),
    }
}

/// The command of that number from 25 to 31, and RETURN ENDACTIVITY at 32.
fn ending_command(number: u8) -> Result<Command, Fail> {
    match number {
        25 => Ok(Command::DefineTimer {
            timer: name("T")?,
            event: Some(name("E")?),
            due: Due::After(60),
        }),
        26 => Ok(Command::ForceTimer {
            timer: name("T")?,
            target: Some(Target::AcqProcess),
        }),
        27 => Ok(Command::CheckTimer { timer: name("T")? }),
        28 => Ok(Command::DeleteTimer { timer: name("T")? }),
        29 => Ok(Command::Return {
            end_activity: false,
        }),
        30 => Ok(Command::Abend {
            code: code("OOPS")?,
        }),
        31 => Ok(Command::Rollback),
        _ => Ok(Command::Return { end_activity: true }),
    }
}

fn command(alloc: Global, number: u8) -> Result<Command, Fail> {
    match number {
        0..=13 => family_command(number),
        14..=24 => pool_command(alloc, number),
        _ => ending_command(number),
    }
}

fn activity_value(n: u8) -> Result<Value, Fail> {
    match n {
        0 => Ok(Value::Activity {
            mode: Mode::Complete,
            status: Status::Abend,
            suspended: false,
            code: Some(code("NORT")?),
        }),
        1 => Ok(Value::Activity {
            mode: Mode::Active,
            status: Status::Incomplete,
            suspended: true,
            code: None,
        }),
        2 => Ok(Value::Left(Leaving::Dormant)),
        3 => Ok(Value::Left(Leaving::Complete)),
        _ => Ok(Value::Left(Leaving::Abended(code("CHLD")?))),
    }
}

/// A value of each kind; 10 and those behind it are those of activities.
fn value(alloc: Global, n: u8) -> Result<Value, Fail> {
    match n {
        0 => Ok(Value::Nothing),
        1 => Ok(Value::Bytes(Blob::copy_of(alloc, &[0, 10, 159, 255])?)),
        2 => Ok(Value::Id(Path::root())),
        3 => Ok(Value::Event {
            name: name("E")?,
            kind: EventKind::Composite,
        }),
        4 => Ok(Value::Fired(true)),
        5 => Ok(Value::Fired(false)),
        6 => Ok(Value::Timer(TimerStatus::Unexpired)),
        7 => Ok(Value::Ran(true)),
        8 => Ok(Value::Ran(false)),
        9 => Ok(Value::Id(path_of(&[1, 4_294_967_295])?)),
        _ => activity_value(n - 10),
    }
}

fn normal(value: Value) -> Reply {
    Reply {
        resp: Resp::Normal,
        reason: Reason::None,
        value,
    }
}

/// A SETTLE with that one call.
fn settled(alloc: Global, command: Command, reply: Reply) -> Result<Ended, Fail> {
    let mut calls = Calls::new(alloc);
    calls.push(Call { command, reply })?;
    Ok(Ended {
        unit: UnitKind::Settle { item: 1 },
        moment: Moment::first(),
        end: End::Commit,
        calls,
        rows: Rows::new(alloc),
        seq: 0,
    })
}

/// Whether that is the line of the call.
fn prints(alloc: Global, command: Command, reply: Reply, line: &str) -> Result<bool, Fail> {
    let ended = settled(alloc, command, reply)?;
    let text = report(alloc, slice::from_ref(&ended))?;
    let told = format!(in alloc; "1 SETTLE 1970-01-01T00:00:00 COMMIT\n  {line}\n")?;
    Ok(text.as_slice() == told.as_bytes())
}

#[test]
fn commands_have_their_words(rt: HostRuntime) -> Result<(), Fail> {
    let alloc = rt.alloc();
    let table = [
        (1, "DEFINE PROCESS NORMAL"),
        (2, "ACQUIRE PROCESS NORMAL"),
        (3, "ACQUIRE ACTIVITYID(/1/20) NORMAL"),
        (4, "PURGE ACQPROCESS NORMAL"),
        (5, "DEFINE ACTIVITY(A) NORMAL"),
        (6, "DELETE ACTIVITY(A) NORMAL"),
        (7, "RUN ACTIVITY(A) NORMAL"),
        (8, "LINK ACQPROCESS NORMAL"),
        (9, "CHECK ACQACTIVITY NORMAL"),
        (10, "CANCEL ACTIVITY(A) NORMAL"),
        (11, "RESET ACTIVITY(A) NORMAL"),
        (12, "SUSPEND ACQPROCESS NORMAL"),
        (13, "RESUME ACQACTIVITY NORMAL"),
        (14, "PUT CONTAINER(C) NORMAL"),
        (15, "GET CONTAINER(C) NORMAL"),
        (16, "DELETE CONTAINER(C) NORMAL"),
        (17, "DEFINE INPUT(E) NORMAL"),
        (18, "DEFINE COMPOSITE(E) NORMAL"),
        (19, "ADD SUBEVENT(S) NORMAL"),
        (20, "REMOVE SUBEVENT(S) NORMAL"),
        (21, "DELETE EVENT(E) NORMAL"),
        (22, "TEST EVENT(E) NORMAL"),
        (23, "RETRIEVE REATTACH NORMAL"),
        (24, "RETRIEVE SUBEVENT(E) NORMAL"),
        (25, "DEFINE TIMER(T) NORMAL"),
        (26, "FORCE TIMER(T) NORMAL"),
        (27, "CHECK TIMER(T) NORMAL"),
        (28, "DELETE TIMER(T) NORMAL"),
        (29, "RETURN NORMAL"),
        (30, "ABEND(OOPS) NORMAL"),
        (31, "ROLLBACK NORMAL"),
        (32, "RETURN ENDACTIVITY NORMAL"),
    ];
    for (number, line) in table {
        let command = command(alloc, number)?;
        assert!(rt;
            prints(alloc, command, normal(Value::Nothing), line)?,
            "at {line}"
        );
    }
    Ok(())
}

#[test]
fn values_have_their_words(rt: HostRuntime) -> Result<(), Fail> {
    let alloc = rt.alloc();
    let table = [
        (0, "ROLLBACK NORMAL"),
        (1, "ROLLBACK NORMAL X'000A9FFF'"),
        (2, "ROLLBACK NORMAL /"),
        (3, "ROLLBACK NORMAL E COMPOSITE"),
        (4, "ROLLBACK NORMAL FIRED"),
        (5, "ROLLBACK NORMAL NOTFIRED"),
        (6, "ROLLBACK NORMAL UNEXPIRED"),
        (7, "ROLLBACK NORMAL RAN"),
        (8, "ROLLBACK NORMAL WAITS"),
        (9, "ROLLBACK NORMAL /1/4294967295"),
        (10, "ROLLBACK NORMAL COMPLETE ABEND NOTSUSPENDED NORT"),
        (11, "ROLLBACK NORMAL ACTIVE INCOMPLETE SUSPENDED -"),
        (12, "ROLLBACK NORMAL DORMANT"),
        (13, "ROLLBACK NORMAL COMPLETE"),
        (14, "ROLLBACK NORMAL ABEND CHLD"),
    ];
    for (number, line) in table {
        let reply = normal(value(alloc, number)?);
        assert!(rt; prints(alloc, Command::Rollback, reply, line)?, "at {line}");
    }
    Ok(())
}

/// The refusal with the response and the reason of these numbers.
fn refusal(resp: u8, reason: u8) -> Result<Reply, Fail> {
    let resp = Resp::from_number(resp).ok_or("no response")?;
    let reason = Reason::from_number(reason).ok_or("no reason")?;
    Ok(Reply {
        resp,
        reason,
        value: Value::Nothing,
    })
}

#[test]
fn refusals_have_their_words(rt: HostRuntime) -> Result<(), Fail> {
    let alloc = rt.alloc();
    let table = [
        (1, 1, "ROLLBACK INVREQ Place"),
        (1, 3, "ROLLBACK INVREQ NotAcquired"),
        (2, 15, "ROLLBACK LENGERR Long"),
        (3, 20, "ROLLBACK END Empty"),
        (4, 4, "ROLLBACK PROCESSERR Taken"),
        (5, 6, "ROLLBACK ACTIVITYERR Mode"),
        (6, 5, "ROLLBACK CONTAINERERR Missing"),
        (7, 11, "ROLLBACK EVENTERR Fired"),
        (8, 22, "ROLLBACK TIMERERR Ended"),
    ];
    for (resp, reason, line) in table {
        let reply = refusal(resp, reason)?;
        assert!(rt; prints(alloc, Command::Rollback, reply, line)?, "at {line}");
    }
    Ok(())
}

/// A unit of each kind.
fn unit_kind(n: u8) -> Result<UnitKind, Fail> {
    match n {
        0 => Ok(UnitKind::Request {
            item: 1,
            key: orders("P13")?,
        }),
        1 => Ok(UnitKind::Activation {
            key: orders("P13")?,
            path: Path::root(),
        }),
        2 => Ok(UnitKind::Notice {
            key: orders("P13")?,
            path: path_of(&[1])?,
        }),
        3 => Ok(UnitKind::Expiry {
            key: orders("P13")?,
            path: Path::root(),
            timer: name("T1")?,
        }),
        4 => Ok(UnitKind::Clock { item: 2 }),
        5 => Ok(UnitKind::Settle { item: 3 }),
        _ => Ok(UnitKind::Browse { item: 4 }),
    }
}

fn end_of(kind: u8, seconds: u64) -> Result<End, Fail> {
    match (kind, seconds) {
        (0, 1..) => Ok(End::Rollback),
        (1, _) => Ok(End::Abend(code("NORT")?)),
        _ => Ok(End::Commit),
    }
}

/// A unit of that kind at that second, without calls: a later request is rolled back, an activation abends.
fn bare(alloc: Global, kind: u8, seconds: u64, rows: Rows) -> Result<Ended, Fail> {
    Ok(Ended {
        unit: unit_kind(kind)?,
        moment: Moment::from_seconds(seconds).ok_or("no moment")?,
        end: end_of(kind, seconds)?,
        calls: Calls::new(alloc),
        rows,
        seq: 0,
    })
}

#[test]
fn units_have_their_lines(rt: HostRuntime) -> Result<(), Fail> {
    let alloc = rt.alloc();
    let table = [
        (0, 0),
        (1, 0),
        (2, 0),
        (4, 60),
        (3, 60),
        (5, 60),
        (0, 61),
        (4, 951_827_696),
        (5, 951_827_696),
        (6, 253_402_300_799),
    ];
    let mut history = Vec::new(alloc);
    for (kind, seconds) in table {
        history.push(bare(alloc, kind, seconds, Rows::new(alloc))?)?;
    }
    let text = report(alloc, history.as_slice())?;
    let told = "1 REQUEST ORDERS P13 1970-01-01T00:00:00 COMMIT\n\
        2 ACTIVATION ORDERS P13 / 1970-01-01T00:00:00 ABEND NORT\n\
        3 NOTICE ORDERS P13 /1 1970-01-01T00:00:00 COMMIT\n\
        4 CLOCK 1970-01-01T00:01:00 COMMIT\n\
        5 EXPIRY ORDERS P13 / T1 1970-01-01T00:01:00 COMMIT\n\
        6 SETTLE 1970-01-01T00:01:00 COMMIT\n\
        7 REQUEST ORDERS P13 1970-01-01T00:01:01 ROLLBACK\n\
        8 CLOCK 2000-02-29T12:34:56 COMMIT\n\
        9 SETTLE 2000-02-29T12:34:56 COMMIT\n\
        10 BROWSE 9999-12-31T23:59:59 COMMIT\n";
    assert!(rt; text.as_slice() == told.as_bytes());
    assert_eq!(rt; report(alloc, &[])?.len(), 0);
    Ok(())
}

/// The row of that activity of a process that is COMPLETE.
fn row(path: &[u32], activity: Name16, ids: [&str; 2]) -> Result<Row, Fail> {
    Ok(Row {
        key: orders("P6")?,
        generation: 1,
        path: path_of(path)?,
        name: activity,
        mode: Mode::Complete,
        status: Status::Normal,
        suspended: false,
        queued: 0,
        transid: transid(ids[0])?,
        program: program(ids[1])?,
    })
}

fn rows(alloc: Global) -> Result<Rows, Fail> {
    let mut rows = Rows::new(alloc);
    rows.push(row(&[], Name16::root(), ["ORD1", "ORDER"])?)?;
    rows.push(row(&[1], name("BILL")?, ["BIL1", "LEAF"])?)?;
    rows.push(row(&[2], name("SHIP")?, ["SHP1", "LEAF"])?)?;
    Ok(rows)
}

#[test]
fn rows_have_their_lines(rt: HostRuntime) -> Result<(), Fail> {
    let alloc = rt.alloc();
    let list = list_text(alloc, rows(alloc)?.as_slice())?;
    let told = "ORDERS P6 1 / DFHROOT COMPLETE NORMAL NOTSUSPENDED 0 ORD1 ORDER\n\
        ORDERS P6 1 /1 BILL COMPLETE NORMAL NOTSUSPENDED 0 BIL1 LEAF\n\
        ORDERS P6 1 /2 SHIP COMPLETE NORMAL NOTSUSPENDED 0 SHP1 LEAF\n";
    assert!(rt; list.as_slice() == told.as_bytes());
    let browse = bare(alloc, 6, 0, rows(alloc)?)?;
    let text = report(alloc, slice::from_ref(&browse))?;
    let told = "1 BROWSE 1970-01-01T00:00:00 COMMIT\n  \
        ORDERS P6 1 / DFHROOT COMPLETE NORMAL NOTSUSPENDED 0 ORD1 ORDER\n  \
        ORDERS P6 1 /1 BILL COMPLETE NORMAL NOTSUSPENDED 0 BIL1 LEAF\n  \
        ORDERS P6 1 /2 SHIP COMPLETE NORMAL NOTSUSPENDED 0 SHP1 LEAF\n";
    assert!(rt; text.as_slice() == told.as_bytes());
    Ok(())
}

/// Whether that is the number in decimal.
fn is_decimal(alloc: Global, n: u64, text: &str) -> bool {
    let mut out = Blob::new(alloc);
    add_number(&mut out, n).is_ok() && out.as_slice() == text.as_bytes()
}

#[test]
fn numbers_are_decimal(rt: HostRuntime) -> Result<(), Fail> {
    let table = [
        (0, "0"),
        (9, "9"),
        (10, "10"),
        (307, "307"),
        (18_446_744_073_709_551_615, "18446744073709551615"),
    ];
    for (n, text) in table {
        assert!(rt; is_decimal(rt.alloc(), n, text));
    }
    Ok(())
}
