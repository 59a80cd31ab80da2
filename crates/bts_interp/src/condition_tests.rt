// What conditions and FROM make of the calls before them.
use crate::facts::{bytes_of, is_so};
use bts_command::{Call, Command};
use bts_forms::{Cond, Given};
use bts_names::{Blob, EventKind, Mode, Name16, NoMemory, Reason, Reply, Resp, Status, Value};
use std::alloc::Global;
use std::test::Fail;

/// What a call shows, or what a condition asks for.
#[derive(Clone, Copy, Debug)]
enum Fact<'a> {
    Nothing,
    Event(&'a str),
    Status(Status),
    Bytes(&'a str),
    Fired(bool),
}

fn name(word: &str) -> Option<Name16> {
    Name16::read(word.as_bytes()).ok()
}

fn blob(alloc: Global, word: &str) -> Option<Blob> {
    Blob::copy_of(alloc, word.as_bytes()).ok()
}

fn value_of(alloc: Global, fact: Fact) -> Option<Value> {
    Some(match fact {
        Fact::Nothing => Value::Nothing,
        Fact::Event(word) => Value::Event {
            name: name(word)?,
            kind: EventKind::Input,
        },
        Fact::Status(status) => Value::Activity {
            mode: Mode::Complete,
            status,
            suspended: false,
            code: None,
        },
        Fact::Bytes(word) => Value::Bytes(blob(alloc, word)?),
        Fact::Fired(fired) => Value::Fired(fired),
    })
}

fn cond_of(alloc: Global, fact: Fact) -> Option<Cond> {
    Some(match fact {
        Fact::Nothing => Cond::Resp(Resp::Normal),
        Fact::Event(word) => Cond::Event(name(word)?),
        Fact::Status(status) => Cond::Status(status),
        Fact::Bytes(word) => Cond::Gave(blob(alloc, word)?),
        Fact::Fired(_) => Cond::Fired,
    })
}

fn call_that(resp: Resp, value: Value) -> Call {
    let reason = Reason::None;
    Call {
        command: Command::RetrieveReattach,
        reply: Reply {
            resp,
            reason,
            value,
        },
    }
}

/// Whether the condition that asks for a fact holds, or doesn't, as is said, behind two calls that showed these.
fn agrees(alloc: Global, first: Fact, second: Fact, asked: Fact, said: bool) -> bool {
    let (Some(first), Some(second)) = (value_of(alloc, first), value_of(alloc, second)) else {
        return false;
    };
    let Some(cond) = cond_of(alloc, asked) else {
        return false;
    };
    let own = [
        call_that(Resp::Normal, first),
        call_that(Resp::Normal, second),
    ];
    is_so(&own, &cond) == said
}

/// Whether the condition that asks for a fact doesn't hold where there was no call.
fn is_unshown(alloc: Global, asked: Fact) -> bool {
    match cond_of(alloc, asked) {
        Some(cond) => !is_so(&[], &cond),
        None => false,
    }
}

#[test]
fn conditions_hold_of_what_was_shown(rt: HostRuntime) -> Result<(), Fail> {
    let alloc = rt.alloc();
    let normal = Fact::Status(Status::Normal);
    let table = [
        (Fact::Event("E"), Fact::Event("E"), true),
        (Fact::Event("E"), Fact::Event("F"), false),
        (Fact::Bytes("ab"), Fact::Bytes("ab"), true),
        (Fact::Bytes("ab"), Fact::Bytes("b"), false),
        (Fact::Bytes("ab"), Fact::Bytes("abc"), false),
        (Fact::Bytes(""), Fact::Bytes(""), true),
        (normal, normal, true),
        (normal, Fact::Status(Status::Abend), false),
        (Fact::Fired(true), Fact::Fired(true), true),
        (Fact::Fired(false), Fact::Fired(true), false),
        (Fact::Nothing, Fact::Nothing, true),
    ];
    for (shown, asked, said) in table {
        let nothing = Fact::Nothing;
        assert!(rt;
            agrees(alloc, shown, nothing, asked, said),
            "{asked:?} behind {shown:?}"
        );
        assert!(rt;
            agrees(alloc, nothing, shown, asked, said),
            "{asked:?} of {shown:?}"
        );
    }
    Ok(())
}

/// Nothing is shown where there was no call, and where the calls showed something else.
#[test]
fn conditions_need_something_shown(rt: HostRuntime) -> Result<(), Fail> {
    let alloc = rt.alloc();
    let table = [
        Fact::Nothing,
        Fact::Event("E"),
        Fact::Status(Status::Normal),
        Fact::Bytes(""),
        Fact::Fired(true),
    ];
    for asked in table {
        assert!(rt; is_unshown(alloc, asked), "{asked:?}");
    }
    for (i, asked) in table.iter().enumerate() {
        for (j, shown) in table.iter().enumerate() {
            let said = i == 0 || i == j;
            assert!(rt;
                agrees(alloc, *shown, *shown, *asked, said),
                "{asked:?} of {shown:?}"
            );
        }
    }
    Ok(())
}

/// The last call of its kind counts.
#[test]
fn conditions_look_at_the_last_call_that_shows(rt: HostRuntime) -> Result<(), Fail> {
    let alloc = rt.alloc();
    let normal = Fact::Status(Status::Normal);
    let forced = Fact::Status(Status::Forced);
    let table = [
        (Fact::Event("E"), Fact::Event("F")),
        (Fact::Event("F"), Fact::Event("E")),
        (Fact::Bytes("a"), Fact::Bytes("")),
        (Fact::Bytes(""), Fact::Bytes("a")),
        (normal, forced),
        (forced, normal),
    ];
    for (first, second) in table {
        assert!(rt;
            agrees(alloc, first, second, first, false),
            "{first:?} before {second:?}"
        );
        assert!(rt;
            agrees(alloc, first, second, second, true),
            "{second:?} behind {first:?}"
        );
    }
    for last in [true, false] {
        let (first, second) = (Fact::Fired(!last), Fact::Fired(last));
        assert!(rt;
            agrees(alloc, first, second, second, last),
            "{second:?} behind {first:?}"
        );
    }
    Ok(())
}

/// Whether the condition on a response holds, or doesn't, as is said, behind a call with a response.
fn agrees_on(found: Resp, asked: Resp, said: bool) -> bool {
    let own = [call_that(found, Value::Nothing)];
    is_so(&own, &Cond::Resp(asked)) == said
}

#[test]
fn responses_are_told_apart(rt: HostRuntime) -> Result<(), Fail> {
    let responses = [
        Resp::Normal,
        Resp::Invreq,
        Resp::Lengerr,
        Resp::End,
        Resp::Processerr,
        Resp::Activityerr,
        Resp::Containererr,
        Resp::Eventerr,
        Resp::Timererr,
    ];
    for (i, found) in responses.iter().enumerate() {
        for (j, asked) in responses.iter().enumerate() {
            assert!(rt; agrees_on(*found, *asked, i == j), "{asked:?} of {found:?}");
        }
    }
    Ok(())
}

#[test]
fn statuses_are_told_apart(rt: HostRuntime) -> Result<(), Fail> {
    let alloc = rt.alloc();
    let statuses = [
        Status::Incomplete,
        Status::Normal,
        Status::Abend,
        Status::Forced,
    ];
    for (i, found) in statuses.iter().enumerate() {
        for (j, asked) in statuses.iter().enumerate() {
            let (found, asked) = (Fact::Status(*found), Fact::Status(*asked));
            assert!(rt;
                agrees(alloc, found, Fact::Nothing, asked, i == j),
                "{asked:?} of {found:?}"
            );
        }
    }
    Ok(())
}

/// Whether a FROM gives these bytes behind a GET that gave `ab`, or behind no call.
fn gives(alloc: Global, given: &Given, behind_get: bool, bytes: &str) -> bool {
    let Some(last) = blob(alloc, "ab") else {
        return false;
    };
    let own = [call_that(Resp::Normal, Value::Bytes(last))];
    let calls = if behind_get { own.as_slice() } else { &[] };
    match bytes_of(alloc, calls, given) {
        Ok(found) => found.as_slice() == bytes.as_bytes(),
        Err(NoMemory) => false,
    }
}

#[test]
fn data_come_from_literals_counts_and_the_last_get(rt: HostRuntime) -> Result<(), Fail> {
    let alloc = rt.alloc();
    let literal = Given::Literal(Blob::copy_of(alloc, b"x")?);
    for behind_get in [true, false] {
        assert!(rt; gives(alloc, &literal, behind_get, "x"));
        assert!(rt; gives(alloc, &Given::Fill(3), behind_get, "***"));
    }
    assert!(rt; gives(alloc, &Given::Last, true, "ab"));
    assert!(rt; gives(alloc, &Given::Last, false, ""));
    Ok(())
}
