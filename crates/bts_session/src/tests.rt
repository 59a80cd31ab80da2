// What no clause says: that sessions are read where there is memory.
use crate::{Item, Session, read_session};
use bts_command::{Command, Spot, Target};
use bts_names::{Blob, Key, Name, NoMemory, Resp};
use bts_script::{Cond, Given, Script, ScriptError, Statement, Word};
use std::alloc::Global;
use std::test::Fail;

/// The script that retrieves an event, and goes to its end where there is none.
fn retrieving(alloc: Global) -> Result<Script, Fail> {
    let label = Name::read(b"DONE")?;
    let mut script = Script::new(alloc);
    script.push(Statement::Command(Command::RetrieveReattach))?;
    script.push(Statement::When {
        cond: Cond::Resp(Resp::End),
        label,
    })?;
    script.push(Statement::Put {
        container: Name::read(b"C")?,
        spot: Spot::Own,
        given: Given::Last,
    })?;
    script.push(Statement::Label(label))?;
    script.push(Statement::Command(Command::Return { end_activity: true }))?;
    Ok(script)
}

#[test]
fn a_program_is_read_as_it_stands(rt: HostRuntime) -> Result<(), Fail> {
    let text =
        "PROGRAM A\nRETRIEVE REATTACH EVENT\n WHEN  RESP(END)  GOTO DONE\nPUT CONTAINER(C) FROM(LAST)\nLABEL DONE\nRETURN ENDACTIVITY\nEND";
    let session = read_session(rt.alloc(), text.as_bytes())?;
    let wanted = retrieving(rt.alloc())?;
    assert!(rt; session.programs.get(Name::read(b"A")?) == Some(&wanted));
    assert!(rt; session.items.is_empty());
    Ok(())
}

/// The request of the key T P that puts `a ) (b` into the process container C and gets it again.
fn request(alloc: Global) -> Result<Item, Fail> {
    let mut script = Script::new(alloc);
    let container = Name::read(b"C")?;
    let spot = Spot::Of(Target::AcqProcess);
    let given = Given::Literal(Blob::copy_of(alloc, b"a ) (b".as_slice())?);
    script.push(Statement::Put {
        container,
        spot,
        given,
    })?;
    script.push(Statement::Command(Command::GetContainer { container, spot }))?;
    let key = Key {
        ptype: Name::read(b"T")?,
        pname: Name::read(b"P")?,
    };
    Ok(Item::Request { key, script })
}

#[test]
fn a_request_is_read_as_it_stands(rt: HostRuntime) -> Result<(), Fail> {
    let text =
        "REQUEST T P\n PUT CONTAINER(C) ACQPROCESS FROM('a ) (b')\r\nGET  CONTAINER(C) ACQPROCESS\nEND";
    let session = read_session(rt.alloc(), text.as_bytes())?;
    let wanted = request(rt.alloc())?;
    assert!(rt; session.items.as_slice().first() == Some(&wanted));
    assert_eq!(rt; session.items.len(), 1);
    Ok(())
}

/// Whether the bytes are refused as a whole.
fn is_too_long(alloc: Global, bytes: &[u8]) -> bool {
    let long = ScriptError::Syntax {
        line: 0,
        reason: Word::Long,
    };
    match read_session(alloc, bytes) {
        Ok(_) => false,
        Err(error) => error == long,
    }
}

#[test]
fn a_text_of_one_byte_too_many_is_refused(rt: HostRuntime) -> Result<(), Fail> {
    let mut bytes = vec![in rt.alloc(); b'*'; 16_777_217]?;
    assert!(rt; is_too_long(rt.alloc(), bytes.as_slice()));
    bytes.pop();
    let session = read_session(rt.alloc(), bytes.as_slice())?;
    assert!(rt; session.items.is_empty());
    Ok(())
}
