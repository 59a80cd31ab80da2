// What no clause says: that lines and blocks are read where there is memory.
use crate::{Place, Programs, Script, ScriptError, Word, read_block, read_line};
use bts_names::ProgName;
use std::alloc::Global;
use std::test::Fail;

/// Whether the line is refused so in a request's block.
fn is_refused(alloc: Global, text: &str, why: Word) -> bool {
    let Ok(Err(reason)) = read_line(alloc, Some(Place::Request), text.as_bytes()) else {
        return false;
    };
    reason == why
}

/// Whether the line says something in such a block.
fn is_read(alloc: Global, place: Place, text: &str) -> bool {
    match read_line(alloc, Some(place), text.as_bytes()) {
        Ok(said) => said.is_ok(),
        Err(_) => false,
    }
}

#[test]
fn a_line_is_read(rt: HostRuntime) -> Result<(), Fail> {
    assert!(rt; is_read(rt.alloc(), Place::Request, "GET CONTAINER(MSG) ACQPROCESS"));
    assert!(rt; is_read(rt.alloc(), Place::Program, "RETURN ENDACTIVITY"));
    assert!(rt; is_refused(rt.alloc(), "WHEN DATA(x) GOTO L", Word::Literal));
    Ok(())
}

/// Whether the block has so many statements.
#[tactic(auto, using(crate::proofs::FirstLines::few_lines))]
fn has(alloc: Global, place: Place, text: &str, statements: usize) -> bool {
    let bytes = text.as_bytes();
    if bytes.len() > 1000 {
        return false;
    }
    match read_block(alloc, bytes, 1, place) {
        Ok(script) => script.len() == statements,
        Err(_) => false,
    }
}

#[test]
fn a_block_is_read(rt: HostRuntime) -> Result<(), Fail> {
    let text =
        "* GOTO Z\nLABEL X\n\nWHEN DATA('LABEL Z') GOTO Y\r\nPUT CONTAINER(MSG) FROM('a)b')\nLABEL Y\nGOTO X";
    assert!(rt; has(rt.alloc(), Place::Program, text, 5));
    Ok(())
}

/// Whether that line of the block, whose lines count from 10, is the first bad one, and is refused so.
#[tactic(auto, using(crate::proofs::FirstLines::few_lines))]
fn has_bad_line(alloc: Global, text: &str, line: u32, reason: Word) -> bool {
    let bytes = text.as_bytes();
    if bytes.len() > 1000 {
        return false;
    }
    match read_block(alloc, bytes, 10, Place::Request) {
        Ok(_) => false,
        Err(error) => error == ScriptError::Syntax { line, reason },
    }
}

#[test]
fn a_bad_block_is_refused(rt: HostRuntime) -> Result<(), Fail> {
    assert!(rt;
        has_bad_line(
            rt.alloc(),
            "RETURN\nHELLO\nLABEL L\nLABEL L",
            11,
            Word::Word
        )
    );
    assert!(rt; has_bad_line(rt.alloc(), "LABEL L\nLABEL L\nGOTO X", 11, Word::Twice));
    Ok(())
}

/// Whether a program is found once it is put.
fn is_found(alloc: Global, name: &str) -> bool {
    let Ok(name) = ProgName::read(name.as_bytes()) else {
        return false;
    };
    let mut programs = Programs::new(alloc);
    if programs.push(name, Script::new(alloc)).is_err() {
        return false;
    }
    programs.holds(name) && programs.get(name).is_some()
}

#[test]
fn programs_are_found(rt: HostRuntime) -> Result<(), Fail> {
    assert!(rt; is_found(rt.alloc(), "ROOT"));
    Ok(())
}
