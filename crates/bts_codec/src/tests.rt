// What no clause says: payloads that are given byte for byte, bytes that are none, and that there is memory.
use crate::{DecodeError, decode, encode};
use bts_names::Blob;
use std::alloc::Global;
use std::test::Fail;

/// The notice for the child /1 of a process, number 5.
const NOTICE: &str = "03 05 00 01 54 01 50 01 01 01 00";

/// A request that defines a process, puts a container, gets it and returns.
const FIRST_RUN: &str =
    "01 01 00 06 4F 52 44 45 52 53 02 50 31 01 01 04 01 04 4F 52 44 31 04 52 4F 4F 54 00 00 00 0E 03 4D 53 47 02 05 68 65 6C 6C 6F 00 00 00 0F 03 4D 53 47 02 00 00 01 05 68 65 6C 6C 6F 1D 00 00 00 00";

/// A request without its count of calls.
const REQUEST: &str = "01 01 00 01 54 01 50 01 01";

/// A command without arguments, and its reply.
const SHORT_CALL: &str = "17 00 00 00";

/// The bytes that the text has as hexadecimal pairs.
fn bytes_of(alloc: Global, text: &str) -> Result<Vec<u8>, Fail> {
    let mut bytes = Vec::new(alloc);
    for pair in text.split(' ') {
        bytes.push(u8::from_str_radix(pair, 16)?)?;
    }
    Ok(bytes)
}

/// Whether the bytes are read as a unit whose payload they are.
fn comes_back(alloc: Global, text: &str) -> Result<bool, Fail> {
    let bytes = bytes_of(alloc, text)?;
    match decode(alloc, &bytes) {
        Ok(unit) => {
            let payload = encode(alloc, &unit)?;
            Ok(payload.as_slice() == bytes.as_slice())
        }
        Err(_) => Ok(false),
    }
}

fn is_malformed(alloc: Global, text: &str) -> Result<bool, Fail> {
    let bytes = bytes_of(alloc, text)?;
    Ok(matches!(decode(alloc, &bytes), Err(DecodeError::Malformed)))
}

/// A request with this one call.
fn calling(alloc: Global, call: &str) -> Result<String, Fail> {
    Ok(format!(in alloc; "{REQUEST} 01 {call}")?)
}

/// The front, and the part so many times behind it.
fn repeated(alloc: Global, front: &str, part: &str, count: usize) -> Result<String, Fail> {
    let mut text = String::from_str(alloc, front)?;
    for _ in 0..count {
        text.push_str(" ")?;
        text.push_str(part)?;
    }
    Ok(text)
}

#[test]
fn payloads_come_back(rt: HostRuntime) -> Result<(), Fail> {
    let alloc = rt.alloc();
    let table = [
        NOTICE,
        FIRST_RUN,
        "02 80 80 80 80 80 20 FF 82 D1 FF AF 07 01 54 01 50 00 02 04 4E 4F 52 54 00",
        "03 AC 02 00 08 54 54 54 54 54 54 54 54 01 50 02 01 FF FF FF FF 0F 01 00",
        "04 07 00 01 54 01 50 00 02 54 31 01 00",
    ];
    for text in table {
        assert!(rt; comes_back(alloc, text)?);
    }
    Ok(())
}

#[test]
fn a_notice_has_its_parts(rt: HostRuntime) -> Result<(), Fail> {
    let alloc = rt.alloc();
    let bytes = bytes_of(alloc, NOTICE)?;
    let unit = decode(alloc, &bytes).ok().ok_or("the bytes are a notice")?;
    assert_eq!(rt; unit.seq, 5);
    assert_eq!(rt; unit.moment.seconds(), 0);
    assert_eq!(rt; unit.calls.len(), 0);
    Ok(())
}

#[test]
fn calls_come_back(rt: HostRuntime) -> Result<(), Fail> {
    let alloc = rt.alloc();
    let table = [
        "01 01 41 01 42 00 00 00",
        "02 05 04 00",
        "03 01 01 00 00 00",
        "04 00 00 00",
        "05 01 41 00 01 54 01 50 00 00 02 01 01",
        "05 01 41 01 01 45 01 54 01 50 05 0D 00",
        "06 01 41 00 00 00",
        "07 01 01 41 01 00 00 00 07 01",
        "07 02 00 01 01 45 00 00 07 00",
        "08 03 00 00 00 07 01",
        "09 02 00 00 05 02 02 00 04 43 48 4C 44",
        "09 03 00 00 05 00 00 01 00",
        "0A 02 00 00 00",
        "0B 02 00 00 00",
        "0C 02 00 00 00",
        "0D 02 00 00 00",
        "0E 01 43 04 02 00 FF 00 00 00",
        "0E 01 43 00 00 02 0F 00",
        "0F 01 43 01 01 41 00 00 01 02 00 FF",
        "10 01 43 03 00 00 00",
        "11 01 45 00 00 00",
        "12 01 45 01 02 01 53 01 54 00 00 00",
        "12 01 45 00 08 01 41 01 42 01 43 01 44 01 45 01 46 01 47 01 48 00 00 00",
        "13 01 53 01 45 00 00 00",
        "14 01 53 01 45 00 00 00",
        "15 01 45 00 00 00",
        "16 01 45 00 00 04 01",
        "17 00 00 03 0A 44 46 48 49 4E 49 54 49 41 4C 00",
        "17 03 14 00",
        "18 01 45 00 00 03 01 53 04",
        "19 01 54 00 00 AC 02 00 00 00",
        "19 01 54 01 01 45 01 FF 82 D1 FF AF 07 00 00 00",
        "1A 01 54 00 00 00 00",
        "1A 01 54 02 00 00 00",
        "1B 01 54 00 00 06 01",
        "1C 01 54 00 00 00",
        "1D 00 00 00 08 00",
        "1D 01 00 00 08 01",
        "1E 04 42 41 44 31 00 00 08 02 04 42 41 44 31",
        "1F 00 00 00",
    ];
    for call in table {
        let text = calling(alloc, call)?;
        assert!(rt; comes_back(alloc, &text)?);
    }
    Ok(())
}

#[test]
fn payloads_of_no_unit_are_malformed(rt: HostRuntime) -> Result<(), Fail> {
    let alloc = rt.alloc();
    let table = [
        // a kind below the first
        "00 05 00 01 54 01 50 01 01 01 00",
        // and one above the last
        "05 05 00 01 54 01 50 01 01 01 00",
        // a number in a longer form
        "03 85 00 00 01 54 01 50 01 01 01 00",
        "03 05 80 00 01 54 01 50 01 01 01 00",
        "03 05 00 81 00 54 01 50 01 01 01 00",
        // the number 0
        "03 00 00 01 54 01 50 01 01 01 00",
        // the number behind the last
        "03 81 80 80 80 80 20 00 01 54 01 50 01 01 01 00",
        // a moment past the last
        "03 05 80 83 D1 FF AF 07 01 54 01 50 01 01 01 00",
        // names outside their grammar
        "03 05 00 00 01 50 01 01 01 00",
        "03 05 00 09 54 54 54 54 54 54 54 54 54 01 50 01 01 01 00",
        "03 05 00 03 44 46 48 01 50 01 01 01 00",
        "03 05 00 01 20 01 50 01 01 01 00",
        // a length past the end
        "03 05 00 7F 54 01 50 01 01 01 00",
        // a path with the number 0
        "03 05 00 01 54 01 50 01 00 01 00",
        // and with one of 33 bits
        "03 05 00 01 54 01 50 01 80 80 80 80 10 01 00",
        // ends that there are not
        "03 05 00 01 54 01 50 01 01 00 00",
        "03 05 00 01 54 01 50 01 01 03 00",
        // a notice that abends
        "03 05 00 01 54 01 50 01 01 02 04 42 41 44 31 00",
        // and one with a call
        "03 05 00 01 54 01 50 01 01 01 01 17 00 00 00",
        // a byte behind the last part
        "03 05 00 01 54 01 50 01 01 01 00 00",
        // a part less
        "03 05 00 01 54 01 50 01 01 01",
        // the item 0
        "01 01 00 01 54 01 50 00 01 00",
        // and one of 33 bits
        "01 01 00 01 54 01 50 80 80 80 80 10 01 00",
        // an empty code
        "02 01 00 01 54 01 50 00 02 00 00",
    ];
    for text in table {
        assert!(rt; is_malformed(alloc, text)?);
    }
    Ok(())
}

#[test]
fn calls_of_no_unit_are_malformed(rt: HostRuntime) -> Result<(), Fail> {
    let alloc = rt.alloc();
    let table = [
        // commands that there are not
        "00 00 00 00",
        "20 00 00 00",
        // a response and a reason that there are not
        "17 09 01 00",
        "17 01 17 00",
        // a reply NORMAL with a reason, another one without, and one with a value
        "17 00 01 00",
        "17 01 00 00",
        "17 01 01 04 01",
        // bytes that are no value, mode, status, flag, kind or leaving
        "17 00 00 09",
        "09 02 00 00 05 03 00 00 00",
        "09 02 00 00 05 00 04 00 00",
        "09 02 00 00 05 00 00 02 00",
        "17 00 00 03 01 45 05",
        "1B 01 54 00 00 06 03",
        "1D 00 00 00 08 03",
        "1D 02 00 00 00",
        // names and codes outside their grammar
        "17 00 00 03 07 44 46 48 52 4F 4F 54 00",
        "09 02 00 00 05 00 00 00 05 41 41 41 41 41",
        "1D 00 00 00 08 02 00",
        "06 00 00 00 00",
        "06 11 41 41 41 41 41 41 41 41 41 41 41 41 41 41 41 41 41 00 00 00",
        "11 0A 44 46 48 49 4E 49 54 49 41 4C 00 00 00",
        "01 05 41 41 41 41 41 01 42 00 00 00",
        // bytes that are no target, place, option or due
        "09 00 00 00 00",
        "09 04 00 00 00",
        "0F 01 43 05 00 00 00",
        "08 02 02 00 00 00",
        "1A 01 54 01 00 00 00",
        "19 01 54 00 02 00 00 00 00",
        // seconds of 33 bits, and a moment past the last
        "19 01 54 00 00 80 80 80 80 10 00 00 00",
        "19 01 54 00 01 80 83 D1 FF AF 07 00 00 00",
        // data past the end
        "0E 01 43 00 05 68 65 6C 6C",
        "0E 01 43 00 FF FF FF FF FF FF FF FF FF 01 68",
        // nine sub-events
        "12 01 45 00 09 01 41 01 42 01 43 01 44 01 45 01 46 01 47 01 48 01 49 00 00 00",
    ];
    for call in table {
        let text = calling(alloc, call)?;
        assert!(rt; is_malformed(alloc, &text)?);
    }
    Ok(())
}

#[test]
fn no_byte_is_malformed(rt: HostRuntime) -> Result<(), Fail> {
    let nothing = Blob::new(rt.alloc());
    assert!(rt;
        matches!(
            decode(rt.alloc(), nothing.as_slice()),
            Err(DecodeError::Malformed)
        )
    );
    Ok(())
}

#[test]
fn calls_are_five_hundred_at_most(rt: HostRuntime) -> Result<(), Fail> {
    let alloc = rt.alloc();
    let most = repeated(alloc, "01 01 00 01 54 01 50 01 01 F4 03", SHORT_CALL, 500)?;
    let more = repeated(alloc, "01 01 00 01 54 01 50 01 01 F5 03", SHORT_CALL, 501)?;
    assert!(rt; comes_back(alloc, &most)?);
    assert!(rt; is_malformed(alloc, &more)?);
    Ok(())
}

#[test]
fn paths_have_thirty_two_numbers_at_most(rt: HostRuntime) -> Result<(), Fail> {
    let alloc = rt.alloc();
    let most = repeated(alloc, "03 05 00 01 54 01 50 20", "01", 32)?;
    let more = repeated(alloc, "03 05 00 01 54 01 50 21", "01", 33)?;
    assert!(rt; comes_back(alloc, &repeated(alloc, &most, "01 00", 1)?)?);
    assert!(rt; is_malformed(alloc, &repeated(alloc, &more, "01 00", 1)?)?);
    Ok(())
}
