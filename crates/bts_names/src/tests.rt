// What no clause says: that the readers take the table's names, and that calls which take memory succeed
// where there is memory.
use crate::{
    Abcode, Blob, EventKind, Mode, Moment, Name16, Path, ProcName, ProcType, ProgName, Reason,
    Resp, Status, TimerStatus, Transid, map_of,
};
use std::test::Fail;

fn takers(bytes: &[u8]) -> [bool; 6] {
    [
        Transid::read(bytes).is_ok(),
        Abcode::read(bytes).is_ok(),
        ProcType::read(bytes).is_ok(),
        ProgName::read(bytes).is_ok(),
        Name16::read(bytes).is_ok(),
        ProcName::read(bytes).is_ok(),
    ]
}

#[test]
fn names_are_read(rt: HostRuntime) -> Result<(), Fail> {
    let table = [
        ("", 6),
        ("A", 0),
        ("ABCD", 0),
        ("ABCDE", 2),
        ("ABCDEFGH", 2),
        ("ABCDEFGHI", 4),
        ("ABCDEFGHIJKLMNOP", 4),
        ("ABCDEFGHIJKLMNOPQ", 5),
        ("ABCDEFGHIJKLMNOPQRSTUVWXYZ0123456789", 5),
        ("ABCDEFGHIJKLMNOPQRSTUVWXYZ0123456789a", 6),
        ("$", 0),
        ("@", 0),
        ("#", 0),
        (".", 0),
        ("-", 0),
        ("_", 0),
        ("z9", 0),
        ("A B", 6),
        ("A/B", 6),
        ("A:B", 6),
        ("A[", 6),
        ("A`", 6),
        ("é", 6),
        ("DF", 0),
        ("DFH", 6),
        ("DFHX", 6),
        ("dfh", 0),
        ("XDFH", 0),
        ("DFHINITIAL", 6),
        ("DFHROOT", 6),
    ];
    for (text, refusing) in table {
        let taken = takers(text.as_bytes());
        for (i, takes) in taken.iter().enumerate() {
            assert_eq!(rt; *takes, refusing <= i, "{text} {i}");
        }
    }

    let initial = Name16::read_any(b"DFHINITIAL".as_slice());
    assert_eq!(rt; initial, Ok(Name16::initial()));
    for (text, takes) in [
        ("A", true),
        ("DFHROOT", false),
        ("DFHINITIA", false),
        ("DFHINITIALS", false),
    ] {
        assert_eq!(rt; Name16::read_any(text.as_bytes()).is_ok(), takes, "{text}");
    }
    assert_eq!(rt; Name16::root().as_bytes(), b"DFHROOT".as_slice());
    Ok(())
}

#[test]
fn paths_moments_and_words(rt: HostRuntime) -> Result<(), Fail> {
    let mut path = Path::root();
    for n in 0..40 {
        match path.child(n) {
            Some(child) => path = child,
            None => break,
        }
    }
    assert_eq!(rt; path.as_slice().len(), 32);
    assert!(rt; Path::root().is_prefix_of(&path));
    assert!(rt; !path.is_prefix_of(&Path::root()));

    let last = Moment::from_seconds(253_402_300_799);
    assert_eq!(rt; last.and_then(|m| m.plus(0)), last);
    assert_eq!(rt; last.and_then(|m| m.plus(1)), None);
    assert_eq!(rt; Moment::from_seconds(253_402_300_800), None);

    for (word, resp, status, mode) in [
        ("NORMAL", Some(Resp::Normal), Some(Status::Normal), None),
        ("END", Some(Resp::End), None, None),
        ("ABEND", None, Some(Status::Abend), None),
        ("DORMANT", None, None, Some(Mode::Dormant)),
        ("ACTIVE", None, None, None),
        ("normal", None, None, None),
        ("", None, None, None),
    ] {
        assert_eq!(rt; Resp::from_word(word.as_bytes()), resp, "{word}");
        assert_eq!(rt; Status::from_word(word.as_bytes()), status, "{word}");
        assert_eq!(rt; Mode::from_word(word.as_bytes()), mode, "{word}");
    }
    assert_eq!(rt; Reason::from_number(22), Some(Reason::Ended));
    assert_eq!(rt; EventKind::from_number(5), None);
    assert_eq!(rt; TimerStatus::from_number(2), Some(TimerStatus::Forced));

    let mut blob = Blob::copy_of(rt.alloc(), b"ab".as_slice())?;
    blob.extend(b"cd".as_slice())?;
    blob.push(b'e')?;
    assert_eq!(rt; blob.as_slice(), b"abcde".as_slice());
    Ok(())
}

#[test]
fn a_map_is_made_of_its_entries(rt: HostRuntime) -> Result<(), Fail> {
    let alloc = rt.alloc();
    let mut entries = Vec::new(alloc);
    entries.push((1u32, b'a'))?;
    entries.push((2u32, b'b'))?;
    let map = map_of(alloc, entries)?;
    assert_eq!(rt; map.len(), 2);
    assert_eq!(rt; map.get(&2).copied(), Some(b'b'));
    Ok(())
}
