// A row against criteria, each part once as it is and once otherwise.
use crate::Criteria;
use bts_names::{BadName, Key, Mode, Name, Name16, Path, Row, Status};
use std::test::Fail;

/// The one row: a suspended activity of the process P1.
fn row() -> Result<Row, BadName> {
    Ok(Row {
        key: Key {
            ptype: Name::read(b"ORDERS")?,
            pname: Name::read(b"P1")?,
        },
        generation: 1,
        path: Path::root(),
        name: Name16::root(),
        mode: Mode::Complete,
        status: Status::Forced,
        suspended: true,
        queued: 0,
        transid: Name::read(b"ORD1")?,
        program: Name::read(b"ROOT")?,
    })
}

/// A name, and none at an empty text.
fn named<K, const MOST: usize>(text: &str) -> Option<Name<K, MOST>> {
    Name::read(text.as_bytes()).ok()
}

#[test]
fn rows_meet_what_they_have(rt: HostRuntime) -> Result<(), Fail> {
    let table = [
        ("", "", None, None, false, true),
        (
            "ORDERS",
            "P1",
            Some(Mode::Complete),
            Some(Status::Forced),
            true,
            true,
        ),
        ("ORDER", "", None, None, false, false),
        ("", "P10", None, None, false, false),
        ("", "", Some(Mode::Initial), None, false, false),
        ("", "", None, Some(Status::Normal), false, false),
    ];
    for (ptype, pname, mode, status, suspended, met) in table {
        let criteria = Criteria {
            ptype: named(ptype),
            pname: named(pname),
            mode,
            status,
            suspended,
        };
        assert_eq!(rt; criteria.is_met_by(&row()?), met);
    }
    let asks = Criteria {
        ptype: None,
        pname: None,
        mode: None,
        status: None,
        suspended: true,
    };
    let awake = Row {
        suspended: false,
        ..row()?
    };
    assert!(rt; !asks.is_met_by(&awake));
    Ok(())
}
