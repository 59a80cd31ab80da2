// What no clause says: what is printed of sessions written by hand, and that there is memory for them.
use crate::top_call::{Outcome, bts_command};
use bts_command::{Command, End, UnitKind};
use bts_io::{MemorySink, MemorySource, Sink, SinkFail, read_all};
use bts_names::{Blob, Reason, Resp};
use std::alloc::Global;
use std::test::Fail;

const OPENING: &str = "REQUEST ORDERS P1\nDEFINE PROCESS TRANSID(ORD1) PROGRAM(ROOT)\n";

const HEAD: &str = "1 REQUEST ORDERS P1 1970-01-01T00:00:00 COMMIT\n  DEFINE PROCESS NORMAL\n";

const GET: &str = "GET CONTAINER(MSG) ACQPROCESS\n";

const PUT: &str = "  PUT CONTAINER(MSG) NORMAL\n";

/// A sink that takes at most five bytes at a time.
#[derive(Drop)]
struct Narrow {
    sink: MemorySink,
}

impl Sink for Narrow {
    ghost use Rattle.std.specs.Prelude.{Some};

    ghost held = { λ s. Some s.sink.held };

    ghost faults = { λ s. s.sink.plan.faults };

    fn write(&mut self, bytes: &[u8]) -> Result<usize, SinkFail> {
        self.sink.write(&bytes[..bytes.len().min(5)])
    }
}

/// The part, so many times.
fn times(alloc: Global, part: &str, count: usize) -> Result<String, Fail> {
    let mut text = String::new(alloc);
    for _ in 0..count {
        text.push_str(part)?;
    }
    Ok(text)
}

/// The list of calls that fail: the one of that number, and none at 0.
fn failing(alloc: Global, number: u64) -> Result<Vec<u64>, Fail> {
    let mut numbers = Vec::new(alloc);
    if 0 < number {
        numbers.push(number)?;
    }
    Ok(numbers)
}

fn words_of(alloc: Global, line: &str) -> Result<Vec<String>, Fail> {
    let mut words = Vec::new(alloc);
    for word in line.split(' ') {
        words.push(String::from_str(alloc, word)?)?;
    }
    Ok(words)
}

/// What words come to on a text whose source and sink don't fail.
fn run(alloc: Global, line: &str, text: &str, sink: &mut MemorySink) -> Result<Outcome, Fail> {
    let bytes = Blob::copy_of(alloc, text.as_bytes())?;
    let mut source = MemorySource::new(bytes, Vec::new(alloc));
    let words = words_of(alloc, line)?;
    Ok(bts_command(alloc, &words, &mut source, sink))
}

/// Whether a run on the first session, over a narrow sink, gets that answer where those calls fail.
fn tells(
    alloc: Global,
    line: &str,
    failing_calls: [u64; 2],
    status: u8,
    told: &str,
) -> Result<bool, Fail> {
    let text = format!(in alloc; "{OPENING}END\n")?;
    let bytes = Blob::copy_of(alloc, text.as_bytes())?;
    let mut source = MemorySource::new(bytes, failing(alloc, failing_calls[0])?);
    let sink = MemorySink::new(alloc, failing(alloc, failing_calls[1])?);
    let mut narrow = Narrow { sink };
    let words = words_of(alloc, line)?;
    let outcome = bts_command(alloc, &words, &mut source, &mut narrow);
    Ok(outcome.status == status && narrow.sink.bytes() == told.as_bytes())
}

/// Whether a report with two GETs of 32,768 bytes gets that answer where that write fails: so many pieces are told.
fn tells_long(alloc: Global, failing_call: u64, status: u8, pieces: usize) -> Result<bool, Fail> {
    let put = "PUT CONTAINER(MSG) ACQPROCESS FROM(FILL(32768))\n";
    let text = format!(in alloc; "{OPENING}{put}{GET}{GET}END\n")?;
    let bytes = times(alloc, "2A", 32_768)?;
    let got = format!(in alloc; "  GET CONTAINER(MSG) NORMAL X'{bytes}'\n")?;
    let first = format!(in alloc; "{HEAD}{PUT}{got}")?;
    let mut told = String::new(alloc);
    for piece in [first.as_str(), got.as_str(), "  RETURN NORMAL\n", "END 1\n"]
        .iter()
        .take(pieces)
    {
        told.push_str(piece)?;
    }
    let mut sink = MemorySink::new(alloc, failing(alloc, failing_call)?);
    let outcome = run(alloc, "run F", &text, &mut sink)?;
    Ok(outcome.status == status && outcome.history.is_some() && sink.bytes() == told.as_bytes())
}

#[test]
fn faults_and_wrong_words_are_told(rt: HostRuntime) -> Result<(), Fail> {
    let alloc = rt.alloc();
    let table = [
        ("run", [1, 0], 2, "words refused\n"),
        ("run -F", [0, 0], 2, "words refused\n"),
        ("run ", [0, 0], 2, "words refused\n"),
        ("check F", [0, 0], 2, "words refused\n"),
        ("run F --live", [0, 0], 2, "words refused\n"),
        ("run F --limit=3", [0, 0], 2, "words refused\n"),
        ("run F --limit", [0, 0], 2, "words refused\n"),
        ("run F --limit 03", [0, 0], 2, "words refused\n"),
        ("run F --limit 1000001", [0, 0], 2, "words refused\n"),
        ("run --limit 3 F", [0, 0], 2, "words refused\n"),
        ("run F --limit 3 --limit 3", [0, 0], 2, "words refused\n"),
        ("run F", [1, 0], 4, "source fault\n"),
        ("run F", [1, 1], 5, ""),
        ("run F", [0, 1], 5, ""),
        ("run F", [0, 5], 5, "1 REQUEST ORDERS P1 "),
    ];
    for (line, failing_calls, status, told) in table {
        assert!(rt;
            tells(alloc, line, failing_calls, status, told)?,
            "at {line} {failing_calls:?}"
        );
    }
    Ok(())
}

/// A piece is what is written at once: 65,536 bytes or more, with the line that makes it so, what is left at the end,
/// and the tail line.
#[test]
fn long_reports_go_in_pieces(rt: HostRuntime) -> Result<(), Fail> {
    let alloc = rt.alloc();
    let table = [
        (0, 0, 4),
        (1, 5, 0),
        (2, 5, 1),
        (3, 5, 2),
        (4, 5, 3),
        (5, 0, 4),
    ];
    for (failing_call, status, pieces) in table {
        assert!(rt;
            tells_long(alloc, failing_call, status, pieces)?,
            "at {failing_call}"
        );
    }
    Ok(())
}

#[test]
fn a_text_above_the_limit_is_read_no_further(rt: HostRuntime) -> Result<(), Fail> {
    let alloc = rt.alloc();
    let bytes = Blob::from_vec(vec![in alloc; b'*'; 16_777_218]?);
    let mut source = MemorySource::new(bytes, Vec::new(alloc));
    let mut sink = MemorySink::new(alloc, Vec::new(alloc));
    let words = words_of(alloc, "run F")?;
    let outcome = bts_command(alloc, &words, &mut source, &mut sink);
    assert_eq!(rt; outcome.status, 1);
    assert_eq!(rt; sink.bytes(), b"session: line 0 Long\n".as_slice());
    assert_eq!(rt; read_all(alloc, &mut source, 9)?.len(), 1);
    Ok(())
}

#[test]
fn a_request_is_one_unit(rt: HostRuntime) -> Result<(), Fail> {
    let alloc = rt.alloc();
    let mut sink = MemorySink::new(alloc, Vec::new(alloc));
    let text = format!(in alloc; "{OPENING}{GET}END\n")?;
    let outcome = run(alloc, "run F", &text, &mut sink)?;
    let history = outcome.history.ok_or("no history")?;
    assert_eq!(rt; history.len(), 1);
    let unit = history.as_slice().first().ok_or("no unit")?;
    assert!(rt; matches!(unit.unit, UnitKind::Request { item: 1, .. }));
    assert!(rt; unit.moment.seconds() == 0 && unit.end == End::Commit && unit.seq == 1);
    assert_eq!(rt; unit.calls.len(), 3);
    let call = unit.calls.as_slice().get(1).ok_or("no call")?;
    assert!(rt; matches!(call.command, Command::GetContainer { .. }));
    assert!(rt; call.reply.resp == Resp::Containererr && call.reply.reason == Reason::Missing);
    Ok(())
}
