// The top call of the program.
ghost use Rattle.std.specs.Prelude.{◌≡◌, ◌≢◌, ◌⊎◌, ◌≤◌, true, false, map, string_bytes, IfSome, IsSome, Some, None, Result, Ok, Err};
ghost use Rattle.bts_io.specs.Faults.{Rose};
ghost use Rattle.bts_io.specs.Streams.{ConsumesWithin};
ghost use Rattle.bts_script.specs.Blocks.{Refusal};
ghost use Rattle.bts_tool.specs.Words.{greatest_limit, limit_of};
ghost use Rattle.bts_tool.specs.Tail.{counted_line};
ghost use Rattle.bts_tool.specs.declared.cause.Cause.{Cause};
ghost use Rattle.bts_tool.specs.declared.cause.Cause.TheVariants as causes;
ghost use Rattle.bts_tool.specs.declared.session.Ran.{Ran};
ghost use Rattle.bts_tool.specs.Causes.{IsRead, IsSaid, IsHistory, IsLimited, IsSomeOf, IsUnread, IsWhole, Meets, MeetsText, Tells, TellsText, has_history, read_limit, is_status, stop_line, stop_status};

use crate::cause::{Cause, bad_session_line};
use crate::session::{Ran, do_session};
use crate::tail::add_counted_line;
use crate::words::limit_of;
use bts_command::History;
use bts_driver::Stop;
use bts_io::{ReadFault, Sink, Source, read_all, write_all};
use bts_names::Blob;
use bts_report::{TellError, write_report};
use bts_script::{ScriptError, Word};
use bts_session::read_session;
use std::alloc::Global;

/// The bytes of the longest session, and one more.
const READ_LIMIT: usize = 16_777_217;

/// What a call of the program came to: its exit status, and, where a request was done, the units of work
/// that ended.
#[derive(Debug, Drop)]
pub struct Outcome {
    pub status: u8,
    pub history: Option<History>,
}

/// Does the session that the bytes say, with at most so many activations.
fn do_text(alloc: Global, text: &[u8], limit: u32) -> Result<Ran, Cause>
    requires { limit ≤ greatest_limit }
    ensures { MeetsText text.now limit result }
{
    let session = match read_session(alloc, text) {
        Ok(session) => session,
        Err(ScriptError::Syntax { line, reason }) => return Err(Cause::BadSession { line, reason }),
        Err(ScriptError::NoMemory) => return Err(Cause::NoMemory),
    };
    match do_session(alloc, session, u64::from(limit)) {
        Ok(ran) => Ok(ran),
        Err(_) => Err(Cause::NoMemory),
    }
}

/// Looks at the words, reads the source, and does the session that it holds.
fn run<S: Source>(alloc: Global, words: &[String], source: &mut S) -> Result<Ran, Cause>
    ensures met { Meets (limit_of (map string_bytes words.now)) (S.left source.old) (S.left source.new)
        (S.faults source.old) (S.faults source.new) result }
    ensures within { ConsumesWithin (S.left source.old) (S.left source.new) read_limit }
    ensures later { S.faults source.old ≤ S.faults source.new }
{
    let Some(limit) = limit_of(words) else {
        return Err(Cause::WordsRefused);
    };
    match read_all(alloc, source, READ_LIMIT) {
        Ok(text) => do_text(alloc, text.as_slice(), limit),
        Err(ReadFault::Source) => Err(Cause::SourceFault),
        Err(ReadFault::NoMemory) => Err(Cause::NoMemory),
    }
}

/// Writes a text, and hands out the history with the status, or with the sink's.
fn tell<K: Sink>(sink: &mut K, text: &[u8], status: u8, history: Option<History>) -> Outcome
    requires { status ≢ 5 }
    ensures history { result.history ≡ history }
    ensures told { TellsText false text.now status result.status (K.held sink.old) (K.held sink.new) }
    ensures made { TellsText true text.now status result.status (K.held sink.old) (K.held sink.new) }
    ensures fault { result.status ≡ 5 → Rose (K.faults sink.old) (K.faults sink.new) }
    ensures later { K.faults sink.old ≤ K.faults sink.new }
{
    match write_all(sink, text) {
        Ok(()) => Outcome { status, history },
        Err(_) => Outcome { status: 5, history },
    }
}

/// Tells want of memory where no session was done.
#[tactic(auto, unfolding(crate::specs::Causes::tail_line))]
pub fn tell_no_memory<K: Sink>(sink: &mut K) -> Outcome
    ensures told { Tells (Err causes.NoMemory) result.status result.history (K.held sink.old) (K.held sink.new) }
    ensures fault { result.status ≡ 5 → Rose (K.faults sink.old) (K.faults sink.new) }
    ensures later { K.faults sink.old ≤ K.faults sink.new }
{
    tell(sink, b"no memory\n", 8, None)
}

/// Tells the first bad line of a session.
fn tell_bad_session<K: Sink>(alloc: Global, sink: &mut K, line: u32, reason: Word) -> Outcome
    ensures told { Tells (Err (causes.BadSession line reason)) result.status result.history
        (K.held sink.old) (K.held sink.new) }
    ensures fault { result.status ≡ 5 → Rose (K.faults sink.old) (K.faults sink.new) }
    ensures later { K.faults sink.old ≤ K.faults sink.new }
{
    match bad_session_line(alloc, line, reason) {
        Ok(text) => tell(sink, text.as_slice(), 1, None),
        Err(_) => Outcome {
            status: 8,
            history: None,
        },
    }
}

/// Tells a word and a count.
fn tell_count<K: Sink>(
    alloc: Global,
    sink: &mut K,
    history: History,
    word: &[u8],
    n: u64,
    status: u8,
) -> Outcome
    requires { status ≢ 5 }
    ensures history { result.history ≡ Some history }
    ensures told { TellsText true (counted_line word.now n) status result.status
        (K.held sink.old) (K.held sink.new) }
    ensures fault { result.status ≡ 5 → Rose (K.faults sink.old) (K.faults sink.new) }
    ensures later { K.faults sink.old ≤ K.faults sink.new }
{
    let mut line = Blob::new(alloc);
    match add_counted_line(&mut line, word, n) {
        Ok(()) => tell(sink, line.as_slice(), status, Some(history)),
        Err(_) => Outcome {
            status: 8,
            history: Some(history),
        },
    }
}

/// Tells why a session goes no further.
#[tactic(auto, unfolding(crate::specs::Causes::tail_line))]
fn tell_stop<K: Sink>(alloc: Global, sink: &mut K, history: History, stop: Stop) -> Outcome
    ensures history { result.history ≡ Some history }
    ensures told { TellsText true (stop_line history stop) (stop_status stop) result.status
        (K.held sink.old) (K.held sink.new) }
    ensures fault { result.status ≡ 5 → Rose (K.faults sink.old) (K.faults sink.new) }
    ensures later { K.faults sink.old ≤ K.faults sink.new }
{
    match stop {
        Stop::Done => {
            let count = history.len() as u64;
            tell_count(alloc, sink, history, b"END", count, 0)
        }
        Stop::Limit { count } => tell_count(alloc, sink, history, b"limit", count, 7),
        Stop::NoMemory => tell(sink, b"no memory\n", 8, Some(history)),
    }
}

/// Tells a session that was done, or that stopped: its report as it is made, and then why it goes no further.
fn tell_ran<K: Sink>(alloc: Global, sink: &mut K, ran: Ran) -> Outcome
    ensures told { Tells (Ok ran) result.status result.history (K.held sink.old) (K.held sink.new) }
    ensures fault { result.status ≡ 5 → Rose (K.faults sink.old) (K.faults sink.new) }
    ensures later { K.faults sink.old ≤ K.faults sink.new }
{
    let Ran { history, stop } = ran;
    match write_report(alloc, sink, history.as_slice()) {
        Ok(()) => tell_stop(alloc, sink, history, stop),
        Err(TellError::Sink) => Outcome {
            status: 5,
            history: Some(history),
        },
        Err(TellError::NoMemory) => Outcome {
            status: 8,
            history: Some(history),
        },
    }
}

/// Tells why no session was done.
#[tactic(auto, unfolding(crate::specs::Causes::tail_line))]
fn tell_cause<K: Sink>(alloc: Global, sink: &mut K, cause: Cause) -> Outcome
    ensures told { Tells (Err cause) result.status result.history (K.held sink.old) (K.held sink.new) }
    ensures fault { result.status ≡ 5 → Rose (K.faults sink.old) (K.faults sink.new) }
    ensures later { K.faults sink.old ≤ K.faults sink.new }
{
    match cause {
        Cause::WordsRefused => tell(sink, b"words refused\n", 2, None),
        Cause::SourceFault => tell(sink, b"source fault\n", 4, None),
        Cause::BadSession { line, reason } => tell_bad_session(alloc, sink, line, reason),
        Cause::NoMemory => tell_no_memory(sink),
    }
}

/// Tells what was found.
fn tell_found<K: Sink>(alloc: Global, sink: &mut K, found: Result<Ran, Cause>) -> Outcome
    ensures told { Tells found result.status result.history (K.held sink.old) (K.held sink.new) }
    ensures fault { result.status ≡ 5 → Rose (K.faults sink.old) (K.faults sink.new) }
    ensures later { K.faults sink.old ≤ K.faults sink.new }
{
    match found {
        Ok(ran) => tell_ran(alloc, sink, ran),
        Err(cause) => tell_cause(alloc, sink, cause),
    }
}

/// Does what the words ask for, `run FILE` with perhaps `--limit N`: reads the source, does the session that it holds in
/// its one serial order, from the empty repository on and with at most so many activations, and writes the report and
/// the tail line to the sink. The causes are met in the order words, source, bytes, limit; a sink that fails gives the
/// status 5 whatever came before; want of memory gives 8, and may come at any time behind the words.
pub fn bts_command<S: Source, K: Sink>(
    alloc: Global,
    words: &[String],
    source: &mut S,
    sink: &mut K,
) -> Outcome
    // 0 done, 1 no session, 2 words refused, 4 source fault, 5 sink fault, 7 limit, 8 no memory.
    ensures known { is_status result.status ≡ true }
    ensures done { result.status ≡ 0 → IsSomeOf result.history (IsWhole (limit_of (map string_bytes words.now)) (S.left source.old)) }
    ensures no_session { result.status ≡ 1 → (why : Refusal) × IsSaid (S.left source.old) (Err why) }
    ensures words_refused { result.status ≡ 2 → limit_of (map string_bytes words.now) ≡ None }
    ensures source_fault { result.status ≡ 4 → Rose (S.faults source.old) (S.faults source.new) }
    ensures sink_fault { result.status ≡ 5 → Rose (K.faults sink.old) (K.faults sink.new) }
    ensures limited { result.status ≡ 7 → IsSomeOf result.history (IsLimited (limit_of (map string_bytes words.now)) (S.left source.old)) }

    // Refused words decide before anything is read; with the status 1, and wherever a history is there, all is read.
    ensures words_first { limit_of (map string_bytes words.now) ≡ None
        → ((result.status ≡ 2) ⊎ (result.status ≡ 5)) × IsUnread (S.left source.old) (S.left source.new) (S.faults source.old) (S.faults source.new) }
    ensures read { (result.status ≡ 1) ⊎ IsSome result.history → IsRead (S.left source.old) (S.left source.new) }
    ensures within { ConsumesWithin (S.left source.old) (S.left source.new) read_limit }

    // The history is a front of the serial one of the session which the source held.
    ensures history { IfSome result.history (IsHistory (limit_of (map string_bytes words.now)) (S.left source.old)) }
    ensures history_there { IsSome result.history → has_history result.status ≡ true }

    // What is written is a front of the report and tail line of the first cause that is met, and all of it but
    // where the sink failed or there was no memory for it; nothing follows a front. The tail line of a bad session
    // tells its first bad line and the reason.
    ensures text { (found : Result Ran Cause)
        × Meets (limit_of (map string_bytes words.now)) (S.left source.old) (S.left source.new)
        (S.faults source.old) (S.faults source.new) found
        × Tells found result.status result.history (K.held sink.old) (K.held sink.new) }
    ensures source_count { S.faults source.old ≤ S.faults source.new }
    ensures sink_count { K.faults sink.old ≤ K.faults sink.new }
{
    let found = run(alloc, words, source);
    tell_found(alloc, sink, found)
}
