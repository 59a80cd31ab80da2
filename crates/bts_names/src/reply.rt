// What a command answers.
ghost use Rattle.std.specs.Prelude.{◌≡◌, Some};
ghost use Rattle.bts_names.specs.Vocabulary.{resp_word, resp_number, resps, reason_word, reason_number, reasons, at_number, at_word};

use crate::{Abcode, Blob, EventKind, Mode, Name16, Path, Status, TimerStatus};
use thiserror::Error;

/// The response to a command.
#[derive(Clone, Copy, Debug, PartialEq, Eq)]
pub enum Resp {
    Normal,
    Invreq,
    Lengerr,
    End,
    Processerr,
    Activityerr,
    Containererr,
    Eventerr,
    Timererr,
}

impl Resp {
    /// All in the order of their numbers.
    const IN_ORDER: [Resp; 9] = [
        Resp::Normal,
        Resp::Invreq,
        Resp::Lengerr,
        Resp::End,
        Resp::Processerr,
        Resp::Activityerr,
        Resp::Containererr,
        Resp::Eventerr,
        Resp::Timererr,
    ];

    /// The word that texts have.
    pub fn word(self) -> &'static str
        ensures value { result.now ≡ resp_word self }
        ensures read_back { at_word resp_word resps result.now ≡ Some self }
    {
        match self {
            Resp::Normal => "NORMAL",
            Resp::Invreq => "INVREQ",
            Resp::Lengerr => "LENGERR",
            Resp::End => "END",
            Resp::Processerr => "PROCESSERR",
            Resp::Activityerr => "ACTIVITYERR",
            Resp::Containererr => "CONTAINERERR",
            Resp::Eventerr => "EVENTERR",
            Resp::Timererr => "TIMERERR",
        }
    }

    /// The number in stored bytes.
    pub fn number(self) -> u8
        ensures value { result ≡ resp_number self }
        ensures place { at_number resps result ≡ Some self }
    {
        match self {
            Resp::Normal => 0,
            Resp::Invreq => 1,
            Resp::Lengerr => 2,
            Resp::End => 3,
            Resp::Processerr => 4,
            Resp::Activityerr => 5,
            Resp::Containererr => 6,
            Resp::Eventerr => 7,
            Resp::Timererr => 8,
        }
    }

    /// The one with that number; None where there is none.
    pub fn from_number(n: u8) -> Option<Self>
        ensures { result ≡ at_number resps n }
    {
        Resp::IN_ORDER.get(usize::from(n)).copied()
    }

    /// The one with that word; None where there is none.
    pub fn from_word(bytes: &[u8]) -> Option<Self>
        ensures { result ≡ at_word resp_word resps bytes.now }
    {
        Resp::IN_ORDER
            .iter()
            .find(|x| x.word().as_bytes() == bytes)
            .copied()
    }
}

/// Why a command was refused; None where it was not. It is shown as its word.
#[derive(Clone, Copy, Debug, PartialEq, Eq, Error)]
#[error("{}", self.word())]
pub enum Reason {
    None,
    Place,
    Acquired,
    NotAcquired,
    Taken,
    Missing,
    Mode,
    Started,
    InputGiven,
    InputMissing,
    Kind,
    Fired,
    Depth,
    Limit,
    ReadOnly,
    Long,
    NotAtomic,
    NotComposite,
    IsSubevent,
    NotSubevent,
    Empty,
    Range,
    Ended,
}

impl Reason {
    /// All in the order of their numbers.
    const IN_ORDER: [Reason; 23] = [
        Reason::None,
        Reason::Place,
        Reason::Acquired,
        Reason::NotAcquired,
        Reason::Taken,
        Reason::Missing,
        Reason::Mode,
        Reason::Started,
        Reason::InputGiven,
        Reason::InputMissing,
        Reason::Kind,
        Reason::Fired,
        Reason::Depth,
        Reason::Limit,
        Reason::ReadOnly,
        Reason::Long,
        Reason::NotAtomic,
        Reason::NotComposite,
        Reason::IsSubevent,
        Reason::NotSubevent,
        Reason::Empty,
        Reason::Range,
        Reason::Ended,
    ];

    /// The word that texts have.
    pub fn word(self) -> &'static str
        ensures { result.now ≡ reason_word self }
    {
        match self {
            Reason::None => "None",
            Reason::Place => "Place",
            Reason::Acquired => "Acquired",
            Reason::NotAcquired => "NotAcquired",
            Reason::Taken => "Taken",
            Reason::Missing => "Missing",
            Reason::Mode => "Mode",
            Reason::Started => "Started",
            Reason::InputGiven => "InputGiven",
            Reason::InputMissing => "InputMissing",
            Reason::Kind => "Kind",
            Reason::Fired => "Fired",
            Reason::Depth => "Depth",
            Reason::Limit => "Limit",
            Reason::ReadOnly => "ReadOnly",
            Reason::Long => "Long",
            Reason::NotAtomic => "NotAtomic",
            Reason::NotComposite => "NotComposite",
            Reason::IsSubevent => "IsSubevent",
            Reason::NotSubevent => "NotSubevent",
            Reason::Empty => "Empty",
            Reason::Range => "Range",
            Reason::Ended => "Ended",
        }
    }

    /// The number in stored bytes.
    pub fn number(self) -> u8
        ensures value { result ≡ reason_number self }
        ensures place { at_number reasons result ≡ Some self }
    {
        match self {
            Reason::None => 0,
            Reason::Place => 1,
            Reason::Acquired => 2,
            Reason::NotAcquired => 3,
            Reason::Taken => 4,
            Reason::Missing => 5,
            Reason::Mode => 6,
            Reason::Started => 7,
            Reason::InputGiven => 8,
            Reason::InputMissing => 9,
            Reason::Kind => 10,
            Reason::Fired => 11,
            Reason::Depth => 12,
            Reason::Limit => 13,
            Reason::ReadOnly => 14,
            Reason::Long => 15,
            Reason::NotAtomic => 16,
            Reason::NotComposite => 17,
            Reason::IsSubevent => 18,
            Reason::NotSubevent => 19,
            Reason::Empty => 20,
            Reason::Range => 21,
            Reason::Ended => 22,
        }
    }

    /// The one with that number; None where there is none.
    pub fn from_number(n: u8) -> Option<Self>
        ensures { result ≡ at_number reasons n }
    {
        Reason::IN_ORDER.get(usize::from(n)).copied()
    }
}

/// How an activity's frame was left.
#[derive(Clone, Copy, Debug, PartialEq, Eq)]
pub enum Leaving {
    Dormant,
    Complete,
    Abended(Abcode),
}

/// What a reply gives beside its response and reason.
#[derive(Debug, Drop, PartialEq, Eq)]
pub enum Value {
    Nothing,
    /// The bytes of a container.
    Bytes(Blob),
    /// The path of a new activity.
    Id(Path),
    /// A retrieved event.
    Event {
        name: Name16,
        kind: EventKind,
    },
    /// Whether an event is fired.
    Fired(bool),
    /// What an activity is; the code is that of its abend.
    Activity {
        mode: Mode,
        status: Status,
        suspended: bool,
        code: Option<Abcode>,
    },
    Timer(TimerStatus),
    /// Whether the target ran at once (RAN), or waits (WAITS).
    Ran(bool),
    Left(Leaving),
}

/// What a command answers. A NORMAL one has the reason None; every other one has another reason and the
/// value Nothing.
#[derive(Debug, Drop, PartialEq, Eq)]
pub struct Reply {
    pub resp: Resp,
    pub reason: Reason,
    pub value: Value,
}
