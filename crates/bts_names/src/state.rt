// The words for what activities, events and timers are.
ghost use Rattle.std.specs.Prelude.{◌≡◌, Option, Some, IfSome};
ghost use Rattle.bts_names.specs.Vocabulary.{mode_word, mode_number, stored_modes, status_word, status_number, statuses, kind_word, kind_number, kinds, timer_word, timer_number, timer_statuses, at_number, at_word};

/// Where an activity is in its life.
#[derive(Clone, Copy, Debug, PartialEq, Eq)]
pub enum Mode {
    Initial,
    /// It runs in an open frame; never stored.
    Active,
    Dormant,
    Complete,
}

impl Mode {
    /// Those that are stored, in the order of their numbers.
    const STORED: [Mode; 3] = [Mode::Initial, Mode::Dormant, Mode::Complete];

    /// The word that texts have.
    pub fn word(self) -> &'static str
        ensures { result.now ≡ mode_word self }
    {
        match self {
            Mode::Initial => "INITIAL",
            Mode::Active => "ACTIVE",
            Mode::Dormant => "DORMANT",
            Mode::Complete => "COMPLETE",
        }
    }

    /// The number in stored bytes; ACTIVE has none.
    pub fn number(self) -> Option<u8>
        ensures value { result ≡ mode_number self }
        ensures place { IfSome result (λ n. at_number stored_modes n ≡ Some self) }
    {
        match self {
            Mode::Initial => Some(0),
            Mode::Active => None,
            Mode::Dormant => Some(1),
            Mode::Complete => Some(2),
        }
    }

    /// The one with that number; None where there is none.
    pub fn from_number(n: u8) -> Option<Self>
        ensures { result ≡ at_number stored_modes n }
    {
        Mode::STORED.get(usize::from(n)).copied()
    }

    /// The one with that word; None where there is none, and at ACTIVE.
    pub fn from_word(bytes: &[u8]) -> Option<Self>
        ensures { result ≡ at_word mode_word stored_modes bytes.now }
    {
        Mode::STORED
            .iter()
            .find(|x| x.word().as_bytes() == bytes)
            .copied()
    }
}

/// How an activity completed.
#[derive(Clone, Copy, Debug, PartialEq, Eq)]
pub enum Status {
    Incomplete,
    Normal,
    Abend,
    Forced,
}

impl Status {
    /// All in the order of their numbers.
    const IN_ORDER: [Status; 4] = [
        Status::Incomplete,
        Status::Normal,
        Status::Abend,
        Status::Forced,
    ];

    /// The word that texts have.
    pub fn word(self) -> &'static str
        ensures value { result.now ≡ status_word self }
        ensures read_back { at_word status_word statuses result.now ≡ Some self }
    {
        match self {
            Status::Incomplete => "INCOMPLETE",
            Status::Normal => "NORMAL",
            Status::Abend => "ABEND",
            Status::Forced => "FORCED",
        }
    }

    /// The number in stored bytes.
    pub fn number(self) -> u8
        ensures value { result ≡ status_number self }
        ensures place { at_number statuses result ≡ Some self }
    {
        match self {
            Status::Incomplete => 0,
            Status::Normal => 1,
            Status::Abend => 2,
            Status::Forced => 3,
        }
    }

    /// The one with that number; None where there is none.
    pub fn from_number(n: u8) -> Option<Self>
        ensures { result ≡ at_number statuses n }
    {
        Status::IN_ORDER.get(usize::from(n)).copied()
    }

    /// The one with that word; None where there is none.
    pub fn from_word(bytes: &[u8]) -> Option<Self>
        ensures { result ≡ at_word status_word statuses bytes.now }
    {
        Status::IN_ORDER
            .iter()
            .find(|x| x.word().as_bytes() == bytes)
            .copied()
    }
}

/// What an event is.
#[derive(Clone, Copy, Debug, PartialEq, Eq)]
pub enum EventKind {
    /// DFHINITIAL, which first wakes an activity.
    System,
    Input,
    /// The completion of a child.
    Activity,
    Timer,
    Composite,
}

impl EventKind {
    /// All in the order of their numbers.
    const IN_ORDER: [EventKind; 5] = [
        EventKind::System,
        EventKind::Input,
        EventKind::Activity,
        EventKind::Timer,
        EventKind::Composite,
    ];

    /// The word that texts have.
    pub fn word(self) -> &'static str
        ensures { result.now ≡ kind_word self }
    {
        match self {
            EventKind::System => "SYSTEM",
            EventKind::Input => "INPUT",
            EventKind::Activity => "ACTIVITY",
            EventKind::Timer => "TIMER",
            EventKind::Composite => "COMPOSITE",
        }
    }

    /// The number in stored bytes.
    pub fn number(self) -> u8
        ensures value { result ≡ kind_number self }
        ensures place { at_number kinds result ≡ Some self }
    {
        match self {
            EventKind::System => 0,
            EventKind::Input => 1,
            EventKind::Activity => 2,
            EventKind::Timer => 3,
            EventKind::Composite => 4,
        }
    }

    /// The one with that number; None where there is none.
    pub fn from_number(n: u8) -> Option<Self>
        ensures { result ≡ at_number kinds n }
    {
        EventKind::IN_ORDER.get(usize::from(n)).copied()
    }
}

/// What became of a timer.
#[derive(Clone, Copy, Debug, PartialEq, Eq)]
pub enum TimerStatus {
    Unexpired,
    Expired,
    Forced,
}

impl TimerStatus {
    /// All in the order of their numbers.
    const IN_ORDER: [TimerStatus; 3] = [
        TimerStatus::Unexpired,
        TimerStatus::Expired,
        TimerStatus::Forced,
    ];

    /// The word that texts have.
    pub fn word(self) -> &'static str
        ensures { result.now ≡ timer_word self }
    {
        match self {
            TimerStatus::Unexpired => "UNEXPIRED",
            TimerStatus::Expired => "EXPIRED",
            TimerStatus::Forced => "FORCED",
        }
    }

    /// The number in stored bytes.
    pub fn number(self) -> u8
        ensures value { result ≡ timer_number self }
        ensures place { at_number timer_statuses result ≡ Some self }
    {
        match self {
            TimerStatus::Unexpired => 0,
            TimerStatus::Expired => 1,
            TimerStatus::Forced => 2,
        }
    }

    /// The one with that number; None where there is none.
    pub fn from_number(n: u8) -> Option<Self>
        ensures { result ≡ at_number timer_statuses n }
    {
        TimerStatus::IN_ORDER.get(usize::from(n)).copied()
    }
}
