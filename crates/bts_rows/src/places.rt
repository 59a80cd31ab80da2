// Where a command stands, what it is about, and what that is found to be.
use bts_command::{Spot, Target};
use bts_names::Path;

/// What a request has acquired.
#[derive(Clone, Copy, Debug, PartialEq, Eq)]
pub enum Held {
    /// Nothing yet.
    Never,
    /// The process, by its definition or by ACQUIRE PROCESS.
    Process,
    /// The activity at this path.
    Activity(Path),
    /// A process that was purged: it holds nothing, and can acquire nothing more.
    Purged,
}

/// The frame in which a command stands.
#[derive(Clone, Copy, Debug)]
pub enum Here {
    /// That of the activity at a path.
    Activity(Path),
    /// A request's first one, with what it has acquired.
    Request(Held),
}

/// What a command is about, as its text names it.
#[derive(Clone, Copy, Debug)]
pub enum About {
    /// The frame's activity, or the one that a target names.
    Activity(Option<Target>),
    /// The process, as it is from that activity on.
    Family(Option<Target>),
    /// Containers that are only read.
    Reads(Spot),
    /// Containers.
    Writes(Spot),
    /// Nothing that a frame has.
    Nothing,
}

/// The thing that a command changes.
#[derive(Clone, Copy, Debug)]
pub enum Thing {
    /// The activity at a path.
    Activity(Path),
    /// The process, as it is from the activity at a path on.
    Family(Path),
    /// The containers of the process, which are only read.
    Shown,
    /// The containers of the process.
    Containers,
}

/// Why nothing is found.
#[derive(Clone, Copy, Debug)]
pub enum Unfound {
    /// The command, its target or its place doesn't stand in this frame.
    Place,
    /// The request hasn't acquired what the target names.
    NotAcquired,
    /// The activity isn't there.
    Missing,
    /// The process containers are only read there.
    ReadOnly,
}
