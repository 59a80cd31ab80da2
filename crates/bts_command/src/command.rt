// Commands, and the calls that are made of them.
ghost use Rattle.std.specs.Prelude.{◌≡◌};
ghost use Rattle.bts_command.specs.Numbers.{command_number};
ghost use Rattle.bts_command.specs.Sizes.{put_bytes};

use bts_names::{Abcode, Blob, Moment, Name16, Path, ProgName, Reply, Sequence, Transid};

/// Which activity a command is about.
#[derive(Clone, Copy, Debug, PartialEq, Eq)]
pub enum Target {
    /// The child of that name of the frame's activity.
    Activity(Name16),
    /// The root of the process that the unit acquired.
    AcqProcess,
    /// The activity that the unit acquired.
    AcqActivity,
}

/// Where a container is.
#[derive(Clone, Copy, Debug, PartialEq, Eq)]
pub enum Spot {
    /// With the frame's activity.
    Own,
    /// With the frame's process.
    Process,
    /// With a target; with AcqProcess it is the process, and not its root.
    Of(Target),
}

/// When a timer is due.
#[derive(Clone, Copy, Debug, PartialEq, Eq)]
pub enum Due {
    /// So many seconds after the moment of the command.
    After(u32),
    At(Moment),
}

/// Names in order.
pub type Names = Sequence<Name16>;

/// The 31 commands, in the order of their numbers. An option is None where the command's text doesn't
/// have it.
#[derive(Debug, Drop, PartialEq, Eq)]
pub enum Command {
    DefineProcess {
        transid: Transid,
        program: ProgName,
    },
    AcquireProcess,
    AcquireActivity {
        path: Path,
    },
    PurgeProcess,
    DefineActivity {
        activity: Name16,
        /// The name of its completion event, where it isn't the activity's.
        event: Option<Name16>,
        transid: Transid,
        program: ProgName,
    },
    DeleteActivity {
        activity: Name16,
    },
    Run {
        target: Target,
        synchronous: bool,
        input: Option<Name16>,
    },
    Link {
        target: Target,
        input: Option<Name16>,
    },
    Check {
        target: Target,
    },
    Cancel {
        target: Target,
    },
    Reset {
        target: Target,
    },
    Suspend {
        target: Target,
    },
    Resume {
        target: Target,
    },
    PutContainer {
        container: Name16,
        spot: Spot,
        from: Blob,
    },
    GetContainer {
        container: Name16,
        spot: Spot,
    },
    DeleteContainer {
        container: Name16,
        spot: Spot,
    },
    DefineInput {
        event: Name16,
    },
    DefineComposite {
        event: Name16,
        /// AND, else OR.
        all: bool,
        /// At most eight.
        subs: Names,
    },
    AddSubevent {
        sub: Name16,
        event: Name16,
    },
    RemoveSubevent {
        sub: Name16,
        event: Name16,
    },
    DeleteEvent {
        event: Name16,
    },
    TestEvent {
        event: Name16,
    },
    RetrieveReattach,
    RetrieveSubevent {
        event: Name16,
    },
    DefineTimer {
        timer: Name16,
        /// The name of its event, where it isn't the timer's.
        event: Option<Name16>,
        due: Due,
    },
    ForceTimer {
        timer: Name16,
        target: Option<Target>,
    },
    CheckTimer {
        timer: Name16,
    },
    DeleteTimer {
        timer: Name16,
    },
    Return {
        end_activity: bool,
    },
    Abend {
        code: Abcode,
    },
    Rollback,
}

impl Command {
    /// Its number in stored bytes, from 1 to 31.
    pub fn number(&self) -> u8
        ensures { result ≡ command_number self.now }
    {
        match self {
            Command::DefineProcess { .. } => 1,
            Command::AcquireProcess => 2,
            Command::AcquireActivity { .. } => 3,
            Command::PurgeProcess => 4,
            Command::DefineActivity { .. } => 5,
            Command::DeleteActivity { .. } => 6,
            Command::Run { .. } => 7,
            Command::Link { .. } => 8,
            Command::Check { .. } => 9,
            Command::Cancel { .. } => 10,
            Command::Reset { .. } => 11,
            Command::Suspend { .. } => 12,
            Command::Resume { .. } => 13,
            Command::PutContainer { .. } => 14,
            Command::GetContainer { .. } => 15,
            Command::DeleteContainer { .. } => 16,
            Command::DefineInput { .. } => 17,
            Command::DefineComposite { .. } => 18,
            Command::AddSubevent { .. } => 19,
            Command::RemoveSubevent { .. } => 20,
            Command::DeleteEvent { .. } => 21,
            Command::TestEvent { .. } => 22,
            Command::RetrieveReattach => 23,
            Command::RetrieveSubevent { .. } => 24,
            Command::DefineTimer { .. } => 25,
            Command::ForceTimer { .. } => 26,
            Command::CheckTimer { .. } => 27,
            Command::DeleteTimer { .. } => 28,
            Command::Return { .. } => 29,
            Command::Abend { .. } => 30,
            Command::Rollback => 31,
        }
    }

    /// The length of FROM; 0 where the command has none.
    pub fn data_bytes(&self) -> u64
        ensures { result ≡ put_bytes self.now }
    {
        match self {
            Command::PutContainer { from, .. } => from.len() as u64,
            _ => 0,
        }
    }
}

/// Commands in order.
pub type Commands = Sequence<Command>;

/// A command and what it answered.
#[derive(Debug, Drop, PartialEq, Eq)]
pub struct Call {
    pub command: Command,
    pub reply: Reply,
}

/// Calls in the order in which they were made.
pub type Calls = Sequence<Call>;
