// What a script is made of.
use bts_command::{Command, Spot};
use bts_names::{Blob, Name16, Resp, Sequence, Status};

/// What a FROM gives.
#[derive(Debug, Drop, PartialEq, Eq)]
pub enum Given {
    Literal(Blob),
    /// So many bytes `*`.
    Fill(u32),
    /// The bytes of the last GET.
    Last,
}

/// A condition of WHEN.
#[derive(Debug, Drop, PartialEq, Eq)]
pub enum Cond {
    /// The last call answered that response.
    Resp(Resp),
    /// The last RETRIEVE gave that event.
    Event(Name16),
    /// The last CHECK of a target gave that status.
    Status(Status),
    /// The last GET gave those bytes.
    Gave(Blob),
    /// The last TEST gave FIRED.
    Fired,
}

/// A statement of a script. PUT CONTAINER is always a Put, and every other command a Command.
#[derive(Debug, Drop, PartialEq, Eq)]
pub enum Statement {
    Command(Command),
    Put {
        container: Name16,
        spot: Spot,
        given: Given,
    },
    Label(Name16),
    Goto(Name16),
    When {
        cond: Cond,
        label: Name16,
    },
}

/// Statements in order.
pub type Script = Sequence<Statement>;
