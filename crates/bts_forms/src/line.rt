// What a line says, and why one is refused.
ghost use Rattle.std.specs.Prelude.{◌≡◌};
ghost use Rattle.bts_forms.specs.declared.line.ScriptError.TheVariants as error;

use crate::Statement;
use bts_names::{Key, Mode, Moment, NoMemory, ProcName, ProcType, ProgName, Status};
use thiserror::Error;

/// What a line says.
#[derive(Debug, Drop, PartialEq, Eq)]
pub enum Line {
    Statement(Statement),
    Program(ProgName),
    Request(Key),
    End,
    Clock(Moment),
    Settle,
    /// An option is None where the line doesn't have it.
    Browse {
        ptype: Option<ProcType>,
        pname: Option<ProcName>,
        mode: Option<Mode>,
        status: Option<Status>,
        suspended: bool,
    },
}

/// Whose block it is.
#[derive(Clone, Copy, Debug, PartialEq, Eq)]
pub enum Place {
    Program,
    Request,
}

/// Where a form of lines belongs.
#[derive(Clone, Copy, Debug, PartialEq, Eq)]
pub enum Setting {
    /// Outside of blocks.
    Outside,
    /// At the end of a block.
    Closing,
    InBlocks,
    InPrograms,
    InRequests,
}

/// Why a line is refused.
#[derive(Clone, Copy, Debug, PartialEq, Eq, Error)]
pub enum Word {
    /// The text is too long.
    #[error("Long")]
    Long,
    /// A byte is no printable character of ASCII.
    #[error("Character")]
    Character,
    /// The line has no form.
    #[error("Word")]
    Word,
    /// The form is one that isn't let through yet.
    #[error("NotYet")]
    NotYet,
    /// The form doesn't belong there.
    #[error("Place")]
    Place,
    /// An argument is no name, or no path.
    #[error("Name")]
    Name,
    /// An argument is no number.
    #[error("Number")]
    Number,
    /// An argument is no moment.
    #[error("Moment")]
    Moment,
    /// An argument is no literal.
    #[error("Literal")]
    Literal,
    /// An argument is none of the words that may stand there.
    #[error("Known")]
    Known,
    /// The name was there before.
    #[error("Twice")]
    Twice,
    /// The block doesn't hold the label.
    #[error("Label")]
    Label,
    /// The block isn't closed.
    #[error("Open")]
    Open,
}

/// Why a text is no script: the first bad line and the reason, or want of memory.
#[derive(Clone, Copy, Debug, PartialEq, Eq, Error)]
pub enum ScriptError {
    #[error("bad line {line}")]
    Syntax { line: u32, reason: Word },
    #[error("no memory")]
    NoMemory,
}

impl From<NoMemory> for ScriptError {
    ghost from_gives = { λ _ e. e ≡ error.NoMemory };

    fn from(_: NoMemory) -> Self {
        ScriptError::NoMemory
    }
}
