// Why nothing was measured.
use bts_names::{BadName, NoMemory};
use std::alloc::AllocError;
use thiserror::Error;

#[derive(Clone, Copy, Debug, PartialEq, Eq, Error)]
pub enum Fault {
    #[error("the words are ACTIVITIES PROCESSES ROUNDS, the first two from 1 on")]
    Words,
    #[error("no memory")]
    NoMemory,
    /// A call refused what a process was made of.
    #[error("refused")]
    Refused,
    #[error("no output")]
    Output,
}

impl From<NoMemory> for Fault {
    fn from(_: NoMemory) -> Self {
        Fault::NoMemory
    }
}

impl From<AllocError> for Fault {
    fn from(_: AllocError) -> Self {
        Fault::NoMemory
    }
}

impl From<BadName> for Fault {
    fn from(_: BadName) -> Self {
        Fault::Refused
    }
}
