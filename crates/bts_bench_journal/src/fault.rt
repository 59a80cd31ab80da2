// Why nothing was measured.
use bts_codec::DecodeError;
use bts_names::NoMemory;
use std::alloc::{AllocError, AllocFailed};
use thiserror::Error;

#[derive(Clone, Copy, Debug, PartialEq, Eq, Error)]
pub enum Fault {
    #[error("the words are encode, decode, scan or all, and then UNITS DATA ROUNDS")]
    Words,
    #[error("no memory")]
    NoMemory,
    /// What was made isn't read: a unit has more data than 500 calls put.
    #[error("refused")]
    Refused,
    #[error("no output")]
    Output,
}

impl From<NoMemory> for Fault {
    fn from(_: NoMemory) -> Self {
        Fault::NoMemory
    }
}

impl From<AllocError> for Fault {
    fn from(_: AllocError) -> Self {
        Fault::NoMemory
    }
}

impl<T: Drop> From<AllocFailed<T>> for Fault {
    fn from(_: AllocFailed<T>) -> Self {
        Fault::NoMemory
    }
}

impl From<DecodeError> for Fault {
    fn from(error: DecodeError) -> Self {
        match error {
            DecodeError::Malformed => Fault::Refused,
            DecodeError::NoMemory => Fault::NoMemory,
        }
    }
}
