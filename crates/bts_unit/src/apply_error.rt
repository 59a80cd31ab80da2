// Why an ended unit was not applied.
use thiserror::Error;

/// An ended unit that changed nothing.
#[derive(Clone, Copy, Debug, PartialEq, Eq, Error)]
pub enum ApplyError {
    /// It is not one that the processes give. `call` is the number, from 1, of its first call that stands behind its end
    /// or has another reply; it is 0 where the unit is not enabled, and where its end alone is another.
    #[error("not legal, call {call}")]
    NotLegal { call: u32 },
    #[error("no memory")]
    NoMemory,
}
