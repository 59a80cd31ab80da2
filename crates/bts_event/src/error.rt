// Why a call of a pool did not do what it was asked.
use bts_names::Reason;
use thiserror::Error;

/// A call of a pool that changed nothing.
#[derive(Clone, Copy, Debug, PartialEq, Eq, Error)]
pub enum PoolError {
    #[error("refused")]
    Refused(Reason),
    #[error("no memory")]
    NoMemory,
}
