// The calls of a disk as one in memory keeps them.
use bts_names::Blob;

/// A call of a disk that was made.
#[derive(Debug, Drop)]
pub enum DeviceCall {
    /// One that changes nothing: a length, a read, a sync that failed.
    Idle,
    /// A write, and whether it was done or failed.
    Write { done: bool, at: u64, bytes: Blob },
    /// A sync that was done.
    Sync,
}
