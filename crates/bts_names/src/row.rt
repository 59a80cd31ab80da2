// What a listing tells of one activity.
use crate::{Key, Mode, Name16, Path, ProgName, Sequence, Status, Transid};

/// What a listing tells of one activity; `queued` is the number of entries in its reattachment queue.
#[derive(Clone, Copy, Debug, PartialEq, Eq)]
pub struct Row {
    pub key: Key,
    pub generation: u64,
    pub path: Path,
    pub name: Name16,
    pub mode: Mode,
    pub status: Status,
    pub suspended: bool,
    pub queued: u64,
    pub transid: Transid,
    pub program: ProgName,
}

/// Rows in order.
pub type Rows = Sequence<Row>;
