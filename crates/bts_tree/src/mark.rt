// Marks of entries.
use bts_names::{Key, Path, Sequence};

/// One entry of a reattachment queue: whose it is, and its number. No number is given twice in one generation of
/// an activity.
#[derive(Clone, Copy, Debug, PartialEq, Eq)]
pub struct Mark {
    pub key: Key,
    pub generation: u64,
    pub path: Path,
    pub number: u64,
}

/// Marks in order.
pub type Marks = Sequence<Mark>;
