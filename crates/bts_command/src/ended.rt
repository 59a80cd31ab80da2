// Units of work that have ended.
ghost use Rattle.std.specs.Prelude.{◌≡◌};
ghost use Rattle.bts_command.specs.Kinds as kinds;

use crate::Calls;
use bts_names::{Abcode, Key, Moment, Name16, Path, Rows, Sequence};

/// What a unit of work is. `item` is the number of the session's item that it does, from 1.
#[derive(Clone, Copy, Debug, PartialEq, Eq)]
pub enum UnitKind {
    Request { item: u32, key: Key },
    Activation { key: Key, path: Path },
    Notice { key: Key, path: Path },
    Expiry { key: Key, path: Path, timer: Name16 },
    Clock { item: u32 },
    Settle { item: u32 },
    Browse { item: u32 },
}

impl UnitKind {
    /// The key of the process that it holds; a Clock, Settle or Browse holds none.
    pub fn key(&self) -> Option<Key>
        ensures { result ≡ kinds.key_of self.now }
    {
        match self {
            UnitKind::Request { key, .. }
            | UnitKind::Activation { key, .. }
            | UnitKind::Notice { key, .. }
            | UnitKind::Expiry { key, .. } => Some(*key),
            _ => None,
        }
    }

    pub fn is_activation(&self) -> bool
        ensures { result ≡ kinds.is_activation self.now }
    {
        matches!(self, UnitKind::Activation { .. })
    }
}

/// How a unit of work ended.
#[derive(Clone, Copy, Debug, PartialEq, Eq)]
pub enum End {
    Commit,
    Rollback,
    Abend(Abcode),
}

impl End {
    pub fn is_rollback(&self) -> bool
        ensures { result ≡ kinds.is_rollback self.now }
    {
        matches!(self, End::Rollback)
    }
}

/// A unit of work that has ended: what it was, the moment at which it ended, how, and what it did.
#[derive(Debug, Drop, PartialEq, Eq)]
pub struct Ended {
    pub unit: UnitKind,
    pub moment: Moment,
    pub end: End,
    pub calls: Calls,
    /// The rows that a Browse found; else none.
    pub rows: Rows,
    /// The number among the committed units of the repository, from 1; 0 where it is not committed.
    pub seq: u64,
}

/// Units of work in the order in which they ended.
pub type History = Sequence<Ended>;
