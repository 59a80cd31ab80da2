// What a session is made of.
use bts_browse::Criteria;
use bts_names::{Key, Moment, Sequence};
use bts_script::{Programs, Script};

/// An item of a session. Items count from 1 in the order in which they stand.
#[derive(Debug, Drop, PartialEq, Eq)]
pub enum Item {
    /// A unit of work on the process of this key.
    Request { key: Key, script: Script },
    /// From here on it is this moment.
    Clock(Moment),
    /// All enabled work is done first.
    Settle,
    /// A listing of the activities that meet the criteria.
    Browse(Criteria),
}

/// Items in order.
pub type Items = Sequence<Item>;

/// A session: what is done in order, and the programs that activities run.
#[derive(Debug, Drop)]
pub struct Session {
    pub items: Items,
    pub programs: Programs,
}
