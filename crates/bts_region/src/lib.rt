//! Which work is enabled where a history has come to, which histories of a session are legal, and which one is serial; and
//! the region, in memory, in which a session's units are given out and end.
//!
//! In `specs/`: `Items` (the items of a session, which units do them, and whose turn it is), `Positions` (where a history
//! has come to), `Enabled` (the work that may be taken there, in order), `Histories` (legal and clocked histories),
//! `Serial` (the serial one), `Regions` (what is answered to whoever asks for work), `Answers` (what each call of a region
//! answers and leaves), `Owed` (the notices and expiries that are still to come), `AsStation` (a region as a station),
//! `Today` (the sessions that a region does today, and what it can go on from), `Awake` (what the index keeps) and `Keeps`
//! (what its fields keep).
#![tactic(auto)]

mod finding;
mod finishing;
mod laws;
mod region;
mod seat;
mod taking;

pub use laws::{
    each_item_is_done_once, the_first_work_is_on_offer, the_serial_history_is_one,
    without_work_every_item_has_ended,
};
pub use region::{Closed, Region};

#[cfg(test)]
mod tests;
