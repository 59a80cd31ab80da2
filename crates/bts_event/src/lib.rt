//! The event pool of one activity: its events, and the queue of entries that wait to be retrieved when the
//! activity is attached again.
//!
//! An atomic event is fired by a program, by the completion of a child or by a timer. A composite is computed
//! from its sub-events, which are atomic, and no status of it is stored. A firing goes to the end of the queue
//! of the event's composite; where it is in none, it makes an entry. Behind each change every composite that
//! holds and did not before makes an entry, also where it turns because a sub-event leaves it. Entries are
//! numbered from 1, and no number is given twice.
//!
//! Contracts see a pool as lists: the events by rising name, the entries by rising number, and the last number
//! that was given. Each call says what the whole pool is behind it, and by one list of reasons exactly when it
//! is refused. A call that is refused, or finds no memory, leaves the pool as it was.
//!
//! Every pool keeps this, and `EventPool::facts` gives it to callers: a sub-event is an atomic event of the pool,
//! in one composite only and there once; a composite's queue has exactly its fired sub-events, each once; an
//! atomic event that is no sub-event has one entry where it is fired, and else none; every other entry is
//! DFHINITIAL or a composite of the pool; there are at most 256 events, and 32 sub-events in a composite.
//!
//! # Memory
//!
//! `fire`, `start`, `remove_subevent`, `delete` and `remove` reserve the room for one entry before they change
//! anything: none makes more than one. `fire` then takes a place in the composite's queue, the last step that
//! may fail, and what follows writes over values that are there. A new event goes into the map in one step,
//! which fails or is done. `unfire`, `clear`, `retrieve`, `retrieve_subevent` and the calls that only read take
//! no memory.
//!
//! # Costs
//!
//! With n events and q entries: an event is found by its name in logarithmic time, so `kind`, `is_atomic`,
//! `is_composite`, `retrieve`, `retrieve_subevent` and the definition of an atomic event are logarithmic in n.
//! `test` looks up each sub-event of a composite, and so do the calls that ask whether a composite turned:
//! at most 32 look-ups. To find the composite of a name goes over each composite's sub-events once, at most n
//! names: so `fire`, `unfire`, `add_subevent`, `delete`, `remove` and each sub-event of `define_composite` (at
//! most eight) are linear in n. `unfire`, `delete` and `remove` go over the q entries besides. `completion_of`,
//! `event_of` and `has_completion` are linear in n; `count`, `queued` and `last_number` are constant; `clear`
//! is linear in what it drops, and `from_parts` in what it is given but for the order of the map.
#![tactic(auto)]

mod composite;
mod error;
mod event;
mod events;
mod laws;
mod pool;
mod queue;
mod refusals;
#[cfg(test)]
mod tests;
mod turning;

pub use composite::Composite;
pub use error::PoolError;
pub use event::{Atomic, Event, Trigger};
pub use events::next_subevent;
pub use laws::{
    a_call_makes_one_entry_at_most, calls_keep_the_facts, entries_leave_by_name,
    no_composite_turns_where_a_firing_goes, numbers_are_never_given_again,
    retrieving_a_subevent_ends_one_firing, retrieving_ends_one_firing,
};
pub use pool::EventPool;
pub use queue::Entry;
pub use refusals::{refuses_add, refuses_composite, refuses_define, refuses_delete, refuses_leave};
