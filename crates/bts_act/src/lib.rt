//! What a command does to the thing that it is about, in whatever frame.
//!
//! `finding` finds that thing, once a kind, and `commands` does the row on it. The code of a row stands on the activity
//! or on the containers alone: it is refused, or answered where it only reads, on what is read; then the path is saved;
//! then it is changed. So want of memory never stands in front of a refusal. A row that wants memory for two things
//! takes both before it changes either, or gives the first one back.
#![tactic(auto)]

mod activities;
mod commands;
mod containers;
mod early;
mod events;
mod families;
mod finding;
mod replies;
mod running;
mod timers;

pub use commands::{act, perform};
pub use early::{a_sound_process_has_none_early, none_is_early};
pub use replies::{normal_reply, refused};
pub use timers::fire_unfired;

#[cfg(test)]
mod child_tests;
#[cfg(test)]
mod tests;
