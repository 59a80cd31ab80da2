//! The commands in a request's first frame.
//!
//! A request defines a process or acquires one, or one activity of it, or purges what it acquired: that stands here. All
//! else is about what was acquired, which is named by ACQPROCESS and ACQACTIVITY, and `bts_act` does it.
#![tactic(auto)]

mod acquiring;
mod commands;
mod laws;

pub use bts_rows::Held;
pub use commands::request;
pub use laws::back_to_undoes_all_commands;

#[cfg(test)]
mod tests;
#[cfg(test)]
mod undo_tests;
