//! Units of work: commands under a stack of frames, and which ended units processes give.
//!
//! The definitions are in `specs/`: `Marks` and `Standings` (a process with an account of its entries), `Frames` (open
//! frames, and how a unit begins), `Ends` (how frames end), `Calls` (one call, and calls one after the other), `Systems`
//! (notices and expiries), `Playing` (which ended units play, and what stands behind them), `Refusals` (why one isn't
//! applied) and `Soundness` (when a unit is sound).
#![tactic(auto)]

mod apply_error;
mod applying;
mod beginning;
mod change;
mod codes;
mod ending;
mod expiring;
mod frame;
mod laws;
mod performing;
mod repeating;
mod rows;
mod unit;
mod unmarked;
mod work;

pub use apply_error::ApplyError;
pub use applying::apply;
pub use change::Change;
pub use expiring::system;
pub use frame::Frame;
pub use laws::{
    a_lone_root_stays_alone, a_sound_unit_goes_on, a_unit_keeps_the_bound_of_units,
    a_unit_starts_sound, an_abend_keeps_a_unit_sound, an_ended_unit_leaves_a_sound_process,
    calls_keep_a_unit_sound, calls_keep_the_format_of_a_unit, commands_keep_a_unit_sound,
    frames_lead_from_the_modes_of_their_table, numbers_rise_with_the_calls, replies_are_short,
};
pub use unit::Unit;

#[cfg(test)]
mod replay_tests;
#[cfg(test)]
mod tests;
