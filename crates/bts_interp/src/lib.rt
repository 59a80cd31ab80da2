//! Which calls and which end the texts of a session allow in a unit of work.
//!
//! `run_job` runs a unit by its texts, and `texts_allow_one_talk` says that they allow no other calls and no other end.
//!
//! In `specs/`: `Facts` (what a frame's own calls have shown, on which WHEN and FROM(LAST) depend), `Steps` (the next
//! command of a script), `Texts` (what each frame follows), `NextCalls` (the call that comes next in a unit), `Budgets`
//! (what a unit may use, and the end that is due), `Talks` (the calls and the end that are allowed), `Jobs` (units that
//! are taken away to be run, and what became of them) and `Running` (a unit on its way through its script).
#![tactic(auto)]

mod codes;
mod commands;
mod facts;
mod job;
mod laws;
mod naming;
mod playing;
mod running;
mod station;
mod stepping;
mod steps;
mod texts;

pub use job::{Done, Job};
pub use laws::{texts_allow_one_talk, what_a_unit_carries_is_short};
pub use naming::Naming;
pub use running::run_job;
pub use station::{FinishError, Refused, Station, Work};
pub use steps::Steps;
pub use texts::item_of;

#[cfg(test)]
mod activation_tests;
#[cfg(test)]
mod condition_tests;
#[cfg(test)]
mod tests;
