//! The table of the commands: what each answers and leaves, on the thing that it changes, and where that is found.
//!
//! The definitions are in `specs/`, one row a command with one line a refusal, in the order in which they are
//! tried: `OnActivity`, `OnContainers`, `OnFamily`, and `RequestRows` (what a request acquires). `Places` says what a
//! command is about and where that is found, and `Rows` puts both together, as they are read in a frame. The crates
//! that do the commands state their contracts by them.
#![tactic(auto)]

mod laws;
mod limits;
mod places;

pub use laws::{
    a_frame_reads_its_part, a_refused_command_changes_nothing, commands_keep_names_usual,
    commands_keep_soundness, commands_keep_the_format, numbers_rise_by_one,
    only_definitions_make_more, replies_say_why, rows_lead_from_the_modes_of_their_table,
    what_is_answered_is_short,
};
pub use limits::FRAME_LIMIT;
pub use places::{About, Held, Here, Thing, Unfound};
