//! Statements of scripts, and the forms of the lines that say them: a function a form, and the table of all.
#![tactic(auto)]

mod activity_lines;
mod arguments;
mod container_lines;
mod ending_lines;
mod event_lines;
mod fields;
mod forms;
mod line;
mod pieces;
mod process_lines;
mod script_lines;
mod session_lines;
mod statement;
mod through;
mod timer_lines;

pub use arguments::number_within;
pub use forms::{Said, form_of};
pub use line::{Line, Place, ScriptError, Setting, Word};
pub use pieces::{cut_at, without_spaces};
pub use session_lines::end_line;
pub use statement::{Cond, Given, Script, Statement};
