//! Texts of what happened and of what is there: the report of a history, and the list of activities.
#![tactic(auto)]

mod command_words;
mod lines;
mod number;
mod reply_words;
mod row_words;
mod unit_words;
mod words;
mod writing;

pub use lines::{list_text, report};
pub use number::add_number;
pub use writing::{TellError, write_report};

#[cfg(test)]
mod tests;
