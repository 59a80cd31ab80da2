//! What lines say where they stand, and blocks of lines as scripts.
#![tactic(auto)]

mod blocks;
mod lines;
mod programs;
mod reading;

pub use blocks::read_block;
pub use bts_forms::{Cond, Given, Line, Place, Script, ScriptError, Setting, Statement, Word};
pub use lines::next_line;
pub use programs::Programs;
pub use reading::{ends_block, is_skipped, read_line};

#[cfg(test)]
mod tests;
