//! Sessions: the text that a run reads, as its items in order and its programs by name.
#![tactic(auto)]

mod block;
mod laws;
mod reading;
mod session;

pub use laws::what_a_session_gives_is_short;
pub use reading::read_session;
pub use session::{Item, Items, Session};

#[cfg(test)]
mod tests;
