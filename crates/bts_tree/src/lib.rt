//! Activities, the processes that they make, and the repository of all processes.
#![tactic(auto)]

mod activity;
mod changes;
mod due;
mod index;
mod kept;
mod laws;
mod listing;
mod mark;
mod old;
mod olds;
mod opening;
mod repository;
mod saving;
mod scope;
mod slot;
mod slot_maps;
mod stored;
mod tree;
mod undoing;
mod walk;

pub use activity::Activity;
pub use laws::{
    back_to_gives_what_was_marked, completion_follows_the_modes, raised_processes_are_sound,
    the_first_behind_is_the_least, what_is_enabled_stands_in_order, what_is_new_is_sound,
};
pub use mark::{Mark, Marks};
pub use opening::Opening;
pub use repository::Repository;
pub use scope::Scope;
pub use slot::Slot;
pub use tree::Tree;

#[cfg(test)]
mod marks_tests;
#[cfg(test)]
mod tests;
