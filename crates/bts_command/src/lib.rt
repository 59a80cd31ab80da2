//! Commands, the calls that units of work made of them, and units of work that have ended.
#![tactic(auto)]

mod command;
mod copying;
mod ended;

pub use command::{Call, Calls, Command, Commands, Due, Names, Spot, Target};
pub use ended::{End, Ended, History, UnitKind};

#[cfg(test)]
mod tests;
