//! Names, paths, moments and replies: the small values that every layer speaks of.
#![tactic(auto)]

mod comparisons;
mod key;
mod maps;
mod memory;
mod moment;
mod name;
mod path;
mod reply;
mod row;
mod sequence;
mod state;

pub use comparisons::{
    keys_compare_by_type_and_name, names_compare_by_bytes, paths_compare_by_numbers,
};
pub use key::Key;
pub use maps::map_of;
pub use memory::NoMemory;
pub use moment::Moment;
pub use name::{Abcode, BadName, Name, Name16, ProcName, ProcType, ProgName, Transid, kind};
pub use path::Path;
pub use reply::{Leaving, Reason, Reply, Resp, Value};
pub use row::{Row, Rows};
pub use sequence::{Blob, Sequence};
pub use state::{EventKind, Mode, Status, TimerStatus};

#[cfg(test)]
mod tests;
