// The key of a process.
use crate::{ProcName, ProcType};

/// What a repository holds a process under. Keys stand in order of their types, and then of their names.
#[derive(Clone, Copy, Debug, PartialEq, Eq, PartialOrd, Ord)]
pub struct Key {
    pub ptype: ProcType,
    pub pname: ProcName,
}
