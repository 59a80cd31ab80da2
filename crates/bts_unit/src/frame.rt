// The open frame of a unit, as its callers see it.
use bts_names::{Path, ProgName};

/// The top frame of a unit.
#[derive(Clone, Copy, Drop)]
pub struct Frame {
    /// The activity whose frame it is; a request's first frame has none.
    pub at: Option<Path>,
    /// The program of that activity when the frame opened.
    pub program: Option<ProgName>,
    /// How many frames are open.
    pub depth: u32,
}
