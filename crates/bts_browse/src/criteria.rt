// The parts that a row must have.
ghost use Rattle.std.specs.Prelude.{◌≡◌};
ghost use Rattle.bts_names.specs.Names.{same};
ghost use Rattle.bts_browse.specs.Met.{has_part, is_met, same_mode, same_status};

use bts_names::{Mode, Name, ProcName, ProcType, Row, Status};

/// What a row must have: every part that is given, and to be suspended where `suspended` is true.
#[derive(Clone, Copy, Debug, PartialEq, Eq)]
pub struct Criteria {
    pub ptype: Option<ProcType>,
    pub pname: Option<ProcName>,
    pub mode: Option<Mode>,
    pub status: Option<Status>,
    pub suspended: bool,
}

fn has_name<K, const MOST: usize>(given: &Option<Name<K, MOST>>, found: &Name<K, MOST>) -> bool
    ensures { result ≡ has_part same given.now found.now }
{
    match given {
        None => true,
        Some(given) => given == found,
    }
}

fn has_mode(given: Option<Mode>, found: Mode) -> bool
    ensures { result ≡ has_part same_mode given found }
{
    match given {
        None => true,
        Some(given) => given == found,
    }
}

fn has_status(given: Option<Status>, found: Status) -> bool
    ensures { result ≡ has_part same_status given found }
{
    match given {
        None => true,
        Some(given) => given == found,
    }
}

impl Criteria {
    /// Whether the row has every given part.
    pub fn is_met_by(&self, row: &Row) -> bool
        ensures { result ≡ is_met self.now row.now }
    {
        has_name(&self.ptype, &row.key.ptype)
            && has_name(&self.pname, &row.key.pname)
            && has_mode(self.mode, row.mode)
            && has_status(self.status, row.status)
            && (!self.suspended || row.suspended)
    }
}
