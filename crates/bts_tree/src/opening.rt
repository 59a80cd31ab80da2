// What a repository file opens to.
use crate::Repository;
use bts_names::Moment;

/// What a repository file opens to: its processes, how many units it has, and the moment of the last one.
#[derive(Drop)]
pub struct Opening {
    pub repo: Repository,
    pub units: u64,
    pub moment: Moment,
}
