//! The journal of a repository: units of work in a file, one behind the other, each acknowledged once no
//! crash can take it back.
#![tactic(auto)]

mod creating;
mod fault;
mod found;
mod journal;
mod record;
mod scanning;

pub use creating::{CreateError, create};
pub use fault::DiskFault;
pub use found::{Found, OpenError};
pub use journal::Journal;
pub use scanning::{a_file_reads_in_one_way, scan};

#[cfg(test)]
mod tests;
