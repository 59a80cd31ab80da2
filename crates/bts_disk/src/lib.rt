//! Where a repository lies: what a disk reads, what a crash may leave of it at each moment, and how often
//! it failed.
#![tactic(auto)]

mod device_call;
mod disk;
mod memory_disk;
mod pick;
mod recording;

pub use disk::{Disk, DiskFail};
pub use memory_disk::MemoryDisk;
pub use pick::Pick;

#[cfg(test)]
mod tests;
