//! Where bytes come from, where they go, and what time it is. Each thing that may fail counts its
//! faults, so that a caller can tell a fault of the thing from one of its reader or writer.
#![tactic(auto)]

mod clock;
mod fault_plan;
mod fixed_clock;
mod memory_sink;
mod memory_source;
mod reading;
mod sink;
mod source;
mod sure_source;
mod writing;

pub use clock::Clock;
pub use fault_plan::FaultPlan;
pub use fixed_clock::FixedClock;
pub use memory_sink::MemorySink;
pub use memory_source::MemorySource;
pub use reading::{ReadFault, read_all};
pub use sink::{Sink, SinkFail};
pub use source::{Source, SourceFail};
pub use sure_source::SureSource;
pub use writing::write_all;

#[cfg(test)]
mod tests;
