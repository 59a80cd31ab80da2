// A sink in memory whose calls fail by their numbers.
ghost use Rattle.std.specs.Prelude.{◌≡◌, ◌<◌, ◌≤◌, Some, [], IsTrue, is_err, IsErr, length, IfOk};
ghost use Rattle.std.specs.Io.KnownBytes.{WriteAppends};
ghost use Rattle.bts_io.specs.Faults.{HasCause};
ghost use Rattle.bts_io.specs.Plan.{plan_of, is_next_failing, behind_call};

use crate::{FaultPlan, Sink, SinkFail};
use bts_names::Blob;
use std::alloc::Global;

/// Keeps bytes in memory, and fails the calls whose numbers stand in a list, and those that find no
/// memory.
#[derive(Debug, Drop)]
pub struct MemorySink {
    held: Blob,
    plan: FaultPlan,
}

impl MemorySink {
    /// Holds nothing yet, and fails the calls of these numbers, from 1.
    pub fn new(alloc: Global, failing: Vec<u64>) -> MemorySink
        ensures held { result.held ≡ [] }
        ensures plan { result.plan ≡ plan_of failing.items }
    {
        MemorySink {
            held: Blob::new(alloc),
            plan: FaultPlan::new(failing),
        }
    }

    /// The bytes held.
    pub fn bytes(&self) -> &[u8]
        ensures { result.now ≡ self.now.held }
    {
        self.held.as_slice()
    }
}

impl Sink for MemorySink {
    ghost held = { λ s. Some s.held };

    ghost faults = { λ s. s.plan.faults };

    /// Appends all of `bytes` where the call's number isn't listed and there is memory.
    fn write(&mut self, bytes: &[u8]) -> Result<usize, SinkFail>
        requires { 0 < length bytes.now }
        ensures some { IfOk result (λ n. 0 < n) }
        ensures bound { IfOk result (λ n. n ≤ length bytes.now) }
        ensures bytes { WriteAppends (Some self.old.held) (Some self.new.held) result bytes.now }
        ensures cause { HasCause self.old.plan.faults self.new.plan.faults result }
        ensures listed { IsTrue (is_next_failing self.old.plan) → IsErr result }
        ensures all { IfOk result (λ n. n ≡ length bytes.now) }
        ensures counted { self.new.plan ≡ behind_call (is_err result) self.old.plan }
    {
        if self.plan.next_fails() || self.held.extend(bytes).is_err() {
            self.plan.count_fault();
            return Err(SinkFail);
        }
        Ok(bytes.len())
    }
}
