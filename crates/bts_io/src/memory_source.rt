// A source in memory whose calls fail by their numbers.
ghost use Rattle.std.specs.Prelude.{◌≡◌, ◌<◌, ◌≤◌, Some, is_err, length, IfOk, OnErr};
ghost use Rattle.std.specs.Io.KnownBytes.{ReadConsumes};
ghost use Rattle.bts_io.specs.Faults.{HasCause};
ghost use Rattle.bts_io.specs.Plan.{plan_of, is_next_failing, behind_call};
ghost use Rattle.bts_io.specs.Streams.{Moves};

use crate::{FaultPlan, Source, SourceFail, SureSource};
use bts_names::Blob;

/// Gives bytes in memory, and fails the calls whose numbers stand in a list.
#[derive(Debug, Drop)]
pub struct MemorySource {
    left: SureSource,
    plan: FaultPlan,
}

impl MemorySource {
    /// Gives these bytes, and fails exactly the calls of these numbers, from 1.
    pub fn new(bytes: Blob, failing: Vec<u64>) -> MemorySource
        ensures left { result.left ≡ bytes }
        ensures plan { result.plan ≡ plan_of failing.items }
    {
        MemorySource {
            left: SureSource::new(bytes),
            plan: FaultPlan::new(failing),
        }
    }
}

impl Source for MemorySource {
    ghost left = { λ s. Some s.left };

    ghost faults = { λ s. s.plan.faults };

    /// Gives all the bytes left, or as many as find room, where the call's number isn't listed.
    fn read(&mut self, into: &mut [u8]) -> Result<usize, SourceFail>
        requires { 0 < length into.old }
        ensures bound { IfOk result (λ n. n ≤ length into.new) }
        ensures bytes { ReadConsumes (Some self.old.left) (Some self.new.left) result into.new }
        ensures cause { HasCause self.old.plan.faults self.new.plan.faults result }
        ensures listed { is_err result ≡ is_next_failing self.old.plan }
        ensures ok { IfOk result (Moves self.old.left self.new.left into.old into.new) }
        ensures err { OnErr result (into.new ≡ into.old) }
        ensures counted { self.new.plan ≡ behind_call (is_err result) self.old.plan }
    {
        if self.plan.next_fails() {
            self.plan.count_fault();
            return Err(SourceFail);
        }
        self.left.read(into)
    }
}
