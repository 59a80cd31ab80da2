// Which calls of a thing in memory fail.
ghost use Rattle.std.specs.Prelude.{◌≡◌, ◌≤◌};
ghost use Rattle.bts_io.specs.Faults.{next_count};
ghost use Rattle.bts_io.specs.Plan.{plan_of, is_next_failing};

use std::marker::Model;

/// Counts calls and faults, and fails the calls whose numbers, from 1, stand in a list.
#[derive(Debug, Drop)]
pub struct FaultPlan {
    failing: Vec<u64>,
    calls: u64,
    faults: u64,
}

impl Model for FaultPlan {
    ghost use Rattle.bts_io.specs.Plan.{Plan};

    ghost Value = { Plan };

    ghost view = { λ p. record { failing = p.failing.items; calls = p.calls; faults = p.faults } };
}

impl FaultPlan {
    /// No call was made yet, and those of these numbers fail.
    pub fn new(failing: Vec<u64>) -> FaultPlan
        ensures { result ≡ plan_of failing.items }
    {
        FaultPlan {
            failing,
            calls: 0,
            faults: 0,
        }
    }

    /// Counts a call, and answers whether it is one of those that fail.
    pub fn next_fails(&mut self) -> bool
        ensures answer { result ≡ is_next_failing self.old }
        ensures counted { self.new ≡ record self.old { calls = next_count self.old.calls } }
    {
        match self.calls.checked_add(1) {
            None => false,
            Some(number) => {
                self.calls = number;
                self.failing.contains(&number)
            }
        }
    }

    /// Counts a fault of the last call.
    pub fn count_fault(&mut self)
        ensures counted { self.new ≡ record self.old { faults = next_count self.old.faults } }
        ensures later { self.old.faults ≤ self.new.faults }
    {
        self.faults = self.faults.saturating_add(1);
    }
}
