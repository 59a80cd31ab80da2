// A clock that stands still.
ghost use Rattle.std.specs.Prelude.{◌≡◌, ◌≤◌, max};
ghost use Rattle.bts_io.specs.Faults.{Rose, next_count};
ghost use Rattle.bts_names.specs.Grammar.{last_second};

use crate::Clock;

/// Always tells the same time.
#[derive(Debug, Drop)]
pub struct FixedClock {
    seconds: u64,
    greatest: u64,
    readings: u64,
    ghost in_range: { seconds ≤ last_second },
}

impl FixedClock {
    /// Tells this time, which the caller owes to be at most 9999-12-31T23:59:59.
    pub fn new(seconds: u64) -> FixedClock
        requires { seconds ≤ last_second }
        ensures seconds { result.seconds ≡ seconds }
        ensures greatest { result.greatest ≡ 0 }
        ensures readings { result.readings ≡ 0 }
    {
        FixedClock {
            seconds,
            greatest: 0,
            readings: 0,
        }
    }
}

impl Clock for FixedClock {
    ghost greatest = { λ c. c.greatest };

    ghost readings = { λ c. c.readings };

    /// The time that it was made with.
    fn now(&mut self) -> u64
        ensures bound { result ≤ last_second }
        ensures greatest { self.new.greatest ≡ max self.old.greatest result }
        ensures later { self.old.readings ≤ self.new.readings }
        ensures rose { Rose self.old.readings self.new.readings }
        ensures exact { result ≡ self.old.seconds }
        ensures same { self.new.seconds ≡ self.old.seconds }
        ensures counted { self.new.readings ≡ next_count self.old.readings }
    {
        self.greatest = self.greatest.max(self.seconds);
        self.readings = self.readings.saturating_add(1);
        self.seconds
    }
}
