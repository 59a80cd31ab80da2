// Moments, as whole seconds.
ghost use Rattle.std.specs.Prelude.{◌≡◌, ◌+◌, ◌≤◌, ℕ};
ghost use Rattle.std.specs.Option.{SomeIff};
ghost use Rattle.bts_names.specs.Grammar.{last_second};

use std::marker::Model;

/// A whole second from 1970-01-01T00:00:00 to 9999-12-31T23:59:59, which contracts see as the number
/// of seconds since the first one.
#[derive(Clone, Copy, Debug, PartialEq, Eq, PartialOrd, Ord)]
pub struct Moment {
    seconds: u64,
}

impl Model for Moment {
    ghost Value = { ℕ };

    ghost view = { λ m. m.seconds };

    ghost invariant = { λ m. m.seconds ≤ last_second };

    ghost inverse = { λ v. record { seconds = v } };
}

impl Moment {
    /// The seconds of 9999-12-31T23:59:59.
    const LAST: u64 = 253_402_300_799;

    /// 1970-01-01T00:00:00.
    pub fn first() -> Moment
        ensures { result ≡ 0 }
    {
        Moment { seconds: 0 }
    }

    /// The moment of that second; None past the last one.
    pub fn from_seconds(s: u64) -> Option<Moment>
        ensures { SomeIff result (s ≤ last_second) s }
    {
        if s <= Moment::LAST {
            Some(Moment { seconds: s })
        } else {
            None
        }
    }

    /// The seconds since 1970-01-01T00:00:00.
    pub fn seconds(self) -> u64
        ensures value { result ≡ self }
        ensures bound { self ≤ last_second }
    {
        self.seconds
    }

    /// The moment so many seconds later; None past the last one.
    pub fn plus(self, s: u32) -> Option<Moment>
        ensures { SomeIff result (self + s ≤ last_second) (self + s) }
    {
        Moment::from_seconds(self.seconds + u64::from(s))
    }
}
