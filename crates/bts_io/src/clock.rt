// What time it is.
ghost use Rattle.std.specs.Prelude.{◌≡◌, ◌≤◌, ℕ, max};
ghost use Rattle.bts_io.specs.Faults.{Rose};
ghost use Rattle.bts_names.specs.Grammar.{last_second};

/// Tells the time. Answers may fall; a reader that wants them to rise goes by the greatest.
pub trait Clock {
    /// The greatest answer so far, 0 before the first.
    ghost greatest: { Self → ℕ };

    /// How often it was read, up to 2^64 - 1.
    ghost readings: { Self → ℕ };

    /// The seconds since 1970-01-01T00:00:00, at most those of 9999-12-31T23:59:59.
    fn now(&mut self) -> u64
        ensures bound { result ≤ last_second }
        ensures greatest { greatest self.new ≡ max (greatest self.old) result }
        ensures later { readings self.old ≤ readings self.new }
        ensures rose { Rose (readings self.old) (readings self.new) };
}
