// Where bytes come from.
ghost use Rattle.std.specs.Prelude.{◌<◌, ◌≤◌, ℕ, List, Option, length, IfOk};
ghost use Rattle.std.specs.Io.KnownBytes.{ReadConsumes};
ghost use Rattle.bts_io.specs.Faults.{HasCause};

use thiserror::Error;

/// The source failed.
#[derive(Clone, Copy, Debug, PartialEq, Eq, Error)]
#[error("the source failed")]
pub struct SourceFail;

/// Gives bytes, in order, until none is left.
pub trait Source {
    /// The bytes left, where it tells them.
    ghost left: { Self → Option (List ℕ) };

    /// How often it failed, up to 2^64 - 1.
    ghost faults: { Self → ℕ };

    /// Puts the next bytes at the front of `into`, which isn't empty, and answers how many; 0 comes at
    /// the end alone. A call that fails leaves the bytes, and fails only where the count of faults rose.
    fn read(&mut self, into: &mut [u8]) -> Result<usize, SourceFail>
        requires { 0 < length into.old }
        ensures bound { IfOk result (λ n. n ≤ length into.new) }
        ensures bytes { ReadConsumes (left self.old) (left self.new) result into.new }
        ensures cause { HasCause (faults self.old) (faults self.new) result };
}
