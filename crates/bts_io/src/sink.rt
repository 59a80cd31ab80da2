// Where bytes go.
ghost use Rattle.std.specs.Prelude.{◌<◌, ◌≤◌, ℕ, List, Option, length, IfOk};
ghost use Rattle.std.specs.Io.KnownBytes.{WriteAppends};
ghost use Rattle.bts_io.specs.Faults.{HasCause};

use thiserror::Error;

/// The sink failed.
#[derive(Clone, Copy, Debug, PartialEq, Eq, Error)]
#[error("the sink failed")]
pub struct SinkFail;

/// Takes bytes, and keeps them in order.
pub trait Sink {
    /// The bytes held, where it tells them.
    ghost held: { Self → Option (List ℕ) };

    /// How often it failed, up to 2^64 - 1.
    ghost faults: { Self → ℕ };

    /// Appends a front of `bytes`, which isn't empty, and answers its length, at least 1. A call that
    /// fails appends nothing, and fails only where the count of faults rose.
    fn write(&mut self, bytes: &[u8]) -> Result<usize, SinkFail>
        requires { 0 < length bytes.now }
        ensures some { IfOk result (λ n. 0 < n) }
        ensures bound { IfOk result (λ n. n ≤ length bytes.now) }
        ensures bytes { WriteAppends (held self.old) (held self.new) result bytes.now }
        ensures cause { HasCause (faults self.old) (faults self.new) result };
}
