// A source in memory that never fails.
ghost use Rattle.std.specs.Prelude.{◌≡◌, ◌<◌, ◌≤◌, Some, length, IfOk, IsOkAnd};
ghost use Rattle.std.specs.Io.KnownBytes.{ReadConsumes};
ghost use Rattle.bts_io.specs.Faults.{HasCause};
ghost use Rattle.bts_io.specs.Streams.{Moves};

use crate::{Source, SourceFail};
use bts_names::Blob;
use std::marker::Model;

/// Gives bytes in memory, and never fails. Contracts see the bytes left.
#[derive(Debug, Drop)]
pub struct SureSource {
    bytes: Blob,
    at: usize,
}

impl Model for SureSource {
    ghost use Rattle.std.specs.Prelude.{◌≤◌, ℕ, List, length, drop};

    ghost Value = { List ℕ };

    ghost view = { λ s. drop s.at s.bytes };

    ghost invariant = { λ s. s.at ≤ length s.bytes };
}

impl SureSource {
    /// Gives these bytes.
    pub fn new(bytes: Blob) -> SureSource
        ensures { result ≡ bytes }
    {
        SureSource { bytes, at: 0 }
    }
}

impl Source for SureSource {
    ghost left = { λ s. Some s };

    ghost faults = { λ _. 0 };

    /// Gives all the bytes left, or as many as find room.
    fn read(&mut self, into: &mut [u8]) -> Result<usize, SourceFail>
        requires { 0 < length into.old }
        ensures bound { IfOk result (λ n. n ≤ length into.new) }
        ensures bytes { ReadConsumes (Some self.old) (Some self.new) result into.new }
        ensures cause { HasCause 0 0 result }
        ensures exact { IsOkAnd result (Moves self.old self.new into.old into.new) }
    {
        let (_, rest) = self.bytes.as_slice().split_at(self.at);
        let n = into.len().min(rest.len());
        into[..n].copy_from_slice(&rest[..n]);
        self.at += n;
        Ok(n)
    }
}
