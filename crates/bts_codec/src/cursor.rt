// Bytes that are read from the front, in place.
ghost use Rattle.std.specs.Prelude.{◌≡◌, ◌↔◌, IsTrue, [], option_map};
ghost use Rattle.bts_codec.specs.Formats.{number, number_at, string, first_at};
ghost use Rattle.bts_codec.specs.Answers.{Gives, shown};

use crate::DecodeError;
use std::marker::Model;

/// The most bytes of a number.
pub const MOST_BYTES: usize = 10;

/// What stands behind a byte from 128 on is below this, so that the whole is below 2^64.
const HIGH_END: u64 = 1 << 57;

/// Bytes that are read from the front. Contracts see it as the bytes that are left; behind an error
/// nothing is known of them.
#[derive(Debug, Drop)]
pub struct Cursor<'a> {
    left: &'a [u8],
}

impl<'a> Model for Cursor<'a> {
    ghost use Rattle.std.specs.Prelude.{List, ℕ};

    ghost Value = { List ℕ };

    ghost view = { λ c. c.left.now };
}

impl<'a> Cursor<'a> {
    /// All of the bytes are left.
    pub fn new(bytes: &'a [u8]) -> Self
        ensures { result ≡ bytes.now }
    {
        Cursor { left: bytes }
    }

    pub fn is_empty(&self) -> bool
        ensures { IsTrue result ↔ (self.now ≡ []) }
    {
        self.left.is_empty()
    }

    /// Reads one byte.
    pub fn byte(&mut self) -> Result<u8, DecodeError>
        ensures { Gives result self.new (first_at self.old) }
    {
        match self.left.split_first() {
            Some((byte, rest)) => {
                self.left = rest;
                Ok(*byte)
            }
            None => Err(DecodeError::Malformed),
        }
    }

    /// Reads a number.
    pub fn number(&mut self) -> Result<u64, DecodeError>
        ensures { Gives result self.new (number.at self.old) }
    {
        match number_within(MOST_BYTES, self.left) {
            Some((n, rest)) => {
                self.left = rest;
                Ok(n)
            }
            None => Err(DecodeError::Malformed),
        }
    }

    /// Reads a length and that many bytes, which are given where they lie.
    pub fn string(&mut self) -> Result<&'a [u8], DecodeError>
        ensures { Gives (shown (λ s. s.now) result) self.new (string.at self.old) }
    {
        let len = self.number()?;
        if (self.left.len() as u64) < len {
            return Err(DecodeError::Malformed);
        }
        let (front, rest) = self.left.split_at(len as usize);
        self.left = rest;
        Ok(front)
    }
}

/// The number at the front, of so many bytes at most, and the bytes behind it.
#[tactic(auto, unfolding(crate::specs::Formats::number_at))]
fn number_within(most: usize, bytes: &[u8]) -> Option<(u64, &[u8])>
    ensures { option_map (λ x. (x.0, x.1.now)) result ≡ number_at most bytes.now }
{
    if most == 0 {
        return None;
    }
    let (first, rest) = bytes.split_first()?;
    if *first < 128 {
        return Some((u64::from(*first), rest));
    }
    let (high, rest) = number_within(most - 1, rest)?;
    if high == 0 || high >= HIGH_END {
        return None;
    }
    Some((128 * high + u64::from(*first - 128), rest))
}
