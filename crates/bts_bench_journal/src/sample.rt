// A unit that has a payload.
ghost use Rattle.std.specs.Prelude.{◌≡◌, IfOk, IsTrue};
ghost use Rattle.bts_codec.specs.Units.{is_unit, payload};
ghost use Rattle.bts_codec.specs.Answers.{IsPayload};

use crate::fault::Fault;
use bts_codec::{decode, encode};
use bts_command::Ended;
use bts_names::Blob;
use std::alloc::Global;

/// A unit that was read from its payload.
#[derive(Drop)]
pub struct Sample {
    ended: Ended,
    ghost fits: { IsTrue (is_unit ended) },
}

impl Sample {
    pub fn read(alloc: Global, bytes: &[u8]) -> Result<Sample, Fault>
        ensures { IfOk result (λ sample. IsPayload sample.ended bytes.now) }
    {
        let ended = decode(alloc, bytes)?;
        Ok(Sample { ended })
    }

    pub fn payload(&self, alloc: Global) -> Result<Blob, Fault>
        ensures { IfOk result (λ bytes. bytes ≡ payload self.now.ended) }
    {
        Ok(encode(alloc, &self.ended)?)
    }

    /// How many calls it has.
    pub fn calls(&self) -> usize {
        self.ended.calls.len()
    }
}
