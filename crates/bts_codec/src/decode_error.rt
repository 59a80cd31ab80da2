// Why bytes are not decoded.
ghost use Rattle.std.specs.Prelude.{◌≡◌};
ghost use Rattle.bts_codec.specs.declared.decode_error.DecodeError.TheVariants as error;

use thiserror::Error;

/// Why bytes were not decoded.
#[derive(Clone, Copy, Debug, PartialEq, Eq, Error)]
pub enum DecodeError {
    /// No unit has these bytes.
    #[error("malformed")]
    Malformed,
    #[error("no memory")]
    NoMemory,
}

impl From<bts_names::NoMemory> for DecodeError {
    ghost from_gives = { λ _ e. e ≡ error.NoMemory };

    fn from(_: bts_names::NoMemory) -> Self {
        DecodeError::NoMemory
    }
}
