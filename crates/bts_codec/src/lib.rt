//! Units of work as bytes: the payloads of a journal.
#![tactic(auto)]

mod arguments;
mod calls;
mod codec;
mod commands;
mod cursor;
mod decode_error;
mod lists;
mod numbers;
mod parts;
mod replies;
mod strings;
mod units;
mod words;

pub use codec::{
    decode, encode, no_payload_begins_another, payloads_are_short, reads_what_is_spelled,
    stored_units_are_given,
};
pub use decode_error::DecodeError;

#[cfg(test)]
mod tests;
