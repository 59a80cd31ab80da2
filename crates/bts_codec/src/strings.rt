// Strings behind their lengths, and the names that they spell.
ghost use Rattle.std.specs.Prelude.{◌≡◌, ◌++◌, OnOk};
ghost use Rattle.bts_codec.specs.Formats.{string, optional};
ghost use Rattle.bts_codec.specs.Fields.{name_within};
ghost use Rattle.bts_codec.specs.Fields as field;
ghost use Rattle.bts_codec.specs.Answers.{Gives};

use crate::DecodeError;
use crate::cursor::Cursor;
use crate::numbers::add_number;
use bts_names::{Blob, Key, Name, Name16, NoMemory};
use std::alloc::Global;

/// Puts the length of the bytes and the bytes at the end.
pub fn add_string(out: &mut Blob, bytes: &[u8]) -> Result<(), NoMemory>
    ensures { OnOk result (out.new ≡ out.old ++ string.spell bytes.now) }
{
    add_number(out, bytes.len() as u64)?;
    out.extend(bytes)
}

/// Reads a string, and copies it.
pub fn read_blob(alloc: Global, bytes: &mut Cursor<'_>) -> Result<Blob, DecodeError>
    ensures { Gives result bytes.new (string.at bytes.old) }
{
    let front = bytes.string()?;
    let blob = Blob::copy_of(alloc, front)?;
    Ok(blob)
}

/// Reads a name.
pub fn read_name<K, const MOST: usize>(bytes: &mut Cursor<'_>) -> Result<Name<K, MOST>, DecodeError>
    ensures { Gives result bytes.new ((name_within MOST).at bytes.old) }
{
    let word = bytes.string()?;
    match Name::read(word) {
        Ok(name) => Ok(name),
        Err(_) => Err(DecodeError::Malformed),
    }
}

/// Puts a name that may be left out at the end.
pub fn add_optional_name(out: &mut Blob, name: &Option<Name16>) -> Result<(), NoMemory>
    ensures { OnOk result (out.new ≡ out.old ++ (optional field.name).spell name.now) }
{
    match name {
        None => out.push(0),
        Some(name) => {
            out.push(1)?;
            add_string(out, name.as_bytes())
        }
    }
}

/// Reads a name that may be left out.
pub fn read_optional_name(bytes: &mut Cursor<'_>) -> Result<Option<Name16>, DecodeError>
    ensures { Gives result bytes.new ((optional field.name).at bytes.old) }
{
    match bytes.byte()? {
        0 => Ok(None),
        1 => {
            let name = read_name(bytes)?;
            Ok(Some(name))
        }
        _ => Err(DecodeError::Malformed),
    }
}

/// Puts a key at the end.
pub fn add_key(out: &mut Blob, key: &Key) -> Result<(), NoMemory>
    ensures { OnOk result (out.new ≡ out.old ++ field.key.spell key.now) }
{
    add_string(out, key.ptype.as_bytes())?;
    add_string(out, key.pname.as_bytes())
}

/// Reads a key.
pub fn read_key(bytes: &mut Cursor<'_>) -> Result<Key, DecodeError>
    ensures { Gives result bytes.new (field.key.at bytes.old) }
{
    let ptype = read_name(bytes)?;
    let pname = read_name(bytes)?;
    Ok(Key { ptype, pname })
}
