// Single words, each behind a space.
ghost use Rattle.std.specs.Prelude.{◌≡◌, ◌<◌, ◌∷◌, ◌++◌, OnOk};
ghost use Rattle.std.specs.List.{flat_map};
ghost use Rattle.std.specs.Fmt.{decimal};
ghost use Rattle.bts_report.specs.Words.{with_argument, path_text, hex_digit, hex_pair, bytes_text, suspended_word, code_word};

use crate::number::add_number;
use bts_names::{Abcode, Blob, NoMemory, Path};

pub fn add_word(out: &mut Blob, word: &[u8]) -> Result<(), NoMemory>
    ensures { OnOk result (out.new ≡ out.old ++ 32 ∷ word.now) }
{
    out.push(b' ')?;
    out.extend(word)
}

pub fn add_number_word(out: &mut Blob, n: u64) -> Result<(), NoMemory>
    ensures { OnOk result (out.new ≡ out.old ++ 32 ∷ decimal n) }
{
    out.push(b' ')?;
    add_number(out, n)
}

pub fn add_with_argument(out: &mut Blob, word: &[u8], argument: &[u8]) -> Result<(), NoMemory>
    ensures { OnOk result (out.new ≡ out.old ++ 32 ∷ with_argument word.now argument.now) }
{
    add_word(out, word)?;
    out.extend(b"(")?;
    out.extend(argument)?;
    out.extend(b")")
}

fn add_steps(out: &mut Blob, numbers: &[u32]) -> Result<(), NoMemory>
    ensures { OnOk result (out.new ≡ out.old ++ flat_map (λ x. 47 ∷ decimal x) numbers.now) }
{
    for n in numbers {
        out.push(b'/')?;
        add_number(out, u64::from(*n))?;
    }
    Ok(())
}

/// Adds the text of a path, with no space before it.
pub fn add_path_text(out: &mut Blob, path: &Path) -> Result<(), NoMemory>
    ensures { OnOk result (out.new ≡ out.old ++ path_text path.now) }
{
    let numbers = path.as_slice();
    if numbers.is_empty() {
        return out.extend(b"/");
    }
    add_steps(out, numbers)
}

pub fn add_path(out: &mut Blob, path: &Path) -> Result<(), NoMemory>
    ensures { OnOk result (out.new ≡ out.old ++ 32 ∷ path_text path.now) }
{
    out.push(b' ')?;
    add_path_text(out, path)
}

fn hex_digit_of(n: u8) -> u8
    requires { n < 16 }
    ensures { result ≡ hex_digit n }
{
    if n < 10 { b'0' + n } else { b'A' + (n - 10) }
}

fn add_hex_pairs(out: &mut Blob, bytes: &[u8]) -> Result<(), NoMemory>
    ensures { OnOk result (out.new ≡ out.old ++ flat_map hex_pair bytes.now) }
{
    for b in bytes {
        out.extend(&[hex_digit_of(*b / 16), hex_digit_of(*b % 16)])?;
    }
    Ok(())
}

pub fn add_bytes(out: &mut Blob, bytes: &[u8]) -> Result<(), NoMemory>
    ensures { OnOk result (out.new ≡ out.old ++ 32 ∷ bytes_text bytes.now) }
{
    out.extend(b" X'")?;
    add_hex_pairs(out, bytes)?;
    out.extend(b"'")
}

pub fn add_suspended(out: &mut Blob, suspended: bool) -> Result<(), NoMemory>
    ensures { OnOk result (out.new ≡ out.old ++ 32 ∷ suspended_word suspended) }
{
    if suspended {
        return add_word(out, b"SUSPENDED");
    }
    add_word(out, b"NOTSUSPENDED")
}

pub fn add_code(out: &mut Blob, code: &Option<Abcode>) -> Result<(), NoMemory>
    ensures { OnOk result (out.new ≡ out.old ++ 32 ∷ code_word code.now) }
{
    match code {
        None => add_word(out, b"-"),
        Some(code) => add_word(out, code.as_bytes()),
    }
}
