// The arguments of lines.
ghost use Rattle.std.specs.Prelude.{◌≡◌, ◌+◌, ◌≤◌, ◌<◌, ◌∷◌, ◌++◌, [], ℕ, length, true, nat_le, IfOk, IfSome, Some};
ghost use Rattle.std.specs.List.{list_all};
ghost use Rattle.std.specs.Option.{option_copied, option_map};
ghost use Rattle.bts_forms.specs.Texts.{is_digit, is_decimal, decimal_value, number_within, only_if};
ghost use Rattle.bts_forms.specs.Arguments.{name_within, event_name, path, number, moment, resp, mode, status, literal, source, step_in, steps_in, path_in, hex_digit, hex_pair, hex_pairs, text_in, pairs_in, literal_in, fill_in, last_in, given_in, fill_limit, or_else};

use crate::pieces::{argument, behind_front, closed_by, cut_at};
use crate::{Given, Word};
use bts_names::{Blob, Mode, Moment, Name, Name16, NoMemory, Path, Resp, Status};
use bts_timer::read_moment;
use std::alloc::Global;

/// The most bytes that FILL gives.
const MOST_FILLED: u32 = 1_100_000;

/// The most numbers of a path.
const MOST_STEPS: usize = 32;

pub fn name<K, const MOST: usize>(bytes: &[u8]) -> Result<Name<K, MOST>, Word>
    ensures { result ≡ name_within MOST bytes.now }
{
    match Name::read(bytes) {
        Ok(name) => Ok(name),
        Err(_) => Err(Word::Name),
    }
}

/// A name of an event, or DFHINITIAL.
pub fn event_name(bytes: &[u8]) -> Result<Name16, Word>
    ensures { result ≡ event_name bytes.now }
{
    match Name16::read_any(bytes) {
        Ok(name) => Ok(name),
        Err(_) => Err(Word::Name),
    }
}

fn is_digit(byte: &u8) -> bool
    ensures { result ≡ is_digit byte.now }
{
    matches!(byte, b'0'..=b'9')
}

fn are_digits(bytes: &[u8]) -> bool
    ensures { result ≡ list_all is_digit bytes.now }
{
    bytes.iter().all(|b| is_digit(b))
}

/// Whether these are decimal digits without a leading zero, or 0.
#[tactic(auto, unfolding(crate::specs::Texts::is_decimal))]
fn is_decimal(bytes: &[u8]) -> bool
    ensures { result ≡ is_decimal bytes.now }
{
    match bytes {
        [] => false,
        [first] => is_digit(first),
        [first, rest @ ..] => matches!(first, b'1'..=b'9') && are_digits(rest),
    }
}

pub fn resp(bytes: &[u8]) -> Result<Resp, Word>
    ensures { result ≡ resp bytes.now }
{
    match Resp::from_word(bytes) {
        Some(resp) => Ok(resp),
        None => Err(Word::Known),
    }
}

pub fn mode(bytes: &[u8]) -> Result<Mode, Word>
    ensures { result ≡ mode bytes.now }
{
    match Mode::from_word(bytes) {
        Some(mode) => Ok(mode),
        None => Err(Word::Known),
    }
}

pub fn status(bytes: &[u8]) -> Result<Status, Word>
    ensures { result ≡ status bytes.now }
{
    match Status::from_word(bytes) {
        Some(status) => Ok(status),
        None => Err(Word::Known),
    }
}

pub fn moment(bytes: &[u8]) -> Result<Moment, Word>
    ensures { result ≡ moment bytes.now }
{
    match read_moment(bytes) {
        Ok(moment) => Ok(moment),
        Err(_) => Err(Word::Moment),
    }
}

#[tactic(auto, unfolding(crate::specs::Arguments::hex_digit))]
fn hex_digit(byte: u8) -> Option<u8>
    ensures digit { result ≡ hex_digit byte }
    ensures bound { IfSome result (λ n. n < 16) }
{
    match byte {
        b'0'..=b'9' => Some(byte - b'0'),
        b'A'..=b'F' => Some(byte - b'A' + 10),
        b'a'..=b'f' => Some(byte - b'a' + 10),
        _ => None,
    }
}

#[tactic(auto, unfolding(crate::specs::Arguments::hex_pair))]
fn hex_pair(first: u8, second: u8) -> Option<u8>
    ensures { result ≡ hex_pair first second }
{
    Some(16 * hex_digit(first)? + hex_digit(second)?)
}

#[tactic(auto, unfolding(crate::specs::Arguments::text_in))]
fn text_in(bytes: &[u8]) -> Option<&[u8]>
    ensures { option_copied result ≡ text_in bytes.now }
{
    let opened = behind_front(b"'", bytes)?;
    closed_by(b'\'', opened)
}

/// The number of these digits, where it is at most so much.
#[tactic(auto, using(crate::proofs::Numbers::too_large))]
fn value_within(most: u32, digits: &[u8]) -> Option<u32>
    requires { list_all is_digit digits.now ≡ true }
    ensures { result ≡ only_if (λ n. nat_le n most) (Some (decimal_value digits.now)) }
{
    let mut value: u64 = 0;
    let mut rest = digits;
    while let [digit, more @ ..] = rest {
        value = 10 * value + u64::from(*digit - b'0');
        if value > u64::from(most) {
            return None;
        }
        rest = more;
    }
    Some(value as u32)
}

/// A decimal number, where it is at most so much.
#[tactic(auto, using(crate::proofs::Numbers::digits_of_decimal), unfolding(crate::specs::Texts::number_within, crate::specs::Texts::number_in))]
pub fn number_within(most: u32, bytes: &[u8]) -> Option<u32>
    ensures value { result ≡ number_within most bytes.now }
    ensures bound { IfSome result (λ n. n ≤ most) }
{
    if !is_decimal(bytes) {
        return None;
    }
    value_within(most, bytes)
}

pub fn number(bytes: &[u8]) -> Result<u32, Word>
    ensures { result ≡ number bytes.now }
{
    match number_within(u32::MAX, bytes) {
        Some(n) => Ok(n),
        None => Err(Word::Number),
    }
}

/// Adds the bytes of hexadecimal pairs; None where they are none.
#[tactic(auto, using(crate::proofs::Pairs::pair_more), unfolding(crate::specs::Arguments::hex_pairs))]
fn add_pairs(pairs: &[u8], mut out: Blob) -> Result<Option<Blob>, NoMemory>
    ensures { IfOk result (λ r. r ≡ option_map (λ bytes. out ++ bytes) (hex_pairs pairs.now)) }
{
    let mut rest = pairs;
    while let [first, second, more @ ..] = rest {
        let Some(byte) = hex_pair(*first, *second) else {
            return Ok(None);
        };
        out.push(byte)?;
        rest = more;
    }
    Ok(rest.is_empty().then_some(out))
}

#[tactic(auto, unfolding(crate::specs::Arguments::pairs_in))]
fn pairs_in(alloc: Global, bytes: &[u8]) -> Result<Option<Blob>, NoMemory>
    ensures { IfOk result (λ r. r ≡ pairs_in bytes.now) }
{
    let Some(opened) = behind_front(b"X'", bytes) else {
        return Ok(None);
    };
    let Some(pairs) = closed_by(b'\'', opened) else {
        return Ok(None);
    };
    add_pairs(pairs, Blob::new(alloc))
}

fn literal_in(alloc: Global, bytes: &[u8]) -> Result<Option<Blob>, NoMemory>
    ensures { IfOk result (λ r. r ≡ literal_in bytes.now) }
{
    match text_in(bytes) {
        Some(text) => Ok(Some(Blob::copy_of(alloc, text)?)),
        None => pairs_in(alloc, bytes),
    }
}

/// The bytes of a literal.
pub fn literal(alloc: Global, bytes: &[u8]) -> Result<Result<Blob, Word>, NoMemory>
    ensures { IfOk result (λ r. r ≡ literal bytes.now) }
{
    match literal_in(alloc, bytes)? {
        Some(blob) => Ok(Ok(blob)),
        None => Ok(Err(Word::Literal)),
    }
}

#[tactic(auto, unfolding(crate::specs::Arguments::fill_in))]
fn fill_in(bytes: &[u8]) -> Option<Given>
    ensures { result ≡ fill_in bytes.now }
{
    let inside = argument(b"FILL", bytes)?;
    Some(Given::Fill(number_within(MOST_FILLED, inside)?))
}

fn short_source(bytes: &[u8]) -> Option<Given>
    ensures { result ≡ or_else (last_in bytes.now) (fill_in bytes.now) }
{
    if bytes == b"LAST".as_slice() {
        return Some(Given::Last);
    }
    fill_in(bytes)
}

/// What FROM gives.
pub fn source(alloc: Global, bytes: &[u8]) -> Result<Result<Given, Word>, NoMemory>
    ensures { IfOk result (λ r. r ≡ source bytes.now) }
{
    if let Some(given) = short_source(bytes) {
        return Ok(Ok(given));
    }
    match literal_in(alloc, bytes)? {
        Some(blob) => Ok(Ok(Given::Literal(blob))),
        None => Ok(Err(Word::Literal)),
    }
}

/// A number from 1.
#[tactic(auto, unfolding(crate::specs::Arguments::step_in))]
fn step_in(text: &[u8]) -> Option<u32>
    ensures { result ≡ step_in text.now }
{
    let n = number_within(u32::MAX, text)?;
    if n == 0 {
        return None;
    }
    Some(n)
}

/// The path with so many such numbers or fewer behind it, which have `/` between them.
#[tactic(auto, using(crate::proofs::Steps::one_more, crate::proofs::Steps::last_step, crate::proofs::Steps::no_step), unfolding(crate::specs::Arguments::steps_in))]
fn steps_in(most: usize, path: &Path, text: &[u8]) -> Option<Path>
    requires { length path.now + most ≤ 32 }
    ensures { result ≡ option_map (λ steps. path.now ++ steps) (steps_in most text.now) }
{
    if most == 0 {
        return None;
    }
    let Some((part, more)) = cut_at(b'/', text) else {
        return path.child(step_in(text)?);
    };
    let longer = path.child(step_in(part)?)?;
    steps_in(most - 1, &longer, more)
}

#[tactic(auto, unfolding(crate::specs::Arguments::path_in))]
fn path_in(text: &[u8]) -> Option<Path>
    ensures { result ≡ path_in text.now }
{
    let steps = behind_front(b"/", text)?;
    if steps.is_empty() {
        return Some(Path::root());
    }
    steps_in(MOST_STEPS, &Path::root(), steps)
}

pub fn path(bytes: &[u8]) -> Result<Path, Word>
    ensures { result ≡ path bytes.now }
{
    match path_in(bytes) {
        Some(path) => Ok(path),
        None => Err(Word::Name),
    }
}
