// The options of lines, each with what it says or why it is refused, and the line from the next word on.
ghost use Rattle.std.specs.Prelude.{◌≡◌, ◌∷◌, [], Some, Ok, IfOk, codes};
ghost use Rattle.std.specs.Option.{option_map};
ghost use Rattle.bts_forms.specs.Pieces.{bare, given, maybe};
ghost use Rattle.bts_forms.specs.Arguments.{name, name_within, event_name, number, moment, path, resp, mode, status, literal, source};
ghost use Rattle.bts_forms.specs.Forms.{target, spot, either, synchrony, connective, whether, input, due, acquired};

use crate::Word;
use crate::arguments::{mode, moment, name, number, path, status};
use crate::pieces::{argument_in, behind_word, first_word};
use bts_command::{Due, Spot, Target};
use bts_names::{Mode, Moment, Name, Name16, Path, Status};

/// A word that is a name.
pub fn bare_name<K, const MOST: usize>(line: &[u8]) -> Option<(Result<Name<K, MOST>, Word>, &[u8])>
    ensures { option_map (λ x. (x.0, x.1.now)) result ≡ bare (name_within MOST) line.now }
{
    if line.is_empty() {
        return None;
    }
    let (word, rest) = first_word(line);
    Some((name(word), rest))
}

/// A word that is a moment.
pub fn bare_moment(line: &[u8]) -> Option<(Result<Moment, Word>, &[u8])>
    ensures { option_map (λ x. (x.0, x.1.now)) result ≡ bare moment line.now }
{
    if line.is_empty() {
        return None;
    }
    let (word, rest) = first_word(line);
    Some((moment(word), rest))
}

/// The name that is the argument of this word.
pub fn given_name<'a, K, const MOST: usize>(
    word: &[u8],
    line: &'a [u8],
) -> Option<(Result<Name<K, MOST>, Word>, &'a [u8])>
    ensures { option_map (λ x. (x.0, x.1.now)) result ≡ given word.now (name_within MOST) line.now }
{
    let (bytes, rest) = argument_in(word, line)?;
    Some((name(bytes), rest))
}

/// The same, where it may be left out.
pub fn maybe_name<'a, K, const MOST: usize>(
    word: &[u8],
    line: &'a [u8],
) -> (Result<Option<Name<K, MOST>>, Word>, &'a [u8])
    ensures { Some (result.0, result.1.now) ≡ maybe (given word.now (name_within MOST)) line.now }
{
    let Some((said, rest)) = given_name(word, line) else {
        return (Ok(None), line);
    };
    match said {
        Ok(name) => (Ok(Some(name)), rest),
        Err(why) => (Err(why), rest),
    }
}

pub fn given_path<'a>(word: &[u8], line: &'a [u8]) -> Option<(Result<Path, Word>, &'a [u8])>
    ensures { option_map (λ x. (x.0, x.1.now)) result ≡ given word.now path line.now }
{
    let (bytes, rest) = argument_in(word, line)?;
    Some((path(bytes), rest))
}

/// ACTIVITY(a), ACQPROCESS or ACQACTIVITY
#[tactic(auto, unfolding(crate::specs::Forms::target))]
pub fn target(line: &[u8]) -> Option<(Result<Target, Word>, &[u8])>
    ensures { option_map (λ x. (x.0, x.1.now)) result ≡ target line.now }
{
    if let Some((activity, rest)) = given_name(b"ACTIVITY", line) {
        return match activity {
            Ok(activity) => Some((Ok(Target::Activity(activity)), rest)),
            Err(why) => Some((Err(why), rest)),
        };
    }
    if let Some(rest) = behind_word(b"ACQPROCESS", line) {
        return Some((Ok(Target::AcqProcess), rest));
    }
    let rest = behind_word(b"ACQACTIVITY", line)?;
    Some((Ok(Target::AcqActivity), rest))
}

/// PROCESS, a target or nothing
#[tactic(auto, unfolding(crate::specs::Forms::spot))]
pub fn spot(line: &[u8]) -> (Result<Spot, Word>, &[u8])
    ensures { Some (result.0, result.1.now) ≡ spot line.now }
{
    match target(line) {
        Some((Ok(target), rest)) => return (Ok(Spot::Of(target)), rest),
        Some((Err(why), rest)) => return (Err(why), rest),
        None => {}
    }
    match behind_word(b"PROCESS", line) {
        Some(rest) => (Ok(Spot::Process), rest),
        None => (Ok(Spot::Own), line),
    }
}

/// One of two words; whether it is the first.
#[tactic(auto, unfolding(crate::specs::Forms::either))]
fn either<'a>(yes: &[u8], no: &[u8], line: &'a [u8]) -> Option<(Result<bool, Word>, &'a [u8])>
    ensures { option_map (λ x. (x.0, x.1.now)) result ≡ either yes.now no.now line.now }
{
    if let Some(rest) = behind_word(yes, line) {
        return Some((Ok(true), rest));
    }
    let rest = behind_word(no, line)?;
    Some((Ok(false), rest))
}

/// SYNCHRONOUS or ASYNCHRONOUS; whether it is the first.
#[tactic(auto, unfolding(crate::specs::Forms::synchrony))]
pub fn synchrony(line: &[u8]) -> Option<(Result<bool, Word>, &[u8])>
    ensures { option_map (λ x. (x.0, x.1.now)) result ≡ synchrony line.now }
{
    either(b"SYNCHRONOUS", b"ASYNCHRONOUS", line)
}

/// AND or OR; whether it is AND.
#[tactic(auto, unfolding(crate::specs::Forms::connective))]
pub fn connective(line: &[u8]) -> Option<(Result<bool, Word>, &[u8])>
    ensures { option_map (λ x. (x.0, x.1.now)) result ≡ connective line.now }
{
    either(b"AND", b"OR", line)
}

/// Whether this word is there.
#[tactic(auto, unfolding(crate::specs::Forms::whether))]
pub fn whether<'a>(word: &[u8], line: &'a [u8]) -> (Result<bool, Word>, &'a [u8])
    ensures { Some (result.0, result.1.now) ≡ whether word.now line.now }
{
    match behind_word(word, line) {
        Some(rest) => (Ok(true), rest),
        None => (Ok(false), line),
    }
}

/// INPUTEVENT(e) or nothing
#[tactic(auto, unfolding(crate::specs::Forms::input))]
pub fn input(line: &[u8]) -> (Result<Option<Name16>, Word>, &[u8])
    ensures { Some (result.0, result.1.now) ≡ input line.now }
{
    maybe_name(b"INPUTEVENT", line)
}

/// AFTER(n) or AT(m)
#[tactic(auto, unfolding(crate::specs::Forms::due))]
pub fn due(line: &[u8]) -> Option<(Result<Due, Word>, &[u8])>
    ensures { option_map (λ x. (x.0, x.1.now)) result ≡ due line.now }
{
    if let Some((bytes, rest)) = argument_in(b"AFTER", line) {
        return match number(bytes) {
            Ok(seconds) => Some((Ok(Due::After(seconds)), rest)),
            Err(why) => Some((Err(why), rest)),
        };
    }
    let (bytes, rest) = argument_in(b"AT", line)?;
    match moment(bytes) {
        Ok(moment) => Some((Ok(Due::At(moment)), rest)),
        Err(why) => Some((Err(why), rest)),
    }
}

/// ACQPROCESS, ACQACTIVITY or nothing
#[tactic(auto, unfolding(crate::specs::Forms::acquired))]
pub fn acquired(line: &[u8]) -> (Result<Option<Target>, Word>, &[u8])
    ensures { Some (result.0, result.1.now) ≡ maybe acquired line.now }
{
    if let Some(rest) = behind_word(b"ACQPROCESS", line) {
        return (Ok(Some(Target::AcqProcess)), rest);
    }
    match behind_word(b"ACQACTIVITY", line) {
        Some(rest) => (Ok(Some(Target::AcqActivity)), rest),
        None => (Ok(None), line),
    }
}

/// MODE(m) or nothing
pub fn maybe_mode(line: &[u8]) -> (Result<Option<Mode>, Word>, &[u8])
    ensures { Some (result.0, result.1.now) ≡ maybe (given (codes "MODE") mode) line.now }
{
    let Some((bytes, rest)) = argument_in(b"MODE", line) else {
        return (Ok(None), line);
    };
    match mode(bytes) {
        Ok(mode) => (Ok(Some(mode)), rest),
        Err(why) => (Err(why), rest),
    }
}

/// STATUS(s) or nothing
pub fn maybe_status(line: &[u8]) -> (Result<Option<Status>, Word>, &[u8])
    ensures { Some (result.0, result.1.now) ≡ maybe (given (codes "STATUS") status) line.now }
{
    let Some((bytes, rest)) = argument_in(b"STATUS", line) else {
        return (Ok(None), line);
    };
    match status(bytes) {
        Ok(status) => (Ok(Some(status)), rest),
        Err(why) => (Err(why), rest),
    }
}
