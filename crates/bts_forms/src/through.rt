// Which lines are let through, of the forms whose options or kind of target decide.
ghost use Rattle.std.specs.Prelude.{◌≡◌};
ghost use Rattle.std.specs.Option.{option_copied};
ghost use Rattle.bts_forms.specs.Forms.{asynchronous, behind_container, behind_target, check_through, container_through, isnt_child, isnt_synchronous, run_through};

use crate::fields::target;
use crate::pieces::{argument_in, behind_word};

/// Whether no ACTIVITY(a) stands next.
#[tactic(auto, unfolding(crate::specs::Forms::isnt_child))]
fn isnt_child(line: &[u8]) -> bool
    ensures { result ≡ isnt_child line.now }
{
    argument_in(b"ACTIVITY", line).is_none()
}

#[tactic(auto, unfolding(crate::specs::Forms::isnt_synchronous))]
fn isnt_synchronous(line: &[u8]) -> bool
    ensures { result ≡ isnt_synchronous line.now }
{
    behind_word(b"SYNCHRONOUS", line).is_none()
}

/// The line behind a target.
#[tactic(auto, unfolding(crate::specs::Forms::behind_target))]
fn behind_target(line: &[u8]) -> Option<&[u8]>
    ensures { option_copied result ≡ behind_target line.now }
{
    let Some((_, rest)) = target(line) else {
        return None;
    };
    Some(rest)
}

/// The line behind such a word and a container's name.
#[tactic(auto, unfolding(crate::specs::Forms::behind_container))]
fn behind_container<'a>(word: &[u8], line: &'a [u8]) -> Option<&'a [u8]>
    ensures { option_copied result ≡ behind_container word.now line.now }
{
    let rest = behind_word(word, line)?;
    let (_, rest) = argument_in(b"CONTAINER", rest)?;
    Some(rest)
}

/// Whether a target stands next that isn't a child, and no SYNCHRONOUS behind it.
#[tactic(auto, unfolding(crate::specs::Forms::asynchronous))]
fn asynchronous(line: &[u8]) -> bool
    ensures { result ≡ asynchronous line.now }
{
    if !isnt_child(line) {
        return false;
    }
    match behind_target(line) {
        Some(rest) => isnt_synchronous(rest),
        None => false,
    }
}

/// Whether a line of the form RUN is let through.
#[tactic(auto, unfolding(crate::specs::Forms::run_through))]
pub fn run_through(line: &[u8]) -> bool
    ensures { result ≡ run_through line.now }
{
    match behind_word(b"RUN", line) {
        Some(rest) => asynchronous(rest),
        None => false,
    }
}

/// Whether a line of the form CHECK is let through.
#[tactic(auto, unfolding(crate::specs::Forms::check_through))]
pub fn check_through(line: &[u8]) -> bool
    ensures { result ≡ check_through line.now }
{
    match behind_word(b"CHECK", line) {
        Some(rest) => isnt_child(rest),
        None => false,
    }
}

/// Whether a line of a command on a container, with such a word in front, is let through.
#[tactic(auto, unfolding(crate::specs::Forms::container_through))]
pub fn container_through(word: &[u8], line: &[u8]) -> bool
    ensures { result ≡ container_through word.now line.now }
{
    match behind_container(word, line) {
        Some(rest) => isnt_child(rest),
        None => false,
    }
}
