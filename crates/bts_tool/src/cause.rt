// Why a call of the program does no session.
ghost use Rattle.std.specs.Prelude.{◌≡◌, ◌++◌, IfOk};
ghost use Rattle.bts_tool.specs.Causes.{reason_word, tail_line};
ghost use Rattle.bts_tool.specs.declared.cause.Cause.TheVariants.{BadSession};

use bts_names::{Blob, NoMemory};
use bts_report::add_number;
use bts_script::Word;
use std::alloc::Global;
use thiserror::Error;

/// Why no session was done. The causes stand in the order in which they are looked for; want of memory may
/// come at any time behind the words.
#[derive(Clone, Copy, Debug, PartialEq, Eq, Error)]
pub enum Cause {
    /// The words aren't `run FILE` with perhaps `--limit N`.
    #[error("words refused")]
    WordsRefused,
    #[error("source fault")]
    SourceFault,
    /// The bytes that were read aren't a session: the first bad line, from 1, or 0 where the text is too long.
    #[error("bad session at line {line}")]
    BadSession { line: u32, reason: Word },
    #[error("no memory")]
    NoMemory,
}

/// The word by which a reason is told.
fn reason_word(reason: Word) -> &'static [u8]
    ensures { result.now ≡ reason_word reason }
{
    match reason {
        Word::Long => b"Long",
        Word::Character => b"Character",
        Word::Word => b"Word",
        Word::NotYet => b"NotYet",
        Word::Place => b"Place",
        Word::Name => b"Name",
        Word::Number => b"Number",
        Word::Moment => b"Moment",
        Word::Literal => b"Literal",
        Word::Known => b"Known",
        Word::Twice => b"Twice",
        Word::Label => b"Label",
        Word::Open => b"Open",
    }
}

/// The line that tells the first bad line of a session.
#[tactic(auto, unfolding(crate::specs::Causes::tail_line))]
pub fn bad_session_line(alloc: Global, line: u32, reason: Word) -> Result<Blob, NoMemory>
    ensures { IfOk result (λ text. text ≡ tail_line (BadSession line reason)) }
{
    let mut text = Blob::new(alloc);
    text.extend(b"session: line ")?;
    add_number(&mut text, u64::from(line))?;
    text.push(b' ')?;
    text.extend(reason_word(reason))?;
    text.push(b'\n')?;
    Ok(text)
}
