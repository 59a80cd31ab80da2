// The lines that end a frame.
ghost use Rattle.std.specs.Prelude.{◌≡◌};
ghost use Rattle.bts_forms.specs.Pieces.{ended};
ghost use Rattle.bts_forms.specs.Forms.{plain_return, return_ending, abend, rollback};

use crate::Word;
use crate::fields::given_name;
use crate::pieces::behind_word;
use bts_command::Command;

/// RETURN
#[tactic(auto, unfolding(crate::specs::Forms::plain_return, crate::specs::Pieces::ended))]
pub fn plain_return(line: &[u8]) -> Option<Result<Command, Word>>
    ensures { result ≡ ended (plain_return line.now) }
{
    let rest = behind_word(b"RETURN", line)?;
    rest.is_empty().then_some(Ok(Command::Return {
        end_activity: false,
    }))
}

/// RETURN ENDACTIVITY
#[tactic(auto, unfolding(crate::specs::Forms::return_ending, crate::specs::Pieces::ended))]
pub fn return_ending(line: &[u8]) -> Option<Result<Command, Word>>
    ensures { result ≡ ended (return_ending line.now) }
{
    let rest = behind_word(b"RETURN", line)?;
    let rest = behind_word(b"ENDACTIVITY", rest)?;
    if !rest.is_empty() {
        return None;
    }
    Some(Ok(Command::Return { end_activity: true }))
}

/// ABEND ABCODE(c)
#[tactic(auto, unfolding(crate::specs::Forms::abend, crate::specs::Pieces::ended))]
pub fn abend(line: &[u8]) -> Option<Result<Command, Word>>
    ensures { result ≡ ended (abend line.now) }
{
    let rest = behind_word(b"ABEND", line)?;
    let Some((code, rest)) = given_name(b"ABCODE", rest) else {
        return None;
    };
    rest.is_empty()
        .then_some(code.map(|code| Command::Abend { code }))
}

/// ROLLBACK
#[tactic(auto, unfolding(crate::specs::Forms::rollback, crate::specs::Pieces::ended))]
pub fn rollback(line: &[u8]) -> Option<Result<Command, Word>>
    ensures { result ≡ ended (rollback line.now) }
{
    let rest = behind_word(b"ROLLBACK", line)?;
    rest.is_empty().then_some(Ok(Command::Rollback))
}
