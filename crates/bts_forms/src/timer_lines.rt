// The lines of commands on timers.
ghost use Rattle.std.specs.Prelude.{◌≡◌};
ghost use Rattle.bts_command.specs.declared.command.Command.TheVariants.{DefineTimer, ForceTimer};
ghost use Rattle.bts_forms.specs.Pieces.{made_of_2, made_of_3, ended};
ghost use Rattle.bts_forms.specs.Forms.{define_timer, force_timer, check_timer, delete_timer};

use crate::Word;
use crate::fields::{acquired, due, given_name, maybe_name};
use crate::pieces::behind_word;
use bts_command::{Command, Due, Target};
use bts_names::Name16;

fn define_timer_of(
    timer: Result<Name16, Word>,
    event: Result<Option<Name16>, Word>,
    due: Result<Due, Word>,
) -> Result<Command, Word>
    ensures { result ≡ made_of_3 DefineTimer timer event due }
{
    let timer = timer?;
    let event = event?;
    let due = due?;
    Ok(Command::DefineTimer { timer, event, due })
}

/// DEFINE TIMER(t) [EVENT(e)] AFTER(n), or AT(m)
#[tactic(auto, unfolding(crate::specs::Forms::define_timer, crate::specs::Pieces::ended))]
pub fn define_timer(line: &[u8]) -> Option<Result<Command, Word>>
    ensures { result ≡ ended (define_timer line.now) }
{
    let rest = behind_word(b"DEFINE", line)?;
    let Some((timer, rest)) = given_name(b"TIMER", rest) else {
        return None;
    };
    let (event, rest) = maybe_name(b"EVENT", rest);
    let Some((due, rest)) = due(rest) else {
        return None;
    };
    rest.is_empty()
        .then_some(define_timer_of(timer, event, due))
}

fn force_timer_of(
    timer: Result<Name16, Word>,
    target: Result<Option<Target>, Word>,
) -> Result<Command, Word>
    ensures { result ≡ made_of_2 ForceTimer timer target }
{
    let timer = timer?;
    let target = target?;
    Ok(Command::ForceTimer { timer, target })
}

/// FORCE TIMER(t) [ACQPROCESS], or ACQACTIVITY
#[tactic(auto, unfolding(crate::specs::Forms::force_timer, crate::specs::Pieces::ended))]
pub fn force_timer(line: &[u8]) -> Option<Result<Command, Word>>
    ensures { result ≡ ended (force_timer line.now) }
{
    let rest = behind_word(b"FORCE", line)?;
    let Some((timer, rest)) = given_name(b"TIMER", rest) else {
        return None;
    };
    let (target, rest) = acquired(rest);
    rest.is_empty().then_some(force_timer_of(timer, target))
}

/// CHECK TIMER(t)
#[tactic(auto, unfolding(crate::specs::Forms::check_timer, crate::specs::Pieces::ended))]
pub fn check_timer(line: &[u8]) -> Option<Result<Command, Word>>
    ensures { result ≡ ended (check_timer line.now) }
{
    let rest = behind_word(b"CHECK", line)?;
    let Some((timer, rest)) = given_name(b"TIMER", rest) else {
        return None;
    };
    rest.is_empty()
        .then_some(timer.map(|timer| Command::CheckTimer { timer }))
}

/// DELETE TIMER(t)
#[tactic(auto, unfolding(crate::specs::Forms::delete_timer, crate::specs::Pieces::ended))]
pub fn delete_timer(line: &[u8]) -> Option<Result<Command, Word>>
    ensures { result ≡ ended (delete_timer line.now) }
{
    let rest = behind_word(b"DELETE", line)?;
    let Some((timer, rest)) = given_name(b"TIMER", rest) else {
        return None;
    };
    rest.is_empty()
        .then_some(timer.map(|timer| Command::DeleteTimer { timer }))
}
