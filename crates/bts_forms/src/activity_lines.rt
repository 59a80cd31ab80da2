// The lines of commands on activities.
ghost use Rattle.std.specs.Prelude.{◌≡◌};
ghost use Rattle.bts_command.specs.declared.command.Command.TheVariants.{DefineActivity, Link, Run};
ghost use Rattle.bts_forms.specs.Pieces.{made_of_2, made_of_3, made_of_4, ended};
ghost use Rattle.bts_forms.specs.Forms.{define_activity, delete_activity, run, link, check, cancel, reset, suspend, resume};

use crate::Word;
use crate::fields::{given_name, input, maybe_name, synchrony, target};
use crate::pieces::behind_word;
use bts_command::{Command, Target};
use bts_names::{Name16, ProgName, Transid};

fn define_activity_of(
    activity: Result<Name16, Word>,
    event: Result<Option<Name16>, Word>,
    transid: Result<Transid, Word>,
    program: Result<ProgName, Word>,
) -> Result<Command, Word>
    ensures { result ≡ made_of_4 DefineActivity activity event transid program }
{
    let activity = activity?;
    let event = event?;
    let transid = transid?;
    let program = program?;
    Ok(Command::DefineActivity {
        activity,
        event,
        transid,
        program,
    })
}

/// DEFINE ACTIVITY(a) [EVENT(e)] TRANSID(t) PROGRAM(p)
#[tactic(auto, unfolding(crate::specs::Forms::define_activity, crate::specs::Pieces::ended))]
pub fn define_activity(line: &[u8]) -> Option<Result<Command, Word>>
    ensures { result ≡ ended (define_activity line.now) }
{
    let rest = behind_word(b"DEFINE", line)?;
    let Some((activity, rest)) = given_name(b"ACTIVITY", rest) else {
        return None;
    };
    let (event, rest) = maybe_name(b"EVENT", rest);
    let Some((transid, rest)) = given_name(b"TRANSID", rest) else {
        return None;
    };
    let Some((program, rest)) = given_name(b"PROGRAM", rest) else {
        return None;
    };
    rest.is_empty()
        .then_some(define_activity_of(activity, event, transid, program))
}

/// DELETE ACTIVITY(a)
#[tactic(auto, unfolding(crate::specs::Forms::delete_activity, crate::specs::Pieces::ended))]
pub fn delete_activity(line: &[u8]) -> Option<Result<Command, Word>>
    ensures { result ≡ ended (delete_activity line.now) }
{
    let rest = behind_word(b"DELETE", line)?;
    let Some((activity, rest)) = given_name(b"ACTIVITY", rest) else {
        return None;
    };
    rest.is_empty().then_some(activity.map(|activity| Command::DeleteActivity { activity }))
}

fn run_of(
    target: Result<Target, Word>,
    synchronous: Result<bool, Word>,
    input: Result<Option<Name16>, Word>,
) -> Result<Command, Word>
    ensures { result ≡ made_of_3 Run target synchronous input }
{
    let target = target?;
    let synchronous = synchronous?;
    let input = input?;
    Ok(Command::Run {
        target,
        synchronous,
        input,
    })
}

/// RUN target SYNCHRONOUS [INPUTEVENT(e)], or ASYNCHRONOUS
#[tactic(auto, unfolding(crate::specs::Forms::run, crate::specs::Pieces::ended))]
pub fn run(line: &[u8]) -> Option<Result<Command, Word>>
    ensures { result ≡ ended (run line.now) }
{
    let rest = behind_word(b"RUN", line)?;
    let Some((target, rest)) = target(rest) else {
        return None;
    };
    let Some((synchronous, rest)) = synchrony(rest) else {
        return None;
    };
    let (input, rest) = input(rest);
    if !rest.is_empty() {
        return None;
    }
    Some(run_of(target, synchronous, input))
}

fn link_of(
    target: Result<Target, Word>,
    input: Result<Option<Name16>, Word>,
) -> Result<Command, Word>
    ensures { result ≡ made_of_2 Link target input }
{
    let target = target?;
    let input = input?;
    Ok(Command::Link { target, input })
}

/// LINK target [INPUTEVENT(e)]
#[tactic(auto, unfolding(crate::specs::Forms::link, crate::specs::Pieces::ended))]
pub fn link(line: &[u8]) -> Option<Result<Command, Word>>
    ensures { result ≡ ended (link line.now) }
{
    let rest = behind_word(b"LINK", line)?;
    let Some((target, rest)) = target(rest) else {
        return None;
    };
    let (input, rest) = input(rest);
    rest.is_empty().then_some(link_of(target, input))
}

/// CHECK target
#[tactic(auto, unfolding(crate::specs::Forms::check, crate::specs::Pieces::ended))]
pub fn check(line: &[u8]) -> Option<Result<Command, Word>>
    ensures { result ≡ ended (check line.now) }
{
    let rest = behind_word(b"CHECK", line)?;
    let Some((target, rest)) = target(rest) else {
        return None;
    };
    rest.is_empty()
        .then_some(target.map(|target| Command::Check { target }))
}

/// CANCEL target
#[tactic(auto, unfolding(crate::specs::Forms::cancel, crate::specs::Pieces::ended))]
pub fn cancel(line: &[u8]) -> Option<Result<Command, Word>>
    ensures { result ≡ ended (cancel line.now) }
{
    let rest = behind_word(b"CANCEL", line)?;
    let Some((target, rest)) = target(rest) else {
        return None;
    };
    rest.is_empty()
        .then_some(target.map(|target| Command::Cancel { target }))
}

/// RESET target
#[tactic(auto, unfolding(crate::specs::Forms::reset, crate::specs::Pieces::ended))]
pub fn reset(line: &[u8]) -> Option<Result<Command, Word>>
    ensures { result ≡ ended (reset line.now) }
{
    let rest = behind_word(b"RESET", line)?;
    let Some((target, rest)) = target(rest) else {
        return None;
    };
    rest.is_empty()
        .then_some(target.map(|target| Command::Reset { target }))
}

/// SUSPEND target
#[tactic(auto, unfolding(crate::specs::Forms::suspend, crate::specs::Pieces::ended))]
pub fn suspend(line: &[u8]) -> Option<Result<Command, Word>>
    ensures { result ≡ ended (suspend line.now) }
{
    let rest = behind_word(b"SUSPEND", line)?;
    let Some((target, rest)) = target(rest) else {
        return None;
    };
    rest.is_empty()
        .then_some(target.map(|target| Command::Suspend { target }))
}

/// RESUME target
#[tactic(auto, unfolding(crate::specs::Forms::resume, crate::specs::Pieces::ended))]
pub fn resume(line: &[u8]) -> Option<Result<Command, Word>>
    ensures { result ≡ ended (resume line.now) }
{
    let rest = behind_word(b"RESUME", line)?;
    let Some((target, rest)) = target(rest) else {
        return None;
    };
    rest.is_empty()
        .then_some(target.map(|target| Command::Resume { target }))
}
