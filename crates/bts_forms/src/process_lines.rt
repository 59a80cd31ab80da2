// The lines of commands on processes.
ghost use Rattle.std.specs.Prelude.{◌≡◌};
ghost use Rattle.bts_command.specs.declared.command.Command.TheVariants.{DefineProcess};
ghost use Rattle.bts_forms.specs.Pieces.{made_of_2, ended};
ghost use Rattle.bts_forms.specs.Forms.{define_process, acquire_process, acquire_activity, purge_process};

use crate::Word;
use crate::fields::{given_name, given_path};
use crate::pieces::behind_word;
use bts_command::Command;
use bts_names::{ProgName, Transid};

fn define_process_of(
    transid: Result<Transid, Word>,
    program: Result<ProgName, Word>,
) -> Result<Command, Word>
    ensures { result ≡ made_of_2 DefineProcess transid program }
{
    let transid = transid?;
    let program = program?;
    Ok(Command::DefineProcess { transid, program })
}

/// DEFINE PROCESS TRANSID(t) PROGRAM(p)
#[tactic(auto, unfolding(crate::specs::Forms::define_process, crate::specs::Pieces::ended))]
pub fn define_process(line: &[u8]) -> Option<Result<Command, Word>>
    ensures { result ≡ ended (define_process line.now) }
{
    let rest = behind_word(b"DEFINE", line)?;
    let rest = behind_word(b"PROCESS", rest)?;
    let Some((transid, rest)) = given_name(b"TRANSID", rest) else {
        return None;
    };
    let Some((program, rest)) = given_name(b"PROGRAM", rest) else {
        return None;
    };
    rest.is_empty()
        .then_some(define_process_of(transid, program))
}

/// ACQUIRE PROCESS
#[tactic(auto, unfolding(crate::specs::Forms::acquire_process, crate::specs::Pieces::ended))]
pub fn acquire_process(line: &[u8]) -> Option<Result<Command, Word>>
    ensures { result ≡ ended (acquire_process line.now) }
{
    let rest = behind_word(b"ACQUIRE", line)?;
    let rest = behind_word(b"PROCESS", rest)?;
    rest.is_empty().then_some(Ok(Command::AcquireProcess))
}

/// ACQUIRE ACTIVITYID(path)
#[tactic(auto, unfolding(crate::specs::Forms::acquire_activity, crate::specs::Pieces::ended))]
pub fn acquire_activity(line: &[u8]) -> Option<Result<Command, Word>>
    ensures { result ≡ ended (acquire_activity line.now) }
{
    let rest = behind_word(b"ACQUIRE", line)?;
    let Some((path, rest)) = given_path(b"ACTIVITYID", rest) else {
        return None;
    };
    rest.is_empty()
        .then_some(path.map(|path| Command::AcquireActivity { path }))
}

/// PURGE ACQPROCESS
#[tactic(auto, unfolding(crate::specs::Forms::purge_process, crate::specs::Pieces::ended))]
pub fn purge_process(line: &[u8]) -> Option<Result<Command, Word>>
    ensures { result ≡ ended (purge_process line.now) }
{
    let rest = behind_word(b"PURGE", line)?;
    let rest = behind_word(b"ACQPROCESS", rest)?;
    rest.is_empty().then_some(Ok(Command::PurgeProcess))
}
