// The words of commands, each behind a space.
ghost use Rattle.std.specs.Prelude.{◌≡◌, [], ◌∷◌, ◌++◌, OnOk};
ghost use Rattle.bts_command.specs.declared.command.Command.TheVariants.{AcquireActivity, Return};
ghost use Rattle.bts_report.specs.Reports.{spaced};
ghost use Rattle.bts_report.specs.Words.{with_argument, target_word, command_words};

use crate::words::{add_path_text, add_with_argument, add_word};
use bts_command::{Command, Target};
use bts_names::{Blob, Name16, NoMemory, Path};

fn add_pair(out: &mut Blob, verb: &[u8], noun: &[u8]) -> Result<(), NoMemory>
    ensures { OnOk result (out.new ≡ out.old ++ spaced (verb.now ∷ noun.now ∷ [])) }
{
    add_word(out, verb)?;
    add_word(out, noun)
}

fn add_named(out: &mut Blob, verb: &[u8], noun: &[u8], name: &Name16) -> Result<(), NoMemory>
    ensures { OnOk result (out.new ≡ out.old ++ spaced (verb.now ∷ with_argument noun.now name.now ∷ [])) }
{
    add_word(out, verb)?;
    add_with_argument(out, noun, name.as_bytes())
}

fn add_target(out: &mut Blob, target: &Target) -> Result<(), NoMemory>
    ensures { OnOk result (out.new ≡ out.old ++ 32 ∷ target_word target.now) }
{
    match target {
        Target::Activity(name) => add_with_argument(out, b"ACTIVITY", name.as_bytes()),
        Target::AcqProcess => add_word(out, b"ACQPROCESS"),
        Target::AcqActivity => add_word(out, b"ACQACTIVITY"),
    }
}

fn add_targeted(out: &mut Blob, verb: &[u8], target: &Target) -> Result<(), NoMemory>
    ensures { OnOk result (out.new ≡ out.old ++ spaced (verb.now ∷ target_word target.now ∷ [])) }
{
    add_word(out, verb)?;
    add_target(out, target)
}

fn add_acquire_activity(out: &mut Blob, path: &Path) -> Result<(), NoMemory>
    ensures { OnOk result (out.new ≡ out.old ++ spaced (command_words (AcquireActivity path.now))) }
{
    add_word(out, b"ACQUIRE")?;
    add_word(out, b"ACTIVITYID(")?;
    add_path_text(out, path)?;
    out.extend(b")")
}

fn add_return(out: &mut Blob, end_activity: bool) -> Result<(), NoMemory>
    ensures { OnOk result (out.new ≡ out.old ++ spaced (command_words (Return end_activity))) }
{
    add_word(out, b"RETURN")?;
    if end_activity {
        return add_word(out, b"ENDACTIVITY");
    }
    Ok(())
}

pub fn add_command(out: &mut Blob, command: &Command) -> Result<(), NoMemory>
    ensures { OnOk result (out.new ≡ out.old ++ spaced (command_words command.now)) }
{
    match command {
        Command::DefineProcess { .. } => add_pair(out, b"DEFINE", b"PROCESS"),
        Command::AcquireProcess => add_pair(out, b"ACQUIRE", b"PROCESS"),
        Command::AcquireActivity { path } => add_acquire_activity(out, path),
        Command::PurgeProcess => add_pair(out, b"PURGE", b"ACQPROCESS"),
        Command::DefineActivity { activity, .. } => add_named(
            out,
            b"DEFINE",
            b"ACTIVITY",
            activity,
        ),
        Command::DeleteActivity { activity } => add_named(out, b"DELETE", b"ACTIVITY", activity),
        Command::Run { target, .. } => add_targeted(out, b"RUN", target),
        Command::Link { target, .. } => add_targeted(out, b"LINK", target),
        Command::Check { target } => add_targeted(out, b"CHECK", target),
        Command::Cancel { target } => add_targeted(out, b"CANCEL", target),
        Command::Reset { target } => add_targeted(out, b"RESET", target),
        Command::Suspend { target } => add_targeted(out, b"SUSPEND", target),
        Command::Resume { target } => add_targeted(out, b"RESUME", target),
        Command::PutContainer { container, .. } => add_named(out, b"PUT", b"CONTAINER", container),
        Command::GetContainer { container, .. } => add_named(out, b"GET", b"CONTAINER", container),
        Command::DeleteContainer { container, .. } => {
            add_named(out, b"DELETE", b"CONTAINER", container)
        }
        Command::DefineInput { event } => add_named(out, b"DEFINE", b"INPUT", event),
        Command::DefineComposite { event, .. } => add_named(out, b"DEFINE", b"COMPOSITE", event),
        Command::AddSubevent { sub, .. } => add_named(out, b"ADD", b"SUBEVENT", sub),
        Command::RemoveSubevent { sub, .. } => add_named(out, b"REMOVE", b"SUBEVENT", sub),
        Command::DeleteEvent { event } => add_named(out, b"DELETE", b"EVENT", event),
        Command::TestEvent { event } => add_named(out, b"TEST", b"EVENT", event),
        Command::RetrieveReattach => add_pair(out, b"RETRIEVE", b"REATTACH"),
        Command::RetrieveSubevent { event } => add_named(out, b"RETRIEVE", b"SUBEVENT", event),
        Command::DefineTimer { timer, .. } => add_named(out, b"DEFINE", b"TIMER", timer),
        Command::ForceTimer { timer, .. } => add_named(out, b"FORCE", b"TIMER", timer),
        Command::CheckTimer { timer } => add_named(out, b"CHECK", b"TIMER", timer),
        Command::DeleteTimer { timer } => add_named(out, b"DELETE", b"TIMER", timer),
        Command::Return { end_activity } => add_return(out, *end_activity),
        Command::Abend { code } => add_with_argument(out, b"ABEND", code.as_bytes()),
        Command::Rollback => add_word(out, b"ROLLBACK"),
    }
}
