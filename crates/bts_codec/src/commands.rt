// Commands: the number of each, and its arguments in the order of its text.
ghost use Rattle.std.specs.Prelude.{◌≡◌, ◌++◌, OnOk};
ghost use Rattle.bts_command.specs.declared.command.Command.TheVariants as command_;
ghost use Rattle.bts_codec.specs.Formats.{reads, string, optional, at_most, ◌&◌};
ghost use Rattle.bts_codec.specs.Fields as field;
ghost use Rattle.bts_codec.specs.Commands as form;
ghost use Rattle.bts_codec.specs.Answers.{Gives};

use crate::DecodeError;
use crate::arguments::{
    add_acquired, add_due, add_spot, add_target, read_acquired, read_due, read_spot, read_target,
};
use crate::cursor::Cursor;
use crate::lists::{add_names, add_path, read_names, read_path};
use crate::strings::{add_optional_name, add_string, read_blob, read_name, read_optional_name};
use crate::words::{add_flag, read_flag};
use bts_command::Command;
use bts_names::{Blob, NoMemory};
use std::alloc::Global;

/// Puts a command at the end.
#[tactic(auto, unfolding(crate::specs::Commands::command_written))]
pub fn add_command(out: &mut Blob, command: &Command) -> Result<(), NoMemory>
    ensures { OnOk result (out.new ≡ out.old ++ form.command.spell command.now) }
{
    out.push(command.number())?;
    match command {
        Command::DefineProcess { transid, program } => {
            add_string(out, transid.as_bytes())?;
            add_string(out, program.as_bytes())
        }
        Command::AcquireProcess => Ok(()),
        Command::AcquireActivity { path } => add_path(out, path),
        Command::PurgeProcess => Ok(()),
        Command::DefineActivity {
            activity,
            event,
            transid,
            program,
        } => {
            add_string(out, activity.as_bytes())?;
            add_optional_name(out, event)?;
            add_string(out, transid.as_bytes())?;
            add_string(out, program.as_bytes())
        }
        Command::DeleteActivity { activity } => add_string(out, activity.as_bytes()),
        Command::Run {
            target,
            synchronous,
            input,
        } => {
            add_target(out, target)?;
            add_flag(out, *synchronous)?;
            add_optional_name(out, input)
        }
        Command::Link { target, input } => {
            add_target(out, target)?;
            add_optional_name(out, input)
        }
        Command::Check { target } => add_target(out, target),
        Command::Cancel { target } => add_target(out, target),
        Command::Reset { target } => add_target(out, target),
        Command::Suspend { target } => add_target(out, target),
        Command::Resume { target } => add_target(out, target),
        Command::PutContainer {
            container,
            spot,
            from,
        } => {
            add_string(out, container.as_bytes())?;
            add_spot(out, spot)?;
            add_string(out, from.as_slice())
        }
        Command::GetContainer { container, spot } => {
            add_string(out, container.as_bytes())?;
            add_spot(out, spot)
        }
        Command::DeleteContainer { container, spot } => {
            add_string(out, container.as_bytes())?;
            add_spot(out, spot)
        }
        Command::DefineInput { event } => add_string(out, event.as_bytes()),
        Command::DefineComposite { event, all, subs } => {
            add_string(out, event.as_bytes())?;
            add_flag(out, *all)?;
            add_names(out, subs)
        }
        Command::AddSubevent { sub, event } => {
            add_string(out, sub.as_bytes())?;
            add_string(out, event.as_bytes())
        }
        Command::RemoveSubevent { sub, event } => {
            add_string(out, sub.as_bytes())?;
            add_string(out, event.as_bytes())
        }
        Command::DeleteEvent { event } => add_string(out, event.as_bytes()),
        Command::TestEvent { event } => add_string(out, event.as_bytes()),
        Command::RetrieveReattach => Ok(()),
        Command::RetrieveSubevent { event } => add_string(out, event.as_bytes()),
        Command::DefineTimer { timer, event, due } => {
            add_string(out, timer.as_bytes())?;
            add_optional_name(out, event)?;
            add_due(out, due)
        }
        Command::ForceTimer { timer, target } => {
            add_string(out, timer.as_bytes())?;
            add_acquired(out, target)
        }
        Command::CheckTimer { timer } => add_string(out, timer.as_bytes()),
        Command::DeleteTimer { timer } => add_string(out, timer.as_bytes()),
        Command::Return { end_activity } => add_flag(out, *end_activity),
        Command::Abend { code } => add_string(out, code.as_bytes()),
        Command::Rollback => Ok(()),
    }
}

fn read_define_process(bytes: &mut Cursor<'_>) -> Result<Command, DecodeError>
    ensures { Gives result bytes.new (reads (field.transid & field.program) (λ x. command_.DefineProcess x.0 x.1) bytes.old) }
{
    let transid = read_name(bytes)?;
    let program = read_name(bytes)?;
    Ok(Command::DefineProcess { transid, program })
}

fn read_acquire_activity(bytes: &mut Cursor<'_>) -> Result<Command, DecodeError>
    ensures { Gives result bytes.new (reads (field.path) (λ x. command_.AcquireActivity x) bytes.old) }
{
    let path = read_path(bytes)?;
    Ok(Command::AcquireActivity { path })
}

fn read_define_activity(bytes: &mut Cursor<'_>) -> Result<Command, DecodeError>
    ensures { Gives result bytes.new (reads (field.name & optional field.name & field.transid & field.program) (λ x. command_.DefineActivity x.0 x.1.0 x.1.1.0 x.1.1.1) bytes.old) }
{
    let activity = read_name(bytes)?;
    let event = read_optional_name(bytes)?;
    let transid = read_name(bytes)?;
    let program = read_name(bytes)?;
    Ok(Command::DefineActivity {
        activity,
        event,
        transid,
        program,
    })
}

fn read_delete_activity(bytes: &mut Cursor<'_>) -> Result<Command, DecodeError>
    ensures { Gives result bytes.new (reads (field.name) (λ x. command_.DeleteActivity x) bytes.old) }
{
    let activity = read_name(bytes)?;
    Ok(Command::DeleteActivity { activity })
}

fn read_run(bytes: &mut Cursor<'_>) -> Result<Command, DecodeError>
    ensures { Gives result bytes.new (reads (form.target & field.flag & optional field.name) (λ x. command_.Run x.0 x.1.0 x.1.1) bytes.old) }
{
    let target = read_target(bytes)?;
    let synchronous = read_flag(bytes)?;
    let input = read_optional_name(bytes)?;
    Ok(Command::Run {
        target,
        synchronous,
        input,
    })
}

fn read_link(bytes: &mut Cursor<'_>) -> Result<Command, DecodeError>
    ensures { Gives result bytes.new (reads (form.target & optional field.name) (λ x. command_.Link x.0 x.1) bytes.old) }
{
    let target = read_target(bytes)?;
    let input = read_optional_name(bytes)?;
    Ok(Command::Link { target, input })
}

fn read_check(bytes: &mut Cursor<'_>) -> Result<Command, DecodeError>
    ensures { Gives result bytes.new (reads (form.target) (λ x. command_.Check x) bytes.old) }
{
    let target = read_target(bytes)?;
    Ok(Command::Check { target })
}

fn read_cancel(bytes: &mut Cursor<'_>) -> Result<Command, DecodeError>
    ensures { Gives result bytes.new (reads (form.target) (λ x. command_.Cancel x) bytes.old) }
{
    let target = read_target(bytes)?;
    Ok(Command::Cancel { target })
}

fn read_reset(bytes: &mut Cursor<'_>) -> Result<Command, DecodeError>
    ensures { Gives result bytes.new (reads (form.target) (λ x. command_.Reset x) bytes.old) }
{
    let target = read_target(bytes)?;
    Ok(Command::Reset { target })
}

fn read_suspend(bytes: &mut Cursor<'_>) -> Result<Command, DecodeError>
    ensures { Gives result bytes.new (reads (form.target) (λ x. command_.Suspend x) bytes.old) }
{
    let target = read_target(bytes)?;
    Ok(Command::Suspend { target })
}

fn read_resume(bytes: &mut Cursor<'_>) -> Result<Command, DecodeError>
    ensures { Gives result bytes.new (reads (form.target) (λ x. command_.Resume x) bytes.old) }
{
    let target = read_target(bytes)?;
    Ok(Command::Resume { target })
}

fn read_put_container(alloc: Global, bytes: &mut Cursor<'_>) -> Result<Command, DecodeError>
    ensures { Gives result bytes.new (reads (field.name & form.spot & string) (λ x. command_.PutContainer x.0 x.1.0 x.1.1) bytes.old) }
{
    let container = read_name(bytes)?;
    let spot = read_spot(bytes)?;
    let from = read_blob(alloc, bytes)?;
    Ok(Command::PutContainer {
        container,
        spot,
        from,
    })
}

fn read_get_container(bytes: &mut Cursor<'_>) -> Result<Command, DecodeError>
    ensures { Gives result bytes.new (reads (field.name & form.spot) (λ x. command_.GetContainer x.0 x.1) bytes.old) }
{
    let container = read_name(bytes)?;
    let spot = read_spot(bytes)?;
    Ok(Command::GetContainer { container, spot })
}

fn read_delete_container(bytes: &mut Cursor<'_>) -> Result<Command, DecodeError>
    ensures { Gives result bytes.new (reads (field.name & form.spot) (λ x. command_.DeleteContainer x.0 x.1) bytes.old) }
{
    let container = read_name(bytes)?;
    let spot = read_spot(bytes)?;
    Ok(Command::DeleteContainer { container, spot })
}

fn read_define_input(bytes: &mut Cursor<'_>) -> Result<Command, DecodeError>
    ensures { Gives result bytes.new (reads (field.name) (λ x. command_.DefineInput x) bytes.old) }
{
    let event = read_name(bytes)?;
    Ok(Command::DefineInput { event })
}

fn read_define_composite(alloc: Global, bytes: &mut Cursor<'_>) -> Result<Command, DecodeError>
    ensures { Gives result bytes.new (reads (field.name & field.flag & at_most 8 field.name) (λ x. command_.DefineComposite x.0 x.1.0 x.1.1) bytes.old) }
{
    let event = read_name(bytes)?;
    let all = read_flag(bytes)?;
    let subs = read_names(alloc, bytes)?;
    Ok(Command::DefineComposite { event, all, subs })
}

fn read_add_subevent(bytes: &mut Cursor<'_>) -> Result<Command, DecodeError>
    ensures { Gives result bytes.new (reads (field.name & field.name) (λ x. command_.AddSubevent x.0 x.1) bytes.old) }
{
    let sub = read_name(bytes)?;
    let event = read_name(bytes)?;
    Ok(Command::AddSubevent { sub, event })
}

fn read_remove_subevent(bytes: &mut Cursor<'_>) -> Result<Command, DecodeError>
    ensures { Gives result bytes.new (reads (field.name & field.name) (λ x. command_.RemoveSubevent x.0 x.1) bytes.old) }
{
    let sub = read_name(bytes)?;
    let event = read_name(bytes)?;
    Ok(Command::RemoveSubevent { sub, event })
}

fn read_delete_event(bytes: &mut Cursor<'_>) -> Result<Command, DecodeError>
    ensures { Gives result bytes.new (reads (field.name) (λ x. command_.DeleteEvent x) bytes.old) }
{
    let event = read_name(bytes)?;
    Ok(Command::DeleteEvent { event })
}

fn read_test_event(bytes: &mut Cursor<'_>) -> Result<Command, DecodeError>
    ensures { Gives result bytes.new (reads (field.name) (λ x. command_.TestEvent x) bytes.old) }
{
    let event = read_name(bytes)?;
    Ok(Command::TestEvent { event })
}

fn read_retrieve_subevent(bytes: &mut Cursor<'_>) -> Result<Command, DecodeError>
    ensures { Gives result bytes.new (reads (field.name) (λ x. command_.RetrieveSubevent x) bytes.old) }
{
    let event = read_name(bytes)?;
    Ok(Command::RetrieveSubevent { event })
}

fn read_define_timer(bytes: &mut Cursor<'_>) -> Result<Command, DecodeError>
    ensures { Gives result bytes.new (reads (field.name & optional field.name & form.due) (λ x. command_.DefineTimer x.0 x.1.0 x.1.1) bytes.old) }
{
    let timer = read_name(bytes)?;
    let event = read_optional_name(bytes)?;
    let due = read_due(bytes)?;
    Ok(Command::DefineTimer { timer, event, due })
}

fn read_force_timer(bytes: &mut Cursor<'_>) -> Result<Command, DecodeError>
    ensures { Gives result bytes.new (reads (field.name & form.acquired) (λ x. command_.ForceTimer x.0 x.1) bytes.old) }
{
    let timer = read_name(bytes)?;
    let target = read_acquired(bytes)?;
    Ok(Command::ForceTimer { timer, target })
}

fn read_check_timer(bytes: &mut Cursor<'_>) -> Result<Command, DecodeError>
    ensures { Gives result bytes.new (reads (field.name) (λ x. command_.CheckTimer x) bytes.old) }
{
    let timer = read_name(bytes)?;
    Ok(Command::CheckTimer { timer })
}

fn read_delete_timer(bytes: &mut Cursor<'_>) -> Result<Command, DecodeError>
    ensures { Gives result bytes.new (reads (field.name) (λ x. command_.DeleteTimer x) bytes.old) }
{
    let timer = read_name(bytes)?;
    Ok(Command::DeleteTimer { timer })
}

fn read_return(bytes: &mut Cursor<'_>) -> Result<Command, DecodeError>
    ensures { Gives result bytes.new (reads (field.flag) (λ x. command_.Return x) bytes.old) }
{
    let end_activity = read_flag(bytes)?;
    Ok(Command::Return { end_activity })
}

fn read_abend(bytes: &mut Cursor<'_>) -> Result<Command, DecodeError>
    ensures { Gives result bytes.new (reads (field.code) (λ x. command_.Abend x) bytes.old) }
{
    let code = read_name(bytes)?;
    Ok(Command::Abend { code })
}

/// Reads a command.
#[tactic(auto, unfolding(crate::specs::Commands::command_readers))]
pub fn read_command(alloc: Global, bytes: &mut Cursor<'_>) -> Result<Command, DecodeError>
    ensures { Gives result bytes.new (form.command.at bytes.old) }
{
    match bytes.byte()? {
        1 => read_define_process(bytes),
        2 => Ok(Command::AcquireProcess),
        3 => read_acquire_activity(bytes),
        4 => Ok(Command::PurgeProcess),
        5 => read_define_activity(bytes),
        6 => read_delete_activity(bytes),
        7 => read_run(bytes),
        8 => read_link(bytes),
        9 => read_check(bytes),
        10 => read_cancel(bytes),
        11 => read_reset(bytes),
        12 => read_suspend(bytes),
        13 => read_resume(bytes),
        14 => read_put_container(alloc, bytes),
        15 => read_get_container(bytes),
        16 => read_delete_container(bytes),
        17 => read_define_input(bytes),
        18 => read_define_composite(alloc, bytes),
        19 => read_add_subevent(bytes),
        20 => read_remove_subevent(bytes),
        21 => read_delete_event(bytes),
        22 => read_test_event(bytes),
        23 => Ok(Command::RetrieveReattach),
        24 => read_retrieve_subevent(bytes),
        25 => read_define_timer(bytes),
        26 => read_force_timer(bytes),
        27 => read_check_timer(bytes),
        28 => read_delete_timer(bytes),
        29 => read_return(bytes),
        30 => read_abend(bytes),
        31 => Ok(Command::Rollback),
        _ => Err(DecodeError::Malformed),
    }
}
