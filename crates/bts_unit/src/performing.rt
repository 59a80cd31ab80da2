// One command in the frame of a unit.
ghost use Rattle.std.specs.Prelude.{◌≡◌, ◌<◌, ◌-◌, ◌^◌, IsTrue, IfOk, OnErr, Some, is_some, true};
ghost use Rattle.bts_command.specs.declared.command.Command.TheVariants as commands;
ghost use Rattle.bts_tree.specs.Soundness.{numbers_below};
ghost use Rattle.bts_tree.specs.Scopes.{LeavesMarks};
ghost use Rattle.bts_command.specs.Given.{IsGiven};
ghost use Rattle.bts_rows.specs.Replies.{is_normal};
ghost use Rattle.bts_rows.specs.Rows.{answer};
ghost use Rattle.bts_act.specs.Does.{Does};
ghost use Rattle.bts_act.specs.Early.{none_early};
ghost use Rattle.bts_act.specs.Replies.{normal};
ghost use Rattle.bts_unit.specs.Calls.{called_on_top, is_retrieval};
ghost use Rattle.bts_unit.specs.Frames.{here, is_there_at};
ghost use Rattle.bts_unit.specs.OneFrame.{is_of_one_frame};
ghost use Rattle.bts_unit.specs.OnWork as on;

use crate::ending::{abend, return_from, roll_back};
use crate::rows::do_row;
use crate::work::{FirstFrame, Work};
use bts_act::normal_reply;
use bts_command::Command;
use bts_names::{NoMemory, Path, Reply, Resp, Value};
use std::alloc::Global;

fn at_of(frame: &Option<FirstFrame>) -> Option<Path>
    ensures { result ≡ on.at_of frame.now }
{
    match frame {
        Some(frame) => frame.at,
        None => None,
    }
}

/// Whether an entry was retrieved by a command with this reply.
fn was_retrieved(command: &Command, reply: &Reply) -> bool
    ensures { result ≡ on.was_retrieved command.now reply.now }
{
    matches!(command, Command::RetrieveReattach) && matches!(reply.resp, Resp::Normal)
}

fn note_retrieval(frame: &mut Option<FirstFrame>, retrieved: bool)
    ensures { frame.new ≡ on.retrieving retrieved frame.old }
{
    if !retrieved {
        return;
    }
    if let Some(frame) = frame {
        frame.retrieved = true;
    }
}

/// A command that ends no frame.
fn step(work: &mut Work, alloc: Global, command: &Command) -> Result<Reply, NoMemory>
    requires there { is_there_at (on.at_of work.old.frame) work.old.scope.process ≡ true }
    requires late { IsTrue (none_early work.old.scope.process) }
    requires numbers { IsTrue (numbers_below (2 ^ 64 - 1) work.old.scope.process) }
    requires generation { work.old.scope.process.generation < 2 ^ 64 - 1 }
    requires given { IsGiven command.now }
    requires one_frame { IsTrue (is_of_one_frame (on.at_of work.old.frame) command.now) }
    ensures row { Does result (work.old.scope.process, work.old.held) (work.new.scope.process, work.new.held)
        (answer (here work.old.held (on.at_of work.old.frame)) work.old.held 1 work.old.moment work.old.scope.process command.now) }
    ensures rest { LeavesMarks work.old.scope work.new.scope }
    ensures ok { IfOk result (λ reply. work.new
        ≡ on.stepped command.now reply work.new.scope work.new.held work.old) }
    ensures err { OnErr result (work.new ≡ on.with_scope work.new.scope work.old) }
{
    let at = at_of(&work.frame);
    let reply = do_row(
        &mut work.scope,
        alloc,
        &mut work.held,
        &at,
        work.moment,
        command,
    )?;
    note_retrieval(&mut work.frame, was_retrieved(command, &reply));
    Ok(reply)
}

/// One command in the frame of a unit that has one.
pub(crate) fn perform(work: &mut Work, alloc: Global, command: &Command) -> Result<Reply, NoMemory>
    requires open { is_some work.old.frame ≡ true }
    requires fits { on.IsOpenOrEnded work.old }
    requires marked { on.IsMarked work.old.frame work.old.scope }
    requires there { is_there_at (on.at_of work.old.frame) work.old.scope.process ≡ true }
    requires late { IsTrue (none_early work.old.scope.process) }
    requires numbers { IsTrue (numbers_below (2 ^ 64 - 1) work.old.scope.process) }
    requires generation { work.old.scope.process.generation < 2 ^ 64 - 1 }
    requires given { IsGiven command.now }
    requires one_frame { IsTrue (is_of_one_frame (on.at_of work.old.frame) command.now) }
    ensures ok { IfOk result (λ reply. on.Steps work.old work.new reply (called_on_top command.now)) }
    ensures err { OnErr result (on.IsAsBefore work.old work.new) }
    ensures marked { on.IsMarked work.new.frame work.new.scope }
    ensures goes_on { on.GoesOn work.old work.new }
{
    match command {
        Command::Return { end_activity } => Ok(return_from(work, *end_activity)),
        Command::Abend { code } => {
            abend(work, *code);
            Ok(normal_reply(Value::Nothing))
        }
        Command::Rollback => Ok(roll_back(work)),
        _ => step(work, alloc, command),
    }
}
