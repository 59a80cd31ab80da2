// The commands in a request's first frame.
ghost use Rattle.std.specs.Prelude.{◌≡◌, ◌<◌, ◌-◌, ◌^◌, [], IsTrue, false};
ghost use Rattle.bts_tree.specs.Scopes.{LeavesMarks};
ghost use Rattle.bts_tree.specs.Soundness.{IsSoundInFrames, numbers_below};
ghost use Rattle.bts_command.specs.Given.{IsGiven};
ghost use Rattle.bts_rows.specs.Families.{resets};
ghost use Rattle.bts_rows.specs.Rows.{request_in};
ghost use Rattle.bts_act.specs.Does.{Does};
ghost use Rattle.bts_act.specs.Early.{none_early};

use crate::acquiring::{acquire_activity, acquire_process, define_process, purge};
use bts_act::perform;
use bts_command::Command;
use bts_names::{Moment, NoMemory, Reply};
use bts_rows::{Held, Here};
use bts_tree::Scope;
use std::alloc::Global;

/// Does a command in a request's first frame: the reply, and what is left of the process and of what the request
/// holds, are exactly its row. The command isn't RESET of what is acquired. No event may be fired while its timer is
/// UNEXPIRED, which holds of every sound process; `bts_act::none_is_early` tests it. The time grows with the pool
/// that is changed; PURGE and CANCEL go over all activities of the process.
pub fn request(
    scope: &mut Scope,
    alloc: Global,
    held: &mut Held,
    depth: u32,
    moment: Moment,
    command: &Command,
) -> Result<Reply, NoMemory>
    requires numbers { IsTrue (numbers_below (2 ^ 64 - 1) scope.old.process) }
    requires generation { scope.old.process.generation < 2 ^ 64 - 1 }
    requires late { IsTrue (none_early scope.old.process) }
    requires today { resets command.now ≡ false }
    requires given { IsGiven command.now }
    ensures row { Does result (scope.old.process, held.old) (scope.new.process, held.new)
        (request_in held.old depth moment scope.old.process command.now) }
    ensures rest { LeavesMarks scope.old scope.new }
    ensures kept { IsSoundInFrames [] scope.old.process → IsSoundInFrames [] scope.new.process }
{
    do_command(scope, alloc, held, depth, moment, command)
}

/// The same, but for soundness.
fn do_command(
    scope: &mut Scope,
    alloc: Global,
    held: &mut Held,
    depth: u32,
    moment: Moment,
    command: &Command,
) -> Result<Reply, NoMemory>
    requires numbers { IsTrue (numbers_below (2 ^ 64 - 1) scope.old.process) }
    requires generation { scope.old.process.generation < 2 ^ 64 - 1 }
    requires late { IsTrue (none_early scope.old.process) }
    requires today { resets command.now ≡ false }
    requires given { IsGiven command.now }
    ensures row { Does result (scope.old.process, held.old) (scope.new.process, held.new)
        (request_in held.old depth moment scope.old.process command.now) }
    ensures rest { LeavesMarks scope.old scope.new }
{
    match command {
        Command::DefineProcess { transid, program } => {
            define_process(scope, alloc, held, *transid, *program)
        }
        Command::AcquireProcess => Ok(acquire_process(scope, held)),
        Command::AcquireActivity { path } => Ok(acquire_activity(scope, held, *path)),
        Command::PurgeProcess => purge(scope, held),
        _ => perform(scope, alloc, &Here::Request(*held), depth, moment, command),
    }
}
