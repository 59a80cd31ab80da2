// The commands: found, and done on what they are about.
ghost use Rattle.std.specs.Prelude.{◌≡◌, ◌&&◌, ◌<◌, ◌-◌, ◌^◌, ℕ, List, IsSome, IsTrue, Ok, nat_le};
ghost use Rattle.bts_names.specs.Names.{ActivityPath};
ghost use Rattle.bts_command.specs.Given.{IsGiven};
ghost use Rattle.bts_command.specs.Numbers.{command_number};
ghost use Rattle.bts_tree.specs.Processes.{activity_at};
ghost use Rattle.bts_tree.specs.Scopes.{LeavesMarks};
ghost use Rattle.bts_tree.specs.Soundness.{IsSoundInFrames, numbers_below};
ghost use Rattle.bts_rows.specs.Places.{about_of, find};
ghost use Rattle.bts_rows.specs.Rows.{act_at, on_thing, thing_row};
ghost use Rattle.bts_act.specs.Built.{is_built};
ghost use Rattle.bts_act.specs.Does.{Does};
ghost use Rattle.bts_act.specs.Early.{none_early};

use crate::activities::change_at;
use crate::containers::{change_process, show_containers};
use crate::families::change_family;
use crate::finding::{about, find, reply_of};
use bts_command::Command;
use bts_names::{Moment, NoMemory, Path, Reply};
use bts_rows::{Here, Thing};
use bts_tree::Scope;
use std::alloc::Global;

/// Does a command on containers, events or timers in the frame of the activity at a path: the reply and what
/// is left are exactly its row, however many frames are open. No event may be fired while its timer is UNEXPIRED, which
/// holds of every sound process; `none_is_early` tests it. The time grows with the pool that is changed; only a command
/// that names a child looks through the activities of the process.
pub fn act(
    scope: &mut Scope,
    alloc: Global,
    at: &Path,
    moment: Moment,
    command: &Command,
) -> Result<Reply, NoMemory>
    requires there { IsSome (activity_at at.now scope.old.process) }
    requires numbers { IsTrue (numbers_below (2 ^ 64 - 1) scope.old.process) }
    requires late { IsTrue (none_early scope.old.process) }
    requires number { IsTrue (nat_le 14 (command_number command.now) && nat_le (command_number command.now) 28) }
    requires given { IsGiven command.now }
    ensures row { (depth : ℕ) → Does result scope.old.process scope.new.process
        (act_at at.now depth moment scope.old.process command.now) }
    ensures rest { LeavesMarks scope.old scope.new }
    ensures kept { (frames : List ActivityPath) → IsSoundInFrames frames scope.old.process
        → IsSoundInFrames frames scope.new.process }
{
    scope.facts();
    perform(scope, alloc, &Here::Activity(*at), 0, moment, command)
}

/// Does a command in whatever frame, read on the whole process: the reply and what is left are exactly its row. No
/// event may be fired while its timer is UNEXPIRED, which holds of every sound process; `none_is_early` tests it. The
/// time grows with the pool that is changed; a command that names a child, CANCEL and DELETE ACTIVITY go over the
/// activities of the process.
pub fn perform(
    scope: &mut Scope,
    alloc: Global,
    here: &Here,
    depth: u32,
    moment: Moment,
    command: &Command,
) -> Result<Reply, NoMemory>
    requires numbers { IsTrue (numbers_below (2 ^ 64 - 1) scope.old.process) }
    requires late { IsTrue (none_early scope.old.process) }
    requires built { IsTrue (is_built here.now command.now) }
    requires given { IsGiven command.now }
    ensures row { Does result scope.old.process scope.new.process
        (thing_row here.now depth moment scope.old.process command.now) }
    ensures rest { LeavesMarks scope.old scope.new }
{
    match find(scope, here, &about(command)) {
        Ok(thing) => change(scope, alloc, here, &thing, depth, moment, command),
        Err(why) => Ok(reply_of(why)),
    }
}

/// Does a command on the thing that it is about.
fn change(
    scope: &mut Scope,
    alloc: Global,
    here: &Here,
    thing: &Thing,
    depth: u32,
    moment: Moment,
    command: &Command,
) -> Result<Reply, NoMemory>
    requires found { find here.now scope.old.process (about_of command.now) ≡ Ok thing.now }
    requires numbers { IsTrue (numbers_below (2 ^ 64 - 1) scope.old.process) }
    requires late { IsTrue (none_early scope.old.process) }
    requires built { IsTrue (is_built here.now command.now) }
    requires given { IsGiven command.now }
    ensures row { Does result scope.old.process scope.new.process
        (on_thing thing.now depth moment scope.old.process command.now) }
    ensures rest { LeavesMarks scope.old scope.new }
{
    match thing {
        Thing::Activity(path) => change_at(scope, alloc, path, depth, moment, command),
        Thing::Family(path) => change_family(scope, here, path, command),
        Thing::Shown => show_containers(scope.containers(), alloc, command),
        Thing::Containers => change_process(scope, alloc, command),
    }
}
