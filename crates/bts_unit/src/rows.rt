// Commands by their rows, in the one open frame of a unit.
ghost use Rattle.std.specs.Prelude.{◌≡◌, ◌<◌, ◌-◌, ◌^◌, IsTrue, option_to_list, true};
ghost use Rattle.bts_tree.specs.Scopes.{LeavesMarks};
ghost use Rattle.bts_tree.specs.Soundness.{IsSoundInFrames, numbers_below};
ghost use Rattle.bts_command.specs.Given.{IsGiven};
ghost use Rattle.bts_rows.specs.Rows.{answer};
ghost use Rattle.bts_act.specs.Does.{Does};
ghost use Rattle.bts_act.specs.Early.{none_early};
ghost use Rattle.bts_unit.specs.Frames.{here, is_there_at};
ghost use Rattle.bts_unit.specs.OneFrame.{is_of_one_frame};

use bts_act::perform;
use bts_command::Command;
use bts_names::{Moment, NoMemory, Path, Reply};
use bts_request::request;
use bts_rows::{Held, Here};
use bts_tree::Scope;
use std::alloc::Global;

/// Does a command that ends no frame.
pub(crate) fn do_row(
    scope: &mut Scope,
    alloc: Global,
    held: &mut Held,
    at: &Option<Path>,
    moment: Moment,
    command: &Command,
) -> Result<Reply, NoMemory>
    requires there { is_there_at at.now scope.old.process ≡ true }
    requires late { IsTrue (none_early scope.old.process) }
    requires numbers { IsTrue (numbers_below (2 ^ 64 - 1) scope.old.process) }
    requires generation { scope.old.process.generation < 2 ^ 64 - 1 }
    requires given { IsGiven command.now }
    requires one_frame { IsTrue (is_of_one_frame at.now command.now) }
    ensures row { Does result (scope.old.process, held.old) (scope.new.process, held.new)
        (answer (here held.old at.now) held.old 1 moment scope.old.process command.now) }
    ensures rest { LeavesMarks scope.old scope.new }
    ensures kept { IsSoundInFrames (option_to_list at.now) scope.old.process
        → IsSoundInFrames (option_to_list at.now) scope.new.process }
{
    scope.facts();
    match at {
        None => request(scope, alloc, held, 1, moment, command),
        Some(path) => perform(scope, alloc, &Here::Activity(*path), 1, moment, command),
    }
}
