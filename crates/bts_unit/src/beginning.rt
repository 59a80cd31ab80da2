// The beginning of a unit.
ghost use Rattle.std.specs.Prelude.{◌≡◌, true, [], IfOk, OnOk, OnErr, IfErr, IsSome, IsTrue, None, false};
ghost use Rattle.bts_tree.specs.Activities.{by_cause};
ghost use Rattle.bts_tree.specs.Modes.{frame_opens};
ghost use Rattle.bts_tree.specs.Scopes.{marked};
ghost use Rattle.bts_unit.specs.Frames.{is_there_at, opened_at, path_of as path_by, program_at};
ghost use Rattle.bts_unit.specs.OneFrame.{may_begin};
ghost use Rattle.bts_unit.specs.OnWork as on;

use crate::unmarked::without_marks;
use crate::work::{FirstFrame, Work};
use bts_command::UnitKind;
use bts_names::{Mode, Moment, NoMemory, Path, ProgName, Status};
use bts_rows::Held;
use bts_tree::{Activity, Scope};
use std::alloc::Global;

/// The activity whose frame a unit begins with.
fn path_of(unit: &UnitKind) -> Option<Path>
    ensures { result ≡ path_by unit.now }
{
    match unit {
        UnitKind::Activation { path, .. } => Some(*path),
        _ => None,
    }
}

/// The activity's frame opens.
fn activate(activity: &mut Activity)
    ensures { activity.new ≡ by_cause frame_opens None activity.old }
{
    activity.mode = Mode::Active;
    activity.status = Status::Incomplete;
    activity.code = None;
}

/// Saves the path of the activity whose frame opens, and opens it.
fn open_at(scope: &mut Scope, at: &Option<Path>) -> Result<(), NoMemory>
    requires { is_there_at at.now scope.old.process ≡ true }
    ensures { OnOk result (scope.new ≡ on.opened_in at.now scope.old) }
{
    if let Some(path) = at {
        scope.save(path, false)?;
        activate(scope.edit(path));
    }
    Ok(())
}

/// Marks a process that has no mark, and opens the first frame behind the mark.
fn open_first(scope: &mut Scope, at: &Option<Path>) -> Result<(), NoMemory>
    requires unmarked { scope.old.marks ≡ [] }
    requires there { is_there_at at.now scope.old.process ≡ true }
    ensures { OnOk result (scope.new ≡ on.opened_in at.now (marked scope.old)) }
{
    scope.reserve_marks()?;
    scope.mark();
    open_at(scope, at)
}

/// The program of the activity whose frame opens.
fn program_of(scope: &Scope, at: &Option<Path>) -> Option<ProgName>
    ensures { result ≡ program_at at.now scope.now.process }
{
    match at {
        Some(path) => scope.activity(path).map(|activity| activity.program),
        None => None,
    }
}

/// The work of a unit before its first call. Where there is no memory for a copy of the process, or for what the
/// frame changes when it opens, the process comes back.
pub(crate) fn begin(
    alloc: Global,
    scope: Scope,
    unit: &UnitKind,
    moment: Moment,
) -> Result<Work, (NoMemory, Scope)>
    requires { IsTrue (may_begin unit.now scope.process) }
    ensures ok { IfOk result (λ work. work ≡ on.begun unit.now moment scope.process) }
    ensures back { IfErr result (λ e. e.1 ≡ scope) }
{
    let Ok(base) = scope.copy(alloc) else {
        return Err((NoMemory, scope));
    };
    let at = path_of(unit);
    let mut scope = without_marks(scope);
    let program = program_of(&scope, &at);
    if let Err(failed) = open_first(&mut scope, &at) {
        return Err((failed, base));
    }
    Ok(Work {
        moment,
        base: without_marks(base),
        scope,
        held: Held::Never,
        frame: Some(FirstFrame {
            at,
            program,
            retrieved: false,
        }),
        end: None,
    })
}
