// Units without calls: timers that expire.
ghost use Rattle.std.specs.Prelude.{◌≡◌, ◌<◌, ◌+◌, ◌-◌, ◌^◌, ℕ, true, [], IfOk, IfErr, OnOk, IsTrue};
ghost use Rattle.bts_names.specs.Named.{lookup};
ghost use Rattle.bts_command.specs.declared.ended.End.TheVariants.{Commit};
ghost use Rattle.bts_timer.specs.Timers.{is_unexpired_one};
ghost use Rattle.bts_tree.specs.Soundness.{IsSoundInFrames, is_within, numbers_below};
ghost use Rattle.bts_act.specs.Early.{has_none_early, none_early};
ghost use Rattle.bts_unit.specs.Systems as systems;

use crate::change::Change;
use crate::unmarked::without_marks;
use bts_act::fire_unfired;
use bts_command::{Calls, End, UnitKind};
use bts_names::{Moment, Name16, NoMemory};
use bts_tree::{Activity, Scope};
use std::alloc::Global;

/// A timer that is UNEXPIRED is EXPIRED, and its event fires.
fn expire(activity: &mut Activity, timer: Name16) -> Result<(), NoMemory>
    requires below { activity.old.pool.last < 2 ^ 64 - 1 }
    requires unexpired { is_unexpired_one (lookup timer activity.old.timers) ≡ true }
    requires late { has_none_early activity.old ≡ true }
    ensures { OnOk result (activity.new ≡ systems.with_expired timer activity.old) }
{
    activity.pool.facts();
    if let Some(event) = activity.pool.event_of(timer) {
        fire_unfired(&mut activity.pool, event)?;
    }
    activity.timers.expire(timer);
    Ok(())
}

/// Does a unit that has no calls: an expiry, which the process lets run at this moment. Of the process no event may be
/// fired while its timer is UNEXPIRED, and in a sound one none is. A sound process stays sound; its generation stays, and
/// its last entry numbers rise by one at most. Where there is no memory the process comes back.
pub fn system(
    alloc: Global,
    scope: Scope,
    unit: UnitKind,
    moment: Moment,
) -> Result<Change, (NoMemory, Scope)>
    requires due { IsTrue (systems.may_expire unit moment scope.process) }
    requires late { IsTrue (none_early scope.process) }
    requires numbers { IsTrue (numbers_below (2 ^ 64 - 1) scope.process) }
    ensures base { IfOk result (λ change. change.base ≡ scope) }
    ensures after { IfOk result (λ change. change.after.process ≡ (systems.system unit moment scope.process).now.process) }
    ensures calls { IfOk result (λ change. change.calls ≡ []) }
    ensures end { IfOk result (λ change. change.end ≡ Commit) }
    ensures back { IfErr result (λ e. e.1 ≡ scope) }
    ensures sound { IsSoundInFrames [] scope.process → IfOk result (λ change. IsSoundInFrames [] change.after.process) }
    ensures within { (g n : ℕ) → IsSoundInFrames [] scope.process → is_within g n scope.process ≡ true
        → IfOk result (λ change. is_within g (n + 1) change.after.process ≡ true) }
{
    let UnitKind::Expiry { path, timer, .. } = unit else {
        unreachable!()
    };
    let Ok(base) = scope.copy(alloc) else {
        return Err((NoMemory, scope));
    };
    let mut after = without_marks(scope);
    match expire(after.edit(&path), timer) {
        Ok(()) => Ok(Change {
            base,
            after,
            calls: Calls::new(alloc),
            end: End::Commit,
        }),
        Err(failed) => Err((failed, base)),
    }
}
