// Ended units that are played again, and what becomes of the processes.
ghost use Rattle.std.specs.Prelude.{◌≡◌, ◌↔◌, ◌+◌, ◌≤◌, ◌^◌, ℕ, true, false, length, None, Some, [], IfOk, IfErr, OnOk, OnErr, IsTrue};
ghost use Rattle.std.specs.List.{AllByRecursion, list_all};
ghost use Rattle.bts_command.specs.Given.{IsGiven};
ghost use Rattle.bts_command.specs.Kinds.{key_of};
ghost use Rattle.bts_tree.specs.Processes.{format_of};
ghost use Rattle.bts_tree.specs.Repositories.{process_at};
ghost use Rattle.bts_tree.specs.Soundness.{AreSound, IsSoundInFrames, is_within};
ghost use Rattle.bts_unit.specs.Frames.{path_of};
ghost use Rattle.bts_unit.specs.OneFrame.{is_of_one_frame, may_begin};
ghost use Rattle.bts_unit.specs.Playing as playing;
ghost use Rattle.bts_unit.specs.Refusals as refusals;
ghost use Rattle.bts_unit.specs.Soundness.{definitions_by};

use crate::ApplyError;
use crate::codes::is_of_a_limit;
use crate::repeating::first_other;
use crate::unit::Unit;
use bts_command::{End, Ended, UnitKind};
use bts_names::{Key, Moment, Path};
use bts_tree::{Repository, Scope};
use std::alloc::Global;

/// Whether the processes let a request or an activation run.
fn may_run(repository: &Repository, unit: &UnitKind) -> bool
    requires { refusals.is_played unit.now ≡ true }
    ensures { (moment : ℕ) → result ≡ playing.may_run unit.now moment repository.now.processes }
{
    match unit {
        UnitKind::Activation { key, path } => repository.ready(key, path),
        _ => true,
    }
}

/// Where a unit is told to have ended by one of its limits, all its frames abend so.
fn stop_by_limit(unit: &mut Unit, end: &End)
    ensures { unit.new ≡ playing.budgeted end.now unit.old }
{
    if unit.has_ended() {
        return;
    }
    if let End::Abend(code) = end {
        if is_of_a_limit(code) {
            unit.abend_all(*code);
        }
    }
}

fn is_same(a: &End, b: &End) -> bool
    ensures { IsTrue result ↔ (a.now ≡ b.now) }
{
    *a == *b
}

/// The process that an ended request or activation leaves, where it began with this one.
fn replay(alloc: Global, scope: Scope, ended: &Ended) -> Result<Scope, ApplyError>
    requires begins { may_begin ended.now.unit scope.process ≡ true }
    requires sound { IsSoundInFrames [] scope.process }
    requires within { is_within (2 ^ 63) (2 ^ 63) scope.process ≡ true }
    requires few { length ended.now.calls ≤ 500 }
    requires given { AllByRecursion (λ c. IsGiven c.command × (is_of_one_frame (path_of ended.now.unit) c.command ≡ true)) ended.now.calls }
    ensures played { OnOk result (playing.IsReplay ended.now scope.process) }
    ensures after { IfOk result (λ s. s.process ≡ (playing.finished ended.now scope.process).now.process) }
    ensures key { IfOk result (λ s. s.process.key ≡ scope.process.key) }
    ensures sound { IfOk result (λ s. IsSoundInFrames [] s.process) }
    ensures format { IfOk result (λ s. format_of s.process ≡ format_of scope.process) }
    ensures cause { IfErr result (refusals.IsOtherwise ended.now (Some scope.process)) }
{
    let Ok(mut unit) = Unit::start(alloc, scope, ended.unit, ended.moment) else {
        return Err(ApplyError::NoMemory);
    };
    let Ok(other) = first_other(alloc, &mut unit, ended.calls.as_slice()) else {
        return Err(ApplyError::NoMemory);
    };
    if let Some(call) = other {
        return Err(ApplyError::NotLegal { call });
    }
    stop_by_limit(&mut unit, &ended.end);
    if !unit.has_ended() {
        return Err(ApplyError::NotLegal { call: 0 });
    }
    let change = unit.end();
    if !is_same(&change.end, &ended.end) {
        return Err(ApplyError::NotLegal { call: 0 });
    }
    Ok(change.after)
}

/// A unit without a process has no calls, and commits.
fn check_plain(ended: &Ended) -> Result<(), ApplyError>
    ensures plain { OnOk result (playing.IsPlain ended.now) }
    ensures cause { IfErr result (refusals.IsOtherwise ended.now None) }
{
    if !ended.calls.is_empty() {
        return Err(ApplyError::NotLegal { call: 1 });
    }
    if ended.end != End::Commit {
        return Err(ApplyError::NotLegal { call: 0 });
    }
    Ok(())
}

/// Plays an ended unit again on a copy of its process, and puts what it leaves in the process's place; a rollback leaves
/// the processes as they are.
fn apply_to(
    alloc: Global,
    repository: &mut Repository,
    key: &Key,
    ended: &Ended,
) -> Result<(), ApplyError>
    requires process { key_of ended.now.unit ≡ Some key.now }
    requires played { refusals.is_played ended.now.unit ≡ true }
    requires enabled { playing.may_run ended.now.unit ended.now.moment repository.old.processes ≡ true }
    requires sound { AreSound repository.old.processes }
    requires within { IsTrue
        (list_all (is_within (2 ^ 63) (2 ^ 63)) repository.old.processes.items) }
    requires few { length ended.now.calls ≤ 500 }
    requires given { AllByRecursion (λ c. IsGiven c.command × (is_of_one_frame (path_of ended.now.unit) c.command ≡ true)) ended.now.calls }
    ensures played { OnOk result (playing.IsReplay ended.now (process_at key.now repository.old.processes)) }
    ensures after { OnOk result (repository.new.processes ≡ playing.after repository.old.processes ended.now) }
    ensures sound { OnOk result (AreSound repository.new.processes) }
    ensures within { (g n : ℕ) → list_all (is_within g n) repository.old.processes.items ≡ true
        → OnOk result (list_all
        (is_within (g + definitions_by ended.now.unit) (n + length ended.now.calls))
        repository.new.processes.items ≡ true) }
    ensures cause { IfErr result (refusals.IsOtherwise ended.now (Some (process_at key.now repository.old.processes))) }
    ensures back { OnErr result (repository.new ≡ repository.old) }
{
    let Ok(scope) = repository.scope(alloc, key, &Path::root()) else {
        return Err(ApplyError::NoMemory);
    };
    let after = replay(alloc, scope, ended)?;
    if ended.end.is_rollback() {
        return Ok(());
    }
    match repository.reserve_for(key) {
        Ok(()) => repository.put_scope(after),
        Err(_) => return Err(ApplyError::NoMemory),
    }
    Ok(())
}

/// Plays an ended unit again, and lets the processes be what it leaves. It is refused exactly where it isn't one that the
/// processes give at its moment, and leaves them as they are then; the session's items have a rule of their own, which is
/// not looked at. Memory is wanted for the process alone: a unit that is not enabled, or has no process, is never answered
/// so. That it is wanted where a later call would show that the unit is not legal, and that it is wanted at all only where
/// an allocation failed, is in no clause. A request or an activation is played from its first call to its end, so the time grows with the size of
/// its process and with what its calls do. The caller owes that the processes are sound, with generations and last entry
/// numbers of at most 2^63; that the unit is no notice and no expiry; and that it has at most 500 calls, each a command
/// that a line of a session gives and that opens no frame. The processes stay sound, their numbers rise by one a call at
/// most, and a request alone raises a generation, by one: so a list of units can be played again one after the other.
pub fn apply(alloc: Global, repository: &mut Repository, ended: &Ended) -> Result<(), ApplyError>
    requires sound { AreSound repository.old.processes }
    requires within { IsTrue
        (list_all (is_within (2 ^ 63) (2 ^ 63)) repository.old.processes.items) }
    requires played { IsTrue (refusals.is_played ended.now.unit) }
    requires few { length ended.now.calls ≤ 500 }
    requires given { AllByRecursion (λ c. IsGiven c.command × (is_of_one_frame (path_of ended.now.unit) c.command ≡ true)) ended.now.calls }
    ensures played { OnOk result (playing.Plays repository.old.processes ended.now) }
    ensures after { OnOk result (repository.new.processes ≡ playing.after repository.old.processes ended.now) }
    ensures sound { OnOk result (AreSound repository.new.processes) }
    ensures within { (g n : ℕ) → list_all (is_within g n) repository.old.processes.items ≡ true
        → OnOk result (list_all
        (is_within (g + definitions_by ended.now.unit) (n + length ended.now.calls))
        repository.new.processes.items ≡ true) }
    ensures cause { IfErr result (refusals.IsCause repository.old.processes ended.now) }
    ensures back { OnErr result (repository.new ≡ repository.old) }
{
    if !may_run(repository, &ended.unit) {
        return Err(ApplyError::NotLegal { call: 0 });
    }
    match ended.unit.key() {
        Some(key) => apply_to(alloc, repository, &key, ended),
        None => check_plain(ended),
    }
}
