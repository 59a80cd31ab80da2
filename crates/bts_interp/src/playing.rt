// A unit is run along its script, call by call, until it ends.
ghost use Rattle.std.specs.Prelude.{◌≡◌, ◌+◌, ◌<◌, ◌≤◌, ℕ, true, IfOk, IfSome, OnOk, MatchOption, is_none, is_some};
ghost use Rattle.bts_unit.specs.Frames.{UnitOfWork};
ghost use Rattle.bts_command.specs.Sizes as sizes;
ghost use Rattle.bts_interp.specs.Reaching.{reached_of};
ghost use Rattle.bts_interp.specs.Running.{CanGoOn, GoesOn, IsPlayed, IsUnderWay, MayCall, Stops, first_point, point_of, turns_left};
ghost use Rattle.bts_interp.specs.Steps.{statement_limit};
ghost use Rattle.bts_interp.specs.Texts.{Texts};

use crate::Steps;
use crate::codes::{too_many_calls, too_many_statements, too_much_data};
use crate::commands::command_of;
use crate::stepping::{Reach, run_to_command};
use bts_forms::Statement;
use bts_names::{NoMemory, Value};
use bts_unit::Unit;
use std::alloc::Global;
use std::sync::ledger::Ledger;

const STATEMENT_LIMIT: u32 = 10_000;

const CALL_LIMIT: usize = 500;

const DATA_LIMIT: u128 = 8_388_608;

/// How far a unit has come: its place in the script, and the statements and the bytes of data that it has used.
#[derive(Clone, Copy)]
struct Progress<'a> {
    place: &'a [Statement],
    used: u32,
    bytes: u128,
}

/// The bytes that a reply gives.
fn got_bytes(value: &Value) -> u64
    ensures { result ≡ sizes.got_bytes value.now }
{
    match value {
        Value::Bytes(bytes) => bytes.len() as u64,
        _ => 0,
    }
}

/// The command that comes next. Where an end is due there is none, and the unit has ended.
fn next_command<'a, L: Ledger>(
    unit: &mut Unit,
    script: &'a [Statement],
    progress: Progress<'a>,
    steps: &mut Steps<L>,
) -> Option<Reach<'a>>
    requires open { is_none unit.old.end ≡ true }
    requires can { CanGoOn script.now progress.place.now unit.old }
    requires used { progress.used ≤ statement_limit }
    ensures next { MatchOption result
        (Stops script.now unit.old (point_of progress.entry steps.old) unit.new steps.new)
        (λ r. (unit.new ≡ unit.old)
        × MayCall script.now unit.old (point_of progress.entry steps.old) (reached_of unit.old.calls r)
        × (steps.new + 1 ≡ steps.old + r.count)) }
    ensures later { steps.old ≤ steps.new }
{
    if progress.bytes > DATA_LIMIT {
        unit.abend_all(too_much_data());
        return None;
    }
    let left = STATEMENT_LIMIT - progress.used;
    let Some(reach) = run_to_command(script, progress.place, unit.calls(), left, steps) else {
        unit.abend_all(too_many_statements());
        return None;
    };
    if unit.calls().len() >= CALL_LIMIT {
        unit.abend_all(too_many_calls());
        return None;
    }
    Some(reach)
}

/// One call more, or the end that is due.
fn advance<'a, L: Ledger>(
    alloc: Global,
    unit: &mut Unit,
    script: &'a [Statement],
    progress: Progress<'a>,
    steps: &mut Steps<L>,
) -> Result<Progress<'a>, NoMemory>
    requires open { is_none unit.old.end ≡ true }
    requires can { CanGoOn script.now progress.place.now unit.old }
    requires used { progress.used ≤ statement_limit }
    ensures goes_on { IfOk result (λ p. GoesOn script.now
        unit.old (point_of progress.entry steps.old) unit.new (point_of p steps.new)) }
    ensures can { IfOk result (λ p. (p.used ≤ statement_limit)
        × (is_none unit.new.end ≡ true → CanGoOn script.now p.place.now unit.new)) }
    ensures turns { OnOk result (turns_left unit.new < turns_left unit.old) }
    ensures base { unit.new.base ≡ unit.old.base }
    ensures later { steps.old ≤ steps.new }
{
    let Some(reach) = next_command(unit, script, progress, steps) else {
        return Ok(progress);
    };
    steps.tick();
    let command = command_of(alloc, reach.statement, unit.calls())?;
    let put = u128::from(command.data_bytes());
    unit.call(command)?;
    let got = u128::from(got_bytes(&unit.last_reply().value));
    Ok(Progress {
        place: reach.place,
        used: progress.used + reach.count,
        bytes: progress.bytes + (put + got),
    })
}

/// Runs a unit to its end.
pub(crate) fn play<L: Ledger>(
    alloc: Global,
    unit: &mut Unit,
    script: &[Statement],
    steps: &mut Steps<L>,
) -> Result<(), NoMemory>
    requires can { CanGoOn script.now script.now unit.old }
    ensures played { OnOk result ((texts : Texts) (begun : UnitOfWork) (before : ℕ)
        → IsUnderWay texts script.now begun before unit.old (first_point script.now steps.old)
        → IfSome unit.new.end (λ e. IsPlayed texts begun unit.new before steps.new e)) }
    ensures ended { OnOk result (is_some unit.new.end ≡ true) }
    ensures base { unit.new.base ≡ unit.old.base }
    ensures later { steps.old ≤ steps.new }
{
    let mut progress = Progress {
        place: script,
        used: 0,
        bytes: 0,
    };
    while !unit.has_ended() {
        progress = advance(alloc, unit, script, progress, steps)?;
    }
    Ok(())
}
