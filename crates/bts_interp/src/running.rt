// Units run by their texts.
ghost use Rattle.std.specs.Prelude.{◌≡◌, ◌+◌, ◌≤◌, IfOk, IfErr, OnOk, IfSome, is_some, true};
ghost use Rattle.bts_unit.specs.Frames.{start};
ghost use Rattle.bts_interp.specs.Errands.{job_from};
ghost use Rattle.bts_interp.specs.Items.{texts_of};
ghost use Rattle.bts_interp.specs.Jobs.{executed};
ghost use Rattle.bts_interp.specs.Running.{IsBegun, IsPlayed};

use crate::codes::{no_program, too_many_statements};
use crate::job::Errand;
use crate::playing::play;
use crate::texts::{program_in, script_of};
use crate::{Done, Job, Naming, Steps};
use bts_command::Command;
use bts_forms::Statement;
use bts_names::NoMemory;
use bts_tree::Scope;
use bts_unit::{Change, Unit};
use std::alloc::Global;
use std::sync::ledger::Ledger;

/// Runs a unit: from the job's base the one list of calls, end and process that its texts allow. Where there is no
/// memory the job comes back as it was.
pub fn run_job<N: Naming, L: Ledger>(
    alloc: Global,
    job: Job<N>,
    steps: &mut Steps<L>,
) -> Result<Done<N>, (NoMemory, Job<N>)>
    ensures done { IfOk result (λ d. d.job ≡ job) }
    ensures steps { IfOk result (λ d. steps.new ≡ steps.old + executed d) }
    ensures back { IfErr result (λ e. e.1 ≡ job) }
    ensures later { steps.old ≤ steps.new }
{
    let (base, errand) = job.into_parts();
    match Unit::start(alloc, base, errand.unit(), errand.moment()) {
        Ok(unit) => run_unit(alloc, unit, errand, steps),
        Err((failed, base)) => Err((failed, errand.from_base(base))),
    }
}

fn run_unit<N: Naming, L: Ledger>(
    alloc: Global,
    mut unit: Unit,
    errand: Errand,
    steps: &mut Steps<L>,
) -> Result<Done<N>, (NoMemory, Job<N>)>
    requires named { errand.session.value ≡ N.name.session }
    requires begun { IsBegun errand.unit errand.moment (texts_of errand.session.value errand.unit) unit }
    ensures done { IfOk result (λ d. d.job ≡ job_from errand unit.base) }
    ensures steps { IfOk result (λ d. steps.new ≡ steps.old + executed d) }
    ensures back { IfErr result (λ e. e.1 ≡ job_from errand unit.base) }
    ensures later { steps.old ≤ steps.new }
{
    match play_texts(alloc, &mut unit, &errand, steps) {
        Ok(()) => {
            let Change {
                base,
                after,
                calls,
                end,
            } = unit.end();
            Ok(Done::new(errand.from_base(base), calls, after, end))
        }
        Err(failed) => Err((failed, errand.from_base(give_up(unit)))),
    }
}

/// Runs a unit by its texts to its end.
fn play_texts<L: Ledger>(
    alloc: Global,
    unit: &mut Unit,
    errand: &Errand,
    steps: &mut Steps<L>,
) -> Result<(), NoMemory>
    requires { IsBegun errand.now.unit errand.now.moment (texts_of errand.now.session.value errand.now.unit) unit.old }
    ensures played { OnOk result (IfSome unit.new.end (λ e. IsPlayed (texts_of errand.now.session.value errand.now.unit) unit.old unit.new steps.old steps.new e)) }
    ensures ended { OnOk result (is_some unit.new.end ≡ true) }
    ensures base { unit.new.base ≡ unit.old.base }
    ensures later { steps.old ≤ steps.new }
{
    let missing = [Statement::Command(Command::Abend { code: no_program() })];
    let program = program_in(unit);
    let script = script_of(errand.session(), &errand.unit(), program, &missing);
    play(alloc, unit, script, steps)
}

/// Gives the process at a unit's start back.
fn give_up(mut unit: Unit) -> Scope
    ensures { result.process ≡ unit.base }
{
    if unit.frame().is_some() {
        unit.abend_all(too_many_statements());
    }
    let Change {
        base,
        after: _,
        calls: _,
        end: _,
    } = unit.end();
    base
}
