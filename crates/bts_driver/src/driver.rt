// Work done one unit after the other.
ghost use Rattle.std.specs.Prelude.{◌≡◌, ℕ, [], ◌∷◌, IfSome, false};
ghost use Rattle.bts_driver.specs.Turns.{Grows, HasMore, is_ended, stop_answer};
ghost use Rattle.bts_interp.specs.Jobs as jobs;
ghost use Rattle.bts_interp.specs.Stations.{PutsNone};

use bts_interp::{Done, FinishError, Job, Naming, Refused, Station, Steps, Work, run_job};
use std::alloc::Global;
use std::sync::ledger::Ledger;

/// Why no more work was done.
#[derive(Clone, Copy, Debug, PartialEq, Eq)]
pub enum Stop {
    /// All is done.
    Done,
    /// As many activations as are allowed have ended.
    Limit { count: u64 },
    NoMemory,
}

/// What a unit that was taken came to.
#[derive(Clone, Copy, Debug)]
enum Turn {
    Ended,
    /// It was given back.
    NoMemory,
}

/// Gives back the unit that is out.
fn give_up<N: Naming, S: Station<Job<N>, Done<N>>>(station: &mut S, job: Job<N>) -> Turn
    requires jobs { (j : jobs.Job) → S.job j ≡ j }
    requires out { S.out station.old ≡ (job.ticket, job.unit) ∷ [] }
    ensures turn { is_ended result ≡ false }
    ensures out { S.out station.new ≡ [] }
    ensures order { S.in_order station.old → S.in_order station.new }
    ensures bound { (b : ℕ) → S.within b station.old → S.within b station.new }
    ensures grows { PutsNone (S.ended station.old) (S.ended station.new) (S.rest station.old) (S.rest station.new) }
{
    let _ = station.give_back(job);
    Turn::NoMemory
}

/// Runs a unit that is out, and ends it, or gives it back where there is no memory.
fn take_turn<N: Naming, S: Station<Job<N>, Done<N>>, L: Ledger>(
    alloc: Global,
    station: &mut S,
    job: Job<N>,
    steps: &mut Steps<L>,
) -> Turn
    requires jobs { (j : jobs.Job) → S.job j ≡ j }
    requires results { (d : jobs.Done) → S.done d ≡ d }
    requires out { S.out station.old ≡ (job.ticket, job.unit) ∷ [] }
    ensures out { S.out station.new ≡ [] }
    ensures order { S.in_order station.old → S.in_order station.new }
    ensures bound { (b : ℕ) → S.within b station.old → S.within b station.new }
    ensures grows { Grows (is_ended result) (S.ended station.old) (S.ended station.new) (S.rest station.old) (S.rest station.new) }
{
    match run_job(alloc, job, steps) {
        Err((_, job)) => give_up(station, job),
        Ok(done) => match station.finish(done, steps) {
            Ok(_) => Turn::Ended,
            Err((_, done)) => give_up(station, done.into_job()),
        },
    }
}

/// Takes, runs and ends one unit after the other until there is no more work, or no memory. Nothing may be out, and
/// contracts see the station's jobs and results as they are. It ends because the station's rest falls with each unit
/// that ends.
pub fn drain<N: Naming, S: Station<Job<N>, Done<N>>, L: Ledger>(
    alloc: Global,
    station: &mut S,
    steps: &mut Steps<L>,
) -> Stop
    requires jobs { (j : jobs.Job) → S.job j ≡ j }
    requires results { (d : jobs.Done) → S.done d ≡ d }
    requires out { S.out station.old ≡ [] }
    ensures out { S.out station.new ≡ [] }
    ensures order { S.in_order station.old → S.in_order station.new }
    ensures bound { (b : ℕ) → S.within b station.old → S.within b station.new }
    ensures more { HasMore (S.ended station.old) (S.ended station.new) }
    ensures stop { IfSome (stop_answer result) (λ a. S.due station.new a) }
{
    loop {
        let job = match station.take_work() {
            Ok(Work::Job(job)) => job,
            Ok(Work::Ended { .. }) => continue,
            Ok(Work::Wait) => unreachable!(),
            Ok(Work::Limit { count }) => return Stop::Limit { count },
            Ok(Work::Done) => return Stop::Done,
            Err(Refused::NoMemory) => return Stop::NoMemory,
        };
        match take_turn(alloc, station, job, steps) {
            Turn::Ended => {}
            Turn::NoMemory => return Stop::NoMemory,
        }
    }
}
