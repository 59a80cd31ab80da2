// Units that end.
ghost use Rattle.std.specs.Prelude.{◌≡◌, ◌≤◌, ◌<◌, ◌+◌, ◌↔◌, cond, vec_len, vec_capacity, IfOk, IfErr, OnOk, OnErr, MatchOption, Ok, Some, IsTrue, true, false};
ghost use Rattle.bts_interp.specs.Jobs.{executed};
ghost use Rattle.bts_interp.specs.Stations.{has_ticket};
ghost use Rattle.bts_region.specs.Answers.{CountsLast, Ends, Fits, IsDueUnder, Refuses};
ghost use Rattle.bts_region.specs.Awake.{AreAwake, AreOthersAwake};
ghost use Rattle.bts_region.specs.Fitting.{IsOfDue, IsRunnableHere, due_here, job_here};
ghost use Rattle.bts_tree.specs.Repositories.{has_room};
ghost use Rattle.bts_unit.specs.Playing as playing;

use crate::region::Region;
use crate::taking::new_job;
use bts_command::{End, Ended, UnitKind};
use bts_interp::{Done, FinishError, Naming, Steps, item_of, run_job};
use bts_names::{Key, Moment, NoMemory, Rows};
use bts_session::Session;
use bts_tree::{Repository, Scope};
use std::alloc::Global;
use std::sync::Arc;
use std::sync::ledger::Ledger;

/// The unit that is to end, the key of the process that it holds, and the moment at which it ends.
#[derive(Drop)]
struct Due {
    unit: UnitKind,
    key: Key,
    moment: Moment,
}

fn is_same(a: &UnitKind, b: &UnitKind) -> bool
    ensures { IsTrue result ↔ (a.now ≡ b.now) }
{
    *a == *b
}

/// Makes room for one unit more, and for the process that it leaves.
fn reserve_for_one(
    history: &mut Vec<Ended>,
    repository: &mut Repository,
    key: &Key,
) -> Result<(), NoMemory>
    ensures history { history.new.items ≡ history.old.items }
    ensures processes { repository.new.processes ≡ repository.old.processes }
    ensures place { OnOk result (vec_len history.new < vec_capacity history.new) }
    ensures room { OnOk result (has_room key.now repository.new ≡ true) }
    ensures others { AreAwake repository.old → OnOk result (AreOthersAwake key.now repository.new) }
    ensures err { OnErr result (repository.new ≡ repository.old) }
{
    if history.reserve(1).is_err() {
        return Err(NoMemory);
    }
    repository.reserve_for(key)
}

/// Whether a result is that of the unit from the process and at the moment that stand now.
fn fits<N: Naming>(done: &Done<N>, due: &Due, repository: &Repository) -> bool
    ensures { IsTrue result ↔ IsOfDue done.now.job (due_here due.now repository.now.processes) }
{
    if done.moment() != due.moment {
        return false;
    }
    if !is_same(&done.unit(), &due.unit) {
        return false;
    }
    let base = done.job().base();
    if base.key() != due.key {
        return false;
    }
    repository.same(base)
}

/// Runs the unit from the process and at the moment that stand now.
fn run_again<N: Naming, L: Ledger>(
    alloc: Global,
    due: &Due,
    repository: &Repository,
    session: &Arc<Session>,
    steps: &mut Steps<L>,
) -> Result<Done<N>, NoMemory>
    requires named { session.now.value ≡ N.name.session }
    requires runnable { IsRunnableHere session.now.value (due_here due.now repository.now.processes) }
    ensures ok { IfOk result (λ d. d.job
        ≡ job_here d.job.ticket session.now.value (due_here due.now repository.now.processes)) }
    ensures counted { IfOk result (λ d. steps.new ≡ steps.old + executed d) }
    ensures later { steps.old ≤ steps.new }
{
    let job = new_job(alloc, &due.unit, &due.key, due.moment, repository, session)?;
    match run_job(alloc, job, steps) {
        Ok(done) => Ok(done),
        Err(_) => Err(NoMemory),
    }
}

/// The result where it fits, else that of a new run. Where there is no memory for that the result comes back.
fn fitting<N: Naming, L: Ledger>(
    alloc: Global,
    done: Done<N>,
    due: &Due,
    repository: &Repository,
    session: &Arc<Session>,
    steps: &mut Steps<L>,
) -> Result<Done<N>, Done<N>>
    requires named { session.now.value ≡ N.name.session }
    requires runnable { IsRunnableHere session.now.value (due_here due.now repository.now.processes) }
    ensures ok { IfOk result (λ d. d.job
        ≡ job_here d.job.ticket session.now.value (due_here due.now repository.now.processes)) }
    ensures err { IfErr result (λ d. d ≡ done) }
    ensures taken { IsOfDue done.job (due_here due.now repository.now.processes)
        → (result ≡ Ok done) × (steps.new ≡ steps.old) }
    ensures again { (IsOfDue done.job (due_here due.now repository.now.processes) → ⊥)
        → IfOk result (λ d. steps.new ≡ steps.old + executed d) }
    ensures later { steps.old ≤ steps.new }
{
    if fits(&done, due, repository) {
        done.job().facts();
        return Ok(done);
    }
    match run_again(alloc, due, repository, session, steps) {
        Ok(again) => Ok(again),
        Err(_) => Err(done),
    }
}

/// Makes room for the end of a unit, and gives the result that fits. Where there is no memory the result comes back, and
/// the index keeps no key for it.
fn prepare<N: Naming, L: Ledger>(
    alloc: Global,
    done: Done<N>,
    due: &Due,
    history: &mut Vec<Ended>,
    repository: &mut Repository,
    session: &Arc<Session>,
    steps: &mut Steps<L>,
) -> Result<Done<N>, Done<N>>
    requires named { session.now.value ≡ N.name.session }
    requires runnable { IsRunnableHere session.now.value (due_here due.now repository.old.processes) }
    ensures ok { IfOk result (λ d. d.job
        ≡ job_here d.job.ticket session.now.value (due_here due.now repository.old.processes)) }
    ensures err { IfErr result (λ d. d ≡ done) }
    ensures taken { IsOfDue done.job (due_here due.now repository.old.processes)
        → steps.new ≡ steps.old }
    ensures again { (IsOfDue done.job (due_here due.now repository.old.processes) → ⊥)
        → IfOk result (λ d. steps.new ≡ steps.old + executed d) }
    ensures later { steps.old ≤ steps.new }
    ensures history { history.new.items ≡ history.old.items }
    ensures processes { repository.new.processes ≡ repository.old.processes }
    ensures place { OnOk result (vec_len history.new < vec_capacity history.new) }
    ensures room { OnOk result (has_room due.now.key repository.new ≡ true) }
    ensures others { AreAwake repository.old → OnOk result (AreOthersAwake due.now.key repository.new) }
    ensures awake { AreAwake repository.old → OnErr result (AreAwake repository.new) }
{
    if reserve_for_one(history, repository, &due.key).is_err() {
        return Err(done);
    }
    match fitting(alloc, done, due, repository, session, steps) {
        Ok(fitted) => Ok(fitted),
        Err(done) => {
            repository.forget_idle(&due.key);
            Err(done)
        }
    }
}

/// Puts the process that a unit leaves into the repository, but for a rollback. The index keeps no key for it where it has
/// no activation to run.
fn put_back(repository: &mut Repository, after: Scope, end: &End)
    requires { has_room after.process.key repository.old ≡ true }
    ensures processes { repository.new.processes
        ≡ playing.put_back end.now (Some after.process) repository.old.processes }
    ensures awake { AreOthersAwake after.process.key repository.old → AreAwake repository.new }
{
    let key = after.key();
    if !end.is_rollback() {
        repository.put_scope(after);
    }
    repository.forget_idle(&key);
}

/// The number of a unit, which is the last one where it is committed.
fn number_of(units: u64, is_committed: bool) -> u64
    ensures { result ≡ cond is_committed units 0 }
{
    if is_committed { units } else { 0 }
}

impl<N: Naming> Region<N> {
    /// The unit that is out under a ticket.
    fn due_of(&self, ticket: u64) -> Option<Due>
        ensures { MatchOption result
            (has_ticket ticket self.now.out ≡ false) (λ d. IsDueUnder ticket self.now d) }
    {
        let Some(unit) = self.out else {
            return None;
        };
        if ticket != 0 {
            return None;
        }
        let Some(key) = unit.key() else {
            unreachable!()
        };
        Some(Due {
            unit,
            key,
            moment: self.moment,
        })
    }

    /// Ends the ticket's unit, and answers its place in the history, from 1. A result from the process and the moment
    /// that stand now is taken over, and no statement is executed; else the unit is run again, once. Where there is no memory,
    /// or the ticket isn't out, all is as it was and the result comes back.
    pub fn finish<L: Ledger>(
        &mut self,
        done: Done<N>,
        steps: &mut Steps<L>,
    ) -> Result<u64, (FinishError, Done<N>)>
        ensures ok { IfOk result (λ place. Ends self.old self.new done place) }
        ensures err { IfErr result (λ e. (e.1 ≡ done) × (self.new ≡ self.old) × Refuses self.old done e.0) }
        ensures steps { Fits self.old done → steps.new ≡ steps.old }
        ensures again { (Fits self.old done → ⊥) → IfOk result (λ place. CountsLast self.old self.new steps.old steps.new) }
        ensures later { steps.old ≤ steps.new }
    {
        let ticket = done.ticket();
        let Some(due) = self.due_of(ticket) else {
            return Err((FinishError::NotOut { ticket }, done));
        };
        let fitted = match prepare(
            self.alloc,
            done,
            &due,
            &mut self.history,
            &mut self.repository,
            &self.session,
            steps,
        ) {
            Ok(fitted) => fitted,
            Err(done) => return Err((FinishError::NoMemory, done)),
        };
        fitted.facts();
        fitted.job().facts();
        let (calls, after, end) = fitted.into_result();
        let is_committed = !end.is_rollback();
        put_back(&mut self.repository, after, &end);
        self.units += u64::from(is_committed);
        self.activations += u64::from(due.unit.is_activation());
        self.items_ended += usize::from(item_of(&due.unit).is_some());
        self.history.push_reserved(Ended {
            unit: due.unit,
            moment: due.moment,
            end,
            calls,
            rows: Rows::new(self.alloc),
            seq: number_of(self.units, is_committed),
        });
        self.out = None;
        Ok(self.history.len() as u64)
    }
}
