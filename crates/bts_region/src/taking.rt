// Work that is given out.
ghost use Rattle.std.specs.Prelude.{◌≡◌, [], None, Some, IfOk};
ghost use Rattle.bts_interp.specs.Items.{texts_of};
ghost use Rattle.bts_interp.specs.Ready.{IsRunnable};
ghost use Rattle.bts_region.specs.Answers.{Takes, TakesOffer, offer_alone};
ghost use Rattle.bts_region.specs.Fitting.{job_of};
ghost use Rattle.bts_command.specs.Kinds.{key_of};
ghost use Rattle.bts_region.specs.Regions.{offer, work};
ghost use Rattle.bts_tree.specs.Repositories.{process_at};

use crate::finding::Found;
use crate::region::Region;
use bts_command::{Calls, End, Ended, UnitKind};
use bts_interp::{Job, Naming, Refused, Work};
use bts_names::{Key, Moment, NoMemory, Path, Rows};
use bts_session::Session;
use bts_tree::Repository;
use std::alloc::Global;
use std::sync::Arc;

/// The job of a unit under the first ticket, with a copy of the process of its key.
pub(crate) fn new_job<N: Naming>(
    alloc: Global,
    unit: &UnitKind,
    key: &Key,
    moment: Moment,
    repository: &Repository,
    session: &Arc<Session>,
) -> Result<Job<N>, NoMemory>
    requires named { session.now.value ≡ N.name.session }
    requires runnable { IsRunnable unit.now (process_at key.now repository.now.processes) (texts_of session.now.value unit.now) }
    ensures { IfOk result (λ j. j ≡ job_of 0 session.now.value unit.now (process_at key.now repository.now.processes) moment) }
{
    let base = repository.scope(alloc, key, &Path::root())?;
    let session = session.clone()?;
    Ok(Job::new(0, *unit, base, moment, session))
}

impl<N: Naming> Region<N> {
    /// Gives out the first work in order, with the process that it is about; SETTLE is ended at once.
    pub fn take_work(&mut self) -> Result<Work<Job<N>>, Refused>
        ensures { TakesOffer self.old self.new (offer_alone self.old self.old.out) result }
    {
        if self.out.is_some() {
            return Ok(Work::Wait);
        }
        match self.find_work() {
            Found::Work(unit) => self.take(&unit),
            Found::Limit { count } => Ok(Work::Limit { count }),
            Found::Done => Ok(Work::Done),
        }
    }

    /// A unit that holds a process goes out, and one that holds none is ended.
    fn take(&mut self, unit: &UnitKind) -> Result<Work<Job<N>>, Refused>
        requires offered { offer self.old ≡ work unit.now }
        requires alone { self.old.out ≡ [] }
        ensures { Takes self.old self.new unit.now (key_of unit.now) result }
    {
        match unit.key() {
            Some(key) => self.give_out(unit, &key),
            None => self.end_item(*unit),
        }
    }

    /// The unit goes out with a copy of the process of its key.
    fn give_out(&mut self, unit: &UnitKind, key: &Key) -> Result<Work<Job<N>>, Refused>
        requires offered { offer self.old ≡ work unit.now }
        requires alone { self.old.out ≡ [] }
        requires process { key_of unit.now ≡ Some key.now }
        ensures { Takes self.old self.new unit.now (Some key.now) result }
    {
        let made = new_job(
            self.alloc,
            unit,
            key,
            self.moment,
            &self.repository,
            &self.session,
        );
        match made {
            Ok(job) => {
                self.out = Some(*unit);
                Ok(Work::Job(job))
            }
            Err(_) => Err(Refused::NoMemory),
        }
    }

    /// Ends an item that holds no process.
    fn end_item(&mut self, unit: UnitKind) -> Result<Work<Job<N>>, Refused>
        requires offered { offer self.old ≡ work unit }
        requires alone { self.old.out ≡ [] }
        requires item { key_of unit ≡ None }
        ensures { Takes self.old self.new unit None result }
    {
        if self.history.reserve(1).is_err() {
            return Err(Refused::NoMemory);
        }
        self.items_ended += 1;
        self.history.push_reserved(Ended {
            unit,
            moment: self.moment,
            end: End::Commit,
            calls: Calls::new(self.alloc),
            rows: Rows::new(self.alloc),
            seq: 0,
        });
        Ok(Work::Ended {
            place: self.history.len() as u64,
        })
    }
}
