// The value behind the lock.
ghost use Rattle.std.specs.Prelude.{◌≡◌, [], length, MatchResult, IfOk, true, false};
ghost use Rattle.std.specs.List.{AllByRecursion};
ghost use Rattle.bts_interp.specs.Stations.{has_ticket, without};
ghost use Rattle.bts_region.specs.Answers.{begun, with_moment, with_out};
ghost use Rattle.bts_region.specs.AsStation.{IsNothingOwed, MayEnd};
ghost use Rattle.bts_region.specs.Histories.{IsLegal};
ghost use Rattle.bts_region.specs.Positions.{behind_all, opened_at};
ghost use Rattle.bts_region.specs.Regions.{IsKept, kinds_out};
ghost use Rattle.bts_region.specs.Today.{IsOfToday, IsSmall, MayOpen};

use bts_command::{Ended, History, UnitKind};
use bts_interp::{Job, Naming};
use bts_names::{Moment, NoMemory};
use bts_session::Session;
use bts_tree::{Opening, Repository};
use std::alloc::Global;
use std::marker::{Model, PhantomData};
use std::sync::Arc;

/// What a run works on: the session, the units that have ended, those that are out, and all processes. Contracts see
/// all of it but the processes, which are those that the history leaves. It keeps that the history is legal, that no
/// item stands twice, and that what is out is enabled and apart from all else that is out. Today it lives in memory,
/// goes on from processes without children and timers, and gives out one unit at a time.
#[derive(Drop)]
pub struct Region<N: Naming> {
    pub(crate) alloc: Global,
    pub(crate) session: Arc<Session>,
    pub(crate) limit: u64,
    pub(crate) moment: Moment,
    pub(crate) history: Vec<Ended>,
    /// The unit that is out, under the first ticket.
    pub(crate) out: Option<UnitKind>,
    pub(crate) repository: Repository,
    /// How many units were committed.
    pub(crate) units: u64,
    /// How many items have ended, which are the first ones.
    pub(crate) items_ended: usize,
    /// How many activations have ended.
    pub(crate) activations: u64,
    pub(crate) of: PhantomData<N>,
}

impl<N: Naming> Model for Region<N> {
    ghost use Rattle.bts_region.specs.Keeps.{Keeps, state_of};
    ghost use Rattle.bts_region.specs.Regions.{RegionState};

    ghost Value = { RegionState };

    ghost view = { λ r. state_of N.name r };

    ghost invariant = { λ r. Keeps N.name r };
}

/// What leaves a region: the units that ended, and the processes that they left.
#[derive(Drop)]
pub struct Closed {
    pub history: History,
    pub repository: Repository,
}

impl<N: Naming> Region<N> {
    /// A region of a session, in which nothing has ended yet, and which goes on from what was opened. At most so many
    /// activations end in it. The type must name all three; there must be so few units, items and activations that
    /// numbers stay far from their last ones, and fewer than 2^32 items, so that each has a number.
    pub fn begin(
        alloc: Global,
        opening: Opening,
        session: Session,
        limit: u64,
    ) -> Result<Region<N>, NoMemory>
        requires name { N.name ≡ record { session = session; opening = opening; limit = limit } }
        requires opens { MayOpen opening }
        requires today { IsOfToday session }
        requires small { IsSmall session limit }
        ensures { IfOk result (λ r. r ≡ begun N.name) }
    {
        let Ok(session) = Arc::new(alloc, session) else {
            return Err(NoMemory);
        };
        let Opening {
            repo,
            units,
            moment,
        } = opening;
        let mut repository = repo;
        repository.forget_all_idle();
        Ok(Region {
            alloc,
            session,
            limit,
            moment,
            history: Vec::new(alloc),
            out: None,
            repository,
            units,
            items_ended: 0,
            activations: 0,
            of: PhantomData,
        })
    }

    /// The present moment.
    pub fn moment(&self) -> Moment
        ensures { result ≡ self.now.moment }
    {
        self.moment
    }

    /// The units that have ended, in order.
    pub fn history(&self) -> &[Ended]
        ensures { result.now ≡ self.now.history }
    {
        &self.history
    }

    /// The processes that the history leaves.
    pub fn repository(&self) -> &Repository
        ensures { result.now.processes ≡ (behind_all self.now.opening self.now.history).processes }
    {
        &self.repository
    }

    /// How many units are out.
    pub fn out_count(&self) -> u64
        ensures { result ≡ length self.now.out }
    {
        match self.out {
            Some(_) => 1,
            None => 0,
        }
    }

    /// What every region keeps, for the proofs of callers; it does nothing.
    pub fn facts(&self)
        ensures kept { IsKept self.now }
        ensures opening { self.now.opening ≡ opened_at N.name.opening }
        ensures owed { IsNothingOwed self.now }
        ensures session { self.now.session ≡ N.name.session }
        ensures limit { self.now.limit ≡ N.name.limit }
    {
        let _ = &self.history;
    }

    /// What holds of what is out, for the proofs of callers; it does nothing.
    pub(crate) fn facts_of_out(&self)
        ensures kept { IsKept self.now }
        ensures out { AllByRecursion (MayEnd self.now) (kinds_out self.now) }
    {
        let _ = &self.out;
    }

    /// Takes a ticket's unit back: it isn't out any more. Where the ticket isn't out the job comes back.
    pub fn give_back(&mut self, job: Job<N>) -> Result<(), Job<N>>
        ensures { MatchResult result
            (λ _. (has_ticket job.ticket self.old.out ≡ true) × (self.new ≡ with_out (without job.ticket self.old.out) self.old))
            (λ j. (has_ticket job.ticket self.old.out ≡ false) × (j ≡ job) × (self.new ≡ self.old)) }
    {
        if self.out.is_none() || job.ticket() != 0 {
            return Err(job);
        }
        self.out = None;
        Ok(())
    }

    /// Takes back all that is out.
    pub fn take_back_all(&mut self)
        ensures { self.new ≡ with_out [] self.old }
    {
        self.out = None;
    }

    /// Makes the moment the later one.
    pub fn advance(&mut self, moment: Moment)
        ensures { self.new ≡ with_moment moment self.old }
    {
        if self.moment < moment {
            self.moment = moment;
        }
    }

    /// The history, and the processes that it left.
    pub fn close(self) -> Closed
        ensures history { result.history ≡ self.history }
        ensures legal { IsLegal N.name.session (opened_at N.name.opening) result.history }
        ensures processes { result.repository.processes
            ≡ (behind_all (opened_at N.name.opening) result.history).processes }
    {
        let Region {
            alloc: _,
            session: _,
            limit: _,
            moment: _,
            history,
            out: _,
            repository,
            units: _,
            items_ended: _,
            activations: _,
            of: _,
        } = self;
        Closed {
            history: History::from_vec(history),
            repository,
        }
    }
}
