// One activity.
ghost use Rattle.std.specs.Prelude.{◌≡◌, ◌↔◌, IsTrue, IfOk, None, []};
ghost use Rattle.bts_tree.specs.Activities as activities;
ghost use Rattle.bts_tree.specs.Fields as fields;
ghost use Rattle.bts_tree.specs.Repositories.{raised_activity};

use bts_container::{ContainerPool, Format};
use bts_event::EventPool;
use bts_names::{Abcode, Mode, Name16, NoMemory, ProgName, Status, Transid};
use bts_timer::TimerPool;
use std::alloc::Global;

/// One activity, without its children: they stand in the tree, under paths one number longer.
#[derive(Drop)]
pub struct Activity {
    pub name: Name16,
    pub transid: Transid,
    pub program: ProgName,
    /// The event in its parent's pool that its completion fires; the root has none.
    pub completion: Option<Name16>,
    pub mode: Mode,
    pub status: Status,
    /// The code of the abend that ended it.
    pub code: Option<Abcode>,
    pub suspended: bool,
    /// Whether its parent knows that it is COMPLETE.
    pub told: bool,
    pub pool: EventPool,
    pub timers: TimerPool,
    pub containers: ContainerPool,
    /// How many children were made: the number of the last one.
    pub made: u32,
}

impl Activity {
    /// A new activity: INITIAL and INCOMPLETE, with nothing in its pools. Without a completion event it is a root,
    /// and told. Its containers have the format of its process. No memory is taken yet.
    pub fn new(
        alloc: Global,
        format: Format,
        name: Name16,
        transid: Transid,
        program: ProgName,
        completion: Option<Name16>,
    ) -> Self
        ensures { result ≡ activities.new_activity format name transid program completion }
    {
        Activity {
            name,
            transid,
            program,
            completion,
            mode: Mode::Initial,
            status: Status::Incomplete,
            code: None,
            suspended: false,
            told: completion.is_none(),
            pool: EventPool::new(alloc),
            timers: TimerPool::new(alloc),
            containers: ContainerPool::new(alloc, format),
            made: 0,
        }
    }

    /// A new root activity, DFHROOT.
    pub fn new_root(alloc: Global, format: Format, transid: Transid, program: ProgName) -> Self
        ensures { result ≡ activities.new_root format transid program }
    {
        Activity::new(alloc, format, Name16::root(), transid, program, None)
    }

    pub fn is_complete(&self) -> bool
        ensures { result ≡ activities.is_complete self.now }
    {
        matches!(self.mode, Mode::Complete)
    }

    /// Whether an activation of it is enabled: it is INITIAL or DORMANT, not suspended, and an entry waits for it.
    pub fn is_ready(&self) -> bool
        ensures { result ≡ activities.is_ready self.now }
    {
        matches!(self.mode, Mode::Initial | Mode::Dormant)
            && !self.suspended
            && self.pool.queued() > 0
    }

    /// Whether a notice of it is enabled: it is COMPLETE and not told.
    pub fn is_untold(&self) -> bool
        ensures { result ≡ activities.is_untold self.now }
    {
        self.is_complete() && !self.told
    }

    /// Makes it COMPLETE, with this status and code. Its events, its timers and its entries go; the numbers of
    /// entries go on.
    pub(crate) fn complete(&mut self, status: Status, code: Option<Abcode>, told: bool)
        ensures { self.new ≡ activities.completed status code told self.old }
    {
        self.mode = Mode::Complete;
        self.status = status;
        self.code = code;
        self.told = told;
        self.pool.clear();
        self.timers.clear();
    }

    /// What becomes of it where an activity above it becomes COMPLETE.
    pub(crate) fn force(&mut self)
        ensures { self.new ≡ activities.forced self.old }
    {
        if self.is_complete() {
            self.complete(self.status, self.code, true);
        } else {
            self.complete(Status::Forced, None, true);
        }
    }

    /// Puts its containers into the second format.
    pub(crate) fn raise(&mut self)
        ensures { self.new ≡ raised_activity self.old }
    {
        self.containers.raise();
    }

    /// An activity of the same fields. All of its pools are copied.
    pub fn copy(&self, alloc: Global) -> Result<Activity, NoMemory>
        ensures { IfOk result (λ copy. copy ≡ self.now) }
    {
        let pool = self.pool.copy()?;
        let timers = self.timers.copy()?;
        let containers = self.containers.copy(alloc)?;
        Ok(Activity {
            name: self.name,
            transid: self.transid,
            program: self.program,
            completion: self.completion,
            mode: self.mode,
            status: self.status,
            code: self.code,
            suspended: self.suspended,
            told: self.told,
            pool,
            timers,
            containers,
            made: self.made,
        })
    }

    /// Whether both have the same fields. The time grows with what stands in their pools.
    pub fn same(&self, other: &Activity) -> bool
        ensures { IsTrue result ↔ (self.now ≡ other.now) }
    {
        if !self.same_names(other) {
            return false;
        }
        if !self.same_state(other) {
            return false;
        }
        self.same_pools(other)
    }

    fn same_names(&self, other: &Activity) -> bool
        ensures { IsTrue result ↔ fields.AreNamedAlike self.now other.now }
    {
        (self.name, self.transid, self.program, self.completion)
            == (other.name, other.transid, other.program, other.completion)
    }

    fn same_state(&self, other: &Activity) -> bool
        ensures { IsTrue result ↔ fields.HaveOneState self.now other.now }
    {
        (
            self.mode,
            self.status,
            self.code,
            self.suspended,
            self.told,
            self.made,
        ) == (
            other.mode,
            other.status,
            other.code,
            other.suspended,
            other.told,
            other.made,
        )
    }

    fn same_pools(&self, other: &Activity) -> bool
        ensures { IsTrue result ↔ fields.HaveSamePools self.now other.now }
    {
        if !self.pool.same(&other.pool) {
            return false;
        }
        if !self.timers.same(&other.timers) {
            return false;
        }
        self.containers.same(&other.containers)
    }
}
