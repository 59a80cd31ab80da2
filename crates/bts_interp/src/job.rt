// Units that are taken away to be run, and what became of them.
ghost use Rattle.std.specs.Prelude.{◌≡◌, ◌≤◌, length};
ghost use Rattle.bts_interp.specs.Budgets.{call_limit};
ghost use Rattle.bts_interp.specs.Items.{texts_of};
ghost use Rattle.bts_interp.specs.Errands.{job_from};
ghost use Rattle.bts_interp.specs.Jobs as jobs;
ghost use Rattle.bts_interp.specs.Ready.{IsRunnable};

use crate::Naming;
use bts_command::{Calls, End, UnitKind};
use bts_names::Moment;
use bts_session::Session;
use bts_tree::Scope;
use std::marker::{Model, PhantomData};
use std::sync::Arc;

/// A unit that is taken away to be run: its ticket, what it is, the process and the moment that it begins with, and the
/// session whose texts it follows, which is that of its type. It can be run: the unit may begin on the process, which is
/// sound.
#[derive(Drop)]
pub struct Job<N: Naming> {
    ticket: u64,
    unit: UnitKind,
    base: Scope,
    moment: Moment,
    session: Arc<Session>,
    of: PhantomData<N>,
}

impl<N: Naming> Model for Job<N> {
    ghost use Rattle.bts_interp.specs.Items.{texts_of};
    ghost use Rattle.bts_interp.specs.Jobs as jobs;
    ghost use Rattle.bts_interp.specs.Ready.{IsOf};

    ghost Value = { jobs.Job };

    ghost view = { λ j. record { ticket = j.ticket; unit = j.unit; base = j.base.process; moment = j.moment; texts = texts_of j.session.value j.unit } };

    ghost invariant = { λ j. IsOf N.name j.session.value j.unit j.base.process };
}

impl<N: Naming> Job<N> {
    pub fn new(
        ticket: u64,
        unit: UnitKind,
        base: Scope,
        moment: Moment,
        session: Arc<Session>,
    ) -> Self
        requires named { session.value ≡ N.name.session }
        requires runnable { IsRunnable unit base.process (texts_of session.value unit) }
        ensures { result ≡ record { ticket = ticket; unit = unit; base = base.process; moment = moment; texts = texts_of session.value unit } }
    {
        Job {
            ticket,
            unit,
            base,
            moment,
            session,
            of: PhantomData,
        }
    }

    pub fn ticket(&self) -> u64
        ensures { result ≡ self.now.ticket }
    {
        self.ticket
    }

    pub fn unit(&self) -> UnitKind
        ensures { result ≡ self.now.unit }
    {
        self.unit
    }

    pub fn moment(&self) -> Moment
        ensures { result ≡ self.now.moment }
    {
        self.moment
    }

    /// The process that it begins with.
    pub fn base(&self) -> &Scope
        ensures { result.now.process ≡ self.now.base }
    {
        &self.base
    }

    /// The session whose texts it follows.
    pub fn session(&self) -> &Session
        ensures { result.now ≡ N.name.session }
    {
        &self.session
    }

    /// The process that it begins with, and the rest of it.
    pub(crate) fn into_parts(self) -> (Scope, Errand)
        ensures parts { job_from result.1 result.0.process ≡ self }
        ensures named { result.1.session.value ≡ N.name.session }
        ensures runnable { IsRunnable result.1.unit result.0.process (texts_of result.1.session.value result.1.unit) }
    {
        let Job {
            ticket,
            unit,
            base,
            moment,
            session,
            of: _,
        } = self;
        let errand = Errand {
            ticket,
            unit,
            moment,
            session,
        };
        (base, errand)
    }

    /// What every job keeps, for the proofs of callers; it does nothing.
    pub fn facts(&self)
        ensures texts { self.now.texts ≡ texts_of N.name.session self.now.unit }
        ensures runnable { IsRunnable self.now.unit self.now.base self.now.texts }
    {
        let _ = &self.base;
    }
}

/// A job without the process that it begins with.
#[derive(Drop)]
pub(crate) struct Errand {
    ticket: u64,
    unit: UnitKind,
    moment: Moment,
    session: Arc<Session>,
}

impl Errand {
    pub(crate) fn unit(&self) -> UnitKind
        ensures { result ≡ self.now.unit }
    {
        self.unit
    }

    pub(crate) fn moment(&self) -> Moment
        ensures { result ≡ self.now.moment }
    {
        self.moment
    }

    pub(crate) fn session(&self) -> &Session
        ensures { result.now ≡ self.now.session.value }
    {
        &self.session
    }

    /// The job that begins with this process.
    pub(crate) fn from_base<N: Naming>(self, base: Scope) -> Job<N>
        requires named { self.session.value ≡ N.name.session }
        requires runnable { IsRunnable self.unit base.process (texts_of self.session.value self.unit) }
        ensures { result ≡ job_from self base.process }
    {
        let Errand {
            ticket,
            unit,
            moment,
            session,
        } = self;
        Job {
            ticket,
            unit,
            base,
            moment,
            session,
            of: PhantomData,
        }
    }
}

/// A unit that was run: the job, its calls, the process that it left, and its end. They are what the texts give from the
/// job's base, and the type keeps that.
#[derive(Drop)]
pub struct Done<N: Naming> {
    job: Job<N>,
    calls: Calls,
    after: Scope,
    end: End,
}

impl<N: Naming> Model for Done<N> {
    ghost use Rattle.bts_interp.specs.Jobs as jobs;

    ghost Value = { jobs.Done };

    ghost view = { λ d. record { job = d.job; calls = d.calls; after = d.after.process; end = d.end } };

    ghost invariant = { λ d. jobs.IsDone (record { job = d.job; calls = d.calls; after = d.after.process; end = d.end }) };
}

impl<N: Naming> Done<N> {
    /// A job that was run, and what became of it.
    pub(crate) fn new(job: Job<N>, calls: Calls, after: Scope, end: End) -> Self
        requires { jobs.IsDone (record { job = job; calls = calls; after = after.process; end = end }) }
        ensures { result ≡ record { job = job; calls = calls; after = after.process; end = end } }
    {
        Done {
            job,
            calls,
            after,
            end,
        }
    }

    pub fn ticket(&self) -> u64
        ensures { result ≡ self.now.job.ticket }
    {
        self.job.ticket()
    }

    pub fn unit(&self) -> UnitKind
        ensures { result ≡ self.now.job.unit }
    {
        self.job.unit()
    }

    pub fn moment(&self) -> Moment
        ensures { result ≡ self.now.job.moment }
    {
        self.job.moment()
    }

    /// The job that was run.
    pub fn job(&self) -> &Job<N>
        ensures { result.now ≡ self.now.job }
    {
        &self.job
    }

    /// The job again, without what became of it.
    pub fn into_job(self) -> Job<N>
        ensures { result ≡ self.job }
    {
        let Done {
            job,
            calls: _,
            after: _,
            end: _,
        } = self;
        job
    }

    /// What became of the job: the calls, the process that they left, and the end.
    pub fn into_result(self) -> (Calls, Scope, End)
        ensures calls { result.0 ≡ self.calls }
        ensures after { result.1.process ≡ self.after }
        ensures end { result.2 ≡ self.end }
    {
        let Done {
            job: _,
            calls,
            after,
            end,
        } = self;
        (calls, after, end)
    }

    /// What every one keeps, for the proofs of callers; it does nothing.
    pub fn facts(&self)
        ensures done { jobs.IsDone self.now }
        ensures few { length self.now.calls ≤ call_limit }
    {
        let _ = &self.job;
    }
}
