// Regions of a small session.
ghost use Rattle.std.specs.Prelude.{◌≡◌, ◌<◌, IfSome};
ghost use Rattle.bts_region.specs.Today.{IsOfToday, IsSmall, MayOpen};

use crate::Region;
use bts_interp::{Done, FinishError, Job, Naming, Steps, Work, run_job};
use bts_names::{Moment, Value};
use bts_session::{Session, read_session};
use bts_tree::{Opening, Repository};
use std::alloc::Global;
use std::marker::Brand;
use std::sync::ledger::{Blank, Ledger};
use std::test::Fail;

/// A request that rolls back, a SETTLE, and a request with no line.
const SMALL: &str = "REQUEST T P\nROLLBACK\nEND\nSETTLE\nREQUEST T Q\nEND\n";

/// The root of a process is activated by its start, and behind the second request by GO.
const WOKEN: &str =
    "PROGRAM R\nRETRIEVE REATTACH EVENT\nDEFINE INPUT EVENT(GO)\nEND\nREQUEST T P\nDEFINE PROCESS TRANSID(X) PROGRAM(R)\nRUN ACQPROCESS ASYNCHRONOUS\nEND\nSETTLE\nREQUEST T P\nACQUIRE PROCESS\nRUN ACQPROCESS ASYNCHRONOUS INPUTEVENT(GO)\nEND\n";

/// The session of a text, with few items.
fn session_of(alloc: Global, text: &str) -> Option<Session>
    ensures today { IfSome result (λ s. IsOfToday s) }
    ensures small { IfSome result (λ s. IsSmall s 4) }
{
    let Ok(session) = read_session(alloc, text.as_bytes()) else {
        return None;
    };
    if session.items.len() > 4 {
        return None;
    }
    Some(session)
}

fn take_job<N: Naming>(region: &mut Region<N>) -> Option<Job<N>> {
    match region.take_work() {
        Ok(Work::Job(job)) => Some(job),
        _ => None,
    }
}

fn take_and_run<N: Naming, L: Ledger>(
    alloc: Global,
    region: &mut Region<N>,
    steps: &mut Steps<L>,
) -> Option<Done<N>> {
    run_job(alloc, take_job(region)?, steps).ok()
}

/// Ends the next unit, whichever it is; false where there is none.
fn end_next<N: Naming, L: Ledger>(
    alloc: Global,
    region: &mut Region<N>,
    steps: &mut Steps<L>,
) -> bool {
    match region.take_work() {
        Ok(Work::Job(job)) => match run_job(alloc, job, steps) {
            Ok(done) => region.finish(done, steps).is_ok(),
            Err(_) => false,
        },
        Ok(Work::Ended { .. }) => true,
        _ => false,
    }
}

/// The number among the committed units of the one at a place of the history, from 0.
fn seq_at<N: Naming>(region: &Region<N>, place: usize) -> Option<u64> {
    Some(region.history().get(place)?.seq)
}

/// What is done in a region.
#[derive(Clone, Copy, Debug)]
enum Story {
    /// All units, one after the other.
    All,
    /// A result is brought back whose unit was taken back.
    TakenBack,
    /// A unit is given back, and taken once more.
    GivenBack,
    /// The result of a unit is brought back for another one.
    OfAnother,
    /// The result of an activation is brought back for a later one of the same activity, whose process is another now.
    OfAnotherBase,
    /// The result of a unit is brought back when the moment is a later one.
    Later,
}

fn all<N: Naming, L: Ledger>(alloc: Global, region: &mut Region<N>, steps: &mut Steps<L>) -> bool {
    for _turn in 0..3 {
        if !end_next(alloc, region, steps) {
            return false;
        }
    }
    matches!(region.take_work(), Ok(Work::Done))
        && seq_at(region, 0) == Some(0)
        && seq_at(region, 1) == Some(0)
        && seq_at(region, 2) == Some(1)
}

fn taken_back<N: Naming, L: Ledger>(
    alloc: Global,
    region: &mut Region<N>,
    steps: &mut Steps<L>,
) -> bool {
    let Some(done) = take_and_run(alloc, region, steps) else {
        return false;
    };
    region.take_back_all();
    matches!(
        region.finish(done, steps),
        Err((FinishError::NotOut { ticket: 0 }, _))
    ) && region.history().is_empty()
}

fn given_back<N: Naming, L: Ledger>(
    alloc: Global,
    region: &mut Region<N>,
    steps: &mut Steps<L>,
) -> bool {
    let Some(job) = take_job(region) else {
        return false;
    };
    let is_alone = matches!(region.take_work(), Ok(Work::Wait));
    let is_back = region.give_back(job).is_ok() && region.out_count() == 0;
    is_alone && is_back && end_next(alloc, region, steps) && region.history().len() == 1
}

fn of_another<N: Naming, L: Ledger>(
    alloc: Global,
    region: &mut Region<N>,
    steps: &mut Steps<L>,
) -> bool {
    let Some(done) = take_and_run(alloc, region, steps) else {
        return false;
    };
    region.take_back_all();
    if !end_next(alloc, region, steps) || !end_next(alloc, region, steps) {
        return false;
    }
    take_job(region).is_some() && region.finish(done, steps).is_ok() && seq_at(region, 2) == Some(1)
}

/// Whether the first call of the unit at that place of the history retrieved this event.
fn was_woken_by<N: Naming>(region: &Region<N>, place: usize, event: &str) -> bool {
    let Some(ended) = region.history().get(place) else {
        return false;
    };
    let Some(call) = ended.calls.as_slice().first() else {
        return false;
    };
    match &call.reply.value {
        Value::Event { name, .. } => name.as_bytes() == event.as_bytes(),
        _ => false,
    }
}

fn of_another_base<N: Naming, L: Ledger>(
    alloc: Global,
    region: &mut Region<N>,
    steps: &mut Steps<L>,
) -> bool {
    if !end_next(alloc, region, steps) {
        return false;
    }
    let Some(done) = take_and_run(alloc, region, steps) else {
        return false;
    };
    region.take_back_all();
    for _turn in 0..3 {
        if !end_next(alloc, region, steps) {
            return false;
        }
    }
    let Some(job) = take_job(region) else {
        return false;
    };
    let is_same = job.unit() == done.unit() && job.moment() == done.moment();
    is_same
        && region.finish(done, steps).is_ok()
        && was_woken_by(region, 1, "DFHINITIAL")
        && was_woken_by(region, 4, "GO")
}

fn later<N: Naming, L: Ledger>(
    alloc: Global,
    region: &mut Region<N>,
    steps: &mut Steps<L>,
) -> bool {
    let Some(done) = take_and_run(alloc, region, steps) else {
        return false;
    };
    let Some(now) = Moment::from_seconds(60) else {
        return false;
    };
    region.advance(now);
    if region.finish(done, steps).is_err() {
        return false;
    }
    match region.history().first() {
        Some(ended) => ended.moment == now,
        None => false,
    }
}

fn tell<N: Naming, L: Ledger>(
    alloc: Global,
    opening: Opening,
    session: Session,
    blank: Blank,
    story: Story,
) -> bool
    requires name { N.name ≡ record { session = session; opening = opening; limit = 4 } }
    requires opens { MayOpen opening }
    requires today { IsOfToday session }
    requires small { IsSmall session 4 }
    requires ledger { blank.name ≡ L.name }
    requires parts { blank.parts ≡ L.parts }
    requires some_part { 0 < blank.parts }
{
    let (book, share) = blank.open::<L>();
    let mut steps = Steps::of(book, share);
    let Ok(mut region) = Region::<N>::begin(alloc, opening, session, 4) else {
        return false;
    };
    let is_so = match story {
        Story::All => all(alloc, &mut region, &mut steps),
        Story::TakenBack => taken_back(alloc, &mut region, &mut steps),
        Story::GivenBack => given_back(alloc, &mut region, &mut steps),
        Story::OfAnother => of_another(alloc, &mut region, &mut steps),
        Story::OfAnotherBase => of_another_base(alloc, &mut region, &mut steps),
        Story::Later => later(alloc, &mut region, &mut steps),
    };
    is_so && leaves_all(region)
}

/// Whether what leaves the region is what it had.
fn leaves_all<N: Naming>(region: Region<N>) -> bool {
    let count = region.history().len();
    let first = region.repository().next_key(None);
    let left = region.close();
    left.history.len() == count && left.repository.next_key(None) == first
}

fn holds(alloc: Global, text: &str, story: Story) -> bool {
    let opening = Opening {
        repo: Repository::empty(alloc),
        units: 0,
        moment: Moment::first(),
    };
    match session_of(alloc, text) {
        Some(session) => tell::<Brand, Brand>(alloc, opening, session, Blank::new(1), story),
        None => false,
    }
}

#[test]
fn units_end_as_their_stories_say(rt: HostRuntime) -> Result<(), Fail> {
    let table = [
        (SMALL, Story::All),
        (SMALL, Story::TakenBack),
        (SMALL, Story::GivenBack),
        (SMALL, Story::OfAnother),
        (WOKEN, Story::OfAnotherBase),
        (SMALL, Story::Later),
    ];
    for (text, story) in table {
        assert!(rt; holds(rt.alloc(), text, story), "{story:?}");
    }
    Ok(())
}
