// What no clause says: that the calls succeed where there is memory, and so in the tables' order.
use crate::{Composite, Entry, EventPool, PoolError};
use bts_names::{EventKind, Name16, NoMemory, Reason};
use std::alloc::Global;
use std::test::Fail;

fn named(text: &str) -> Name16 {
    Name16::read(text.as_bytes()).unwrap_or(Name16::root())
}

/// What is done to a pool, and what is answered.
#[derive(Clone, Copy)]
enum Step {
    DefineInput(&'static str),
    DefineTimer(&'static str),
    DefineEither(&'static str, &'static str),
    Fire(&'static str, Result<(), PoolError>),
    Retrieve(Option<(&'static str, EventKind)>),
    RetrieveSubevent(Result<(&'static str, EventKind), Reason>),
}

fn defines(alloc: Global, pool: &mut EventPool, step: Step) -> bool {
    match step {
        Step::DefineInput(text) => {
            let name = named(text);
            name != Name16::initial() && pool.define_input(name).is_ok()
        }
        Step::DefineTimer(text) => {
            let name = named(text);
            name != Name16::initial() && pool.define_timer_event(name, name).is_ok()
        }
        Step::DefineEither(first, second) => {
            let name = named("EITHER");
            let subs = [named(first), named(second)];
            name != Name16::initial() && pool.define_composite(alloc, name, false, &subs).is_ok()
        }
        _ => false,
    }
}

fn answers(pool: &mut EventPool, step: Step) -> bool {
    match step {
        Step::Fire(text, want) => pool.last_number() < 1000 && pool.fire(named(text)) == want,
        Step::Retrieve(want) => pool.retrieve() == want.map(|w| (named(w.0), w.1)),
        Step::RetrieveSubevent(want) => {
            pool.retrieve_subevent(named("EITHER")) == want.map(|w| (named(w.0), w.1))
        }
        _ => false,
    }
}

const EITHER: Option<(&str, EventKind)> = Some(("EITHER", EventKind::Composite));

#[test]
fn firings_wait_in_their_queues(rt: HostRuntime) -> Result<(), Fail> {
    let alloc = rt.alloc();
    let plays = [
        // Two sub-events fire before the one entry is retrieved.
        [
            Step::DefineInput("I1"),
            Step::DefineInput("I2"),
            Step::DefineEither("I1", "I2"),
            Step::Fire("I2", Ok(())),
            Step::Fire("I1", Ok(())),
            Step::Retrieve(EITHER),
            Step::RetrieveSubevent(Ok(("I2", EventKind::Input))),
            Step::RetrieveSubevent(Ok(("I1", EventKind::Input))),
            Step::RetrieveSubevent(Err(Reason::Empty)),
            Step::Retrieve(None),
        ],
        // The composite turns again, since its sub-event was retrieved between.
        [
            Step::DefineTimer("T1"),
            Step::DefineTimer("T2"),
            Step::DefineEither("T1", "T2"),
            Step::Fire("T1", Ok(())),
            Step::RetrieveSubevent(Ok(("T1", EventKind::Timer))),
            Step::Fire("T2", Ok(())),
            Step::Retrieve(EITHER),
            Step::RetrieveSubevent(Ok(("T2", EventKind::Timer))),
            Step::Retrieve(EITHER),
            Step::RetrieveSubevent(Err(Reason::Empty)),
        ],
        // One event is fired twice.
        [
            Step::DefineInput("I1"),
            Step::DefineInput("I2"),
            Step::DefineEither("I1", "I2"),
            Step::Fire("I2", Ok(())),
            Step::Fire("I2", Err(PoolError::Refused(Reason::Fired))),
            Step::Retrieve(EITHER),
            Step::RetrieveSubevent(Ok(("I2", EventKind::Input))),
            Step::RetrieveSubevent(Err(Reason::Empty)),
            Step::RetrieveSubevent(Err(Reason::Empty)),
            Step::Retrieve(None),
        ],
    ];
    for steps in plays {
        let mut pool = EventPool::new(alloc);
        for (i, step) in steps.iter().enumerate() {
            let right = if i < 3 {
                defines(alloc, &mut pool, *step)
            } else {
                answers(&mut pool, *step)
            };
            assert!(rt; right, "step {i}");
        }
    }
    Ok(())
}

/// A completion event CHILD and an input event INPUT in the composite BOTH, of which CHILD is fired.
fn both(alloc: Global, pool: &mut EventPool) -> bool {
    let (child, input, both) = (named("CHILD"), named("INPUT"), named("BOTH"));
    let initial = Name16::initial();
    if child == initial || input == initial || both == initial || pool.last_number() > 1000 {
        return false;
    }
    pool.define_completion(child, 7).is_ok()
        && pool.define_input(input).is_ok()
        && pool.define_composite(alloc, both, true, &[child]).is_ok()
        && pool.add_subevent(both, input).is_ok()
}

fn reads(pool: &EventPool) -> bool {
    let child = named("CHILD");
    pool.facts();
    pool.count() == 3
        && pool.kind(child) == Some(EventKind::Activity)
        && pool.completion_of(7) == Some(child)
        && pool.event_of(child) == None
        && pool.has_completion()
        && pool.events().len() == 3
}

fn turns(pool: &mut EventPool) -> bool {
    let (child, both) = (named("CHILD"), named("BOTH"));
    pool.last_number() < 1000
        && pool.fire(child).is_ok()
        && pool.test(both) == Ok(false)
        && pool.last_number() < 1000
        && pool.remove_subevent(both, named("INPUT")).is_ok()
        && pool.entries().back().copied()
            == Some(Entry {
                name: both,
                number: 1,
            })
}

fn ends(pool: &mut EventPool) -> bool {
    let (child, both) = (named("CHILD"), named("BOTH"));
    if !pool.is_atomic(child) {
        return false;
    }
    pool.unfire(child);
    if pool.is_composite(child) || pool.last_number() > 1000 {
        return false;
    }
    let removed = pool.remove(child) == Ok(true);
    if pool.last_number() > 1000 {
        return false;
    }
    removed && pool.delete(both).is_ok() && pool.queued() == 0
}

fn starts(pool: &mut EventPool) -> bool {
    let started = pool.last_number() < 1000 && pool.start().is_ok();
    let initial = pool.retrieve() == Some((Name16::initial(), EventKind::System));
    pool.clear();
    started && initial && pool.count() == 0
}

/// A copy is the same until the pool changes.
fn copies(pool: &mut EventPool) -> bool {
    let Ok(copy) = pool.copy() else {
        return false;
    };
    let same = pool.same(&copy);
    let fired = pool.last_number() < 1000 && pool.fire(named("CHILD")).is_ok();
    same && fired && !pool.same(&copy)
}

fn parts(alloc: Global) -> Result<bool, NoMemory> {
    let mut subs = Vec::new(alloc);
    subs.push(named("CHILD"))?;
    let composite = Composite::from_parts(true, subs, Vec::new(alloc));
    Ok(composite.is_of_all() && composite.subevents().len() == 1 && composite.queue().is_empty())
}

/// A pool of no event and no entry, whose numbers go on behind 7.
fn comes_of_parts(alloc: Global) -> bool {
    match EventPool::from_parts(alloc, Vec::new(alloc), Vec::new(alloc), 7) {
        Ok(pool) => pool.last_number() == 7 && pool.count() == 0,
        Err(_) => false,
    }
}

#[test]
fn a_copy_is_the_same(rt: HostRuntime) -> Result<(), Fail> {
    let alloc = rt.alloc();
    let mut pool = EventPool::new(alloc);
    assert!(rt; both(alloc, &mut pool));
    assert!(rt; copies(&mut pool));
    Ok(())
}

#[test]
fn each_call_succeeds(rt: HostRuntime) -> Result<(), Fail> {
    let alloc = rt.alloc();
    let mut pool = EventPool::new(alloc);
    assert!(rt; both(alloc, &mut pool));
    assert!(rt; reads(&pool));
    assert!(rt; turns(&mut pool));
    assert!(rt; ends(&mut pool));
    assert!(rt; starts(&mut pool));
    assert!(rt; comes_of_parts(alloc));
    assert!(rt; parts(alloc)?);
    Ok(())
}
