// Marks between changes of all kinds, gone back to and kept.
use crate::tests::{
    adds, below, completes, grows, key_named, plants, puts, puts_container, removes, waits,
};
use crate::{Repository, Scope};
use bts_container::Format;
use bts_names::{NoMemory, Path};
use std::alloc::Global;
use std::test::Fail;

#[derive(Clone, Copy)]
enum Change {
    Wait,
    Add,
    Complete,
    Put,
    Remove,
    Purge,
    Plant,
}

/// What is done behind each of the eight marks.
const CHANGES: [Change; 8] = [
    Change::Wait,
    Change::Add,
    Change::Complete,
    Change::Put,
    Change::Remove,
    Change::Purge,
    Change::Plant,
    Change::Wait,
];

/// The marks at which a scope goes back or is kept, and whether it goes back.
const ORDERS: [[(u64, bool); 3]; 8] = [
    [(6, true), (3, true), (1, true)],
    [(6, true), (3, true), (1, false)],
    [(6, true), (3, false), (1, true)],
    [(6, true), (3, false), (1, false)],
    [(6, false), (3, true), (1, true)],
    [(6, false), (3, true), (1, false)],
    [(6, false), (3, false), (1, true)],
    [(6, false), (3, false), (1, false)],
];

fn changes(alloc: Global, scope: &mut Scope, change: Change) -> bool {
    let root = Path::root();
    let first = below(root, 1);
    match change {
        Change::Wait => waits(scope, &root),
        Change::Add => adds(alloc, scope, &first, 2, "C12"),
        Change::Complete => completes(scope, &first),
        Change::Put => puts_container(alloc, scope),
        Change::Remove => removes(scope, &first, false),
        Change::Purge => removes(scope, &root, true),
        Change::Plant => plants(alloc, scope),
    }
}

fn marks(scope: &mut Scope) -> bool {
    if scope.mark_count() >= 8 {
        return false;
    }
    scope.mark();
    true
}

fn goes_back(scope: &mut Scope, mark: u64) -> bool {
    if mark >= scope.mark_count() {
        return false;
    }
    scope.back_to(mark);
    true
}

fn keeps(scope: &mut Scope, mark: u64) -> bool {
    if mark >= scope.mark_count() {
        return false;
    }
    scope.keep(mark);
    true
}

/// A repository that holds what a scope shows.
fn shot(alloc: Global, scope: &Scope) -> Result<Repository, NoMemory> {
    let mut repository = Repository::empty(alloc);
    if !puts(&mut repository, scope.copy(alloc)?) {
        return Err(NoMemory);
    }
    Ok(repository)
}

/// Does one change. Where it finds no memory, the scope and its marks are as they were.
fn does(alloc: Global, scope: &mut Scope, change: Change) -> Result<bool, NoMemory> {
    let before = shot(alloc, scope)?;
    let count = scope.mark_count();
    if changes(alloc, scope, change) {
        return Ok(true);
    }
    if before.same(scope) && scope.mark_count() == count {
        return Err(NoMemory);
    }
    Ok(false)
}

/// Eight marks with a change behind each, what was shown at each of them, and what is shown at the end.
fn marked(alloc: Global, scope: &mut Scope) -> Result<Option<Vec<Repository>>, NoMemory> {
    let mut shots = Vec::new(alloc);
    if scope.reserve_marks().is_err() || !grows(alloc, scope) {
        return Err(NoMemory);
    }
    for change in CHANGES {
        shots.push(shot(alloc, scope)?)?;
        if !marks(scope) || !does(alloc, scope, change)? {
            return Ok(None);
        }
    }
    shots.push(shot(alloc, scope)?)?;
    Ok(Some(shots))
}

fn shows(scope: &Scope, shots: &Vec<Repository>, place: usize, marks: u64) -> bool {
    match shots.get(place) {
        Some(shot) => shot.same(scope) && scope.mark_count() == marks,
        None => false,
    }
}

fn follows(scope: &mut Scope, shots: &Vec<Repository>, order: [(u64, bool); 3]) -> bool {
    let mut place = 8usize;
    for (mark, back) in order {
        if back {
            place = mark as usize;
        }
        let done = if back {
            goes_back(scope, mark)
        } else {
            keeps(scope, mark)
        };
        if !done || !shows(scope, shots, place, mark) {
            return false;
        }
    }
    goes_back(scope, 0) && shows(scope, shots, 0, 0)
}

#[test]
fn marks_are_gone_back_to_and_kept(rt: HostRuntime) -> Result<(), Fail> {
    let alloc = rt.alloc();
    let key = key_named("P").ok_or(NoMemory)?;
    let mut scope = Scope::undefined(alloc, Format::One, key);
    let shots = marked(alloc, &mut scope)?;
    assert!(rt; shots.is_some());
    let shots = shots.ok_or(NoMemory)?;
    assert_eq!(rt; scope.mark_count(), 8);
    for order in ORDERS {
        let mut copy = scope.copy(alloc)?;
        assert!(rt; follows(&mut copy, &shots, order));
    }
    Ok(())
}

#[test]
fn all_that_is_kept_stays(rt: HostRuntime) -> Result<(), Fail> {
    let alloc = rt.alloc();
    let key = key_named("P").ok_or(NoMemory)?;
    let mut scope = Scope::undefined(alloc, Format::One, key);
    let shots = marked(alloc, &mut scope)?;
    assert!(rt; shots.is_some());
    let shots = shots.ok_or(NoMemory)?;
    assert!(rt; keeps(&mut scope, 0));
    assert!(rt; shows(&scope, &shots, 8, 0));
    assert!(rt; marks(&mut scope));
    assert!(rt; changes(alloc, &mut scope, Change::Purge));
    assert!(rt; goes_back(&mut scope, 0));
    assert!(rt; shows(&scope, &shots, 8, 0));
    Ok(())
}
