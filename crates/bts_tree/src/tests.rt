// What no clause says: that the calls succeed where there is memory.
use crate::{Activity, Repository, Scope, Tree, raised_processes_are_sound};
use bts_container::{ContainerPool, Format};
use bts_names::{
    Key, Moment, Name16, NoMemory, Path, ProcName, ProcType, ProgName, Status, Transid,
};
use std::alloc::Global;
use std::test::Fail;

pub(crate) fn key_named(text: &str) -> Option<Key> {
    Some(Key {
        ptype: ProcType::read(b"T".as_slice()).ok()?,
        pname: ProcName::read(text.as_bytes()).ok()?,
    })
}

fn named(text: &str) -> Name16 {
    Name16::read(text.as_bytes()).unwrap_or(Name16::root())
}

pub(crate) fn below(path: Path, number: u32) -> Path {
    path.child(number).unwrap_or(path)
}

fn activity_named(alloc: Global, text: &str) -> Option<Activity> {
    let transid = Transid::read(b"T".as_slice()).ok()?;
    let program = ProgName::read(b"P".as_slice()).ok()?;
    Some(Activity::new(
        alloc,
        Format::One,
        named(text),
        transid,
        program,
        Some(named("E")),
    ))
}

pub(crate) fn plants(alloc: Global, scope: &mut Scope) -> bool {
    let Ok(transid) = Transid::read(b"T".as_slice()) else {
        return false;
    };
    let Ok(program) = ProgName::read(b"P".as_slice()) else {
        return false;
    };
    if scope.has_tree() || scope.generation() > 1000 {
        return false;
    }
    let root = Activity::new_root(alloc, scope.format(), transid, program);
    scope.plant(alloc, root).is_ok()
}

pub(crate) fn adds(
    alloc: Global,
    scope: &mut Scope,
    parent: &Path,
    number: u32,
    text: &str,
) -> bool {
    let Some(path) = parent.child(number) else {
        return false;
    };
    let Some(activity) = activity_named(alloc, text) else {
        return false;
    };
    if scope.activity(&path).is_some() || scope.activity(parent).is_none() {
        return false;
    }
    scope.add(&path, activity).is_ok()
}

pub(crate) fn waits(scope: &mut Scope, path: &Path) -> bool {
    if scope.save(path, false).is_err() || scope.activity(path).is_none() {
        return false;
    }
    let activity = scope.edit(path);
    activity.pool.last_number() < 1000 && activity.pool.start().is_ok()
}

fn times(scope: &mut Scope, path: &Path, due: Moment) -> bool {
    if scope.save(path, false).is_err() || scope.activity(path).is_none() {
        return false;
    }
    scope.edit(path).timers.define(named("T1"), due).is_ok()
}

pub(crate) fn completes(scope: &mut Scope, path: &Path) -> bool {
    if scope.save(path, true).is_err() || scope.activity(path).is_none() {
        return false;
    }
    scope.complete(path, Status::Normal, None);
    true
}

pub(crate) fn removes(scope: &mut Scope, path: &Path, itself: bool) -> bool {
    if scope.save(path, true).is_err() || scope.activity(path).is_none() {
        return false;
    }
    scope.remove_below(path, itself);
    true
}

pub(crate) fn puts(repo: &mut Repository, scope: Scope) -> bool {
    if repo.reserve_for(&scope.key()).is_err() {
        return false;
    }
    repo.put_scope(scope);
    true
}

/// A root with the children 1 and 2, and 1/1 below the first.
pub(crate) fn grows(alloc: Global, scope: &mut Scope) -> bool {
    let root = Path::root();
    let first = below(root, 1);
    plants(alloc, scope)
        && adds(alloc, scope, &root, 1, "C1")
        && adds(alloc, scope, &root, 2, "C2")
        && adds(alloc, scope, &first, 1, "C11")
}

#[test]
fn a_process_grows_and_shrinks(rt: HostRuntime) -> Result<(), Fail> {
    let alloc = rt.alloc();
    let key = key_named("P").ok_or(NoMemory)?;
    let mut scope = Scope::undefined(alloc, Format::One, key);
    assert!(rt; grows(alloc, &mut scope));
    assert_eq!(rt; scope.generation(), 1);
    assert_eq!(rt; scope.count(), 4);
    let first = below(Path::root(), 1);
    assert!(rt; removes(&mut scope, &first, false));
    assert_eq!(rt; scope.count(), 3);
    assert!(rt; removes(&mut scope, &Path::root(), true));
    assert!(rt; !scope.has_tree());
    Ok(())
}

fn knows_its_children(scope: &Scope) -> bool {
    let root = Path::root();
    let second = below(root, 2);
    let Some((found, activity)) = scope.child(&root, &named("C2")) else {
        return false;
    };
    let named_so = activity.name == named("C2");
    found == second && named_so && scope.child(&root, &named("C11")).is_none()
}

fn completes_below(scope: &Scope) -> bool {
    let inner = below(below(Path::root(), 1), 1);
    match scope.activity(&inner) {
        Some(activity) => activity.is_complete() && activity.told,
        None => false,
    }
}

#[test]
fn children_are_found_and_complete(rt: HostRuntime) -> Result<(), Fail> {
    let alloc = rt.alloc();
    let key = key_named("P").ok_or(NoMemory)?;
    let mut scope = Scope::undefined(alloc, Format::One, key);
    assert!(rt; grows(alloc, &mut scope));
    assert!(rt; knows_its_children(&scope));
    let first = below(Path::root(), 1);
    assert!(rt; waits(&mut scope, &first));
    assert!(rt; completes(&mut scope, &first));
    assert!(rt; completes_below(&scope));
    Ok(())
}

fn reads_its_tree(alloc: Global, repo: &Repository, key: &Key) -> bool {
    let Some(tree) = repo.tree(key) else {
        return false;
    };
    tree.facts();
    let root = Path::root();
    let Some(activity) = tree.get(&root) else {
        return false;
    };
    let Ok(copy) = activity.copy(alloc) else {
        return false;
    };
    let Ok(twin) = tree.copy(alloc) else {
        return false;
    };
    let children = tree.len() == 4 && tree.child(&root, &named("C2")).is_some();
    children && !tree.is_empty() && activity.same(&copy) && tree.same(&twin)
}

#[test]
fn a_tree_is_read_and_copied(rt: HostRuntime) -> Result<(), Fail> {
    let alloc = rt.alloc();
    let key = key_named("P").ok_or(NoMemory)?;
    let mut scope = Scope::undefined(alloc, Format::One, key);
    assert!(rt; grows(alloc, &mut scope));
    scope.facts();
    let mut repo = Repository::empty(alloc);
    assert!(rt; puts(&mut repo, scope));
    assert!(rt; reads_its_tree(alloc, &repo, &key));
    Ok(())
}

pub(crate) fn puts_container(alloc: Global, scope: &mut Scope) -> bool {
    if scope.save(&Path::root(), false).is_err() {
        return false;
    }
    let put = scope
        .edit_containers()
        .put(alloc, named("C"), b"text".as_slice());
    put.is_ok()
}

#[test]
fn copies_are_the_same_until_one_changes(rt: HostRuntime) -> Result<(), Fail> {
    let alloc = rt.alloc();
    let key = key_named("P").ok_or(NoMemory)?;
    let mut scope = Scope::undefined(alloc, Format::One, key);
    assert!(rt; grows(alloc, &mut scope));
    let mut repo = Repository::empty(alloc);
    assert!(rt; puts(&mut repo, scope.copy(alloc)?));
    assert!(rt; repo.same(&scope));
    assert!(rt; puts_container(alloc, &mut scope));
    assert!(rt; !repo.same(&scope));
    let again = repo.scope(alloc, &key, &Path::root())?;
    assert!(rt; repo.same(&again));
    assert!(rt; again.containers().is_empty());
    Ok(())
}

#[test]
fn a_repository_tells_what_it_holds(rt: HostRuntime) -> Result<(), Fail> {
    let alloc = rt.alloc();
    let key = key_named("P").ok_or(NoMemory)?;
    let root = Path::root();
    let mut scope = Scope::undefined(alloc, Format::One, key);
    assert!(rt; grows(alloc, &mut scope));
    assert!(rt; waits(&mut scope, &root));
    let mut repo = Repository::empty(alloc);
    assert_eq!(rt; repo.generation(&key), 0);
    assert!(rt; puts(&mut repo, scope));
    assert_eq!(rt; repo.generation(&key), 1);
    assert!(rt; repo.tree(&key).is_some());
    assert!(rt; repo.containers(&key).is_some());
    assert!(rt; repo.activity(&key, &below(root, 2)).is_some());
    assert!(rt; repo.ready(&key, &root));
    assert_eq!(rt; repo.rows(alloc)?.len(), 4);
    Ok(())
}

/// P has an untold child 1 and an entry and a timer at its child 2; Q has an entry and a timer at its root.
fn fills(alloc: Global, repo: &mut Repository) -> bool {
    let (Some(p), Some(q)) = (key_named("P"), key_named("Q")) else {
        return false;
    };
    let root = Path::root();
    let second = below(root, 2);
    let mut first = Scope::undefined(alloc, Format::One, p);
    let mut last = Scope::undefined(alloc, Format::One, q);
    let set = grows(alloc, &mut first)
        && completes(&mut first, &below(root, 1))
        && waits(&mut first, &second)
        && times(&mut first, &second, at(9));
    let alone = plants(alloc, &mut last)
        && waits(&mut last, &root)
        && times(&mut last, &root, at(7));
    set && alone && puts(repo, last) && puts(repo, first)
}

fn at(seconds: u32) -> Moment {
    Moment::first().plus(seconds).unwrap_or(Moment::first())
}

/// Where an activity stands: its process, and the number of the child or 0 for the root.
fn place(text: &str, number: u32) -> Option<(Key, Path)> {
    let key = key_named(text)?;
    if number == 0 {
        Some((key, Path::root()))
    } else {
        Some((key, below(Path::root(), number)))
    }
}

#[test]
fn what_is_enabled_comes_in_order(rt: HostRuntime) -> Result<(), Fail> {
    let mut repo = Repository::empty(rt.alloc());
    assert!(rt; fills(rt.alloc(), &mut repo));
    assert_eq!(rt; repo.next_ready(None), place("P", 2));
    assert_eq!(rt; repo.next_ready(place("P", 2)), place("Q", 0));
    assert_eq!(rt; repo.next_ready(place("Q", 0)), None);
    assert_eq!(rt; repo.next_key(key_named("P")), key_named("Q"));
    assert_eq!(rt; repo.next_notice(None), place("P", 1));
    assert_eq!(rt; repo.next_notice(place("P", 1)), None);
    Ok(())
}

fn due(repo: &Repository, seconds: u32, after: Option<(Key, Path)>) -> Option<(Key, Path)> {
    let behind = after.map(|place| (place.0, place.1, named("T1")));
    let found = repo.next_due(at(seconds), behind);
    found.map(|timer| (timer.0, timer.1))
}

#[test]
fn timers_come_due_by_key(rt: HostRuntime) -> Result<(), Fail> {
    let mut repo = Repository::empty(rt.alloc());
    assert!(rt; fills(rt.alloc(), &mut repo));
    assert_eq!(rt; due(&repo, 6, None), None);
    assert_eq!(rt; due(&repo, 8, None), place("Q", 0));
    assert_eq!(rt; due(&repo, 9, None), place("P", 2));
    assert_eq!(rt; due(&repo, 9, place("P", 2)), place("Q", 0));
    assert_eq!(rt; due(&repo, 9, place("Q", 0)), None);
    Ok(())
}

fn of_parts(alloc: Global, key: Key) -> Option<Scope> {
    let activity = activity_named(alloc, "A")?;
    let mut activities = Vec::new(alloc);
    activities.push((Path::root(), activity)).ok()?;
    let tree = Tree::from_parts(alloc, activities).ok()?;
    Some(Scope::from_parts(
        alloc,
        key,
        7,
        Some(tree),
        ContainerPool::new(alloc, Format::One),
    ))
}

#[test]
fn a_repository_is_made_of_its_parts(rt: HostRuntime) -> Result<(), Fail> {
    let alloc = rt.alloc();
    let key = key_named("P").ok_or(NoMemory)?;
    let scope = of_parts(alloc, key).ok_or(NoMemory)?;
    let mut scopes = Vec::new(alloc);
    scopes.push(scope)?;
    let repo = Repository::from_scopes(alloc, Format::One, scopes)?;
    assert_eq!(rt; repo.generation(&key), 7);
    assert!(rt; repo.activity(&key, &Path::root()).is_some());
    Ok(())
}

#[test]
fn idle_keys_are_given_up(rt: HostRuntime) -> Result<(), Fail> {
    let alloc = rt.alloc();
    let key = key_named("P").ok_or(NoMemory)?;
    let mut repo = Repository::empty(alloc);
    repo.reserve_for(&key)?;
    repo.put_scope(Scope::undefined(alloc, Format::One, key));
    repo.forget_idle(&key);
    assert_eq!(rt; repo.generation(&key), 0);
    assert!(rt; fills(alloc, &mut repo));
    repo.forget_all_idle();
    assert_eq!(rt; repo.next_ready(None), place("P", 2));
    Ok(())
}

/// Whether the process and its activity at a path are in the second format.
fn is_raised(repo: &Repository, alloc: Global, key: &Key, path: &Path) -> bool {
    let Ok(scope) = repo.scope(alloc, key, &Path::root()) else {
        return false;
    };
    let Some(activity) = repo.activity(key, path) else {
        return false;
    };
    repo.same(&scope)
        && scope.format() == Format::Two
        && activity.containers.format() == Format::Two
}

#[test]
fn a_repository_is_raised(rt: HostRuntime) -> Result<(), Fail> {
    let alloc = rt.alloc();
    let key = key_named("P").ok_or(NoMemory)?;
    let mut repo = Repository::empty(alloc);
    assert!(rt; fills(alloc, &mut repo));
    assert_eq!(rt; repo.format(), 1);
    repo.raise();
    raised_processes_are_sound();
    assert_eq!(rt; repo.format(), 2);
    assert!(rt; is_raised(&repo, alloc, &key, &below(Path::root(), 2)));
    assert_eq!(rt; repo.next_ready(place("P", 2)), place("Q", 0));
    Ok(())
}
