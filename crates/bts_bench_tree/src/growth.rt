// The repository that is measured.
ghost use Rattle.std.specs.Prelude.{◌≡◌, OnOk};
ghost use Rattle.bts_tree.specs.Repositories as repo;

use crate::fault::Fault;
use crate::names::{key_numbered, name_numbered, new_activity, new_root};
use crate::size::Size;
use bts_container::Format;
use bts_names::{Key, Moment, Name16, Path};
use bts_tree::{Activity, Repository, Scope};
use std::alloc::Global;

/// How many activities stand in a row: the first below the root, and the others below that one.
const ROW: u32 = 10;

/// A repository whose process 0 has the activities of the size, and whose other processes have a root alone.
pub fn repository_of(alloc: Global, size: &Size) -> Result<Repository, Fault> {
    let mut repo = Repository::empty(alloc);
    for number in 0..size.processes {
        let key = key_numbered(alloc, number)?;
        let activities = if number == 0 { size.activities } else { 1 };
        let scope = process_of(alloc, key, activities)?;
        put(&mut repo, scope)?;
    }
    Ok(repo)
}

/// Puts a process where room is made for it.
pub fn put(repository: &mut Repository, scope: Scope) -> Result<(), Fault>
    ensures { OnOk result
        (repository.new ≡ repo.put_held scope (repo.with_room scope.process.key repository.old)) }
{
    repository.reserve_for(&scope.key())?;
    repository.put_scope(scope);
    Ok(())
}

/// A process of so many activities.
fn process_of(alloc: Global, key: Key, activities: u32) -> Result<Scope, Fault> {
    let mut scope = Scope::undefined(alloc, Format::One, key);
    let mut root = new_root(alloc)?;
    fill(alloc, &mut root)?;
    if scope.plant(alloc, root).is_err() {
        return Err(Fault::NoMemory);
    }
    for index in 0..activities.saturating_sub(1) {
        let mut activity = new_activity(alloc, index)?;
        fill(alloc, &mut activity)?;
        add(&mut scope, index, activity)?;
    }
    Ok(scope)
}

/// Gives an activity an entry, a timer with its event, and a container.
fn fill(alloc: Global, activity: &mut Activity) -> Result<(), Fault> {
    let name = name_numbered(alloc, "T", 1)?;
    if name == Name16::initial() || activity.pool.last_number() > 0 {
        return Err(Fault::Refused);
    }
    activity.pool.start()?;
    activity
        .pool
        .define_timer_event(name, name)
        .map_err(|_| Fault::Refused)?;
    activity
        .timers
        .define(name, Moment::first())
        .map_err(|_| Fault::Refused)?;
    let text = b"a container of thirty-two bytes.".as_slice();
    activity
        .containers
        .put(alloc, name, text)
        .map_err(|_| Fault::Refused)
}

/// Adds the activity of that number, counted from 0, below its parent.
fn add(scope: &mut Scope, number: u32, activity: Activity) -> Result<(), Fault> {
    let (parent, place) = place_of(number).ok_or(Fault::Refused)?;
    let Some(path) = parent.child(place) else {
        return Err(Fault::Refused);
    };
    if scope.activity(&path).is_some() || scope.activity(&parent).is_none() {
        return Err(Fault::Refused);
    }
    match scope.add(&path, activity) {
        Ok(()) => Ok(()),
        Err(_) => Err(Fault::NoMemory),
    }
}

/// Where the parent of the activity of that number stands, and which of its children it is.
fn place_of(number: u32) -> Option<(Path, u32)> {
    let row = number / ROW + 1;
    if number % ROW == 0 {
        return Some((Path::root(), row));
    }
    let parent = Path::root().child(row)?;
    Some((parent, number % ROW))
}
