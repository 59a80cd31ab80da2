// Walks over all processes for what is enabled.
ghost use Rattle.std.specs.Prelude.{◌≡◌, Some, None};
ghost use Rattle.std.specs.List.{flat_map};
ghost use Rattle.std.specs.Option.{option_map};
ghost use Rattle.bts_names.specs.Keys.{key_cmp};
ghost use Rattle.bts_tree.specs.Indexes.{is_slot_awake};
ghost use Rattle.bts_tree.specs.Keeping as keeping;
ghost use Rattle.bts_tree.specs.Repositories as repo;
ghost use Rattle.bts_tree.specs.Slots.{filled};

use crate::kept::Kept;
use crate::{Activity, Slot};
use bts_names::{Key, Path};
use std::collections::{BTreeMap, BTreeSet};
use std::ops::Bound;

/// Which activities a walk looks for.
#[derive(Clone, Copy)]
pub(crate) enum Wanted {
    Ready,
    Untold,
}

impl Wanted {
    fn wants(self, activity: &Activity) -> bool
        ensures { result ≡ keeping.wants self activity.now }
    {
        match self {
            Wanted::Ready => activity.is_ready(),
            Wanted::Untold => activity.is_untold(),
        }
    }
}

/// The first activity that is wanted and stands behind `after`.
pub(crate) fn next_place(
    map: &BTreeMap<Key, Option<Kept>>,
    wanted: Wanted,
    after: &Option<(Key, Path)>,
) -> Option<(Key, Path)>
    ensures { result ≡ repo.first_behind repo.place_cmp after.now
        (flat_map (repo.chosen_of (keeping.wants wanted)) (keeping.processes_of map.now.entries)) }
{
    for (key, slot) in map {
        if let Some(path) = next_in_slot(key, slot, wanted, after) {
            return Some((*key, path));
        }
    }
    None
}

/// The first key that was ever defined and stands behind `after`.
pub(crate) fn next_key(map: &BTreeMap<Key, Option<Kept>>, after: &Option<Key>) -> Option<Key>
    ensures { result ≡ repo.first_behind key_cmp after.now
        (keeping.keys_of_all map.now.entries) }
{
    for (key, slot) in map {
        if let Some(found) = key_behind(key, slot, after) {
            return Some(found);
        }
    }
    None
}

fn key_behind(key: &Key, slot: &Option<Kept>, after: &Option<Key>) -> Option<Key>
    ensures { result ≡ repo.first_behind key_cmp after.now (keeping.keys_in key.now slot.now) }
{
    match slot {
        Some(_) if is_key_behind(after, key) => Some(*key),
        _ => None,
    }
}

fn is_key_behind(after: &Option<Key>, key: &Key) -> bool
    ensures { result ≡ repo.is_behind key_cmp after.now key.now }
{
    match after {
        None => true,
        Some(other) => *other < *key,
    }
}

/// The first activity that is wanted, of the processes with these keys, and stands behind `after`.
pub(crate) fn next_among(
    keys: &BTreeSet<Key>,
    map: &BTreeMap<Key, Option<Kept>>,
    wanted: Wanted,
    after: &Option<(Key, Path)>,
) -> Option<(Key, Path)>
    ensures { result ≡ repo.first_behind repo.place_cmp after.now
        (flat_map (keeping.chosen_under (keeping.wants wanted) map.now.entries) keys.now.keys) }
{
    for key in keys.range((first_key(after), Bound::Unbounded)) {
        if let Some(path) = next_under(map, key, wanted, after) {
            return Some((*key, path));
        }
    }
    None
}

/// What stands behind `after` has its key, or a later one.
fn first_key(after: &Option<(Key, Path)>) -> Bound<Key>
    ensures { result ≡ keeping.first_key after.now }
{
    match after {
        None => Bound::Unbounded,
        Some(place) => Bound::Included(place.0),
    }
}

fn next_under(
    map: &BTreeMap<Key, Option<Kept>>,
    key: &Key,
    wanted: Wanted,
    after: &Option<(Key, Path)>,
) -> Option<Path>
    ensures { option_map (λ p. (key.now, p)) result ≡ repo.first_behind repo.place_cmp after.now
        (keeping.chosen_under (keeping.wants wanted) map.now.entries key.now) }
{
    match map.get(key) {
        Some(slot) => next_in_slot(key, slot, wanted, after),
        None => None,
    }
}

/// Whether a process has an activation to run.
pub(crate) fn is_awake(key: &Key, slot: &Option<Kept>) -> bool
    ensures { result ≡ is_slot_awake key.now slot.now }
{
    next_in_slot(key, slot, Wanted::Ready, &None).is_some()
}

fn next_in_slot(
    key: &Key,
    slot: &Option<Kept>,
    wanted: Wanted,
    after: &Option<(Key, Path)>,
) -> Option<Path>
    ensures { option_map (λ p. (key.now, p)) result ≡ repo.first_behind repo.place_cmp after.now
        (repo.chosen_at (keeping.wants wanted) key.now (keeping.activities_in slot.now)) }
{
    let Some(kept) = slot else {
        return None;
    };
    let Some(tree) = &kept.tree else {
        return None;
    };
    next_in_tree(key, tree.activities(), wanted, after)
}

fn next_in_tree(
    key: &Key,
    activities: &BTreeMap<Path, Slot>,
    wanted: Wanted,
    after: &Option<(Key, Path)>,
) -> Option<Path>
    ensures { option_map (λ p. (key.now, p)) result ≡ repo.first_behind repo.place_cmp after.now
        (repo.chosen_at (keeping.wants wanted) key.now (filled activities.now.entries)) }
{
    for (path, slot) in activities {
        if let Some(activity) = slot.get() {
            if wanted.wants(activity) && is_behind(after, key, path) {
                return Some(*path);
            }
        }
    }
    None
}

fn is_behind(after: &Option<(Key, Path)>, key: &Key, path: &Path) -> bool
    ensures { result ≡ repo.is_behind repo.place_cmp after.now (key.now, path.now) }
{
    match after {
        None => true,
        Some(place) => place.0 < *key || place.0 == *key && place.1 < *path,
    }
}
