// A walk over all processes for timers that are due.
ghost use Rattle.std.specs.Prelude.{◌≡◌, [], Some, None};
ghost use Rattle.std.specs.List.{flat_map};
ghost use Rattle.std.specs.Option.{option_map, option_to_list};
ghost use Rattle.bts_tree.specs.Keeping as keeping;
ghost use Rattle.bts_tree.specs.Repositories as repo;
ghost use Rattle.bts_tree.specs.Slots.{filled, in_slot};

use crate::Slot;
use crate::kept::Kept;
use bts_names::{Key, Moment, Name16, Path};
use bts_timer::{Timer, TimerPool};
use std::collections::BTreeMap;

/// The first timer that is due and stands behind `after`.
pub(crate) fn next_due(
    map: &BTreeMap<Key, Option<Kept>>,
    now: Moment,
    after: &Option<(Key, Path, Name16)>,
) -> Option<(Key, Path, Name16)>
    ensures { result ≡ repo.first_behind repo.timer_place_cmp after.now
        (flat_map (repo.due_of now) (keeping.processes_of map.now.entries)) }
{
    for (key, slot) in map {
        if let Some(place) = due_in_slot(key, slot, now, after) {
            return Some(place);
        }
    }
    None
}

fn due_in_slot(
    key: &Key,
    slot: &Option<Kept>,
    now: Moment,
    after: &Option<(Key, Path, Name16)>,
) -> Option<(Key, Path, Name16)>
    ensures { result ≡ repo.first_behind repo.timer_place_cmp after.now
        (repo.due_among now key.now (keeping.activities_in slot.now)) }
{
    let Some(kept) = slot else {
        return None;
    };
    let Some(tree) = &kept.tree else {
        return None;
    };
    due_in_tree(key, tree.activities(), now, after)
}

fn due_in_tree(
    key: &Key,
    activities: &BTreeMap<Path, Slot>,
    now: Moment,
    after: &Option<(Key, Path, Name16)>,
) -> Option<(Key, Path, Name16)>
    ensures { result ≡ repo.first_behind repo.timer_place_cmp after.now
        (repo.due_among now key.now (filled activities.now.entries)) }
{
    for (path, slot) in activities {
        if let Some(name) = due_at(key, path, slot, now, after) {
            return Some((*key, *path, name));
        }
    }
    None
}

fn due_at(
    key: &Key,
    path: &Path,
    slot: &Slot,
    now: Moment,
    after: &Option<(Key, Path, Name16)>,
) -> Option<Name16>
    ensures { option_map (λ n. (key.now, path.now, n)) result
        ≡ repo.first_behind repo.timer_place_cmp after.now
        (repo.due_among now key.now (in_slot path.now slot.now [])) }
{
    let activity = slot.get()?;
    due_in_pool(key, path, &activity.timers, now, after)
}

fn due_in_pool(
    key: &Key,
    path: &Path,
    timers: &TimerPool,
    now: Moment,
    after: &Option<(Key, Path, Name16)>,
) -> Option<Name16>
    ensures { option_map (λ n. (key.now, path.now, n)) result
        ≡ repo.first_behind repo.timer_place_cmp after.now (repo.due_at now key.now path.now timers.now) }
{
    let first = timers.due_until(now)?;
    if is_behind(after, key, path, &first) {
        return Some(first);
    }
    due_behind(key, path, timers, now, after)
}

fn due_behind(
    key: &Key,
    path: &Path,
    timers: &TimerPool,
    now: Moment,
    after: &Option<(Key, Path, Name16)>,
) -> Option<Name16>
    ensures { option_map (λ n. (key.now, path.now, n)) result
        ≡ repo.first_behind repo.timer_place_cmp after.now (repo.due_at now key.now path.now timers.now) }
{
    for place in 0..timers.len() {
        if let Some(name) = due_there(key, path, timers.get_index(place), now, after) {
            return Some(name);
        }
    }
    None
}

fn due_there(
    key: &Key,
    path: &Path,
    timer: Option<(Name16, Timer)>,
    now: Moment,
    after: &Option<(Key, Path, Name16)>,
) -> Option<Name16>
    ensures { option_map (λ n. (key.now, path.now, n)) result
        ≡ repo.first_behind repo.timer_place_cmp after.now
        (repo.due_at now key.now path.now (option_to_list timer)) }
{
    let (name, timer) = timer?;
    if timer.is_due(now) && is_behind(after, key, path, &name) {
        return Some(name);
    }
    None
}

fn is_behind(after: &Option<(Key, Path, Name16)>, key: &Key, path: &Path, name: &Name16) -> bool
    ensures { result ≡ repo.is_behind repo.timer_place_cmp after.now (key.now, path.now, name.now) }
{
    match after {
        None => true,
        Some(place) => {
            place.0 < *key
                || place.0 == *key && (place.1 < *path || place.1 == *path && place.2 < *name)
        }
    }
}
