// Maps of slots.
ghost use Rattle.std.specs.Prelude.{◌≡◌, ◌↔◌, [], length, IfOk, IsTrue, is_some};
ghost use Rattle.std.specs.List.{filter};
ghost use Rattle.std.specs.List.Sorted.{IsStrictlySortedBy};
ghost use Rattle.std.specs.Map.{keys_of};
ghost use Rattle.std.specs.Option.{option_copied, option_map};
ghost use Rattle.std.specs.Ordering.{nat_cmp};
ghost use Rattle.std.specs.Cmp.Lexicographic.{slice_cmp};
ghost use Rattle.bts_tree.specs.Activities as activities;
ghost use Rattle.bts_tree.specs.Paths.{is_child_of};
ghost use Rattle.bts_tree.specs.Slots.{filled, in_slots, read};

use crate::Activity;
use crate::slot::Slot;
use bts_names::{Name16, NoMemory, Path, map_of};
use std::alloc::Global;
use std::collections::BTreeMap;

/// The activity in the slot at a path, found in logarithmic time.
pub(crate) fn read_slot<'a>(map: &'a BTreeMap<Path, Slot>, path: &Path) -> Option<&'a Activity>
    ensures rising { IsStrictlySortedBy (slice_cmp nat_cmp) (keys_of map.now.entries) }
    ensures value { option_copied result ≡ read path.now map.now.entries }
{
    // So it is known here that the paths rise.
    let _ = map.len();
    match map.get(path) {
        Some(slot) => slot.get(),
        None => None,
    }
}

/// A slot for each activity.
pub(crate) fn boxed_all(
    alloc: Global,
    activities: Vec<(Path, Activity)>,
) -> Result<Vec<(Path, Slot)>, NoMemory>
    ensures { IfOk result (λ slots. slots.items ≡ in_slots activities.items) }
{
    let mut slots = Vec::new(alloc);
    let mut rest = activities.into_iter();
    while let Some(entry) = rest.next() {
        let Ok(slot) = Slot::of(alloc, entry.1) else {
            return Err(NoMemory);
        };
        slots.push((entry.0, slot))?;
    }
    Ok(slots)
}

/// The same slots once more. All activities are copied.
pub(crate) fn copied_slots(
    alloc: Global,
    map: &BTreeMap<Path, Slot>,
) -> Result<BTreeMap<Path, Slot>, NoMemory>
    ensures { IfOk result (λ copy. copy.entries ≡ map.now.entries) }
{
    // So it is known here that the paths rise.
    let _ = map.len();
    let entries = copies(alloc, map)?;
    map_of(alloc, entries)
}

fn copies(alloc: Global, map: &BTreeMap<Path, Slot>) -> Result<Vec<(Path, Slot)>, NoMemory>
    ensures { IfOk result (λ copies. copies.items ≡ map.now.entries) }
{
    let mut copies = Vec::new(alloc);
    for (path, slot) in map {
        let copy = slot.copy(alloc)?;
        copies.push((*path, copy))?;
    }
    Ok(copies)
}

/// Whether what is filled in the first is all that is in the second. The time grows with what stands there.
pub(crate) fn same_maps(map: &BTreeMap<Path, Slot>, other: &BTreeMap<Path, Slot>) -> bool
    ensures { IsTrue result ↔ (in_slots (filled map.now.entries) ≡ other.now.entries) }
{
    let mut rest = other.iter();
    for (path, slot) in map {
        if slot.is_filled() {
            let Some((place, twin)) = rest.next() else {
                return false;
            };
            if !same_entries(path, slot, place, twin) {
                return false;
            }
        }
    }
    rest.next().is_none()
}

fn same_entries(path: &Path, slot: &Slot, place: &Path, twin: &Slot) -> bool
    ensures { IsTrue result ↔ ((path.now ≡ place.now) × (slot.now ≡ twin.now)) }
{
    if *path != *place {
        return false;
    }
    slot.same(twin)
}

/// The child of that name of the activity at a path, with its own path.
pub(crate) fn child_in<'a>(
    map: &'a BTreeMap<Path, Slot>,
    path: &Path,
    name: &Name16,
) -> Option<(Path, &'a Activity)>
    ensures { option_map (λ x. (x.0, x.1.now)) result
        ≡ activities.child_in path.now name.now (filled map.now.entries) }
{
    for (place, slot) in map {
        if let Some(activity) = slot.get() {
            if is_child(path, place) && *name == activity.name {
                return Some((*place, activity));
            }
        }
    }
    None
}

fn is_child(path: &Path, place: &Path) -> bool
    ensures { result ≡ is_child_of path.now place.now }
{
    path.is_prefix_of(place) && place.as_slice().len() == path.as_slice().len() + 1
}

/// Takes the empty slots away. No memory is taken.
pub(crate) fn tidy(map: &mut BTreeMap<Path, Slot>)
    ensures { map.new.entries ≡ filter (λ e. is_some e.1) map.old.entries }
{
    map.retain(|_, slot| slot.is_filled());
}

/// How many slots are filled.
pub(crate) fn count_filled(map: &BTreeMap<Path, Slot>) -> usize
    ensures { result ≡ length (filled map.now.entries) }
{
    // So it is known here that there are few.
    let _ = map.len();
    let mut count = 0usize;
    for (_, slot) in map {
        if slot.is_filled() {
            count += 1;
        }
    }
    count
}

/// Whether no slot is filled.
pub(crate) fn is_bare(map: &BTreeMap<Path, Slot>) -> bool
    ensures { IsTrue result → filled map.now.entries ≡ [] }
{
    for (_, slot) in map {
        if slot.is_filled() {
            return false;
        }
    }
    true
}
