// What is done to many slots at once.
ghost use Rattle.std.specs.Prelude.{◌≡◌};
ghost use Rattle.std.specs.Option.{option_map};
ghost use Rattle.bts_tree.specs.Activities as activities;
ghost use Rattle.bts_tree.specs.Repositories.{raised_activity};
ghost use Rattle.bts_tree.specs.Slots as slots;

use crate::Activity;
use crate::slot::Slot;
use bts_names::{Abcode, Path, Status};
use std::collections::BTreeMap;

/// Makes the activity at a path COMPLETE, and forces those below it.
pub(crate) fn complete_all(
    map: &mut BTreeMap<Path, Slot>,
    path: &Path,
    status: Status,
    code: Option<Abcode>,
)
    ensures { map.new.entries ≡ slots.mapped (slots.completed_slot path.now status code) map.old.entries }
{
    map.retain(|place, slot| {
        complete_slot(slot, path, status, code, place);
        true
    });
}

fn complete_slot(slot: &mut Slot, path: &Path, status: Status, code: Option<Abcode>, place: &Path)
    ensures { slot.new ≡ slots.completed_slot path.now status code place.now slot.old }
{
    if slot.is_filled() {
        complete_one(slot.edit(), path, status, code, place);
    }
}

fn complete_one(
    activity: &mut Activity,
    path: &Path,
    status: Status,
    code: Option<Abcode>,
    place: &Path,
)
    ensures { activity.new ≡ activities.completed_one path.now status code (place.now, activity.old) }
{
    if *path == *place {
        activity.complete(status, code, *path == Path::root());
    } else if path.is_prefix_of(place) {
        activity.force();
    }
}

/// Puts each activity into the second format.
pub(crate) fn raise_all(map: &mut BTreeMap<Path, Slot>)
    ensures { map.new.entries ≡ slots.mapped slots.raised_slot map.old.entries }
{
    map.retain(|_, slot| {
        raise_slot(slot);
        true
    });
}

fn raise_slot(slot: &mut Slot)
    ensures { slot.new ≡ option_map raised_activity slot.old }
{
    if slot.is_filled() {
        raise_one(slot.edit());
    }
}

fn raise_one(activity: &mut Activity)
    ensures { activity.new ≡ raised_activity activity.old }
{
    activity.raise();
}

/// Empties the slots below a path, and where `itself` is true its own.
pub(crate) fn empty_below(map: &mut BTreeMap<Path, Slot>, path: &Path, itself: bool)
    ensures { map.new.entries ≡ slots.mapped (slots.emptied_slot path.now itself) map.old.entries }
{
    map.retain(|place, slot| {
        empty_slot(slot, path, itself, place);
        true
    });
}

fn empty_slot(slot: &mut Slot, path: &Path, itself: bool, place: &Path)
    ensures { slot.new ≡ slots.emptied_slot path.now itself place.now slot.old }
{
    if !stays(path, itself, place) {
        *slot = Slot::empty();
    }
}

fn stays(path: &Path, itself: bool, place: &Path) -> bool
    ensures { result ≡ activities.stays_without path.now itself place.now }
{
    !path.is_prefix_of(place) || !itself && *path == *place
}
