// Going back to what was kept.
ghost use Rattle.std.specs.Prelude.{◌≡◌, take, drop};
ghost use Rattle.std.specs.List.Sorted.{IsStrictlySortedBy};
ghost use Rattle.std.specs.Map.{keys_of, set_value};
ghost use Rattle.std.specs.Ordering.{nat_cmp};
ghost use Rattle.std.specs.Cmp.Lexicographic.{slice_cmp};
ghost use Rattle.std.specs.Option.{unwrap_or};
ghost use Rattle.bts_names.specs.Names.{same};
ghost use Rattle.bts_tree.specs.Olds as undo;
ghost use Rattle.bts_tree.specs.Slots as slots;

use crate::Slot;
use crate::old::{Old, Own};
use crate::olds::Olds;
use bts_names::Path;
use std::collections::BTreeMap;

/// Undoes the old fields from a place on, the last one first. No memory is taken.
pub(crate) fn undo_to(own: &mut Own, map: &mut BTreeMap<Path, Slot>, olds: &mut Olds, place: usize)
    ensures own { own.new ≡ undo.own_back (drop place olds.old) own.old }
    ensures entries { map.new.entries
        ≡ slots.mapped (undo.back (drop place olds.old)) map.old.entries }
    ensures left { olds.new ≡ take place olds.old }
{
    while olds.len() > place {
        if let Some(old) = olds.pop() {
            put_back(own, map, old);
        }
    }
}

fn put_back(own: &mut Own, map: &mut BTreeMap<Path, Slot>, old: Old)
    ensures own { own.new ≡ unwrap_or old.own own.old }
    ensures entries { map.new.entries ≡ slots.mapped (slots.put_at old.path old.activity) map.old.entries }
{
    let Old {
        path,
        activity,
        own: former,
    } = old;
    write(map, &path, activity);
    if let Some(former) = former.into_own() {
        *own = former;
    }
}

/// Writes a slot, where there is one.
pub(crate) fn write(map: &mut BTreeMap<Path, Slot>, path: &Path, activity: Slot)
    ensures rising { IsStrictlySortedBy (slice_cmp nat_cmp) (keys_of map.old.entries) }
    ensures entries { map.new.entries
        ≡ slots.mapped (slots.put_at path.now activity) map.old.entries }
{
    set(map, path, activity);
}

fn set(map: &mut BTreeMap<Path, Slot>, path: &Path, activity: Slot)
    ensures rising { IsStrictlySortedBy (slice_cmp nat_cmp) (keys_of map.old.entries) }
    ensures entries { map.new.entries ≡ set_value (same path.now) map.old.entries activity }
{
    if let Some(slot) = map.get_mut(path) {
        *slot = activity;
    }
}
