// The map of all processes: what stands under a key, room for one, and what is put there.
ghost use Rattle.std.specs.Prelude.{◌≡◌, IfOk, OnOk, OnErr, is_some, true, map};
ghost use Rattle.std.specs.List.Sorted.{IsStrictlySortedBy};
ghost use Rattle.std.specs.Map.{keys_of, lookup, set_value};
ghost use Rattle.std.specs.Option.{option_copied, option_map};
ghost use Rattle.bts_names.specs.Keys.{key_cmp};
ghost use Rattle.bts_tree.specs.Keeping as keeping;
ghost use Rattle.bts_tree.specs.Repositories as repo;

use crate::Scope;
use crate::kept::{Kept, kept_of, slot_of};
use bts_names::{Key, NoMemory};
use std::alloc::Global;
use std::collections::BTreeMap;

pub(crate) fn slots_of(
    alloc: Global,
    scopes: Vec<Scope>,
) -> Result<Vec<(Key, Option<Kept>)>, NoMemory>
    ensures { IfOk result (λ slots. slots.items ≡ keeping.slots_of (map (λ h. h.process) scopes.items)) }
{
    let mut slots = Vec::new(alloc);
    let mut rest = scopes.into_iter();
    while let Some(scope) = rest.next() {
        let key = scope.key();
        slots.push((key, Some(kept_of(scope))))?;
    }
    Ok(slots)
}

/// What stands under a key, found in logarithmic time.
pub(crate) fn look_up<'a>(map: &'a BTreeMap<Key, Option<Kept>>, key: &Key) -> Option<&'a Kept>
    ensures rising { IsStrictlySortedBy key_cmp (keys_of map.now.entries) }
    ensures value { option_copied result ≡ keeping.kept_at key.now map.now.entries }
{
    // So it is known here that the keys rise.
    let _ = map.len();
    match map.get(key) {
        Some(slot) => slot.as_ref(),
        None => None,
    }
}

/// Makes a slot for a key, where there is none.
pub(crate) fn make_room(map: &mut BTreeMap<Key, Option<Kept>>, key: &Key) -> Result<(), NoMemory>
    ensures ok { OnOk result (map.new.entries ≡ keeping.with_slot key.now map.old.entries) }
    ensures err { OnErr result (map.new.entries ≡ map.old.entries) }
{
    if map.contains_key(key) {
        return Ok(());
    }
    match map.insert(*key, None) {
        Ok(_) => Ok(()),
        Err(_) => Err(NoMemory),
    }
}

/// Puts a process into the slot of its key, which is there.
pub(crate) fn put(map: &mut BTreeMap<Key, Option<Kept>>, scope: Scope)
    requires { is_some (lookup (repo.same_key scope.process.key) map.old.entries) ≡ true }
    ensures rising { IsStrictlySortedBy key_cmp (keys_of map.old.entries) }
    ensures entries { map.new.entries ≡ set_value (repo.same_key scope.process.key) map.old.entries
        (keeping.slot_of scope.process) }
{
    let key = scope.key();
    let slot = slot_of(scope);
    if let Some(place) = map.get_mut(&key) {
        *place = slot;
    }
}

/// Puts all processes into the second format. No memory is taken.
pub(crate) fn raise_all(map: &mut BTreeMap<Key, Option<Kept>>)
    ensures { map.new.entries ≡ keeping.raised_slots map.old.entries }
{
    map.retain(|_, slot| {
        raise_slot(slot);
        true
    });
}

fn raise_slot(slot: &mut Option<Kept>)
    ensures { slot.new ≡ option_map keeping.raised_kept slot.old }
{
    if let Some(kept) = slot {
        kept.raise();
    }
}
