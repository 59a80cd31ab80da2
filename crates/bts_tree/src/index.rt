// The kept keys: those of all processes with an activation to run, and perhaps more.
ghost use Rattle.std.specs.Prelude.{◌≡◌, ◌&&◌, ◌||◌, IfOk, OnOk};
ghost use Rattle.std.specs.List.{filter};
ghost use Rattle.std.specs.List.Sorted.{IsStrictlySortedBy};
ghost use Rattle.std.specs.Map.{keys_of};
ghost use Rattle.bts_names.specs.Keys.{key_cmp};
ghost use Rattle.bts_names.specs.declared.key.Key.{Key};
ghost use Rattle.bts_tree.specs.Indexes.{has_key, is_any_awake, is_slot_awake};
ghost use Rattle.bts_tree.specs.Keeping.{kept_at};
ghost use Rattle.bts_tree.specs.Repositories.{same_key};

use crate::kept::Kept;
use crate::walk::is_awake;
use bts_names::{Key, NoMemory};
use std::alloc::Global;
use std::collections::{BTreeMap, BTreeSet};

/// The keys of the processes with an activation to run. The time grows with the number of activities.
pub(crate) fn awake_keys(
    alloc: Global,
    map: &BTreeMap<Key, Option<Kept>>,
) -> Result<BTreeSet<Key>, NoMemory>
    ensures rising { IsStrictlySortedBy key_cmp (keys_of map.now.entries) }
    ensures keys { IfOk result
        (λ s. (key : Key) → has_key key s.keys ≡ is_any_awake key map.now.entries) }
{
    // So it is known here that the keys rise.
    let _ = map.len();
    let mut keys = BTreeSet::new(alloc);
    for (key, slot) in map {
        add_awake(&mut keys, key, slot)?;
    }
    Ok(keys)
}

fn add_awake(keys: &mut BTreeSet<Key>, key: &Key, slot: &Option<Kept>) -> Result<(), NoMemory>
    ensures { OnOk result ((k : Key) → has_key k keys.new.keys
        ≡ (has_key k keys.old.keys || (same_key k key.now && is_slot_awake key.now slot.now))) }
{
    if !is_awake(key, slot) {
        return Ok(());
    }
    match keys.insert(*key) {
        Ok(_) => Ok(()),
        Err(_) => Err(NoMemory),
    }
}

/// Gives up each key whose process has no activation to run. No memory is taken.
pub(crate) fn forget_all_idle(keys: &mut BTreeSet<Key>, map: &BTreeMap<Key, Option<Kept>>)
    ensures { keys.new.keys ≡ filter (λ k. is_slot_awake k (kept_at k map.now.entries)) keys.old.keys }
{
    keys.retain(|key| has_work(map, key));
}

pub(crate) fn has_work(map: &BTreeMap<Key, Option<Kept>>, key: &Key) -> bool
    ensures { result ≡ is_slot_awake key.now (kept_at key.now map.now.entries) }
{
    match map.get(key) {
        Some(slot) => is_awake(key, slot),
        None => false,
    }
}
