// Ordered maps from their entries.
ghost use Rattle.std.specs.Prelude.{◌≡◌, IfOk, true};
ghost use Rattle.std.specs.Ordering.{is_eq};
ghost use Rattle.std.specs.List.Sorted.{IsStrictlySortedBy};
ghost use Rattle.std.specs.Map.{keys_of};

use crate::NoMemory;
use std::alloc::Global;
use std::collections::BTreeMap;

/// The map of these entries, which stand by rising key. It is built in one go, in time linear in their number.
pub fn map_of<K: Ord + Drop, V: Drop>(
    alloc: Global,
    entries: Vec<(K, V)>,
) -> Result<BTreeMap<K, V>, NoMemory>
    requires exact { (a b : K) → is_eq (K.cmp a b) ≡ true → a ≡ b }
    requires rising { IsStrictlySortedBy K.cmp (keys_of entries.items) }
    ensures { IfOk result (λ map. map.entries ≡ entries.items) }
{
    match BTreeMap::from_iter(alloc, entries) {
        Ok(map) => Ok(map),
        Err(_) => Err(NoMemory),
    }
}
