// The one composite that a change can turn: it makes an entry where it holds now and didn't before.
ghost use Rattle.std.specs.Prelude.{◌≡◌, ◌<◌, ◌-◌, ◌^◌};
ghost use Rattle.std.specs.VecDeque.{deque_len, deque_capacity};
ghost use Rattle.bts_event.specs.Events as events;
ghost use Rattle.bts_event.specs.Pool as pool;

use crate::events::{forget_sub, held_at, holder};
use crate::queue::{drop_entries, enter};
use crate::{Entry, Event};
use bts_names::Name16;
use std::collections::{BTreeMap, VecDeque};

/// Puts an entry of the composite at the end, in room that was reserved, where it did not hold before and
/// holds now.
pub(crate) fn settle(
    map: &BTreeMap<Name16, Event>,
    queue: &mut VecDeque<Entry>,
    last: &mut u64,
    before: bool,
    c: Name16,
)
    requires room { deque_len queue.old < deque_capacity queue.old }
    requires below { last.old < 2 ^ 64 - 1 }
    ensures { pool.settled_at before c
        (record { events = map.now.entries; entries = queue.old.items; last = last.old })
        ≡ record { events = map.now.entries; entries = queue.new.items; last = last.new } }
{
    if !before && held_at(map, &c) {
        enter(queue, last, c);
    }
}

/// Takes an event out, with its entries and its places in a composite.
pub(crate) fn erase(
    map: &mut BTreeMap<Name16, Event>,
    queue: &mut VecDeque<Entry>,
    last: &mut u64,
    name: &Name16,
)
    requires room { deque_len queue.old < deque_capacity queue.old }
    requires below { last.old < 2 ^ 64 - 1 }
    ensures { pool.deleted_from (events.holder map.old.entries name.now) name.now
        (record { events = map.old.entries; entries = queue.old.items; last = last.old })
        ≡ record { events = map.new.entries; entries = queue.new.items; last = last.new } }
{
    match holder(map, name) {
        None => {
            map.remove(name);
            drop_entries(queue, name);
        }
        Some(c) => {
            let before = held_at(map, &c);
            forget_sub(map, &c, name);
            map.remove(name);
            drop_entries(queue, name);
            settle(map, queue, last, before, c);
        }
    }
}
