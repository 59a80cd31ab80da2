// The queue of entries.
ghost use Rattle.std.specs.Prelude.{◌≡◌, ◌↔◌, IsTrue, ◌<◌, ◌≤◌, ◌+◌, ◌-◌, ◌^◌, ◌∷◌, ◌++◌, []};
ghost use Rattle.std.specs.VecDeque.{deque_len, deque_capacity};
ghost use Rattle.bts_event.specs.Pool as pool;

use bts_names::Name16;
use std::collections::VecDeque;

/// An event that waits to be retrieved. Numbers are given once in the life of a pool.
#[derive(Clone, Copy, Debug, PartialEq, Eq)]
pub struct Entry {
    pub name: Name16,
    pub number: u64,
}

/// Puts an entry at the end, in room that was reserved.
pub(crate) fn enter(queue: &mut VecDeque<Entry>, last: &mut u64, name: Name16)
    requires room { deque_len queue.old < deque_capacity queue.old }
    requires below { last.old < 2 ^ 64 - 1 }
    ensures queue { queue.new.items
        ≡ queue.old.items ++ record { name = name; number = last.old + 1 } ∷ [] }
    ensures last { last.new ≡ last.old + 1 }
{
    let number = *last + 1;
    if queue.push_back(Entry { name, number }).is_ok() {
        *last = number;
    }
}

pub(crate) fn same_entries(a: &VecDeque<Entry>, b: &VecDeque<Entry>) -> bool
    ensures { IsTrue result ↔ (a.now.items ≡ b.now.items) }
{
    *a == *b
}

/// Takes the entries of a name away. The room stays.
pub(crate) fn drop_entries(queue: &mut VecDeque<Entry>, name: &Name16)
    ensures entries { queue.new.items ≡ pool.dropped queue.old.items name.now }
    ensures len { deque_len queue.new ≤ deque_len queue.old }
    ensures capacity { deque_capacity queue.new ≡ deque_capacity queue.old }
{
    queue.retain(|e| !(e.name == *name));
}
