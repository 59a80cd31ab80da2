// The activities of one process.
ghost use Rattle.std.specs.Prelude.{◌≡◌, ◌↔◌, [], length, IsTrue, IfOk};
ghost use Rattle.std.specs.List.Sorted.{IsStrictlySortedBy};
ghost use Rattle.std.specs.Map.{keys_of};
ghost use Rattle.std.specs.Option.{option_copied, option_map};
ghost use Rattle.std.specs.Ordering.{nat_cmp};
ghost use Rattle.std.specs.Cmp.Lexicographic.{slice_cmp};
ghost use Rattle.bts_names.specs.Named.{lookup};
ghost use Rattle.bts_tree.specs.Activities as activities;
ghost use Rattle.bts_tree.specs.Repositories.{raised_tree};
ghost use Rattle.bts_tree.specs.Slots.{filled};

use crate::Activity;
use crate::changes::raise_all;
use crate::slot::Slot;
use crate::slot_maps::{boxed_all, child_in, copied_slots, read_slot, same_maps, tidy};
use bts_names::{Name16, NoMemory, Path, map_of};
use std::alloc::Global;
use std::collections::BTreeMap;
use std::marker::Model;

/// The activities of a process, which contracts see as the list of their paths and activities, by rising path.
#[derive(Drop)]
pub struct Tree {
    map: BTreeMap<Path, Slot>,
}

impl Model for Tree {
    ghost use Rattle.bts_tree.specs.Activities.{Activities};

    ghost Value = { Activities };

    ghost use Rattle.bts_tree.specs.Slots.{AreFilled, filled};

    ghost view = { λ t. filled t.map.entries };

    ghost invariant = { λ t. AreFilled t.map.entries };
}

impl Tree {
    /// A tree of these activities, which stand by rising path.
    pub fn from_parts(alloc: Global, activities: Vec<(Path, Activity)>) -> Result<Self, NoMemory>
        requires { IsStrictlySortedBy (slice_cmp nat_cmp) (keys_of activities.items) }
        ensures { IfOk result (λ tree. tree ≡ activities.items) }
    {
        let slots = boxed_all(alloc, activities)?;
        let map = map_of(alloc, slots)?;
        Ok(Tree { map })
    }

    /// A tree of what is filled in these slots.
    pub(crate) fn of_slots(slots: BTreeMap<Path, Slot>) -> Self
        ensures { result ≡ filled slots.entries }
    {
        let mut map = slots;
        tidy(&mut map);
        Tree { map }
    }

    /// The slots of its activities.
    pub(crate) fn into_slots(self) -> BTreeMap<Path, Slot>
        ensures { filled result.entries ≡ self }
    {
        let Tree { map } = self;
        map
    }

    /// The activity at a path, found in logarithmic time.
    pub fn get(&self, path: &Path) -> Option<&Activity>
        ensures { option_copied result ≡ lookup path.now self.now }
    {
        read_slot(&self.map, path)
    }

    /// How many activities there are.
    pub fn len(&self) -> usize
        ensures { result ≡ length self.now }
    {
        self.map.len()
    }

    pub fn is_empty(&self) -> bool
        ensures { IsTrue result ↔ (self.now ≡ []) }
    {
        self.map.is_empty()
    }

    /// The activities by rising path, each in its slot.
    pub fn activities(&self) -> &BTreeMap<Path, Slot>
        ensures { filled result.now.entries ≡ self.now }
    {
        &self.map
    }

    /// What every tree keeps, for the proofs of callers; it does nothing.
    pub fn facts(&self)
        ensures rising { IsStrictlySortedBy (slice_cmp nat_cmp) (keys_of self.now) }
    {
        let _ = self.map.len();
    }

    /// The child of that name of the activity at a path, with its own path. The time grows with the number of
    /// activities.
    pub fn child(&self, path: &Path, name: &Name16) -> Option<(Path, &Activity)>
        ensures { option_map (λ x. (x.0, x.1.now)) result
            ≡ activities.child_in path.now name.now self.now }
    {
        child_in(&self.map, path, name)
    }

    /// Puts all activities into the second format. No memory is taken.
    pub(crate) fn raise(&mut self)
        ensures { self.new ≡ raised_tree self.old }
    {
        raise_all(&mut self.map);
    }

    /// A tree of the same activities.
    pub fn copy(&self, alloc: Global) -> Result<Tree, NoMemory>
        ensures { IfOk result (λ copy. copy ≡ self.now) }
    {
        let map = copied_slots(alloc, &self.map)?;
        Ok(Tree { map })
    }

    /// Whether both have the same activities. The time grows with what stands in them.
    pub fn same(&self, other: &Tree) -> bool
        ensures { IsTrue result ↔ (self.now ≡ other.now) }
    {
        self.is_in(&other.map)
    }

    /// Whether its activities are what is filled in these slots. The time grows with what stands in them.
    pub(crate) fn is_in(&self, slots: &BTreeMap<Path, Slot>) -> bool
        ensures { IsTrue result ↔ (self.now ≡ filled slots.now.entries) }
    {
        same_maps(slots, &self.map)
    }
}
