// Room for an activity.
ghost use Rattle.std.specs.Prelude.{◌≡◌, ◌↔◌, Some, None, IfOk, IfErr, IsSome, IsTrue, is_some};
ghost use Rattle.std.specs.Borrow.{sem};
ghost use Rattle.std.specs.Option.{option_copied};
ghost use Rattle.bts_tree.specs.Lending.{LendsFromSlot};

use crate::Activity;
use bts_names::NoMemory;
use std::alloc::Global;
use std::marker::Model;

/// An activity or none. The activity is boxed, so that a map of slots stays small.
#[derive(Drop)]
pub struct Slot {
    boxed: Option<Box<Activity>>,
}

impl Model for Slot {
    ghost use Rattle.std.specs.Prelude.{Option};
    ghost use Rattle.std.specs.Option.{option_map};
    ghost use Rattle.bts_tree.specs.declared.activity.Activity.{Activity};

    ghost Value = { Option Activity };

    ghost view = { λ s. option_map (λ b. b.value) s.boxed };
}

impl Slot {
    pub fn empty() -> Self
        ensures { result ≡ None }
    {
        Slot { boxed: None }
    }

    /// A slot with this activity, which comes back where there is no memory.
    pub fn of(alloc: Global, activity: Activity) -> Result<Self, Activity>
        ensures ok { IfOk result (λ slot. slot ≡ Some activity) }
        ensures back { IfErr result (λ a. a ≡ activity) }
    {
        match Box::new(alloc, activity) {
            Ok(boxed) => Ok(Slot { boxed: Some(boxed) }),
            Err(failed) => Err(failed.value),
        }
    }

    pub fn get(&self) -> Option<&Activity>
        ensures { option_copied result ≡ self.now }
    {
        match &self.boxed {
            Some(boxed) => Some(boxed.as_ref()),
            None => None,
        }
    }

    pub fn is_filled(&self) -> bool
        ensures { result ≡ is_some self.now }
    {
        self.boxed.is_some()
    }

    /// Lends the activity, which is there.
    pub fn edit(&mut self) -> &mut Activity
        requires { IsSome self.old }
        ensures* writes_back { sem 𝓛 (LendsFromSlot self.entry result) }
        ensures value { self.old ≡ Some result.now }
    {
        let boxed = self.boxed.as_mut().unwrap();
        boxed.as_mut()
    }

    pub fn copy(&self, alloc: Global) -> Result<Slot, NoMemory>
        ensures { IfOk result (λ copy. copy ≡ self.now) }
    {
        let Some(activity) = self.get() else {
            return Ok(Slot::empty());
        };
        let copy = activity.copy(alloc)?;
        match Slot::of(alloc, copy) {
            Ok(slot) => Ok(slot),
            Err(_) => Err(NoMemory),
        }
    }

    /// Whether both have the same activity, or none. The time grows with what stands in its pools.
    pub fn same(&self, other: &Slot) -> bool
        ensures { IsTrue result ↔ (self.now ≡ other.now) }
    {
        match (self.get(), other.get()) {
            (None, None) => true,
            (Some(activity), Some(twin)) => activity.same(twin),
            _ => false,
        }
    }

    /// The activity, which is there.
    pub fn into_activity(self) -> Activity
        requires { IsSome self }
        ensures { self ≡ Some result }
    {
        let Slot { boxed } = self;
        Box::into_inner(boxed.unwrap())
    }
}
