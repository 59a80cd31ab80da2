// What a scope keeps of what it changes.
ghost use Rattle.std.specs.Prelude.{◌≡◌, IfOk, Some, None};

use crate::Slot;
use bts_container::ContainerPool;
use bts_names::{NoMemory, Path};
use std::alloc::Global;
use std::marker::Model;

/// What a process has besides its activities.
#[derive(Drop)]
pub(crate) struct Own {
    pub generation: u64,
    /// Whether there is a tree.
    pub planted: bool,
    pub containers: ContainerPool,
}

/// That, or nothing. It is boxed, since few old fields have it.
#[derive(Drop)]
pub(crate) struct OldOwn {
    boxed: Option<Box<Own>>,
}

/// What stood at a path: an activity, or none where the path was free. The root's path keeps what the process has
/// besides too.
#[derive(Drop)]
pub(crate) struct Old {
    pub path: Path,
    pub activity: Slot,
    pub own: OldOwn,
}

impl Model for OldOwn {
    ghost use Rattle.std.specs.Prelude.{Option};
    ghost use Rattle.std.specs.Option.{option_map};
    ghost use Rattle.bts_tree.specs.declared.old.Own.{Own};

    ghost Value = { Option Own };

    ghost view = { λ o. option_map (λ b. b.value) o.boxed };
}

impl Own {
    pub fn copy(&self, alloc: Global) -> Result<Own, NoMemory>
        ensures { IfOk result (λ copy. copy ≡ self.now) }
    {
        let containers = self.containers.copy(alloc)?;
        Ok(Own {
            generation: self.generation,
            planted: self.planted,
            containers,
        })
    }
}

impl OldOwn {
    pub fn none() -> Self
        ensures { result ≡ None }
    {
        OldOwn { boxed: None }
    }

    pub fn of(alloc: Global, own: Own) -> Result<Self, NoMemory>
        ensures { IfOk result (λ old. old ≡ Some own) }
    {
        match Box::new(alloc, own) {
            Ok(boxed) => Ok(OldOwn { boxed: Some(boxed) }),
            Err(_) => Err(NoMemory),
        }
    }

    pub fn into_own(self) -> Option<Own>
        ensures { result ≡ self }
    {
        let OldOwn { boxed } = self;
        match boxed {
            Some(boxed) => Some(Box::into_inner(boxed)),
            None => None,
        }
    }

    fn copy(&self, alloc: Global) -> Result<OldOwn, NoMemory>
        ensures { IfOk result (λ copy. copy ≡ self.now) }
    {
        match &self.boxed {
            Some(boxed) => {
                let copy = boxed.as_ref().copy(alloc)?;
                OldOwn::of(alloc, copy)
            }
            None => Ok(OldOwn::none()),
        }
    }
}

impl Old {
    pub fn copy(&self, alloc: Global) -> Result<Old, NoMemory>
        ensures { IfOk result (λ copy. copy ≡ self.now) }
    {
        let activity = self.activity.copy(alloc)?;
        let own = self.own.copy(alloc)?;
        Ok(Old {
            path: self.path,
            activity,
            own,
        })
    }
}
