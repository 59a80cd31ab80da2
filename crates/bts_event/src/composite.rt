// Events that are computed from others.
ghost use Rattle.std.specs.Prelude.{◌≡◌, ◌∷◌, ◌++◌, [], OnOk, OnErr, IfOk};
ghost use Rattle.std.specs.Cmp.Rules.{comparing};
ghost use Rattle.bts_event.specs.Composites.{same_composite};
ghost use Rattle.bts_event.specs.Events as events;

use bts_names::{Name16, NoMemory};
use std::alloc::{AllocError, Global};
use std::marker::Model;

/// An event that is computed from its sub-events: of all it holds where it has some and each is fired, of
/// any where one is. Beside its sub-events it has the queue of those that fired and were not retrieved,
/// oldest first.
#[derive(Debug, Drop)]
pub struct Composite {
    all: bool,
    subs: Vec<Name16>,
    queued: Vec<Name16>,
}

impl Model for Composite {
    ghost use Rattle.bts_event.specs.Composites.{Composite};

    ghost Value = { Composite };

    ghost view = { λ c. record { all = c.all; subs = c.subs.items; queued = c.queued.items } };
}

impl Clone for Composite {
    ghost is_clone = { λ c copy. copy ≡ c };

    fn clone(&self) -> Result<Self, AllocError> {
        Ok(Composite {
            all: self.all,
            subs: self.subs.clone()?,
            queued: self.queued.clone()?,
        })
    }
}

impl PartialEq for Composite {
    ghost eq = { same_composite };

    ghost laws = { Prim.search comparing depth 9 };

    fn eq(&self, other: &Self) -> bool {
        self.all == other.all && self.subs == other.subs && self.queued == other.queued
    }
}

impl Eq for Composite {
    ghost laws = { Prim.search comparing depth 9 };
}

impl Composite {
    /// A composite whose queue is empty.
    pub(crate) fn new(alloc: Global, all: bool, subs: &[Name16]) -> Result<Self, NoMemory>
        ensures { IfOk result (λ c. c ≡ record { all = all; subs = subs.now; queued = [] }) }
    {
        let subs = Vec::from_slice(alloc, subs)?;
        Ok(Composite {
            all,
            subs,
            queued: Vec::new(alloc),
        })
    }

    /// A composite of these parts.
    pub fn from_parts(all: bool, subs: Vec<Name16>, queued: Vec<Name16>) -> Self
        ensures { result ≡ record { all = all; subs = subs.items; queued = queued.items } }
    {
        Composite { all, subs, queued }
    }

    /// Whether all sub-events must be fired, and not only one.
    pub fn is_of_all(&self) -> bool
        ensures { result ≡ self.now.all }
    {
        self.all
    }

    /// The sub-events, in the order in which they joined.
    pub fn subevents(&self) -> &[Name16]
        ensures { result.now ≡ self.now.subs }
    {
        self.subs.as_slice()
    }

    /// The sub-events that fired and were not retrieved, oldest first.
    pub fn queue(&self) -> &[Name16]
        ensures { result.now ≡ self.now.queued }
    {
        self.queued.as_slice()
    }

    pub(crate) fn has(&self, name: &Name16) -> bool
        ensures { result ≡ events.has self.now.subs name.now }
    {
        stands(self.subs.as_slice(), name)
    }

    pub(crate) fn push_queued(&mut self, name: Name16) -> Result<(), NoMemory>
        ensures ok { OnOk result
            (self.new
            ≡ record { all = self.old.all; subs = self.old.subs; queued = self.old.queued ++ name ∷ [] }) }
        ensures err { OnErr result (self.new ≡ self.old) }
    {
        self.queued.push(name)?;
        Ok(())
    }

    pub(crate) fn push_sub(&mut self, name: Name16) -> Result<(), NoMemory>
        ensures ok { OnOk result
            (self.new
            ≡ record { all = self.old.all; subs = self.old.subs ++ name ∷ []; queued = self.old.queued }) }
        ensures err { OnErr result (self.new ≡ self.old) }
    {
        self.subs.push(name)?;
        Ok(())
    }

    pub(crate) fn drop_first(&mut self)
        ensures { self.new
            ≡ record { all = self.old.all; subs = self.old.subs; queued = events.rest_of self.old.queued } }
    {
        drop_first(&mut self.queued);
    }

    pub(crate) fn forget_queued(&mut self, name: &Name16)
        ensures { self.new
            ≡ record { all = self.old.all; subs = self.old.subs; queued = events.except self.old.queued name.now } }
    {
        forget(&mut self.queued, name);
    }

    pub(crate) fn forget_sub(&mut self, name: &Name16)
        ensures { self.new
            ≡ record { all = self.old.all; subs = events.except self.old.subs name.now; queued = events.except self.old.queued name.now } }
    {
        forget(&mut self.subs, name);
        forget(&mut self.queued, name);
    }
}

/// Whether the name stands in the list.
pub(crate) fn stands(names: &[Name16], name: &Name16) -> bool
    ensures { result ≡ events.has names.now name.now }
{
    names.iter().any(|x| *x == *name)
}

fn drop_first(names: &mut Vec<Name16>)
    ensures { names.new.items ≡ events.rest_of names.old.items }
{
    if !names.is_empty() {
        names.remove(0);
    }
}

fn forget(names: &mut Vec<Name16>, name: &Name16)
    ensures { names.new.items ≡ events.except names.old.items name.now }
{
    names.retain(|x| !(*x == *name));
}
