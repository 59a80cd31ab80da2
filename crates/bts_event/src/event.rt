// Events.
ghost use Rattle.std.specs.Prelude.{◌≡◌, OnOk, OnErr};
ghost use Rattle.bts_event.specs.Events as events;

use crate::Composite;
use bts_names::{EventKind, Name16, NoMemory};
use std::alloc::AllocError;

/// What fires an atomic event.
#[derive(Clone, Copy, Debug, PartialEq, Eq)]
pub enum Trigger {
    /// A program.
    Input,
    /// The completion of the child with this number.
    Completion(u32),
    /// The timer of this name.
    Timer(Name16),
}

impl Trigger {
    pub fn kind(&self) -> EventKind
        ensures { result ≡ events.kind_of_trigger self.now }
    {
        match self {
            Trigger::Input => EventKind::Input,
            Trigger::Completion(_) => EventKind::Activity,
            Trigger::Timer(_) => EventKind::Timer,
        }
    }

    pub fn is_input(&self) -> bool
        ensures { result ≡ events.is_input self.now }
    {
        matches!(self, Trigger::Input)
    }
}

/// An event that is fired, and stays so until it is retrieved.
#[derive(Clone, Copy, Debug, PartialEq, Eq)]
pub struct Atomic {
    pub trigger: Trigger,
    pub fired: bool,
}

/// An event of a pool.
#[derive(Debug, PartialEq, Eq, Drop)]
pub enum Event {
    Atomic(Atomic),
    Composite(Composite),
}

impl Clone for Event {
    ghost is_clone = { λ e copy. copy ≡ e };

    fn clone(&self) -> Result<Self, AllocError> {
        match self {
            Event::Atomic(a) => Ok(Event::Atomic(*a)),
            Event::Composite(c) => Ok(Event::Composite(c.clone()?)),
        }
    }
}

impl Event {
    pub fn kind(&self) -> EventKind
        ensures { result ≡ events.kind_of self.now }
    {
        match self {
            Event::Atomic(a) => a.trigger.kind(),
            Event::Composite(_) => EventKind::Composite,
        }
    }

    /// Whether it is the completion event of some child.
    pub fn is_completion(&self) -> bool
        ensures { result ≡ events.is_completion self.now }
    {
        match self {
            Event::Atomic(
                Atomic {
                    trigger: Trigger::Completion(_),
                    ..
                },
            ) => true,
            _ => false,
        }
    }

    /// Whether it is the completion event of this child.
    pub fn is_completion_of(&self, child: u32) -> bool
        ensures { result ≡ events.is_completion_of child self.now }
    {
        match self {
            Event::Atomic(
                Atomic {
                    trigger: Trigger::Completion(n),
                    ..
                },
            ) => *n == child,
            _ => false,
        }
    }

    /// Whether it is the event of this timer.
    pub fn is_event_of(&self, timer: &Name16) -> bool
        ensures { result ≡ events.is_event_of timer.now self.now }
    {
        match self {
            Event::Atomic(
                Atomic {
                    trigger: Trigger::Timer(t),
                    ..
                },
            ) => *t == *timer,
            _ => false,
        }
    }

    /// Whether the name is one of its sub-events.
    pub fn lists(&self, name: &Name16) -> bool
        ensures { result ≡ events.lists self.now name.now }
    {
        match self {
            Event::Atomic(_) => false,
            Event::Composite(c) => c.has(name),
        }
    }

    pub(crate) fn push_queued(&mut self, name: Name16) -> Result<(), NoMemory>
        ensures ok { OnOk result (self.new ≡ events.with_queued name self.old) }
        ensures err { OnErr result (self.new ≡ self.old) }
    {
        match self {
            Event::Atomic(_) => Ok(()),
            Event::Composite(c) => c.push_queued(name),
        }
    }

    pub(crate) fn push_sub(&mut self, name: Name16) -> Result<(), NoMemory>
        ensures ok { OnOk result (self.new ≡ events.with_sub name self.old) }
        ensures err { OnErr result (self.new ≡ self.old) }
    {
        match self {
            Event::Atomic(_) => Ok(()),
            Event::Composite(c) => c.push_sub(name),
        }
    }

    pub(crate) fn drop_first(&mut self)
        ensures { self.new ≡ events.with_rest self.old }
    {
        if let Event::Composite(c) = self {
            c.drop_first();
        }
    }

    pub(crate) fn forget_queued(&mut self, name: &Name16)
        ensures { self.new ≡ events.without_queued name.now self.old }
    {
        if let Event::Composite(c) = self {
            c.forget_queued(name);
        }
    }

    pub(crate) fn forget_sub(&mut self, name: &Name16)
        ensures { self.new ≡ events.without_sub name.now self.old }
    {
        if let Event::Composite(c) = self {
            c.forget_sub(name);
        }
    }

    pub(crate) fn set_bit(&mut self, fired: bool)
        ensures { self.new ≡ events.with_bit fired self.old }
    {
        if let Event::Atomic(a) = self {
            a.fired = fired;
        }
    }
}
