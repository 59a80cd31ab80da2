// Event pools.
ghost use Rattle.std.specs.Prelude.{◌≡◌, ◌↔◌, IsTrue, ◌<◌, ◌≤◌, ◌-◌, ◌^◌, length, IfOk, OnOk, OnErr, true, false};
ghost use Rattle.bts_names.specs.Names.{same, initial_name};
ghost use Rattle.bts_names.specs.Named.{lookup, is_there};
ghost use Rattle.bts_event.specs.Events as events;
ghost use Rattle.bts_event.specs.Pool as pool;
ghost use Rattle.bts_event.specs.Refusals as refusals;
ghost use Rattle.bts_event.specs.Sound.{IsSoundPool};

use crate::events::{
    completion_of, drop_first, event_of, forget_queued, forget_sub, has_completion, held_at,
    holder, holds, kind_of_entry, next_subevent, push_queued, push_sub, same_events, set_bit,
};
use crate::queue::{drop_entries, enter, same_entries};
use crate::refusals::{
    refuses_add, refuses_composite, refuses_define, refuses_delete, refuses_fire, refuses_leave,
};
use crate::turning::{erase, settle};
use crate::{Atomic, Composite, Entry, Event, PoolError, Trigger};
use bts_names::{EventKind, Name16, NoMemory, Reason, map_of};
use std::alloc::Global;
use std::collections::{BTreeMap, VecDeque};
use std::marker::Model;

/// The events of one activity, and the queue of those that wait.
#[derive(Debug, Drop)]
pub struct EventPool {
    events: BTreeMap<Name16, Event>,
    queue: VecDeque<Entry>,
    last: u64,
}

impl Model for EventPool {
    ghost use Rattle.bts_event.specs.Pool.{Pool};
    ghost use Rattle.bts_event.specs.Sound.{IsSoundPool};

    ghost Value = { Pool };

    ghost view = { λ p. record { events = p.events.entries; entries = p.queue.items; last = p.last } };

    ghost invariant = { λ p. IsSoundPool (record { events = p.events.entries; entries = p.queue.items; last = p.last }) };
}

impl EventPool {
    /// No events and no entries; the first entry will get the number 1.
    pub fn new(alloc: Global) -> Self
        ensures { result ≡ pool.empty_pool }
    {
        EventPool {
            events: BTreeMap::new(alloc),
            queue: VecDeque::new(alloc),
            last: 0,
        }
    }

    /// A pool of these parts: events by rising name, entries by rising number, and the last number that an
    /// entry got. They must be what a pool keeps.
    pub fn from_parts(
        alloc: Global,
        events: Vec<(Name16, Event)>,
        entries: Vec<Entry>,
        last: u64,
    ) -> Result<Self, NoMemory>
        requires { IsSoundPool (record { events = events.items; entries = entries.items; last = last }) }
        ensures { IfOk result
            (λ pool. pool ≡ record { events = events.items; entries = entries.items; last = last }) }
    {
        let events = map_of(alloc, events)?;
        Ok(EventPool {
            events,
            queue: VecDeque::from(entries),
            last,
        })
    }

    /// The events by name.
    pub fn events(&self) -> &BTreeMap<Name16, Event>
        ensures { result.now.entries ≡ self.now.events }
    {
        &self.events
    }

    /// The entries, the oldest first.
    pub fn entries(&self) -> &VecDeque<Entry>
        ensures { result.now.items ≡ self.now.entries }
    {
        &self.queue
    }

    /// A pool of the same events and entries.
    pub fn copy(&self) -> Result<EventPool, NoMemory>
        ensures { IfOk result (λ copy. copy ≡ self.now) }
    {
        let events = self.events.clone()?;
        let queue = self.queue.clone()?;
        Ok(EventPool {
            events,
            queue,
            last: self.last,
        })
    }

    /// Whether both have the same events, entries and last number. The time grows with their number.
    pub fn same(&self, other: &EventPool) -> bool
        ensures { IsTrue result ↔ (self.now ≡ other.now) }
    {
        self.last == other.last
            && same_entries(&self.queue, &other.queue)
            && same_events(&self.events, &other.events)
    }

    /// What every pool keeps, for the proofs of callers.
    pub fn facts(&self)
        ensures { IsSoundPool self.now }
    {
        let _ = &self.events;
    }

    /// Defines an event that a program fires. Refused for Taken, then Limit at 256 events.
    pub fn define_input(&mut self, name: Name16) -> Result<(), PoolError>
        requires { same name initial_name ≡ false }
        ensures why { refusals.Answers result (refusals.define_refusal name self.old.events) }
        ensures ok { OnOk result
            (self.new ≡ pool.defined name (events.new_atomic Trigger.Input) self.old) }
        ensures err { OnErr result (self.new ≡ self.old) }
    {
        self.define(name, Trigger::Input)
    }

    /// Defines the completion event of a child. Refused as `define_input` is.
    pub fn define_completion(&mut self, name: Name16, child: u32) -> Result<(), PoolError>
        requires { same name initial_name ≡ false }
        ensures why { refusals.Answers result (refusals.define_refusal name self.old.events) }
        ensures ok { OnOk result
            (self.new ≡ pool.defined name (events.new_atomic (Trigger.Completion child)) self.old) }
        ensures err { OnErr result (self.new ≡ self.old) }
    {
        self.define(name, Trigger::Completion(child))
    }

    /// Defines the event of a timer. Refused as `define_input` is.
    pub fn define_timer_event(&mut self, name: Name16, timer: Name16) -> Result<(), PoolError>
        requires { same name initial_name ≡ false }
        ensures why { refusals.Answers result (refusals.define_refusal name self.old.events) }
        ensures ok { OnOk result
            (self.new ≡ pool.defined name (events.new_atomic (Trigger.Timer timer)) self.old) }
        ensures err { OnErr result (self.new ≡ self.old) }
    {
        self.define(name, Trigger::Timer(timer))
    }

    fn define(&mut self, name: Name16, trigger: Trigger) -> Result<(), PoolError>
        requires { same name initial_name ≡ false }
        ensures why { refusals.Answers result (refusals.define_refusal name self.old.events) }
        ensures ok { OnOk result (self.new ≡ pool.defined name (events.new_atomic trigger) self.old) }
        ensures err { OnErr result (self.new ≡ self.old) }
    {
        if let Some(reason) = refuses_define(&self.events, &name) {
            return Err(PoolError::Refused(reason));
        }
        let event = Event::Atomic(Atomic {
            trigger,
            fired: false,
        });
        match self.events.insert(name, event) {
            Ok(_) => Ok(()),
            Err(_) => Err(PoolError::NoMemory),
        }
    }

    /// Defines a composite of these sub-events: of all where `all` is true, else of any. Refused for Taken,
    /// then for each sub-event in order Missing, NotAtomic, IsSubevent (also where it stood earlier in the
    /// list) and Fired, then Limit at 256 events.
    pub fn define_composite(
        &mut self,
        alloc: Global,
        name: Name16,
        all: bool,
        subs: &[Name16],
    ) -> Result<(), PoolError>
        requires few { length subs.now ≤ 8 }
        requires named { same name initial_name ≡ false }
        ensures why { refusals.Answers result (refusals.composite_refusal name subs.now self.old.events) }
        ensures ok { OnOk result
            (self.new ≡ pool.defined name (events.new_composite all subs.now) self.old) }
        ensures err { OnErr result (self.new ≡ self.old) }
    {
        if let Some(reason) = refuses_composite(&self.events, &name, subs) {
            return Err(PoolError::Refused(reason));
        }
        let Ok(composite) = Composite::new(alloc, all, subs) else {
            return Err(PoolError::NoMemory);
        };
        match self.events.insert(name, Event::Composite(composite)) {
            Ok(_) => Ok(()),
            Err(_) => Err(PoolError::NoMemory),
        }
    }

    /// Puts a sub-event at the end of a composite's. Refused for Missing and NotComposite of the composite,
    /// then Missing, NotAtomic, IsSubevent and Fired of the sub-event, then Limit at 32.
    pub fn add_subevent(&mut self, composite: Name16, sub: Name16) -> Result<(), PoolError>
        ensures why { refusals.Answers result (refusals.add_refusal composite sub self.old.events) }
        ensures ok { OnOk result (self.new ≡ pool.subevent_added composite sub self.old) }
        ensures err { OnErr result (self.new ≡ self.old) }
    {
        if let Some(reason) = refuses_add(&self.events, &composite, &sub) {
            return Err(PoolError::Refused(reason));
        }
        if let Err(NoMemory) = push_sub(&mut self.events, &composite, sub) {
            return Err(PoolError::NoMemory);
        }
        Ok(())
    }

    /// Takes a sub-event out of a composite; it stays in the pool. The composite makes an entry where it turns
    /// by that. Refused for Missing and NotComposite of the composite, then NotSubevent and Fired.
    pub fn remove_subevent(&mut self, composite: Name16, sub: Name16) -> Result<(), PoolError>
        requires { self.old.last < 2 ^ 64 - 1 }
        ensures why { refusals.Answers result (refusals.leave_refusal composite sub self.old.events) }
        ensures ok { OnOk result (self.new ≡ pool.subevent_removed composite sub self.old) }
        ensures err { OnErr result (self.new ≡ self.old) }
    {
        if let Some(reason) = refuses_leave(&self.events, &composite, &sub) {
            return Err(PoolError::Refused(reason));
        }
        if self.queue.reserve(1).is_err() {
            return Err(PoolError::NoMemory);
        }
        let before = held_at(&self.events, &composite);
        forget_sub(&mut self.events, &composite, &sub);
        settle(
            &self.events,
            &mut self.queue,
            &mut self.last,
            before,
            composite,
        );
        Ok(())
    }

    /// Deletes an input event or a composite, with its entries. A composite's sub-events stay in the pool; a
    /// composite that loses a sub-event so makes an entry where it turns. Refused for Missing, then Kind of a
    /// completion event or a timer's, then Fired of a composite with a fired sub-event.
    pub fn delete(&mut self, name: Name16) -> Result<(), PoolError>
        requires { self.old.last < 2 ^ 64 - 1 }
        ensures why { refusals.Answers result (refusals.delete_refusal name self.old.events) }
        ensures ok { OnOk result (self.new ≡ pool.deleted name self.old) }
        ensures err { OnErr result (self.new ≡ self.old) }
    {
        if let Some(reason) = refuses_delete(&self.events, &name) {
            return Err(PoolError::Refused(reason));
        }
        if self.queue.reserve(1).is_err() {
            return Err(PoolError::NoMemory);
        }
        erase(&mut self.events, &mut self.queue, &mut self.last, &name);
        Ok(())
    }

    /// Deletes an atomic event of any kind, fired or not, as `delete` does, and tells whether it was there.
    pub fn remove(&mut self, name: Name16) -> Result<bool, NoMemory>
        requires atomic { events.is_composite (lookup name self.old.events) ≡ false }
        requires below { self.old.last < 2 ^ 64 - 1 }
        ensures there { IfOk result (λ there. there ≡ is_there name self.old.events) }
        ensures ok { OnOk result (self.new ≡ pool.removed name self.old) }
        ensures err { OnErr result (self.new ≡ self.old) }
    {
        if !self.events.contains_key(&name) {
            return Ok(false);
        }
        if self.queue.reserve(1).is_err() {
            return Err(NoMemory);
        }
        erase(&mut self.events, &mut self.queue, &mut self.last, &name);
        Ok(true)
    }

    /// Fires an atomic event: its firing joins the queue of its composite, which makes an entry where it turns;
    /// where the event has no composite, it makes an entry itself. Refused for Missing, NotAtomic, Fired.
    pub fn fire(&mut self, name: Name16) -> Result<(), PoolError>
        requires { self.old.last < 2 ^ 64 - 1 }
        ensures why { refusals.Answers result (refusals.fire_refusal name self.old.events) }
        ensures ok { OnOk result (self.new ≡ pool.fired name self.old) }
        ensures err { OnErr result (self.new ≡ self.old) }
    {
        if let Some(reason) = refuses_fire(&self.events, &name) {
            return Err(PoolError::Refused(reason));
        }
        if self.queue.reserve(1).is_err() {
            return Err(PoolError::NoMemory);
        }
        match holder(&self.events, &name) {
            None => {
                set_bit(&mut self.events, &name, true);
                enter(&mut self.queue, &mut self.last, name);
            }
            Some(c) => {
                let before = held_at(&self.events, &c);
                if let Err(NoMemory) = push_queued(&mut self.events, &c, name) {
                    return Err(PoolError::NoMemory);
                }
                set_bit(&mut self.events, &name, true);
                settle(&self.events, &mut self.queue, &mut self.last, before, c);
            }
        }
        Ok(())
    }

    /// Takes the firing of an atomic event back: its bit, and its entry or its place in its composite's
    /// queue. One that is not fired stays as it is.
    pub fn unfire(&mut self, name: Name16)
        requires { events.is_atomic (lookup name self.old.events) ≡ true }
        ensures { self.new ≡ pool.unfired name self.old }
    {
        match holder(&self.events, &name) {
            None => {
                set_bit(&mut self.events, &name, false);
                drop_entries(&mut self.queue, &name);
            }
            Some(c) => {
                forget_queued(&mut self.events, &c, &name);
                set_bit(&mut self.events, &name, false);
            }
        }
    }

    /// Enters DFHINITIAL.
    pub fn start(&mut self) -> Result<(), NoMemory>
        requires { self.old.last < 2 ^ 64 - 1 }
        ensures ok { OnOk result (self.new ≡ pool.entered initial_name self.old) }
        ensures err { OnErr result (self.new ≡ self.old) }
    {
        if self.queue.reserve(1).is_err() {
            return Err(NoMemory);
        }
        enter(&mut self.queue, &mut self.last, Name16::initial());
        Ok(())
    }

    /// Takes all events and entries away. The numbers of entries go on.
    pub fn clear(&mut self)
        ensures { self.new ≡ pool.cleared self.old }
    {
        self.events.clear();
        self.queue.clear();
    }

    /// Takes the first entry, if there is one, and gives its name and kind. Its event, if it is atomic, is not
    /// fired any more.
    pub fn retrieve(&mut self) -> Option<(Name16, EventKind)>
        ensures answer { result ≡ pool.first_entry self.old.entries self.old.events }
        ensures after { self.new ≡ pool.retrieved self.old }
    {
        let entry = self.queue.pop_front()?;
        let kind = kind_of_entry(&self.events, &entry.name);
        set_bit(&mut self.events, &entry.name, false);
        Some((entry.name, kind))
    }

    /// Takes the first of a composite's queue, which is not fired any more, and gives its name and kind. Refused
    /// for Missing, NotComposite, Empty.
    pub fn retrieve_subevent(&mut self, composite: Name16) -> Result<(Name16, EventKind), Reason>
        ensures answer { result ≡ pool.next_subevent composite self.old }
        ensures after { self.new ≡ pool.subevent_retrieved composite self.old }
    {
        let (name, kind) = next_subevent(&self.events, &composite)?;
        drop_first(&mut self.events, &composite);
        set_bit(&mut self.events, &name, false);
        Ok((name, kind))
    }

    /// Whether an event is fired, or a composite holds. Refused for Missing.
    pub fn test(&self, name: Name16) -> Result<bool, Reason>
        ensures { result ≡ pool.test_of self.now.events (lookup name self.now.events) }
    {
        match self.events.get(&name) {
            None => Err(Reason::Missing),
            Some(Event::Atomic(a)) => Ok(a.fired),
            Some(Event::Composite(c)) => Ok(holds(&self.events, c)),
        }
    }

    pub fn kind(&self, name: Name16) -> Option<EventKind>
        ensures { result ≡ events.kind_at (lookup name self.now.events) }
    {
        match self.events.get(&name) {
            Some(event) => Some(event.kind()),
            None => None,
        }
    }

    /// Whether an atomic event has this name.
    pub fn is_atomic(&self, name: Name16) -> bool
        ensures { result ≡ events.is_atomic (lookup name self.now.events) }
    {
        match self.events.get(&name) {
            Some(Event::Atomic(_)) => true,
            _ => false,
        }
    }

    /// Whether a composite has this name.
    pub fn is_composite(&self, name: Name16) -> bool
        ensures { result ≡ events.is_composite (lookup name self.now.events) }
    {
        match self.events.get(&name) {
            Some(Event::Composite(_)) => true,
            _ => false,
        }
    }

    /// The number of events.
    pub fn count(&self) -> u32
        ensures { result ≡ length self.now.events }
    {
        self.events.len() as u32
    }

    /// The number of entries.
    pub fn queued(&self) -> u64
        ensures { result ≡ length self.now.entries }
    {
        self.queue.len() as u64
    }

    /// The last number that an entry got; 0 before the first.
    pub fn last_number(&self) -> u64
        ensures { result ≡ self.now.last }
    {
        self.last
    }

    /// Whether the completion event of some child is there.
    pub fn has_completion(&self) -> bool
        ensures { result ≡ events.has_completion self.now.events }
    {
        has_completion(&self.events)
    }

    /// The name of a child's completion event.
    pub fn completion_of(&self, child: u32) -> Option<Name16>
        ensures { result ≡ events.completion_of child self.now.events }
    {
        completion_of(&self.events, child)
    }

    /// The name of a timer's event.
    pub fn event_of(&self, timer: Name16) -> Option<Name16>
        ensures { result ≡ events.event_of timer self.now.events }
    {
        event_of(&self.events, &timer)
    }
}
