// The events of a pool: what is read of them, and how one of them changes.
ghost use Rattle.std.specs.Prelude.{◌≡◌, ◌↔◌, IsTrue, OnOk, OnErr};
ghost use Rattle.std.specs.List.{list_all, list_any};
ghost use Rattle.bts_names.specs.Named.{lookup};
ghost use Rattle.bts_event.specs.Events as events;
ghost use Rattle.bts_event.specs.Pool as pool;

use crate::{Composite, Event};
use bts_names::{EventKind, Name16, NoMemory, Reason};
use std::collections::BTreeMap;

/// The composite that has a sub-event.
pub(crate) fn holder(map: &BTreeMap<Name16, Event>, sub: &Name16) -> Option<Name16>
    ensures { result ≡ events.holder map.now.entries sub.now }
{
    for (name, event) in map {
        if event.lists(sub) {
            return Some(*name);
        }
    }
    None
}

pub(crate) fn has_completion(map: &BTreeMap<Name16, Event>) -> bool
    ensures { result ≡ events.has_completion map.now.entries }
{
    for (name, event) in map {
        let _ = name;
        if event.is_completion() {
            return true;
        }
    }
    false
}

pub(crate) fn completion_of(map: &BTreeMap<Name16, Event>, child: u32) -> Option<Name16>
    ensures { result ≡ events.completion_of child map.now.entries }
{
    for (name, event) in map {
        if event.is_completion_of(child) {
            return Some(*name);
        }
    }
    None
}

pub(crate) fn event_of(map: &BTreeMap<Name16, Event>, timer: &Name16) -> Option<Name16>
    ensures { result ≡ events.event_of timer.now map.now.entries }
{
    for (name, event) in map {
        if event.is_event_of(timer) {
            return Some(*name);
        }
    }
    None
}

pub(crate) fn kind_of_entry(map: &BTreeMap<Name16, Event>, name: &Name16) -> EventKind
    ensures { result ≡ events.entry_kind (lookup name.now map.now.entries) }
{
    match map.get(name) {
        Some(event) => event.kind(),
        None => EventKind::System,
    }
}

pub(crate) fn is_fired(map: &BTreeMap<Name16, Event>, name: &Name16) -> bool
    ensures { result ≡ events.is_fired_atomic (lookup name.now map.now.entries) }
{
    match map.get(name) {
        Some(Event::Atomic(a)) => a.fired,
        _ => false,
    }
}

fn all_fired(map: &BTreeMap<Name16, Event>, subs: &[Name16]) -> bool
    ensures { result ≡ list_all (λ s. events.is_fired_atomic (lookup s map.now.entries)) subs.now }
{
    subs.iter().all(|s| is_fired(map, s))
}

pub(crate) fn one_fired(map: &BTreeMap<Name16, Event>, subs: &[Name16]) -> bool
    ensures { result ≡ list_any (λ s. events.is_fired_atomic (lookup s map.now.entries)) subs.now }
{
    subs.iter().any(|s| is_fired(map, s))
}

pub(crate) fn holds(map: &BTreeMap<Name16, Event>, c: &Composite) -> bool
    ensures { result ≡ events.holds map.now.entries c.now }
{
    let subs = c.subevents();
    if c.is_of_all() {
        !subs.is_empty() && all_fired(map, subs)
    } else {
        one_fired(map, subs)
    }
}

pub(crate) fn held_at(map: &BTreeMap<Name16, Event>, name: &Name16) -> bool
    ensures { result ≡ events.held_at map.now.entries name.now }
{
    match map.get(name) {
        None => false,
        Some(Event::Atomic(a)) => a.fired,
        Some(Event::Composite(c)) => holds(map, c),
    }
}

pub(crate) fn same_events(a: &BTreeMap<Name16, Event>, b: &BTreeMap<Name16, Event>) -> bool
    ensures { IsTrue result ↔ (a.now.entries ≡ b.now.entries) }
{
    *a == *b
}

/// What is first in a composite's queue.
pub fn next_subevent(
    map: &BTreeMap<Name16, Event>,
    composite: &Name16,
) -> Result<(Name16, EventKind), Reason>
    ensures { result ≡ pool.subevent_of (lookup composite.now map.now.entries) map.now.entries }
{
    match map.get(composite) {
        None => Err(Reason::Missing),
        Some(Event::Atomic(_)) => Err(Reason::NotComposite),
        Some(Event::Composite(c)) => first_queued(map, c.queue()),
    }
}

fn first_queued(
    map: &BTreeMap<Name16, Event>,
    queue: &[Name16],
) -> Result<(Name16, EventKind), Reason>
    ensures { result ≡ pool.first_queued queue.now map.now.entries }
{
    match queue.first() {
        None => Err(Reason::Empty),
        Some(name) => Ok((*name, kind_of_entry(map, name))),
    }
}

pub(crate) fn set_bit(map: &mut BTreeMap<Name16, Event>, name: &Name16, fired: bool)
    ensures { map.new.entries ≡ events.set_bit map.old.entries name.now fired }
{
    if let Some(event) = map.get_mut(name) {
        event.set_bit(fired);
    }
}

pub(crate) fn push_queued(
    map: &mut BTreeMap<Name16, Event>,
    c: &Name16,
    name: Name16,
) -> Result<(), NoMemory>
    ensures ok { OnOk result
        (map.new.entries ≡ events.change map.old.entries c.now (events.with_queued name)) }
    ensures err { OnErr result (map.new.entries ≡ map.old.entries) }
{
    match map.get_mut(c) {
        Some(event) => event.push_queued(name),
        None => Ok(()),
    }
}

pub(crate) fn push_sub(
    map: &mut BTreeMap<Name16, Event>,
    c: &Name16,
    name: Name16,
) -> Result<(), NoMemory>
    ensures ok { OnOk result
        (map.new.entries ≡ events.change map.old.entries c.now (events.with_sub name)) }
    ensures err { OnErr result (map.new.entries ≡ map.old.entries) }
{
    match map.get_mut(c) {
        Some(event) => event.push_sub(name),
        None => Ok(()),
    }
}

pub(crate) fn drop_first(map: &mut BTreeMap<Name16, Event>, c: &Name16)
    ensures { map.new.entries ≡ events.change map.old.entries c.now events.with_rest }
{
    if let Some(event) = map.get_mut(c) {
        event.drop_first();
    }
}

pub(crate) fn forget_queued(map: &mut BTreeMap<Name16, Event>, c: &Name16, name: &Name16)
    ensures { map.new.entries ≡ events.change map.old.entries c.now (events.without_queued name.now) }
{
    if let Some(event) = map.get_mut(c) {
        event.forget_queued(name);
    }
}

pub(crate) fn forget_sub(map: &mut BTreeMap<Name16, Event>, c: &Name16, name: &Name16)
    ensures { map.new.entries ≡ events.change map.old.entries c.now (events.without_sub name.now) }
{
    if let Some(event) = map.get_mut(c) {
        event.forget_sub(name);
    }
}
