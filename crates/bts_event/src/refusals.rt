// Why a call is refused: the reasons of each, in order.
ghost use Rattle.std.specs.Prelude.{◌≡◌, ◌||◌, Some, None, [], if◌then◌else◌};
ghost use Rattle.bts_names.specs.Named.{lookup};
ghost use Rattle.bts_event.specs.Events as events;
ghost use Rattle.bts_event.specs.Refusals as refusals;

use crate::composite::stands;
use crate::events::{holder, is_fired, one_fired};
use crate::{Composite, Event};
use bts_names::{Name16, Reason};
use std::collections::BTreeMap;

/// How many events a pool has at most.
pub(crate) const EVENT_LIMIT: usize = 256;

/// How many sub-events a composite has at most.
pub(crate) const SUBEVENT_LIMIT: usize = 32;

pub fn refuses_define(map: &BTreeMap<Name16, Event>, name: &Name16) -> Option<Reason>
    ensures { result ≡ refusals.define_refusal name.now map.now.entries }
{
    if map.contains_key(name) {
        Some(Reason::Taken)
    } else if map.len() >= EVENT_LIMIT {
        Some(Reason::Limit)
    } else {
        None
    }
}

fn refuses_sub(map: &BTreeMap<Name16, Event>, earlier: &[Name16], sub: &Name16) -> Option<Reason>
    ensures { result ≡ refusals.sub_refusal map.now.entries earlier.now sub.now }
{
    match map.get(sub) {
        None => Some(Reason::Missing),
        Some(Event::Composite(_)) => Some(Reason::NotAtomic),
        Some(Event::Atomic(a)) => refuses_atomic(
            a.fired,
            stands(earlier, sub),
            holder(map, sub).is_some(),
        ),
    }
}

fn refuses_atomic(fired: bool, stood: bool, owned: bool) -> Option<Reason>
    ensures { result
        ≡ (if stood || owned then Some Reason.IsSubevent else (if fired then Some Reason.Fired else None)) }
{
    if stood || owned {
        Some(Reason::IsSubevent)
    } else if fired {
        Some(Reason::Fired)
    } else {
        None
    }
}

fn refuses_subs(map: &BTreeMap<Name16, Event>, subs: &[Name16]) -> Option<Reason>
    ensures { result ≡ refusals.subs_refusal map.now.entries [] subs.now }
{
    for (i, sub) in subs.iter().enumerate() {
        if let Some(reason) = refuses_sub(map, &subs[..i], sub) {
            return Some(reason);
        }
    }
    None
}

pub fn refuses_composite(
    map: &BTreeMap<Name16, Event>,
    name: &Name16,
    subs: &[Name16],
) -> Option<Reason>
    ensures { result ≡ refusals.composite_refusal name.now subs.now map.now.entries }
{
    if map.contains_key(name) {
        return Some(Reason::Taken);
    }
    if let Some(reason) = refuses_subs(map, subs) {
        return Some(reason);
    }
    if map.len() >= EVENT_LIMIT {
        return Some(Reason::Limit);
    }
    None
}

pub fn refuses_add(
    map: &BTreeMap<Name16, Event>,
    composite: &Name16,
    sub: &Name16,
) -> Option<Reason>
    ensures { result ≡ refusals.add_refusal composite.now sub.now map.now.entries }
{
    match map.get(composite) {
        None => Some(Reason::Missing),
        Some(Event::Atomic(_)) => Some(Reason::NotComposite),
        Some(Event::Composite(c)) => match refuses_sub(map, &[], sub) {
            Some(reason) => Some(reason),
            None => refuses_more(c),
        },
    }
}

fn refuses_more(c: &Composite) -> Option<Reason>
    ensures { result
        ≡ refusals.when (refusals.is_full_composite (Some (Event.Composite c.now))) Reason.Limit }
{
    if c.subevents().len() >= SUBEVENT_LIMIT {
        return Some(Reason::Limit);
    }
    None
}

pub fn refuses_leave(
    map: &BTreeMap<Name16, Event>,
    composite: &Name16,
    sub: &Name16,
) -> Option<Reason>
    ensures { result ≡ refusals.leave_refusal composite.now sub.now map.now.entries }
{
    match map.get(composite) {
        None => Some(Reason::Missing),
        Some(Event::Atomic(_)) => Some(Reason::NotComposite),
        Some(Event::Composite(c)) => refuses_listed(c.has(sub), is_fired(map, sub)),
    }
}

fn refuses_listed(listed: bool, fired: bool) -> Option<Reason>
    ensures { result
        ≡ (if listed then (if fired then Some Reason.Fired else None) else Some Reason.NotSubevent) }
{
    if !listed {
        Some(Reason::NotSubevent)
    } else if fired {
        Some(Reason::Fired)
    } else {
        None
    }
}

pub(crate) fn refuses_fire(map: &BTreeMap<Name16, Event>, name: &Name16) -> Option<Reason>
    ensures { result ≡ refusals.fire_refusal name.now map.now.entries }
{
    match map.get(name) {
        None => Some(Reason::Missing),
        Some(Event::Composite(_)) => Some(Reason::NotAtomic),
        Some(Event::Atomic(a)) => if a.fired { Some(Reason::Fired) } else { None },
    }
}

pub fn refuses_delete(map: &BTreeMap<Name16, Event>, name: &Name16) -> Option<Reason>
    ensures { result ≡ refusals.delete_refusal name.now map.now.entries }
{
    match map.get(name) {
        None => Some(Reason::Missing),
        Some(Event::Composite(c)) => refuses_awake(map, c),
        Some(Event::Atomic(a)) => if a.trigger.is_input() {
            None
        } else {
            Some(Reason::Kind)
        },
    }
}

fn refuses_awake(map: &BTreeMap<Name16, Event>, c: &Composite) -> Option<Reason>
    ensures { result ≡ refusals.delete_refusal_of map.now.entries (Some (Event.Composite c.now)) }
{
    if one_fired(map, c.subevents()) {
        return Some(Reason::Fired);
    }
    None
}
