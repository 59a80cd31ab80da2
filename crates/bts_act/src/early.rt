// Events that are fired before their timers.
ghost use Rattle.std.specs.Prelude.{◌≡◌, List, not, true};
ghost use Rattle.std.specs.List.{list_all};
ghost use Rattle.bts_names.specs.Names.{ActivityPath};
ghost use Rattle.bts_tree.specs.Processes.{Process};
ghost use Rattle.bts_tree.specs.Slots.{filled};
ghost use Rattle.bts_tree.specs.Soundness.{IsSoundInFrames};
ghost use Rattle.bts_act.specs.Early.{has_none_early, is_early, none_early, waits_for};

use bts_event::{Event, Trigger};
use bts_names::{Name16, Path};
use bts_timer::TimerPool;
use bts_tree::{Scope, Slot};
use std::collections::BTreeMap;

/// Whether no event of any activity is fired while its timer is UNEXPIRED, as in every sound process. Its time grows
/// with the events of the process.
pub fn none_is_early(scope: &Scope) -> bool
    ensures { result ≡ none_early scope.now.process }
{
    match scope.activities() {
        Some(activities) => all_late(activities),
        None => true,
    }
}

fn all_late(activities: &BTreeMap<Path, Slot>) -> bool
    ensures { result ≡ list_all (λ x. has_none_early x.1) (filled activities.now.entries) }
{
    for (path, slot) in activities {
        let _ = path;
        if let Some(activity) = slot.get() {
            if !are_late(activity.pool.events(), &activity.timers) {
                return false;
            }
        }
    }
    true
}

fn are_late(events: &BTreeMap<Name16, Event>, timers: &TimerPool) -> bool
    ensures { result ≡ list_all (λ e. not (is_early timers.now e.1)) events.now.entries }
{
    for (name, event) in events {
        let _ = name;
        if is_early_one(event, timers) {
            return false;
        }
    }
    true
}

fn is_early_one(event: &Event, timers: &TimerPool) -> bool
    ensures { result ≡ is_early timers.now event.now }
{
    match event {
        Event::Atomic(atomic) => atomic.fired && waits(&atomic.trigger, timers),
        Event::Composite(_) => false,
    }
}

fn waits(trigger: &Trigger, timers: &TimerPool) -> bool
    ensures { result ≡ waits_for timers.now trigger.now }
{
    let Trigger::Timer(name) = trigger else {
        return false;
    };
    match timers.get(*name) {
        Some(timer) => timer.is_unexpired(),
        None => false,
    }
}

/// In a sound process no event is fired while its timer is UNEXPIRED.
pub fn a_sound_process_has_none_early()
    ensures { (frames : List ActivityPath) (s : Process) → IsSoundInFrames frames s → none_early s ≡ true }
{}
