// What holds of every pool and its queue, over any list of calls.
ghost use Rattle.std.specs.Prelude.{◌≡◌, ◌≤◌, ◌+◌, ℕ, List, ◌∷◌, ◌++◌, length, false, Ok};
ghost use Rattle.bts_names.specs.Names.{Name, same, initial_name};
ghost use Rattle.bts_names.specs.Named.{lookup};
ghost use Rattle.bts_names.specs.declared.state.EventKind.{EventKind};
ghost use Rattle.bts_event.specs.Calls.{Call, CallerOwes, AreOwed, after, behind, kept, made, made_by};
ghost use Rattle.bts_event.specs.Events.{is_fired_atomic};
ghost use Rattle.bts_event.specs.Pool.{Pool, settled, entered, retrieved, next_subevent, subevent_retrieved, unfired};
ghost use Rattle.bts_event.specs.Sound.{IsSoundPool, Rises};
ghost use Rattle.bts_event.specs.declared.queue.Entry.{Entry};

/// What every pool keeps holds behind every list of calls.
pub fn calls_keep_the_facts()
    ensures { (pool : Pool) (calls : List Call) → IsSoundPool pool → AreOwed calls pool
        → IsSoundPool (behind calls pool) }
{}

/// No entry number is given twice, also where the pool is cleared between: the numbers of the entries that a
/// list of calls makes rise, from above the last number before the list up to at most the last behind it.
pub fn numbers_are_never_given_again()
    ensures { (pool : Pool) (calls : List Call) → IsSoundPool pool → AreOwed calls pool
        → Rises (pool.last + 1) (made_by calls pool) (behind calls pool).last }
{}

/// Each call, made behind any others, makes at most one entry. So at most one composite turns by it.
pub fn a_call_makes_one_entry_at_most()
    ensures { (pool : Pool) (calls : List Call) (call : Call) → IsSoundPool pool → AreOwed calls pool
        → CallerOwes call (behind calls pool) → length (made call (behind calls pool)) ≤ 1 }
{}

/// Behind each call stand the entries that it kept and then those that it made. So an entry leaves where it
/// is retrieved, where its event's firing is taken back, where its event is deleted or removed, and where
/// the pool is cleared, and nowhere else.
pub fn entries_leave_by_name()
    ensures { (pool : Pool) (calls : List Call) (call : Call) → IsSoundPool pool → AreOwed calls pool
        → CallerOwes call (behind calls pool)
        → let p = behind calls pool in (after call p).entries ≡ kept call p ++ made call p }
{}

/// Where a firing is taken away no composite comes to hold. So the calls that retrieve, take a firing back or
/// start make no entry of a composite, and their definitions leave it out that one might.
pub fn no_composite_turns_where_a_firing_goes()
    ensures retrieve { (pool : Pool) → settled pool.events (retrieved pool) ≡ retrieved pool }
    ensures retrieve_subevent { (pool : Pool) (c : Name)
        → settled pool.events (subevent_retrieved c pool) ≡ subevent_retrieved c pool }
    ensures unfire { (pool : Pool) (n : Name) → settled pool.events (unfired n pool) ≡ unfired n pool }
    ensures start { (pool : Pool)
        → settled pool.events (entered initial_name pool) ≡ entered initial_name pool }
{}

/// Retrieving the first entry makes its event, if it is atomic, not fired, and leaves every other event as it
/// was.
pub fn retrieving_ends_one_firing()
    ensures fired { (pool : Pool) (e : Entry) (es : List Entry) → pool.entries ≡ e ∷ es
        → is_fired_atomic (lookup e.name (retrieved pool).events) ≡ false }
    ensures others { (pool : Pool) (e : Entry) (es : List Entry) (n : Name) → pool.entries ≡ e ∷ es
        → same e.name n ≡ false → lookup n (retrieved pool).events ≡ lookup n pool.events }
{}

/// Retrieving a sub-event makes it not fired, and leaves every event but it and its composite as it was.
pub fn retrieving_a_subevent_ends_one_firing()
    ensures fired { (pool : Pool) (c s : Name) (k : EventKind) → next_subevent c pool ≡ Ok (s, k)
        → is_fired_atomic (lookup s (subevent_retrieved c pool).events) ≡ false }
    ensures others { (pool : Pool) (c s : Name) (k : EventKind) (n : Name)
        → next_subevent c pool ≡ Ok (s, k) → same s n ≡ false → same c n ≡ false
        → lookup n (subevent_retrieved c pool).events ≡ lookup n pool.events }
{}
