// What holds of the definitions that contracts cite. The functions do nothing.
ghost use Rattle.std.specs.Prelude.{◌≡◌, ℕ, Bool, List, [], length, Option, Some, None, true, false};
ghost use Rattle.std.specs.List.Sorted.{IsStrictlySortedBy};
ghost use Rattle.bts_container.specs.declared.format.Format.{Format};
ghost use Rattle.bts_names.specs.Names.{Name};
ghost use Rattle.bts_names.specs.declared.key.Key.{Key};
ghost use Rattle.bts_names.specs.declared.state.Status.TheVariants as status;
ghost use Rattle.bts_tree.specs.Activities.{new_root, is_complete, completed, forced, ended_by};
ghost use Rattle.bts_tree.specs.Modes.{finishes, abends, is_forced};
ghost use Rattle.bts_tree.specs.declared.activity.Activity.{Activity};
ghost use Rattle.bts_tree.specs.Processes.{no_process, planted};
ghost use Rattle.bts_tree.specs.Repositories.{Processes, Place, no_processes, raised_all, TimerPlace, place_cmp, timer_place_cmp, ready_in, untold_in, due_in, first_behind, IsLeastBehind, HasNoneBehind};
ghost use Rattle.bts_tree.specs.Scopes.{HeldProcess, AreSteps, gone_back, last_held, marked};
ghost use Rattle.bts_tree.specs.Soundness.{AreSound, IsSoundInFrames};

/// Where processes are sound, the activities for which an activation is enabled stand by rising key and path, and
/// so do those that are COMPLETE and not told; the timers that are due stand by rising key, path and name.
pub fn what_is_enabled_stands_in_order()
    ensures ready { (repo : Processes) → AreSound repo → IsStrictlySortedBy place_cmp (ready_in repo) }
    ensures untold { (repo : Processes) → AreSound repo → IsStrictlySortedBy place_cmp (untold_in repo) }
    ensures due { (now : ℕ) (repo : Processes) → AreSound repo
        → IsStrictlySortedBy timer_place_cmp (due_in now repo) }
{}

/// Behind a mark, and any calls that leave the marks as they are, add marks, or go back to later marks or keep
/// them, `back_to` gives the process, the marks and the saved paths as they were.
pub fn back_to_gives_what_was_marked()
    ensures { (h : HeldProcess) (calls : List HeldProcess) → AreSteps (length h.marks) (marked h) calls
        → gone_back (length h.marks) (last_held (marked h) calls) ≡ h }
{}

/// In such a list the first one that stands behind a place is the least one behind it, and none is found only
/// where none stands behind.
pub fn the_first_behind_is_the_least()
    ensures place { (after : Option Place) (x : Place) (xs : List Place) → IsStrictlySortedBy place_cmp xs
        → first_behind place_cmp after xs ≡ Some x → IsLeastBehind place_cmp after x xs }
    ensures no_place { (after : Option Place) (xs : List Place) → first_behind place_cmp after xs ≡ None
        → HasNoneBehind place_cmp after xs }
    ensures timer { (after : Option TimerPlace) (x : TimerPlace) (xs : List TimerPlace)
        → IsStrictlySortedBy timer_place_cmp xs → first_behind timer_place_cmp after xs ≡ Some x
        → IsLeastBehind timer_place_cmp after x xs }
    ensures no_timer { (after : Option TimerPlace) (xs : List TimerPlace)
        → first_behind timer_place_cmp after xs ≡ None → HasNoneBehind timer_place_cmp after xs }
{}

/// In each format a process that is defined for the first time is sound, and so is the repository that holds none.
pub fn what_is_new_is_sound()
    ensures process { (f : Format) (key : Key) (transid program : Name)
        → IsSoundInFrames [] (planted (new_root f transid program) (no_process f key)) }
    ensures repository { (f : Format) → AreSound (no_processes f) }
{}

/// A sound repository stays sound where it is put into the second format.
pub fn raised_processes_are_sound()
    ensures { (repo : Processes) → AreSound repo → AreSound (raised_all repo) }
{}

/// Completion changes modes as their table says: RETURN makes an activity COMPLETE NORMAL, an abend of its frame
/// COMPLETE ABEND, and below it each that wasn't COMPLETE is COMPLETE FORCED.
pub fn completion_follows_the_modes()
    ensures finished { (told : Bool) (a : Activity)
        → completed status.Normal None told a ≡ ended_by finishes None told a }
    ensures abended { (code : Option Name) (told : Bool) (a : Activity)
        → completed status.Abend code told a ≡ ended_by abends code told a }
    ensures forced { (a : Activity) → is_complete a ≡ false → forced a ≡ ended_by is_forced None true a }
{}
