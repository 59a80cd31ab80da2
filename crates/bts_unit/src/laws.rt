// What units keep of their process. The functions do nothing.
ghost use Rattle.std.specs.Prelude.{◌≡◌, ◌≤◌, ◌<◌, ◌+◌, ℕ, List, [], ◌∷◌, length, cond, Some, true, false};
ghost use Rattle.std.specs.List.{AllByRecursion};
ghost use Rattle.bts_names.specs.Names.{ActivityPath, Name};
ghost use Rattle.bts_names.specs.declared.key.Key.{Key};
ghost use Rattle.bts_command.specs.Kinds.{is_committed};
ghost use Rattle.bts_command.specs.Sizes.{got_bytes};
ghost use Rattle.bts_container.specs.Formats.{size_limit};
ghost use Rattle.bts_container.specs.declared.format.Format.{Format};
ghost use Rattle.bts_command.specs.declared.command.Command.{Command};
ghost use Rattle.bts_command.specs.declared.ended.Ended.{Ended};
ghost use Rattle.bts_command.specs.declared.ended.UnitKind.{UnitKind};
ghost use Rattle.bts_command.specs.declared.ended.UnitKind.TheVariants as unit;
ghost use Rattle.bts_tree.specs.declared.activity.Activity.{Activity};
ghost use Rattle.bts_tree.specs.Leading.{leads_from};
ghost use Rattle.bts_tree.specs.Modes.{frame_opens};
ghost use Rattle.bts_tree.specs.Processes.{Process, activity_at, format_of};
ghost use Rattle.bts_tree.specs.Repositories.{Processes};
ghost use Rattle.bts_tree.specs.Soundness.{AreSound, IsSoundInFrames, bound_of_units, is_within, numbers_below};
ghost use Rattle.bts_rows.specs.Bounds.{is_lone, raised_by};
ghost use Rattle.bts_command.specs.Given.{IsGiven};
ghost use Rattle.bts_act.specs.Early.{none_early};
ghost use Rattle.bts_unit.specs.Calls.{call, run};
ghost use Rattle.bts_unit.specs.Ends.{abended_whole};
ghost use Rattle.bts_unit.specs.Frames.{OpenFrame, UnitOfWork, is_there_at, path_of, start};
ghost use Rattle.bts_unit.specs.OneFrame.{is_of_one_frame, may_begin};
ghost use Rattle.bts_unit.specs.Playing.{Plays, after};
ghost use Rattle.bts_unit.specs.Refusals.{is_played};
ghost use Rattle.bts_unit.specs.Replays.{top_path};
ghost use Rattle.bts_unit.specs.Soundness.{IsSoundIn, IsSoundLone, IsSoundUnit, IsSoundWithin, LeadsToItsEnds, makes_more_in};

/// A unit that a sound process lets begin is sound: exactly the activity of its frame is ACTIVE.
pub fn a_unit_starts_sound()
    ensures { (kind : UnitKind) (moment : ℕ) (s : Process) → may_begin kind s ≡ true → IsSoundInFrames [] s
        → IsSoundUnit (start kind moment s) }
{}

/// Behind each call a unit with one frame is sound again, whether the call ends the frame or not.
pub fn calls_keep_a_unit_sound()
    ensures { (u : UnitOfWork) (c : Command) → length u.frames ≤ 1 → IsGiven c
        → is_of_one_frame (top_path u.frames) c ≡ true → IsSoundUnit u → IsSoundUnit (call u c).1 }
{}

/// So it is behind any commands of one frame, one after the other.
pub fn commands_keep_a_unit_sound()
    ensures { (kind : UnitKind) (moment : ℕ) (s : Process) (commands : List Command) → may_begin kind s ≡ true
        → IsSoundInFrames [] s → AllByRecursion (λ c. IsGiven c × (is_of_one_frame (path_of kind) c ≡ true)) commands
        → IsSoundUnit (run (start kind moment s) commands) }
{}

/// So is a unit all of whose frames abend.
pub fn an_abend_keeps_a_unit_sound()
    ensures { (code : Name) (u : UnitOfWork) → IsSoundUnit u → IsSoundUnit (abended_whole code u) }
{}

/// Behind a sound unit that has ended no activity is ACTIVE, and the process is sound.
pub fn an_ended_unit_leaves_a_sound_process()
    ensures { (u : UnitOfWork) → u.frames ≡ [] → IsSoundUnit u → IsSoundInFrames [] u.now.process }
{}

/// In a sound unit the activity of the top frame is there, and no event is fired before its timer.
pub fn a_sound_unit_goes_on()
    ensures there { (u : UnitOfWork) → IsSoundUnit u → is_there_at (top_path u.frames) u.now.process ≡ true }
    ensures late { (u : UnitOfWork) → IsSoundUnit u → none_early u.now.process ≡ true }
{}

/// A call of a sound unit is answered with no more bytes than a container may have in the format of its process.
pub fn replies_are_short()
    ensures { (u : UnitOfWork) (c : Command) → IsSoundUnit u
        → got_bytes (call u c).0.value ≤ size_limit (format_of u.now.process) }
{}

/// A unit begins in the format of its process, and so its process is behind each call, and where all frames abend,
/// and so is what stands again when its frame abends. Behind a unit that plays all processes are sound, in the format
/// in which they were.
pub fn calls_keep_the_format_of_a_unit()
    ensures starts { (f : Format) (kind : UnitKind) (moment : ℕ) (s : Process) → may_begin kind s ≡ true
        → IsSoundInFrames [] s → format_of s ≡ f → IsSoundIn f (start kind moment s) }
    ensures calls { (f : Format) (u : UnitOfWork) (c : Command) → length u.frames ≤ 1 → IsGiven c
        → is_of_one_frame (top_path u.frames) c ≡ true → IsSoundIn f u → IsSoundIn f (call u c).1 }
    ensures stops { (f : Format) (code : Name) (u : UnitOfWork) → IsSoundIn f u
        → IsSoundIn f (abended_whole code u) }
    ensures after { (repo : Processes) (e : Ended) → AreSound repo → Plays repo e
        → is_played e.unit ≡ true
        → AllByRecursion (λ c. IsGiven c.command × (is_of_one_frame (path_of e.unit) c.command ≡ true))
        e.calls
        → AreSound (after repo e) × ((after repo e).format ≡ repo.format) }
{}

/// The last entry numbers of a unit's process rise by one with each call at most, and stay where all frames abend. Its
/// generation rises once at most over all calls, and not before something is acquired: never in an activation.
pub fn numbers_rise_with_the_calls()
    ensures starts { (g n : ℕ) (kind : UnitKind) (moment : ℕ) (s : Process) → may_begin kind s ≡ true
        → IsSoundInFrames [] s → is_within g n s ≡ true → IsSoundWithin g n (start kind moment s) }
    ensures rise { (g n : ℕ) (u : UnitOfWork) (c : Command) → length u.frames ≤ 1 → IsGiven c
        → is_of_one_frame (top_path u.frames) c ≡ true → IsSoundWithin g (n + length u.calls) u
        → IsSoundWithin g (n + length (call u c).1.calls) (call u c).1 }
    ensures stops { (g n : ℕ) (code : Name) (u : UnitOfWork) → IsSoundWithin g n u
        → IsSoundWithin g n (abended_whole code u) }
    ensures below { (g n m : ℕ) (u : UnitOfWork) → IsSoundWithin g n u → n < m
        → numbers_below m u.now.process ≡ true }
    ensures once { (g n : ℕ) (u : UnitOfWork) → IsSoundWithin g n u
        → u.now.process.generation ≤ raised_by u.held g }
{}

/// Where the root is the only activity, and has no timer, that stays so but behind DEFINE ACTIVITY and DEFINE TIMER
/// in an activity's frame.
pub fn a_lone_root_stays_alone()
    ensures starts { (kind : UnitKind) (moment : ℕ) (s : Process) → may_begin kind s ≡ true
        → IsSoundInFrames [] s → is_lone s ≡ true → IsSoundLone (start kind moment s) }
    ensures calls { (u : UnitOfWork) (c : Command) → length u.frames ≤ 1 → IsGiven c
        → is_of_one_frame (top_path u.frames) c ≡ true → makes_more_in (top_path u.frames) c ≡ false
        → IsSoundLone u → IsSoundLone (call u c).1 }
    ensures stops { (code : Name) (u : UnitOfWork) → IsSoundLone u → IsSoundLone (abended_whole code u) }
{}

/// Behind so many committed units no generation is above their number, and no last entry number above 512 times it: a
/// unit that plays and is committed, of at most 500 calls, makes it one unit more, and one that isn't leaves all as it is.
pub fn a_unit_keeps_the_bound_of_units()
    ensures { (repo : Processes) (e : Ended) (units : ℕ) → AreSound repo → Plays repo e → is_played e.unit ≡ true
        → length e.calls ≤ 500
        → AllByRecursion (λ c. IsGiven c.command × (is_of_one_frame (path_of e.unit) c.command ≡ true)) e.calls
        → bound_of_units units repo ≡ true
        → bound_of_units (cond (is_committed e) (units + 1) units) (after repo e) ≡ true }
{}

/// A frame opens from a mode that the table of the modes has for it, INITIAL or DORMANT, and each end of a frame, waiting,
/// by RETURN or by an abend, leads from the mode that its activity has in a sound unit.
pub fn frames_lead_from_the_modes_of_their_table()
    ensures opens { (key : Key) (path : ActivityPath) (s : Process) (a : Activity)
        → may_begin (unit.Activation key path) s ≡ true → activity_at path s ≡ Some a
        → leads_from frame_opens a.mode ≡ true }
    ensures ends { (u : UnitOfWork) (f : OpenFrame) (below : List OpenFrame) (path : ActivityPath) (a : Activity)
        → IsSoundUnit u → u.frames ≡ f ∷ below → f.at ≡ Some path → activity_at path u.now.process ≡ Some a
        → LeadsToItsEnds a }
{}
