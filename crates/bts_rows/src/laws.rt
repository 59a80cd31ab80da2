// What holds of every command, in whatever frame it stands.
ghost use Rattle.std.specs.Prelude.{◌≡◌, ◌≤◌, ℕ, ◌+◌, List, [], Option, Some, IsSome, Ok, true, false};
ghost use Rattle.std.specs.List.{list_any};
ghost use Rattle.std.specs.List.Sorted.{IsStrictlySortedBy};
ghost use Rattle.std.specs.Map.{keys_of};
ghost use Rattle.std.specs.Ordering.{nat_cmp};
ghost use Rattle.std.specs.Cmp.Lexicographic.{slice_cmp};
ghost use Rattle.bts_names.specs.Answer.{left_by, reply_of};
ghost use Rattle.bts_names.specs.Names.{ActivityPath, Name, same};
ghost use Rattle.bts_names.specs.declared.state.Mode.TheVariants.{Initial};
ghost use Rattle.bts_command.specs.Given.{IsGiven};
ghost use Rattle.bts_command.specs.Sizes.{got_bytes};
ghost use Rattle.bts_command.specs.declared.command.Command.{Command};
ghost use Rattle.bts_command.specs.declared.command.Command.TheVariants as command;
ghost use Rattle.bts_command.specs.declared.command.Target.{Target};
ghost use Rattle.bts_container.specs.Formats.{size_limit};
ghost use Rattle.bts_container.specs.declared.format.Format.{Format};
ghost use Rattle.bts_tree.specs.declared.activity.Activity.{Activity};
ghost use Rattle.bts_tree.specs.Activities.{is_complete, new_activity};
ghost use Rattle.bts_tree.specs.Leading.{leads_from};
ghost use Rattle.bts_tree.specs.Modes.{is_forced, is_reset};
ghost use Rattle.bts_tree.specs.Processes.{Process, activities, activity_at, format_of};
ghost use Rattle.bts_tree.specs.Soundness.{IsSoundInFrames, is_within};
ghost use Rattle.bts_rows.specs.Along.{PlacedCommand, left_along};
ghost use Rattle.bts_rows.specs.Bounds.{is_lone, makes_more, raised_by};
ghost use Rattle.bts_rows.specs.Families.{AreUsual, IsTop, rearms, resets};
ghost use Rattle.bts_rows.specs.Places.{about_of, find_target, is_family};
ghost use Rattle.bts_rows.specs.Replies.{IsProper, is_normal};
ghost use Rattle.bts_rows.specs.Rows.{act_at, answer, request_in, thing_row};
ghost use Rattle.bts_rows.specs.declared.places.Held.{Held};
ghost use Rattle.bts_rows.specs.declared.places.Here.{Here};
ghost use Rattle.bts_rows.specs.declared.places.Here.TheVariants as here;

/// A reply that is NORMAL has no reason, and every other one has a reason and no value.
pub fn replies_say_why()
    ensures { (h : Here) (held : Held) (depth now : ℕ) (s : Process) (c : Command)
        → IsProper (reply_of (answer h held depth now s c)) }
{}

/// A command on a sound process is answered with no more bytes than a container of its format may have.
pub fn what_is_answered_is_short()
    ensures { (frames : List ActivityPath) (h : Here) (held : Held) (depth now : ℕ) (s : Process) (c : Command)
        → IsSoundInFrames frames s
        → got_bytes (reply_of (answer h held depth now s c)).value ≤ size_limit (format_of s) }
{}

/// A command that isn't answered NORMAL leaves the process, and what the request has acquired, as they were.
pub fn a_refused_command_changes_nothing()
    ensures { (h : Here) (held : Held) (depth now : ℕ) (s : Process) (c : Command)
        → let row = answer h held depth now s c in is_normal (reply_of row).resp ≡ false
        → left_by (s, held) row ≡ (s, held) }
{}

/// Each command leaves a sound process sound, with the same open frames: in the frame of an activity that is there;
/// beside a request's first frame, whatever frames are open; and in that frame where no other is, also what the request
/// acquires. A command on a family asks that no frame is open below its own, and RESET that no child's completion event
/// has the name that the system keeps for itself.
pub fn commands_keep_soundness()
    ensures frame { (frames : List ActivityPath) (path : ActivityPath) (depth now : ℕ) (s : Process) (c : Command)
        → IsSome (activity_at path s) → IsGiven c
        → (is_family (about_of c) ≡ true → IsTop frames (here.Activity path))
        → (rearms (here.Activity path) c ≡ true → AreUsual s) → IsSoundInFrames frames s
        → IsSoundInFrames frames (left_by s (act_at path depth now s c)) }
    ensures acquired { (frames : List ActivityPath) (held : Held) (depth now : ℕ) (s : Process) (c : Command)
        → IsGiven c → (is_family (about_of c) ≡ true → IsTop frames (here.Request held))
        → (resets c ≡ true → AreUsual s) → IsSoundInFrames frames s
        → IsSoundInFrames frames (left_by s (thing_row (here.Request held) depth now s c)) }
    ensures request { (held : Held) (depth now : ℕ) (s : Process) (c : Command)
        → IsGiven c → (resets c ≡ true → AreUsual s)
        → IsSoundInFrames [] s → IsSoundInFrames [] (left_by (s, held) (request_in held depth now s c)).0 }
{}

/// Each command leaves the format of a process as it was: in the frame of an activity; in a request's first frame and
/// beside it; also where it acquires the process or purges it. So do any commands, one after the other.
pub fn commands_keep_the_format()
    ensures frame { (path : ActivityPath) (depth now : ℕ) (s : Process) (c : Command)
        → format_of (left_by s (act_at path depth now s c)) ≡ format_of s }
    ensures beside { (h : Here) (depth now : ℕ) (s : Process) (c : Command)
        → format_of (left_by s (thing_row h depth now s c)) ≡ format_of s }
    ensures request { (held : Held) (depth now : ℕ) (s : Process) (c : Command)
        → format_of (left_by (s, held) (request_in held depth now s c)).0 ≡ format_of s }
    ensures along { (cs : List PlacedCommand) (s : Process)
        → format_of (left_along cs s) ≡ format_of s }
{}

/// Where no child's completion event has the name that the system keeps for itself, none has it behind a command on a
/// sound process.
pub fn commands_keep_names_usual()
    ensures frame { (frames : List ActivityPath) (path : ActivityPath) (depth now : ℕ) (s : Process) (c : Command)
        → IsGiven c → IsSoundInFrames frames s → AreUsual s
        → AreUsual (left_by s (act_at path depth now s c)) }
    ensures request { (frames : List ActivityPath) (held : Held) (depth now : ℕ) (s : Process) (c : Command)
        → IsGiven c → IsSoundInFrames frames s → AreUsual s
        → AreUsual (left_by (s, held) (request_in held depth now s c)).0 }
{}

/// By one command the last entry number of each activity rises by one at most. The generation rises in a request's
/// first frame alone, once, and only by the command that acquires the first thing there.
pub fn numbers_rise_by_one()
    ensures frame { (frames : List ActivityPath) (path : ActivityPath) (depth now g n : ℕ) (s : Process) (c : Command)
        → IsSoundInFrames frames s → is_within g n s ≡ true
        → is_within g (n + 1) (left_by s (act_at path depth now s c)) ≡ true }
    ensures request { (frames : List ActivityPath) (held : Held) (depth now g n : ℕ) (s : Process) (c : Command)
        → IsSoundInFrames frames s → is_within (raised_by held g) n s ≡ true
        → let x = left_by (s, held) (request_in held depth now s c) in is_within (raised_by x.1 g) (n + 1) x.0 ≡ true }
{}

/// Only DEFINE ACTIVITY and DEFINE TIMER make children and timers, and only in an activity's frame: each other command
/// leaves a process whose root is its only activity, and has no timer, so.
pub fn only_definitions_make_more()
    ensures frame { (frames : List ActivityPath) (path : ActivityPath) (depth now : ℕ) (s : Process) (c : Command)
        → makes_more c ≡ false → IsSoundInFrames frames s → is_lone s ≡ true
        → is_lone (left_by s (act_at path depth now s c)) ≡ true }
    ensures request { (frames : List ActivityPath) (held : Held) (depth now : ℕ) (s : Process) (c : Command)
        → IsSoundInFrames frames s → is_lone s ≡ true
        → is_lone (left_by (s, held) (request_in held depth now s c)).0 ≡ true }
{}

/// Where a command changes modes, it leads from modes that the table of the modes has for its cause: what is new is
/// INITIAL; CANCEL is answered NORMAL only where its target, which has no open frame, is INITIAL or DORMANT, and forces
/// what isn't COMPLETE below it from these too; RESET is answered NORMAL only where its target is INITIAL or COMPLETE.
pub fn rows_lead_from_the_modes_of_their_table()
    ensures new { (f : Format) (name transid program : Name) (completion : Option Name)
        → (new_activity f name transid program completion).mode ≡ Initial }
    ensures cancel { (frames : List ActivityPath) (h : Here) (depth now : ℕ) (s : Process) (target : Target)
        → (p : ActivityPath) (a : Activity) → IsSoundInFrames frames s → find_target h s target ≡ Ok p
        → activity_at p s ≡ Some a → list_any (same p) frames ≡ false
        → is_normal (reply_of (thing_row h depth now s (command.Cancel target))).resp ≡ true
        → leads_from is_forced a.mode ≡ true }
    ensures below { (frames : List ActivityPath) (s : Process) (p : ActivityPath) (a : Activity)
        → IsSoundInFrames frames s → activity_at p s ≡ Some a → list_any (same p) frames ≡ false
        → is_complete a ≡ false → leads_from is_forced a.mode ≡ true }
    ensures reset { (h : Here) (depth now : ℕ) (s : Process) (target : Target) (p : ActivityPath) (a : Activity)
        → find_target h s target ≡ Ok p → activity_at p s ≡ Some a
        → is_normal (reply_of (thing_row h depth now s (command.Reset target))).resp ≡ true
        → leads_from is_reset a.mode ≡ true }
{}

/// In an activity's frame a command is read on the part of the process at its path, and the part is joined. That is
/// what it answers and leaves when it is read on the whole process: so it touches nothing outside that part.
pub fn a_frame_reads_its_part()
    ensures { (path : ActivityPath) (depth now : ℕ) (s : Process) (c : Command)
        → IsStrictlySortedBy (slice_cmp nat_cmp) (keys_of (activities s))
        → act_at path depth now s c ≡ thing_row (here.Activity path) depth now s c }
{}
