// What holds of the texts of a session.
ghost use Rattle.std.specs.Prelude.{◌≡◌, ◌≤◌, ℕ, List, [], true};
ghost use Rattle.bts_command.specs.Sizes.{data_bytes};
ghost use Rattle.bts_command.specs.declared.command.Call.{Call};
ghost use Rattle.bts_command.specs.declared.ended.End.{End};
ghost use Rattle.bts_command.specs.declared.ended.UnitKind.{UnitKind};
ghost use Rattle.bts_tree.specs.Processes.{Process, format_of};
ghost use Rattle.bts_tree.specs.Soundness.{IsSoundInFrames};
ghost use Rattle.bts_unit.specs.Frames.{start};
ghost use Rattle.bts_unit.specs.OneFrame.{may_begin};
ghost use Rattle.bts_unit.specs.Calls.{unit_behind};
ghost use Rattle.bts_session.specs.Sizes.{IsShortSession};
ghost use Rattle.bts_session.specs.declared.session.Session.{Session};
ghost use Rattle.bts_interp.specs.Budgets.{data_limit};
ghost use Rattle.bts_interp.specs.Items.{texts_of};
ghost use Rattle.bts_interp.specs.Ready.{AreExecutable};
ghost use Rattle.bts_interp.specs.Short.{AreShortTexts, most_data};
ghost use Rattle.bts_interp.specs.Talks.{Follows, IsTalk};
ghost use Rattle.bts_interp.specs.Texts.{Texts};

/// In a request or an activation the texts allow one list of calls, with the replies that the commands give, and one
/// end.
pub fn texts_allow_one_talk()
    ensures { (texts : Texts) (kind : UnitKind) (moment : ℕ) (s : Process) (a b : List Call) (e f : End)
        → let u = start kind moment s in IsTalk texts u a e → IsTalk texts u b f
        → (unit_behind u a).calls ≡ a → (unit_behind u b).calls ≡ b → (a ≡ b) × (e ≡ f) }
{}

/// A unit that follows texts, of which no statement says more bytes for a container than so many, carries no more than
/// those, the 8,388,608 that may stand in front of its last call, and those of the longest container of the process's
/// format, which this call may be answered: 32,768 in the first one.
pub fn what_a_unit_carries_is_short()
    ensures of_texts { (most : ℕ) (texts : Texts) (kind : UnitKind) (moment : ℕ) (s : Process) (calls : List Call)
        → data_limit ≤ most → AreShortTexts most texts → AreExecutable texts → may_begin kind s ≡ true → IsSoundInFrames [] s
        → let u = start kind moment s in (unit_behind u calls).calls ≡ calls → Follows texts u calls
        → data_bytes calls ≤ most_data (format_of s) most }
    ensures of_a_session { (most : ℕ) (session : Session) (kind : UnitKind) → IsShortSession most session
        → AreShortTexts most (texts_of session kind) }
{}
