// A unit of work with one frame.
ghost use Rattle.std.specs.Prelude.{◌≡◌, ◌<◌, ◌+◌, ◌-◌, ◌^◌, ℕ, IsTrue, IfOk, OnOk, OnErr, IfErr, IfSome, Some, None, is_none, is_some, true, false, length, ◌++◌, ◌∷◌, []};
ghost use Rattle.std.specs.List.{slice_get};
ghost use Rattle.std.specs.Option.{option_map};
ghost use Rattle.bts_tree.specs.Scopes.{held_whole};
ghost use Rattle.bts_tree.specs.Soundness.{IsSoundInFrames, is_within, numbers_below};
ghost use Rattle.bts_rows.specs.Bounds.{is_lone, raised_by};
ghost use Rattle.bts_command.specs.Given.{IsGiven};
ghost use Rattle.bts_act.specs.Early.{none_early};
ghost use Rattle.bts_unit.specs.Calls as calls;
ghost use Rattle.bts_unit.specs.Ends.{abended_whole};
ghost use Rattle.bts_unit.specs.Frames as frames;
ghost use Rattle.bts_unit.specs.OneFrame.{is_of_one_frame, may_begin};
ghost use Rattle.bts_unit.specs.Replays.{top_path};
ghost use Rattle.bts_unit.specs.Soundness.{IsSoundLone, IsSoundUnit, IsSoundWithin, makes_more_in};

use crate::beginning::begin;
use crate::change::Change;
use crate::ending::abend;
use crate::frame::Frame;
use crate::performing::perform;
use crate::work::Work;
use bts_command::{Call, Calls, Command, UnitKind};
use bts_names::{Abcode, Moment, NoMemory, Reply};
use bts_tree::Scope;
use std::alloc::Global;
use std::marker::Model;

/// A request or an activation at work: commands are done in its frame, one after the other, until one of them
/// ends it. Contracts see it with the account of the entries that were made, retrieved and dropped; that account
/// is told by its calls, and is neither kept nor computed.
#[derive(Drop)]
pub struct Unit {
    alloc: Global,
    kind: UnitKind,
    work: Work,
    calls: Vec<Call>,
    /// The code with which all frames were ended at once.
    stopped: Option<Abcode>,
}

impl Model for Unit {
    ghost use Rattle.bts_unit.specs.Frames.{UnitOfWork};
    ghost use Rattle.bts_unit.specs.Replays.{IsWorkOf, behind_calls};

    ghost Value = { UnitOfWork };

    ghost view = { λ u. behind_calls u.kind u.work u.calls.items u.stopped };

    ghost invariant = { λ u. IsWorkOf u.work u.calls.items u.stopped (behind_calls u.kind u.work u.calls.items u.stopped) };
}

impl Unit {
    /// Begins a request, or an activation that is enabled. The process is copied once, to be compared with; an abend
    /// goes back to a mark at its start, and the marks that stood before go. Where there is no memory the process
    /// comes back.
    pub fn start(
        alloc: Global,
        scope: Scope,
        unit: UnitKind,
        moment: Moment,
    ) -> Result<Unit, (NoMemory, Scope)>
        requires { IsTrue (may_begin unit scope.process) }
        ensures ok { IfOk result (λ u. u ≡ frames.start unit moment scope.process) }
        ensures back { IfErr result (λ e. e.1 ≡ scope) }
        ensures sound { IsSoundInFrames [] scope.process → IfOk result (λ u. IsSoundUnit u) }
        ensures within { (g n : ℕ) → IsSoundInFrames [] scope.process → is_within g n scope.process ≡ true
            → IfOk result (λ u. IsSoundWithin g n u) }
        ensures lone { IsSoundInFrames [] scope.process → is_lone scope.process ≡ true
            → IfOk result (λ u. IsSoundLone u) }
    {
        match begin(alloc, scope, &unit, moment) {
            Ok(work) => Ok(Unit {
                alloc,
                kind: unit,
                work,
                calls: Vec::new(alloc),
                stopped: None,
            }),
            Err(failed) => Err(failed),
        }
    }

    /// The process behind the calls so far.
    pub fn scope(&self) -> &Scope
        ensures { result.now.process ≡ self.now.now.process }
    {
        &self.work.scope
    }

    /// Does a command in the frame, and keeps it with its reply, which `last_reply` reads. The unit must not have
    /// ended, and the activity of its frame must be there. In a sound process it is, and no event is fired while its
    /// timer is UNEXPIRED. Where there is no memory the unit is as it was.
    pub fn call(&mut self, command: Command) -> Result<(), NoMemory>
        requires open { is_none self.old.end ≡ true }
        requires there { frames.is_there_at (top_path self.old.frames) self.old.now.process ≡ true }
        requires late { IsTrue (none_early self.old.now.process) }
        requires numbers { IsTrue (numbers_below (2 ^ 64 - 1) self.old.now.process) }
        requires generation { self.old.now.process.generation < 2 ^ 64 - 1 }
        requires given { IsGiven command }
        requires one_frame { IsTrue (is_of_one_frame (top_path self.old.frames) command) }
        ensures ok { OnOk result (self.new ≡ (calls.call self.old command).1) }
        ensures err { OnErr result (self.new ≡ self.old) }
        ensures kept { IsSoundUnit self.old → IsSoundUnit self.new }
        ensures within { (g n : ℕ) → IsSoundWithin g (n + length self.old.calls) self.old
            → IsSoundWithin g (n + length self.new.calls) self.new }
        ensures lone { makes_more_in (top_path self.old.frames) command ≡ false
            → IsSoundLone self.old → IsSoundLone self.new }
    {
        self.calls.reserve(1)?;
        let reply = perform(&mut self.work, self.alloc, &command)?;
        self.calls.push_reserved(Call { command, reply });
        Ok(())
    }

    /// The reply to the last call. There must be one.
    pub fn last_reply(&self) -> &Reply
        requires { 0 < length self.now.calls }
        ensures { Some result.now ≡ option_map (λ c. c.reply) (slice_get self.now.calls (length self.now.calls - 1)) }
    {
        &self.calls[self.calls.len() - 1].reply
    }

    /// The calls so far, with their replies.
    pub fn calls(&self) -> &[Call]
        ensures { result.now ≡ self.now.calls }
    {
        self.calls.as_slice()
    }

    /// The open frame: whose it is, and which program runs in it. There is one as long as the unit hasn't ended.
    pub fn frame(&self) -> Option<Frame>
        ensures top { result ≡ frames.top_frame self.now.frames }
        ensures at { IfSome result (λ f. f.at ≡ top_path self.now.frames) }
        ensures open { is_some result ≡ is_none self.now.end }
    {
        self.work.top_frame()
    }

    /// Ends all frames by an abend, which is that of the first one. The unit must not have ended.
    pub fn abend_all(&mut self, code: Abcode)
        requires { is_none self.old.end ≡ true }
        ensures done { self.new ≡ abended_whole code self.old }
        ensures kept { IsSoundUnit self.old → IsSoundUnit self.new }
        ensures within { (g n : ℕ) → IsSoundWithin g n self.old → IsSoundWithin g n self.new }
        ensures lone { IsSoundLone self.old → IsSoundLone self.new }
    {
        abend(&mut self.work, code);
        self.stopped = Some(code);
    }

    /// Whether its frame has ended.
    pub fn has_ended(&self) -> bool
        ensures { result ≡ is_some self.now.end }
    {
        self.work.end.is_some()
    }

    /// What became of a unit that has ended.
    pub fn end(self) -> Change
        requires { is_some self.end ≡ true }
        ensures base { result.base.process ≡ self.base }
        ensures after { result.after.process ≡ self.now.process }
        ensures whole { (result.base ≡ held_whole self.base) × (result.after ≡ held_whole self.now.process) }
        ensures calls { result.calls ≡ self.calls }
        ensures end { Some result.end ≡ self.end }
        ensures sound { IsSoundUnit self → IsSoundInFrames [] result.after.process }
        ensures within { (g n : ℕ) → IsSoundWithin g n self
            → is_within (raised_by self.held g) n result.after.process ≡ true }
        ensures lone { IsSoundLone self → is_lone result.after.process ≡ true }
    {
        let Unit {
            alloc: _,
            kind: _,
            work,
            calls,
            stopped: _,
        } = self;
        work.into_change(Calls::from_vec(calls))
    }
}
