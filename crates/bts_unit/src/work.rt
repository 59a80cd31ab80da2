// What a unit of work is doing.
ghost use Rattle.std.specs.Prelude.{◌≡◌};
ghost use Rattle.bts_unit.specs.Frames.{top_frame};
ghost use Rattle.bts_unit.specs.OnWork as on;

use crate::frame::Frame;
use bts_command::End;
use bts_names::{Moment, Path, ProgName};
use bts_rows::Held;
use bts_tree::Scope;

/// The first frame of a unit.
#[derive(Drop)]
pub(crate) struct FirstFrame {
    /// The activity whose frame it is; a request's first frame has none.
    pub at: Option<Path>,
    /// The program of that activity when the frame opened.
    pub program: Option<ProgName>,
    /// Whether an entry was retrieved in it.
    pub retrieved: bool,
}

/// A unit behind some calls.
#[derive(Drop)]
pub(crate) struct Work {
    pub moment: Moment,
    /// The process at its start.
    pub base: Scope,
    /// The process now, with one mark at the unit's start; without a mark where it has ended.
    pub scope: Scope,
    pub held: Held,
    /// None where it has ended.
    pub frame: Option<FirstFrame>,
    pub end: Option<End>,
}

impl Work {
    /// Its open frame, as callers see it.
    pub(crate) fn top_frame(&self) -> Option<Frame>
        ensures { result ≡ top_frame (on.frames_of self.now.frame self.now.scope) }
    {
        let frame = self.frame.as_ref()?;
        Some(Frame {
            at: frame.at,
            program: frame.program,
            depth: 1,
        })
    }
}
