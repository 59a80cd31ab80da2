// What became of a unit of work.
ghost use Rattle.std.specs.Prelude.{◌≡◌, Some, is_some, true};

use crate::work::Work;
use bts_command::{Calls, End};
use bts_tree::Scope;

/// A unit that has ended: the process at its start and behind it, its calls, and its end.
#[derive(Drop)]
pub struct Change {
    pub base: Scope,
    pub after: Scope,
    pub calls: Calls,
    pub end: End,
}

impl Work {
    /// The work of a unit that has ended, with its calls.
    pub(crate) fn into_change(self, calls: Calls) -> Change
        requires { is_some self.end ≡ true }
        ensures base { result.base ≡ self.base }
        ensures after { result.after ≡ self.scope }
        ensures calls { result.calls ≡ calls }
        ensures end { Some result.end ≡ self.end }
    {
        let Work {
            moment: _,
            base,
            scope,
            held: _,
            frame: _,
            end,
        } = self;
        Change {
            base,
            after: scope,
            calls,
            end: end.unwrap(),
        }
    }
}
