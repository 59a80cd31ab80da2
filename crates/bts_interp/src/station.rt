// Where work is taken from, and where it is brought back.
ghost use Rattle.std.specs.Prelude.{◌≡◌, ◌⊎◌, ℕ, ◌≤◌, List, [], Some, IfSome, true, false, MatchResult};
ghost use Rattle.bts_command.specs.declared.ended.Ended.{Ended};
ghost use Rattle.bts_interp.specs.Jobs as jobs;
ghost use Rattle.bts_interp.specs.Stations.{Answer, Out, Finishes, PutsNone, Takes, answer_of, has_ticket, is_no_memory, without};

use crate::Steps;
use bts_names::Moment;
use std::sync::ledger::Ledger;
use thiserror::Error;

/// What is answered to whoever asks for work.
#[derive(Drop)]
pub enum Work<J> {
    /// A unit to be run.
    Job(J),
    /// An item that needs no run was ended, at this place of the history, from 1.
    Ended { place: u64 },
    /// Something that is out must come back first.
    Wait,
    /// As many activations as are allowed have ended.
    Limit { count: u64 },
    /// All is done.
    Done,
}

/// Why no work is given out.
#[derive(Clone, Copy, Debug, PartialEq, Eq, Error)]
pub enum Refused {
    #[error("no memory")]
    NoMemory,
}

/// Why a unit isn't ended.
#[derive(Clone, Copy, Debug, PartialEq, Eq, Error)]
pub enum FinishError {
    #[error("ticket {ticket} is not out")]
    NotOut { ticket: u64 },
    #[error("no memory")]
    NoMemory,
}

/// Where work is taken from and brought back to: the region, or what stands in front of it. `J` are the jobs that it gives
/// out, and `D` what became of them.
pub trait Station<J, D> {
    /// The job, as the region sees it.
    ghost job: { J → jobs.Job };

    /// What became of it.
    ghost done: { D → jobs.Done };

    /// The units that have ended.
    ghost ended: { Self → List Ended };

    /// The units that are out, with their tickets.
    ghost out: { Self → List Out };

    /// At most so many units end from now on.
    ghost rest: { Self → ℕ };

    /// The ended units are the first ones of the serial history, and what is out is its next one.
    ghost in_order: { Self → Type 0 };

    /// No moment is above this one.
    ghost within: { ℕ → Self → Type 0 };

    /// Whether this answer is due.
    ghost due: { Self → Answer → Type 0 };

    /// Gives out the next unit to be run, or says why there is none. An item that needs no run is ended at once.
    fn take_work(&mut self) -> Result<Work<J>, Refused>
        ensures told { IfSome (answer_of result) (λ a. due self.new a × (self.new ≡ self.old)) }
        ensures exactly { (a : Answer) → due self.old a → (answer_of result ≡ Some a) ⊎ (is_no_memory result ≡ true) }
        ensures takes { Takes job (ended self.old) (ended self.new) (rest self.old) (rest self.new) (out self.old) (out self.new) result }
        ensures order { out self.old ≡ [] → in_order self.old → in_order self.new }
        ensures bound { (b : ℕ) → within b self.old → within b self.new };

    /// Ends the ticket's unit, and answers its place in the history, from 1.
    fn finish<L: Ledger>(
        &mut self,
        brought: D,
        steps: &mut Steps<L>,
    ) -> Result<u64, (FinishError, D)>
        ensures finishes { Finishes done (ended self.old) (ended self.new) (rest self.old) (rest self.new) (out self.old) (out self.new) brought result }
        ensures order { in_order self.old → in_order self.new }
        ensures bound { (b : ℕ) → within b self.old → within b self.new };

    /// Takes the ticket's unit back; it isn't out any more.
    fn give_back(&mut self, given: J) -> Result<(), J>
        ensures ended { PutsNone (ended self.old) (ended self.new) (rest self.old) (rest self.new) }
        ensures out { MatchResult result
            (λ _. (has_ticket (job given).ticket (out self.old) ≡ true) × (out self.new ≡ without (job given).ticket (out self.old)))
            (λ j. (has_ticket (job given).ticket (out self.old) ≡ false) × (j ≡ given) × (self.new ≡ self.old)) }
        ensures order { in_order self.old → in_order self.new }
        ensures bound { (b : ℕ) → within b self.old → within b self.new };

    /// Makes the moment the later one.
    fn advance(&mut self, moment: Moment)
        ensures ended { PutsNone (ended self.old) (ended self.new) (rest self.old) (rest self.new) }
        ensures out { out self.new ≡ out self.old }
        ensures bound { (b : ℕ) → moment ≤ b → within b self.old → within b self.new };

    /// A bound holds with each greater one.
    ghost widens: { (s : Self) (b c : ℕ) → b ≤ c → within b s → within c s };
}
