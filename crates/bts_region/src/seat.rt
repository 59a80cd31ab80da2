// A region as a station.
ghost use Rattle.std.specs.Prelude.{◌≡◌, ◌⊎◌, ◌≤◌, ℕ, [], IfOk, IfErr, IfSome, MatchResult, Some, true, false};
ghost use Rattle.bts_interp.specs.Stations.{Answer, Finishes, PutsNone, Takes, answer_of, has_ticket, is_no_memory, without};
ghost use Rattle.bts_region.specs.Answers.{CountsLast, Ends, Fits, Refuses, TakesOffer, offer_alone, with_moment, with_out};
ghost use Rattle.bts_region.specs.AsStation.{IsDue, IsRegionWithin, rest_of};
ghost use Rattle.bts_region.specs.Regions.{IsRegionInOrder};

use crate::region::Region;
use bts_interp::{Done, FinishError, Job, Naming, Refused, Station, Steps, Work};
use bts_names::Moment;
use std::sync::ledger::Ledger;

impl<N: Naming> Station<Job<N>, Done<N>> for Region<N> {
    ghost use Rattle.bts_region.specs.AsStation.{IsDue, IsRegionWithin, rest_of};
    ghost use Rattle.bts_region.specs.Regions.{IsRegionInOrder};
    ghost use Rattle.bts_region.specs.Widens.{region_widens};

    ghost job = { λ j. j };

    ghost done = { λ d. d };

    ghost ended = { λ s. s.history };

    ghost out = { λ s. s.out };

    ghost rest = { λ s. rest_of s };

    ghost in_order = { λ s. IsRegionInOrder s };

    ghost within = { λ b s. IsRegionWithin b s };

    ghost due = { λ s a. IsDue s a };

    fn take_work(&mut self) -> Result<Work<Job<N>>, Refused>
        ensures told { IfSome (answer_of result) (λ a. IsDue self.new a × (self.new ≡ self.old)) }
        ensures exactly { (a : Answer) → IsDue self.old a → (answer_of result ≡ Some a) ⊎ (is_no_memory result ≡ true) }
        ensures takes { Takes (λ j. j) self.old.history self.new.history (rest_of self.old) (rest_of self.new) self.old.out self.new.out result }
        ensures order { self.old.out ≡ [] → IsRegionInOrder self.old → IsRegionInOrder self.new }
        ensures bound { (b : ℕ) → IsRegionWithin b self.old → IsRegionWithin b self.new }
        ensures offer { TakesOffer self.old self.new (offer_alone self.old self.old.out) result }
    {
        let work = Region::take_work(self);
        self.facts();
        work
    }

    fn finish<L: Ledger>(
        &mut self,
        done: Done<N>,
        steps: &mut Steps<L>,
    ) -> Result<u64, (FinishError, Done<N>)>
        ensures finishes { Finishes (λ d. d) self.old.history self.new.history (rest_of self.old) (rest_of self.new) self.old.out self.new.out done result }
        ensures order { IsRegionInOrder self.old → IsRegionInOrder self.new }
        ensures bound { (b : ℕ) → IsRegionWithin b self.old → IsRegionWithin b self.new }
        ensures ok { IfOk result (λ place. Ends self.old self.new done place) }
        ensures err { IfErr result (λ e. (e.1 ≡ done) × (self.new ≡ self.old) × Refuses self.old done e.0) }
        ensures steps { Fits self.old done → steps.new ≡ steps.old }
        ensures again { (Fits self.old done → ⊥) → IfOk result (λ place. CountsLast self.old self.new steps.old steps.new) }
    {
        self.facts_of_out();
        let ended = Region::finish(self, done, steps);
        self.facts();
        ended
    }

    fn give_back(&mut self, job: Job<N>) -> Result<(), Job<N>>
        ensures ended { PutsNone self.old.history self.new.history (rest_of self.old) (rest_of self.new) }
        ensures out { MatchResult result
            (λ _. (has_ticket job.ticket self.old.out ≡ true) × (self.new.out ≡ without job.ticket self.old.out))
            (λ j. (has_ticket job.ticket self.old.out ≡ false) × (j ≡ job) × (self.new ≡ self.old)) }
        ensures order { IsRegionInOrder self.old → IsRegionInOrder self.new }
        ensures bound { (b : ℕ) → IsRegionWithin b self.old → IsRegionWithin b self.new }
        ensures rest { self.new ≡ with_out self.new.out self.old }
    {
        Region::give_back(self, job)
    }

    fn advance(&mut self, moment: Moment)
        ensures ended { PutsNone self.old.history self.new.history (rest_of self.old) (rest_of self.new) }
        ensures out { self.new.out ≡ self.old.out }
        ensures bound { (b : ℕ) → moment ≤ b → IsRegionWithin b self.old → IsRegionWithin b self.new }
        ensures moment { self.new ≡ with_moment moment self.old }
    {
        Region::advance(self, moment);
    }

    ghost widens = { λ s b c le w. region_widens s b c le w };
}
