// What holds of the histories of a session.
ghost use Rattle.std.specs.Prelude.{◌≡◌, ◌≤◌, ◌++◌, ℕ, List, [], IsTrue, Some, nat_eq};
ghost use Rattle.std.specs.List.{count_by, list_all};
ghost use Rattle.bts_command.specs.declared.ended.Ended.{Ended};
ghost use Rattle.bts_command.specs.declared.ended.UnitKind.{UnitKind};
ghost use Rattle.bts_command.specs.declared.ended.UnitKind.TheVariants as unit;
ghost use Rattle.bts_region.specs.Enabled.{least, works};
ghost use Rattle.bts_region.specs.Histories.{IsLegal};
ghost use Rattle.bts_region.specs.Items.{EachItemOnce, has_ended, items_of};
ghost use Rattle.bts_interp.specs.Items.{numbered};
ghost use Rattle.bts_region.specs.Positions.{Position, behind_all};
ghost use Rattle.bts_region.specs.Regions.{RegionState, all_done, limit_met, offer, position_of, wait, work};
ghost use Rattle.bts_region.specs.Serial.{IsInOrder, IsSerial, activations_in};
ghost use Rattle.bts_tree.specs.Repositories.{Place};
ghost use Rattle.bts_session.specs.declared.session.Session.{Session};

/// Behind a position a session has at most one serial history, and each history in order is a front of it.
pub fn the_serial_history_is_one()
    ensures one { (session : Session) (limit : ℕ) (at : Position) (h k : List Ended)
        → IsSerial session at limit h → IsSerial session at limit k → h ≡ k }
    ensures front { (session : Session) (limit : ℕ) (at : Position) (h k : List Ended)
        → IsInOrder session at limit h → IsSerial session at limit k → (rest : List Ended) × (k ≡ h ++ rest) }
{}

/// Where no work is enabled, every item of the session has ended.
pub fn without_work_every_item_has_ended()
    ensures { (session : Session) (at : Position) → works session at ≡ []
        → IsTrue (list_all (λ x. has_ended at.ended x.0) (numbered session)) }
{}

/// In a legal history no item is done twice. Where it began with no item ended, and no work is left behind it, each item
/// of the session is done once.
pub fn each_item_is_done_once()
    ensures at_most { (session : Session) (at : Position) (h : List Ended) (n : ℕ)
        → IsLegal session at h → count_by (nat_eq n) (items_of h) ≤ 1 }
    ensures each { (session : Session) (at : Position) (h : List Ended) → at.ended ≡ []
        → IsLegal session at h → works session (behind_all at h) ≡ [] → EachItemOnce session h }
{}

/// Where nothing is out, the work on offer is the first one that is enabled. Else as many activations have ended as may,
/// and one comes first; or no work is left.
pub fn the_first_work_is_on_offer()
    ensures work { (r : RegionState) (u : UnitKind) → r.out ≡ [] → offer r ≡ work u → least r.session (position_of r) ≡ Some u }
    ensures limit { (r : RegionState) (count : ℕ) → r.out ≡ [] → offer r ≡ limit_met count
        → (count ≡ activations_in r.history) × (r.limit ≤ count)
        × (p : Place) × (least r.session (position_of r) ≡ Some (unit.Activation p.0 p.1)) }
    ensures none { (r : RegionState) → r.out ≡ [] → offer r ≡ all_done → works r.session (position_of r) ≡ [] }
    ensures wait { (r : RegionState) → r.out ≡ [] → offer r ≡ wait → ⊥ }
{}
