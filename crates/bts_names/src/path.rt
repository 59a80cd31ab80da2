// Paths from the root of a process down to an activity.
ghost use Rattle.std.specs.Prelude.{◌≡◌, ◌<◌, ◌≤◌, ◌+◌, ℕ, List, [], ◌∷◌, ◌++◌, length, nat_eq};
ghost use Rattle.std.specs.Cmp.{partial_order_from_own_ties};
ghost use Rattle.std.specs.Cmp.Lexicographic.{slice_cmp};
ghost use Rattle.std.specs.Cmp.Rules.{comparing};
ghost use Rattle.std.specs.Hash as fed;
ghost use Rattle.std.specs.List.{starts_with};
ghost use Rattle.std.specs.Option.{SomeIff};
ghost use Rattle.std.specs.Ordering.{nat_cmp, as_partial_cmp, eq_by_cmp};
ghost use Rattle.std.proofs.Common.{rules, ap};
ghost use Rattle.bts_names.specs.Names.{same_exact};

use std::cmp::Ordering;
use std::hash::{Hash, Hasher};
use std::marker::Model;

/// The child numbers from the root of a process down to an activity, at most 32. Contracts see it as the
/// list of these numbers, and paths stand in the order of these lists.
#[derive(Clone, Copy, Debug)]
pub struct Path {
    numbers: [u32; 32],
    len: usize,
}

impl Model for Path {
    ghost use Rattle.std.specs.Prelude.{◌≤◌, List, ℕ, length, take};
    ghost use Rattle.std.proofs.Common.{sym};
    ghost use Rattle.bts_names.specs.Padded.{padded, IsPadded};

    ghost Value = { List ℕ };

    ghost view = { λ p. take p.len p.numbers };

    ghost invariant = { λ p. IsPadded 32 p.numbers p.len × (p.len ≤ 32) };

    ghost inverse = { λ xs. record { numbers = padded 32 xs; len = length xs } };

    ghost inverse_ok = { λ s h i. record { numbers = sym h.0.zeros i; len = sym h.0.inside i } };
}

impl PartialEq for Path {
    ghost eq = { eq_by_cmp (slice_cmp nat_cmp) };

    ghost laws = { Prim.search (comparing, rules) };

    fn eq(&self, other: &Self) -> bool {
        self.as_slice().cmp(other.as_slice()) == Ordering::Equal
    }
}

impl Eq for Path {
    ghost laws = { Prim.search (comparing, rules) };
}

impl Hash for Path {
    ghost hash_input = { fed.slice fed.u32 };

    ghost respects_eq = { λ x y h. ap (fed.slice fed.u32) (same_exact x y h) };

    fn hash<H: Hasher>(&self, state: &mut H) {
        self.as_slice().hash(state);
    }
}

impl Ord for Path {
    ghost cmp = { slice_cmp nat_cmp };

    ghost total = { Prim.search (comparing, rules) };

    ghost matches_partial_cmp = { Prim.search (comparing, rules) };

    ghost matches_eq = { Prim.search (comparing, rules) };

    fn cmp(&self, other: &Self) -> Ordering {
        self.as_slice().cmp(other.as_slice())
    }
}

impl PartialOrd for Path {
    ghost partial_cmp = { as_partial_cmp (slice_cmp nat_cmp) };

    ghost laws = { partial_order_from_own_ties (Prim.search (comparing, rules)) (Prim.search (comparing, rules)) };

    fn partial_cmp(&self, other: &Self) -> Option<Ordering> {
        Some(self.cmp(other))
    }
}

impl Path {
    /// The path of the root activity, with no number.
    pub fn root() -> Path
        ensures { result ≡ [] }
    {
        Path {
            numbers: [0; 32],
            len: 0,
        }
    }

    /// The path of the child of that number; None exactly where this path has 32 numbers already.
    pub fn child(&self, n: u32) -> Option<Path>
        ensures { SomeIff result (length self.now < 32) (self.now ++ n ∷ []) }
    {
        if self.len == 32 {
            return None;
        }
        let mut numbers = self.numbers;
        numbers[self.len] = n;
        Some(Path {
            numbers,
            len: self.len + 1,
        })
    }

    /// Whether the other path is this one, or begins with it.
    pub fn is_prefix_of(&self, other: &Path) -> bool
        ensures { result ≡ starts_with nat_eq other.now self.now }
    {
        other.as_slice().starts_with(self.as_slice())
    }

    /// The numbers, from the root down.
    pub fn as_slice(&self) -> &[u32]
        ensures numbers { result.now ≡ self.now }
        ensures depth { length self.now ≤ 32 }
    {
        &self.numbers[..self.len]
    }
}
