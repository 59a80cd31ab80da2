// Names, as the grammar of the system has them.
ghost use Rattle.std.specs.Prelude.{◌≡◌, ◌&&◌, ◌||◌, ℕ, List, true, false, MatchResult};
ghost use Rattle.std.specs.Cmp.{partial_order_from_own_ties};
ghost use Rattle.std.specs.Cmp.Lexicographic.{slice_cmp};
ghost use Rattle.std.specs.Cmp.Rules.{comparing};
ghost use Rattle.std.specs.Hash as fed;
ghost use Rattle.std.specs.List.{list_all};
ghost use Rattle.std.specs.Ordering.{nat_cmp, as_partial_cmp, eq_by_cmp};
ghost use Rattle.std.specs.Str.{bytes_eq};
ghost use Rattle.std.proofs.Common.{rules, ap};
ghost use Rattle.bts_names.specs.Grammar.{is_name_within, is_word_within, is_name_byte, is_system};
ghost use Rattle.bts_names.specs.Names.{same_exact, root_name, initial_name};

use std::cmp::Ordering;
use std::hash::{Hash, Hasher};
use std::marker::{Model, PhantomData};
use thiserror::Error;

/// The bytes are no name of that kind.
#[derive(Clone, Copy, Debug, PartialEq, Eq, Error)]
#[error("not a name")]
pub struct BadName;

/// What a name is the name of. Names of two kinds are two types.
pub mod kind {
    #[derive(Clone, Copy, Debug)]
    pub struct ProcessType;

    #[derive(Clone, Copy, Debug)]
    pub struct Process;

    /// An activity, event, container or timer.
    #[derive(Clone, Copy, Debug)]
    pub struct Part;

    #[derive(Clone, Copy, Debug)]
    pub struct Transaction;

    #[derive(Clone, Copy, Debug)]
    pub struct Program;

    #[derive(Clone, Copy, Debug)]
    pub struct AbendCode;
}

/// A name of 1 to `MOST` bytes, in an array with zeros behind it. Contracts see it as the list of its
/// bytes, and names stand in the order of these lists.
#[derive(Clone, Copy, Debug)]
pub struct Name<K, const MOST: usize> {
    bytes: [u8; MOST],
    len: usize,
    kind: PhantomData<K>,
}

/// The type of a process.
pub type ProcType = Name<kind::ProcessType, 8>;

/// The name of a process.
pub type ProcName = Name<kind::Process, 36>;

/// The name of an activity, event, container or timer.
pub type Name16 = Name<kind::Part, 16>;

/// The transaction that an activity runs under.
pub type Transid = Name<kind::Transaction, 4>;

/// The name of a program.
pub type ProgName = Name<kind::Program, 8>;

/// The code of an abend.
pub type Abcode = Name<kind::AbendCode, 4>;

impl<K, const MOST: usize> Model for Name<K, MOST> {
    ghost use Rattle.std.specs.Prelude.{◌≡◌, List, ℕ, length, take, true};
    ghost use Rattle.std.proofs.Common.{sym};
    ghost use Rattle.bts_names.specs.Grammar.{is_word_within};
    ghost use Rattle.bts_names.specs.Padded.{padded, IsPadded};

    ghost Value = { List ℕ };

    ghost view = { λ n. take n.len n.bytes };

    ghost invariant = { λ n. IsPadded MOST n.bytes n.len × (is_word_within MOST (take n.len n.bytes) ≡ true) };

    ghost inverse = { λ xs. record { bytes = padded MOST xs; len = length xs; kind = record {} } };

    ghost inverse_ok = { λ s h i. record { bytes = sym h.0.zeros i; len = sym h.0.inside i; kind = record {} } };
}

impl<K, const MOST: usize> PartialEq for Name<K, MOST> {
    ghost eq = { eq_by_cmp (slice_cmp nat_cmp) };

    ghost laws = { Prim.search (comparing, rules) };

    fn eq(&self, other: &Self) -> bool {
        self.as_bytes().cmp(other.as_bytes()) == Ordering::Equal
    }
}

impl<K, const MOST: usize> Eq for Name<K, MOST> {
    ghost laws = { Prim.search (comparing, rules) };
}

impl<K, const MOST: usize> Hash for Name<K, MOST> {
    ghost hash_input = { fed.slice fed.u8 };

    ghost respects_eq = { λ x y h. ap (fed.slice fed.u8) (same_exact x y h) };

    fn hash<H: Hasher>(&self, state: &mut H) {
        self.as_bytes().hash(state);
    }
}

impl<K, const MOST: usize> Ord for Name<K, MOST> {
    ghost cmp = { slice_cmp nat_cmp };

    ghost total = { Prim.search (comparing, rules) };

    ghost matches_partial_cmp = { Prim.search (comparing, rules) };

    ghost matches_eq = { Prim.search (comparing, rules) };

    fn cmp(&self, other: &Self) -> Ordering {
        self.as_bytes().cmp(other.as_bytes())
    }
}

impl<K, const MOST: usize> PartialOrd for Name<K, MOST> {
    ghost partial_cmp = { as_partial_cmp (slice_cmp nat_cmp) };

    ghost laws = { partial_order_from_own_ties (Prim.search (comparing, rules)) (Prim.search (comparing, rules)) };

    fn partial_cmp(&self, other: &Self) -> Option<Ordering> {
        Some(self.cmp(other))
    }
}

impl<K, const MOST: usize> Name<K, MOST> {
    /// Reads a name. BadName comes exactly where the length is outside 1 to `MOST`, a byte is none of a
    /// name's, or the first three bytes are DFH.
    pub fn read(bytes: &[u8]) -> Result<Self, BadName>
        ensures { MatchResult result
            (λ name. (name ≡ bytes.now) × (is_name_within MOST bytes.now ≡ true))
            (λ _. is_name_within MOST bytes.now ≡ false) }
    {
        if is_word(MOST, bytes) && !begins_with_system(bytes) {
            Ok(Name::of(bytes))
        } else {
            Err(BadName)
        }
    }

    /// The bytes of the name.
    pub fn as_bytes(&self) -> &[u8]
        ensures bytes { result.now ≡ self.now }
        ensures word { is_word_within MOST self.now ≡ true }
    {
        &self.bytes[..self.len]
    }

    fn of(bytes: &[u8]) -> Self
        requires { is_word_within MOST bytes.now ≡ true }
        ensures { result ≡ bytes.now }
    {
        let mut padded = [0; MOST];
        padded[..bytes.len()].copy_from_slice(bytes);
        Name {
            bytes: padded,
            len: bytes.len(),
            kind: PhantomData,
        }
    }
}

impl Name<kind::Part, 16> {
    /// The name of each root activity, DFHROOT.
    #[tactic(auto, unfolding(crate::specs::Grammar::is_name_byte))]
    pub fn root() -> Self
        ensures { result ≡ root_name }
    {
        Name::of(b"DFHROOT")
    }

    /// The name of the entry that first wakes an activity, DFHINITIAL.
    #[tactic(auto, unfolding(crate::specs::Grammar::is_name_byte))]
    pub fn initial() -> Self
        ensures { result ≡ initial_name }
    {
        Name::of(b"DFHINITIAL")
    }

    /// Reads a name as `read` does, and DFHINITIAL besides.
    pub fn read_any(bytes: &[u8]) -> Result<Self, BadName>
        ensures { let taken = is_name_within 16 bytes.now || bytes_eq bytes.now initial_name in
            MatchResult result (λ name. (name ≡ bytes.now) × (taken ≡ true)) (λ _. taken ≡ false) }
    {
        if bytes == b"DFHINITIAL".as_slice() {
            Ok(Name::initial())
        } else {
            Name::read(bytes)
        }
    }
}

fn is_word(most: usize, bytes: &[u8]) -> bool
    ensures { result ≡ is_word_within most bytes.now }
{
    !bytes.is_empty() && bytes.len() <= most && are_name_bytes(bytes)
}

fn are_name_bytes(bytes: &[u8]) -> bool
    ensures { result ≡ list_all is_name_byte bytes.now }
{
    bytes.iter().all(|b| tests_byte(*b))
}

#[tactic(auto, unfolding(crate::specs::Grammar::is_name_byte))]
fn tests_byte(b: u8) -> bool
    ensures { result ≡ is_name_byte b }
{
    matches!(b, b'A'..=b'Z' | b'a'..=b'z' | b'0'..=b'9' | b'$' | b'@' | b'#' | b'.' | b'-' | b'_')
}

fn begins_with_system(bytes: &[u8]) -> bool
    ensures { result ≡ is_system bytes.now }
{
    bytes.starts_with(b"DFH")
}
