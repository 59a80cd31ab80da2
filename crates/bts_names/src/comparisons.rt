// What `==` and the order say of names, paths and keys. The functions do nothing.
ghost use Rattle.std.specs.Prelude.{◌≡◌, ◌↔◌, IsTrue};
ghost use Rattle.std.specs.Cmp.Lexicographic.{slice_cmp};
ghost use Rattle.std.specs.Ordering.{nat_cmp};
ghost use Rattle.bts_names.specs.Keys.{key_cmp};

use crate::{Key, Name, Path};

/// Names are equal exactly where their bytes are, and stand in the order of their bytes.
pub fn names_compare_by_bytes<K, const MOST: usize>(a: &Name<K, MOST>, b: &Name<K, MOST>)
    ensures equal { IsTrue (⟦<Name<K, MOST> as PartialEq>⟧.eq a.now b.now) ↔ (a.now ≡ b.now) }
    ensures order { ⟦<Name<K, MOST> as Ord>⟧.cmp a.now b.now ≡ slice_cmp nat_cmp a.now b.now }
{}

/// Paths are equal exactly where their numbers are, and stand in the order of their numbers.
pub fn paths_compare_by_numbers(a: &Path, b: &Path)
    ensures equal { IsTrue (⟦<Path as PartialEq>⟧.eq a.now b.now) ↔ (a.now ≡ b.now) }
    ensures order { ⟦<Path as Ord>⟧.cmp a.now b.now ≡ slice_cmp nat_cmp a.now b.now }
{}

/// Keys are equal exactly where both their parts are, and stand in order of their types, and then of
/// their names.
pub fn keys_compare_by_type_and_name(a: &Key, b: &Key)
    ensures equal { IsTrue (⟦<Key as PartialEq>⟧.eq a.now b.now) ↔ (a.now ≡ b.now) }
    ensures order { ⟦<Key as Ord>⟧.cmp a.now b.now ≡ key_cmp a.now b.now }
{}
