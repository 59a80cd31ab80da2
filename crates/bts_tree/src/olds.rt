// The old fields that a scope keeps, one after the other.
ghost use Rattle.std.specs.Prelude.{◌≡◌, ◌∷◌, ◌++◌, [], length, take, drop, IfNone, IfOk, IsSome, OnOk, OnErr};
ghost use Rattle.std.specs.Option.{option_to_list};
ghost use Rattle.bts_names.specs.Named.{lookup};
ghost use Rattle.bts_tree.specs.Newest.{HasNumber, number_at};
ghost use Rattle.bts_tree.specs.Olds.{has_old};

use crate::old::Old;
use bts_names::{NoMemory, Path};
use std::alloc::Global;
use std::collections::BTreeMap;
use std::marker::Model;

/// An old field, and the place behind the one before it at its path, or 0.
#[derive(Drop)]
pub(crate) struct Entry {
    pub old: Old,
    pub former: usize,
}

/// Old fields in the order in which they were kept. The place behind the newest one at each path is known, so that it
/// is found in logarithmic time whether a path is kept from some place on.
#[derive(Drop)]
pub(crate) struct Olds {
    entries: Vec<Entry>,
    newest: BTreeMap<Path, usize>,
}

impl Model for Olds {
    ghost use Rattle.std.specs.Prelude.{List};
    ghost use Rattle.bts_tree.specs.Newest.{AreNumbered, olds_in};
    ghost use Rattle.bts_tree.specs.declared.old.Old.{Old};

    ghost Value = { List Old };

    ghost view = { λ o. olds_in o.entries.items };

    ghost invariant = { λ o. AreNumbered o.newest.entries o.entries.items };
}

impl Olds {
    pub fn new(alloc: Global) -> Self
        ensures { result ≡ [] }
    {
        Olds {
            entries: Vec::new(alloc),
            newest: BTreeMap::new(alloc),
        }
    }

    pub fn len(&self) -> usize
        ensures { result ≡ length self.now }
    {
        self.entries.len()
    }

    /// Whether an old field at a path stands from a place on.
    pub fn has_from(&self, place: usize, path: &Path) -> bool
        ensures { result ≡ has_old path.now (drop place self.now) }
    {
        place < number_of(&self.newest, path)
    }

    pub fn push(&mut self, old: Old) -> Result<(), NoMemory>
        ensures ok { OnOk result (self.new ≡ self.old ++ old ∷ []) }
        ensures err { OnErr result (self.new ≡ self.old) }
    {
        let path = old.path;
        let former = number_of(&self.newest, &path);
        self.entries.push(Entry { old, former })?;
        let place = self.entries.len();
        if let Err(NoMemory) = give_number(&mut self.newest, &path, place) {
            let _ = self.entries.pop();
            return Err(NoMemory);
        }
        Ok(())
    }

    /// Takes the last one.
    pub fn pop(&mut self) -> Option<Old>
        ensures items { self.old ≡ self.new ++ option_to_list result }
        ensures empty { IfNone result (self.old ≡ []) }
    {
        let Some(entry) = self.entries.pop() else {
            return None;
        };
        let Entry { old, former } = entry;
        put_number(&mut self.newest, &old.path, former);
        Some(old)
    }

    /// Lets go of all from a place on. No memory is taken.
    pub fn truncate(&mut self, place: usize)
        ensures { self.new ≡ take place self.old }
    {
        while self.len() > place {
            let _ = self.pop();
        }
    }

    pub fn clear(&mut self)
        ensures { self.new ≡ [] }
    {
        self.entries.clear();
        self.newest.clear();
    }

    pub fn copy(&self, alloc: Global) -> Result<Olds, NoMemory>
        ensures { IfOk result (λ copy. copy ≡ self.now) }
    {
        let entries = copies(alloc, &self.entries)?;
        let newest = self.newest.clone()?;
        Ok(Olds { entries, newest })
    }
}

fn number_of(newest: &BTreeMap<Path, usize>, path: &Path) -> usize
    ensures { result ≡ number_at path.now newest.now.entries }
{
    match newest.get(path) {
        Some(place) => *place,
        None => 0,
    }
}

fn give_number(
    newest: &mut BTreeMap<Path, usize>,
    path: &Path,
    place: usize,
) -> Result<(), NoMemory>
    ensures ok { OnOk result (HasNumber path.now place newest.old.entries newest.new.entries) }
    ensures err { OnErr result (newest.new.entries ≡ newest.old.entries) }
{
    match newest.insert(*path, place) {
        Ok(_) => Ok(()),
        Err(_) => Err(NoMemory),
    }
}

/// Gives a path that has a number another one.
fn put_number(newest: &mut BTreeMap<Path, usize>, path: &Path, place: usize)
    requires { IsSome (lookup path.now newest.old.entries) }
    ensures { HasNumber path.now place newest.old.entries newest.new.entries }
{
    *newest.get_mut(path).unwrap() = place;
}

fn copies(alloc: Global, entries: &Vec<Entry>) -> Result<Vec<Entry>, NoMemory>
    ensures { IfOk result (λ copies. copies.items ≡ entries.now.items) }
{
    let mut copies = Vec::new(alloc);
    for entry in entries {
        let old = entry.old.copy(alloc)?;
        copies.push(Entry {
            old,
            former: entry.former,
        })?;
    }
    Ok(copies)
}
