// All processes.
ghost use Rattle.std.specs.Prelude.{◌≡◌, ◌↔◌, [], IsTrue, IfOk, OnOk, OnErr, IfSome, is_some, Some, None, true, map};
ghost use Rattle.std.specs.List.Sorted.{IsStrictlySortedBy};
ghost use Rattle.std.specs.Option.{option_copied};
ghost use Rattle.bts_container.specs.Formats.{number_of};
ghost use Rattle.bts_names.specs.Keys.{key_cmp};
ghost use Rattle.bts_names.specs.declared.key.Key.{Key};
ghost use Rattle.bts_tree.specs.Indexes.{forgotten, has_key, is_awake, is_still_kept};
ghost use Rattle.bts_tree.specs.Keeping as keeping;
ghost use Rattle.bts_tree.specs.Processes as process;
ghost use Rattle.bts_tree.specs.Repositories as repo;

use crate::due::next_due;
use crate::index::{awake_keys, forget_all_idle, has_work};
use crate::kept::Kept;
use crate::listing::rows_of_all;
use crate::stored::{look_up, make_room, put, raise_all, slots_of};
use crate::walk::{Wanted, next_among, next_key, next_place};
use crate::{Activity, Scope, Tree};
use bts_container::{ContainerPool, Format};
use bts_names::{Key, Moment, Name16, NoMemory, Path, Rows, map_of};
use std::alloc::Global;
use std::collections::{BTreeMap, BTreeSet};
use std::marker::Model;

/// All processes by key, in one format, and an index of those that have an activation to run. Contracts see the format
/// and the list of the processes that were ever defined, by rising key, and the keys for which there is room: those of
/// the index. Every process with an activation to run has its key there; a key stays there, whatever is put under it,
/// until it is given up.
#[derive(Drop)]
pub struct Repository {
    format: Format,
    map: BTreeMap<Key, Option<Kept>>,
    awake: BTreeSet<Key>,
}

impl Model for Repository {
    ghost use Rattle.bts_tree.specs.Indexes.{IsIndex};
    ghost use Rattle.bts_tree.specs.Keeping.{stored_in};
    ghost use Rattle.bts_tree.specs.Repositories.{Stored};

    ghost Value = { Stored };

    ghost view = { λ r. stored_in r.format r.awake.keys r.map.entries };

    ghost invariant = { λ r. IsIndex r.format r.awake.keys r.map.entries };
}

impl Repository {
    /// No process, in the first format, and no memory taken yet.
    pub fn empty(alloc: Global) -> Self
        ensures { result ≡ repo.nothing_stored }
    {
        Repository {
            format: Format::One,
            map: BTreeMap::new(alloc),
            awake: BTreeSet::new(alloc),
        }
    }

    /// A repository of these processes, which stand by rising key, in this format. The index keeps the keys of those
    /// that have an activation to run, and no other. The time grows with the number of activities.
    pub fn from_scopes(alloc: Global, format: Format, scopes: Vec<Scope>) -> Result<Self, NoMemory>
        requires { IsStrictlySortedBy key_cmp (map (λ h. h.process.key) scopes.items) }
        ensures processes { IfOk result (λ r. r.processes
            ≡ record { format = format; items = map (λ h. h.process) scopes.items }) }
        ensures keys { IfOk result (λ r. (key : Key) → has_key key r.room ≡ is_awake key r.processes) }
    {
        let slots = slots_of(alloc, scopes)?;
        let map = map_of(alloc, slots)?;
        let awake = awake_keys(alloc, &map)?;
        Ok(Repository { format, map, awake })
    }

    /// The number of the format, 1 or 2.
    pub fn format(&self) -> u8
        ensures { result ≡ number_of self.now.processes.format }
    {
        self.format.number()
    }

    /// Puts all processes into the second format. The time grows with the number of activities; no memory is taken.
    pub fn raise(&mut self)
        ensures { self.new ≡ record self.old { processes = repo.raised_all self.old.processes } }
    {
        // So it is known here that the keys rise.
        let _ = self.map.len();
        raise_all(&mut self.map);
        self.format = Format::Two;
    }

    fn kept(&self, key: &Key) -> Option<&Kept>
        ensures there { is_some result ≡ repo.is_defined key.now self.now.processes }
        ensures process { keeping.process_or_none self.now.processes.format key.now (option_copied result)
            ≡ repo.process_at key.now self.now.processes }
    {
        look_up(&self.map, key)
    }

    /// How often the key was defined, found in logarithmic time.
    pub fn generation(&self, key: &Key) -> u64
        ensures { result ≡ (repo.process_at key.now self.now.processes).generation }
    {
        match self.kept(key) {
            Some(kept) => kept.generation,
            None => 0,
        }
    }

    /// The least key behind `after` that was ever defined. The time grows with the number of keys.
    pub fn next_key(&self, after: Option<Key>) -> Option<Key>
        ensures { result ≡ repo.first_behind key_cmp after (repo.keys_of_processes self.now.processes) }
    {
        next_key(&self.map, &after)
    }

    /// The tree of a process; None also where the key was never defined.
    pub fn tree(&self, key: &Key) -> Option<&Tree>
        ensures { option_copied result ≡ (repo.process_at key.now self.now.processes).tree }
    {
        self.kept(key)?.tree.as_ref()
    }

    /// The containers of a process; None where the key was never defined.
    pub fn containers(&self, key: &Key) -> Option<&ContainerPool>
        ensures there { is_some result ≡ repo.is_defined key.now self.now.processes }
        ensures value { IfSome result
            (λ c. c.now ≡ (repo.process_at key.now self.now.processes).containers) }
    {
        match self.kept(key) {
            Some(kept) => Some(&kept.containers),
            None => None,
        }
    }

    /// The activity at a path of a process, found in logarithmic time.
    pub fn activity(&self, key: &Key, path: &Path) -> Option<&Activity>
        ensures { option_copied result
            ≡ process.activity_at path.now (repo.process_at key.now self.now.processes) }
    {
        self.tree(key)?.get(path)
    }

    /// Whether an activation of the activity at a path is enabled: it is there, INITIAL or DORMANT, not suspended,
    /// and an entry waits for it.
    pub fn ready(&self, key: &Key, path: &Path) -> bool
        ensures { result ≡ repo.is_ready_at key.now path.now self.now.processes }
    {
        match self.activity(key, path) {
            Some(activity) => activity.is_ready(),
            None => false,
        }
    }

    /// The least activity, by key and path, that stands behind `after` and for which an activation is enabled. Only
    /// processes whose keys are kept are looked at, from the key of `after` on: each costs a look-up and a walk over
    /// its activities, up to the first that is enabled and stands behind.
    pub fn next_ready(&self, after: Option<(Key, Path)>) -> Option<(Key, Path)>
        ensures { result ≡ repo.first_behind repo.place_cmp after (repo.ready_in self.now.processes) }
    {
        // So it is known here that the keys rise.
        let _ = (self.awake.len(), self.map.len());
        next_among(&self.awake, &self.map, Wanted::Ready, &after)
    }

    /// The least activity, by key and path, that stands behind `after`, is COMPLETE and isn't told. The time grows
    /// with the number of activities of the repository.
    pub fn next_notice(&self, after: Option<(Key, Path)>) -> Option<(Key, Path)>
        ensures { result ≡ repo.first_behind repo.place_cmp after (repo.untold_in self.now.processes) }
    {
        next_place(&self.map, Wanted::Untold, &after)
    }

    /// The least timer, by key, path and name, that stands behind `after`, is UNEXPIRED and due at or before this
    /// moment. The time grows with the number of activities and timers of the repository, and with the square of
    /// the number of timers of the activity at `after`.
    pub fn next_due(
        &self,
        now: Moment,
        after: Option<(Key, Path, Name16)>,
    ) -> Option<(Key, Path, Name16)>
        ensures { result
            ≡ repo.first_behind repo.timer_place_cmp after (repo.due_in now self.now.processes) }
    {
        next_due(&self.map, now, &after)
    }

    /// A copy of a process, to be changed by a unit of work. The path is the root's. The time grows with the size
    /// of that process.
    pub fn scope(&self, alloc: Global, key: &Key, path: &Path) -> Result<Scope, NoMemory>
        requires { path.now ≡ [] }
        ensures { IfOk result (λ scope. scope ≡ repo.held_at key.now self.now.processes) }
    {
        match self.kept(key) {
            Some(kept) => {
                let copy = kept.copy(alloc)?;
                Ok(copy.into_scope(alloc, *key))
            }
            None => Ok(Scope::undefined(alloc, self.format, *key)),
        }
    }

    /// Whether a scope is what stands under its key. The time grows with the size of that process.
    pub fn same(&self, scope: &Scope) -> bool
        ensures { IsTrue result
            ↔ (repo.process_at scope.now.process.key self.now.processes ≡ scope.now.process) }
    {
        match self.kept(&scope.key()) {
            Some(kept) => kept.same(scope),
            None => scope.is_undefined(self.format),
        }
    }

    /// Makes room for a process under a key, so that it can be put there without memory. The processes stay as they
    /// are. Logarithmic time.
    pub fn reserve_for(&mut self, key: &Key) -> Result<(), NoMemory>
        ensures ok { OnOk result (self.new ≡ repo.with_room key.now self.old) }
        ensures room { OnOk result (repo.has_room key.now self.new ≡ true) }
        ensures err { OnErr result (self.new ≡ self.old) }
    {
        make_room(&mut self.map, key)?;
        match self.awake.insert(*key) {
            Ok(_) => Ok(()),
            Err(_) => Err(NoMemory),
        }
    }

    /// Puts a process in place of what stands under its key; one that was never defined leaves none there. There must
    /// be room for the key. Logarithmic time, beside that for letting go of what stood there.
    pub fn put_scope(&mut self, scope: Scope)
        requires { repo.has_room scope.process.key self.old ≡ true }
        ensures { self.new ≡ repo.put_held scope self.old }
    {
        put(&mut self.map, scope);
    }

    /// Gives up the room for a key, if its process has no activation to run. The processes stay as they are. The time
    /// is that of a walk over the activities of that process, and of a look-up.
    pub fn forget_idle(&mut self, key: &Key)
        ensures done { self.new ≡ forgotten key.now self.old }
        ensures keys { (k : Key) → has_key k self.new.room ≡ is_still_kept key.now self.old k }
    {
        // So it is known here that the keys rise.
        let _ = self.map.len();
        if !has_work(&self.map, key) {
            self.awake.remove(key);
        }
    }

    /// Gives up the room for each key whose process has no activation to run. The processes stay as they are. The time
    /// is that of `forget_idle` for each key that is kept; no memory is taken.
    pub fn forget_all_idle(&mut self)
        ensures processes { self.new.processes ≡ self.old.processes }
        ensures keys { (key : Key) → has_key key self.new.room ≡ is_awake key self.new.processes }
    {
        // So it is known here that the keys rise.
        let _ = self.map.len();
        forget_all_idle(&mut self.awake, &self.map);
    }

    /// A row for each activity, in order of keys and paths.
    pub fn rows(&self, alloc: Global) -> Result<Rows, NoMemory>
        ensures { IfOk result (λ rows. rows ≡ repo.rows self.now.processes) }
    {
        rows_of_all(alloc, &self.map)
    }
}
