// A process that a unit of work holds.
ghost use Rattle.std.specs.Prelude.{◌≡◌, ◌↔◌, ◌<◌, ◌&&◌, cond, [], length, slice_get, OnOk, OnErr, IfOk, IfErr, IfSome, IsSome, IsTrue, Some, None, true, false, ◌∷◌, ◌^◌, ◌-◌};
ghost use Rattle.std.specs.Borrow.{sem};
ghost use Rattle.std.specs.List.Sorted.{IsStrictlySortedBy};
ghost use Rattle.std.specs.Map.{keys_of};
ghost use Rattle.std.specs.Option.{option_copied, option_map, unwrap_or};
ghost use Rattle.std.specs.Ordering.{nat_cmp};
ghost use Rattle.std.specs.Cmp.Lexicographic.{slice_cmp};
ghost use Rattle.bts_names.specs.Names.{same};
ghost use Rattle.bts_container.specs.Containers.{no_containers};
ghost use Rattle.bts_tree.specs.Paths.{parent_of};
ghost use Rattle.bts_tree.specs.Processes as process;
ghost use Rattle.bts_tree.specs.Lending.{LendsScopeActivity, LendsContainers};
ghost use Rattle.bts_tree.specs.Olds.{last_of};
ghost use Rattle.bts_tree.specs.Scopes as scope;
ghost use Rattle.bts_tree.specs.Slots.{filled};

use crate::changes::{complete_all, empty_below};
use crate::old::Own;
use crate::olds::Olds;
use crate::saving::{add_slot, keep_from};
use crate::slot_maps::{child_in, copied_slots, count_filled, is_bare, read_slot};
use crate::undoing::undo_to;
use crate::{Activity, Slot, Tree};
use arrayvec::ArrayVec;
use bts_container::{ContainerPool, Format};
use bts_names::{Abcode, Key, Name16, NoMemory, Path, Status};
use std::alloc::Global;
use std::collections::BTreeMap;
use std::marker::Model;

/// A process that a unit of work holds: a copy, which it changes and gives back. Behind a mark the old fields of what
/// is saved are kept, so that it can go back to the mark without memory.
#[derive(Drop)]
pub struct Scope {
    alloc: Global,
    key: Key,
    own: Own,
    slots: BTreeMap<Path, Slot>,
    olds: Olds,
    /// Where the old fields behind each mark begin.
    marks: ArrayVec<usize, 8>,
}

impl Model for Scope {
    ghost use Rattle.bts_tree.specs.Scopes.{HeldProcess};

    ghost Value = { HeldProcess };

    ghost use Rattle.bts_tree.specs.Olds.{shown, IsUndo};

    ghost view = { λ s. shown s.key s.own s.slots.entries s.olds s.marks.items };

    ghost invariant = { λ s. IsUndo s.slots.entries s.olds s.marks.items };
}

impl Scope {
    /// A process whose key was never defined, in a repository of this format.
    pub fn undefined(alloc: Global, format: Format, key: Key) -> Self
        ensures { result ≡ scope.held_whole (process.no_process format key) }
    {
        Scope::from_parts(alloc, key, 0, None, ContainerPool::new(alloc, format))
    }

    /// A process of these parts, held whole.
    pub fn from_parts(
        alloc: Global,
        key: Key,
        generation: u64,
        tree: Option<Tree>,
        containers: ContainerPool,
    ) -> Self
        ensures { result ≡ scope.held_whole
            (record { key = key; generation = generation; tree = tree; containers = containers }) }
    {
        let planted = tree.is_some();
        Scope {
            alloc,
            key,
            own: Own {
                generation,
                planted,
                containers,
            },
            slots: slots_of(alloc, tree),
            olds: Olds::new(alloc),
            marks: ArrayVec::new(),
        }
    }

    /// Takes a process apart, but for its key: generation, tree and containers.
    pub(crate) fn into_parts(self) -> (u64, Option<Tree>, ContainerPool)
        ensures { result ≡ (self.process.generation, self.process.tree, self.process.containers) }
    {
        let Scope {
            alloc: _,
            key: _,
            own,
            slots,
            olds: _,
            marks: _,
        } = self;
        let Own {
            generation,
            planted,
            containers,
        } = own;
        (generation, tree_of(planted, slots), containers)
    }

    /// A scope of the same process, saved paths and marks, for which all is copied.
    pub fn copy(&self, alloc: Global) -> Result<Scope, NoMemory>
        ensures { IfOk result (λ copy. copy ≡ self.now) }
    {
        let own = self.own.copy(alloc)?;
        let slots = copied_slots(alloc, &self.slots)?;
        let olds = self.olds.copy(alloc)?;
        let marks = self.marks.clone()?;
        Ok(Scope {
            alloc,
            key: self.key,
            own,
            slots,
            olds,
            marks,
        })
    }

    /// What every scope keeps, for the proofs of callers; it does nothing.
    pub fn facts(&self)
        ensures top { self.now.top ≡ [] }
        ensures saved { scope.all_saved self.now.marks self.now.saved ≡ None }
        ensures rising { IfSome self.now.process.tree (λ tree. IsStrictlySortedBy (slice_cmp nat_cmp) (keys_of tree)) }
    {
        let _ = self.slots.len();
    }

    pub fn key(&self) -> Key
        ensures { result ≡ self.now.process.key }
    {
        self.key
    }

    /// The format of the process.
    pub fn format(&self) -> Format
        ensures { result ≡ process.format_of self.now.process }
    {
        self.own.containers.format()
    }

    /// How often the key was defined.
    pub fn generation(&self) -> u64
        ensures { result ≡ self.now.process.generation }
    {
        self.own.generation
    }

    /// The containers of the process itself.
    pub fn containers(&self) -> &ContainerPool
        ensures { result.now ≡ self.now.process.containers }
    {
        &self.own.containers
    }

    pub fn has_tree(&self) -> bool
        ensures { result ≡ process.has_tree self.now.process }
    {
        self.own.planted
    }

    /// The activities by rising path, each in its slot; None where there is no tree.
    pub fn activities(&self) -> Option<&BTreeMap<Path, Slot>>
        ensures { option_map (λ m. filled m.now.entries) result ≡ self.now.process.tree }
    {
        if !self.own.planted {
            return None;
        }
        Some(&self.slots)
    }

    /// How many activities there are. The time grows with their number.
    pub fn count(&self) -> usize
        ensures { result ≡ length (process.activities self.now.process) }
    {
        if !self.own.planted {
            return 0;
        }
        count_filled(&self.slots)
    }

    /// The child of that name of the activity at a path, with its own path. The time grows with the number of
    /// activities.
    pub fn child(&self, path: &Path, name: &Name16) -> Option<(Path, &Activity)>
        ensures { option_map (λ x. (x.0, x.1.now)) result
            ≡ process.child_of path.now name.now self.now.process }
    {
        if !self.own.planted {
            return None;
        }
        child_in(&self.slots, path, name)
    }

    /// Whether it is a process whose key was never defined, in a repository of this format.
    pub(crate) fn is_undefined(&self, format: Format) -> bool
        ensures { IsTrue result ↔ (process.no_process format self.now.process.key ≡ self.now.process) }
    {
        self.own.generation == 0 && !self.own.planted && has_nothing(&self.own.containers, format)
    }

    /// Whether this is its tree. The time grows with what stands there.
    pub(crate) fn has_same_tree(&self, tree: &Option<Tree>) -> bool
        ensures { IsTrue result ↔ (tree.now ≡ self.now.process.tree) }
    {
        match tree {
            None => !self.own.planted,
            Some(tree) => self.own.planted && tree.is_in(&self.slots),
        }
    }

    /// The activity at a path, found in logarithmic time.
    pub fn activity(&self, path: &Path) -> Option<&Activity>
        ensures { option_copied result ≡ process.activity_at path.now self.now.process }
    {
        if !self.own.planted {
            return None;
        }
        read_slot(&self.slots, path)
    }

    /// Lends the activity at a path. It must be there, and its path saved.
    pub fn edit(&mut self, path: &Path) -> &mut Activity
        requires there { IsSome (process.activity_at path.now self.old.process) }
        requires saved { scope.IsSaved path.now false self.old }
        ensures* writes_back { sem 𝓛 (LendsScopeActivity self.entry path.now result) }
        ensures value { process.activity_at path.now self.old.process ≡ Some result.now }
    {
        let slot = self.slots.get_mut(path).unwrap();
        slot.edit()
    }

    /// Lends the containers of the process itself. The root's path must be saved.
    pub fn edit_containers(&mut self) -> &mut ContainerPool
        requires { scope.IsSaved [] false self.old }
        ensures* writes_back { sem 𝓛 (LendsContainers self.entry result) }
        ensures value { result.now ≡ self.old.process.containers }
    {
        &mut self.own.containers
    }

    /// Makes the activity at a path COMPLETE, with this status and code: it loses its events, its timers and its
    /// entries, and so do all activities below it. Of these, those that weren't COMPLETE become COMPLETE FORCED,
    /// and all are told. Its own told flag is false unless it is the root. The activity must be there, and its
    /// path and those below it saved. The time grows with the number of activities and of what they lose.
    pub fn complete(&mut self, path: &Path, status: Status, code: Option<Abcode>)
        requires there { IsSome (process.activity_at path.now self.old.process) }
        requires saved { scope.IsSaved path.now true self.old }
        ensures { self.new
            ≡ scope.holding (process.complete path.now status code self.old.process) self.old }
    {
        complete_all(&mut self.slots, path, status, code);
    }

    /// Takes away the activities below a path, and where `itself` is true its own; with the root's own the whole
    /// tree goes, and the process containers. The path must be there, and it and those below it saved. The time
    /// grows with the number of activities.
    pub fn remove_below(&mut self, path: &Path, itself: bool)
        requires there { IsSome (process.activity_at path.now self.old.process) }
        requires saved { scope.IsSaved path.now true self.old }
        ensures { self.new ≡ scope.holding (process.removed path.now itself self.old.process) self.old }
    {
        empty_below(&mut self.slots, path, itself);
        if is_whole(path, itself) {
            self.own.planted = false;
            self.own.containers.clear();
        }
    }

    /// Puts an activity at a path, which is saved then. The path must be free, and its parent there. Where there
    /// is no memory the activity comes back.
    pub fn add(&mut self, path: &Path, activity: Activity) -> Result<(), (NoMemory, Activity)>
        requires free { process.activity_at path.now self.old.process ≡ None }
        requires parent { IsSome (process.activity_at (parent_of path.now) self.old.process) }
        ensures ok { OnOk result (self.new
            ≡ scope.saving (path.now ∷ []) (scope.holding (process.added path.now activity self.old.process) self.old)) }
        ensures leaves { scope.LeavesMarks self.old self.new }
        ensures err { OnErr result (self.new ≡ self.old) }
        ensures back { IfErr result (λ e. e.1 ≡ activity) }
    {
        let slot = match Slot::of(self.alloc, activity) {
            Ok(slot) => slot,
            Err(activity) => return Err((NoMemory, activity)),
        };
        let place = last_place(&self.marks);
        if let Err(slot) = add_slot(
            &mut self.olds,
            self.alloc,
            &self.own,
            &mut self.slots,
            place,
            path,
            slot,
        ) {
            return Err((NoMemory, slot.into_activity()));
        }
        Ok(())
    }

    /// Defines the process once more: the generation rises by 1, and the tree is this root alone, whose path is
    /// saved then. There must be no tree. Where there is no memory the root comes back.
    pub fn plant(&mut self, alloc: Global, root: Activity) -> Result<(), (NoMemory, Activity)>
        requires free { process.has_tree self.old.process ≡ false }
        requires below { self.old.process.generation < 2 ^ 64 - 1 }
        ensures ok { OnOk result (self.new
            ≡ scope.saving ([] ∷ []) (scope.holding (process.planted root self.old.process) self.old)) }
        ensures leaves { scope.LeavesMarks self.old self.new }
        ensures err { OnErr result (self.new ≡ self.old) }
        ensures back { IfErr result (λ e. e.1 ≡ root) }
    {
        // Without a tree no slot is filled.
        if !is_bare(&self.slots) {
            return Err((NoMemory, root));
        }
        let slot = match Slot::of(alloc, root) {
            Ok(slot) => slot,
            Err(root) => return Err((NoMemory, root)),
        };
        let place = last_place(&self.marks);
        let path = Path::root();
        if let Err(slot) = add_slot(
            &mut self.olds,
            alloc,
            &self.own,
            &mut self.slots,
            place,
            &path,
            slot,
        ) {
            return Err((NoMemory, slot.into_activity()));
        }
        self.own.generation += 1;
        self.own.planted = true;
        Ok(())
    }

    /// Makes room for eight marks. The room is part of the scope, so there is always memory for it.
    pub fn reserve_marks(&mut self) -> Result<(), NoMemory>
        ensures { self.new ≡ self.old }
    {
        let _ = &self.marks;
        Ok(())
    }

    /// Makes a path saved, and where `below` is true the paths of all activities below it. NoMemory comes only
    /// where a mark stands. The time grows with what is saved, and with `below` with the number of activities.
    pub fn save(&mut self, path: &Path, below: bool) -> Result<(), NoMemory>
        ensures ok { OnOk result
            (self.new ≡ scope.saving (scope.paths_from path.now below self.old) self.old) }
        ensures saved { OnOk result (scope.IsSaved path.now below self.new) }
        ensures leaves { scope.LeavesMarks self.old self.new }
        ensures err { OnErr result (self.new ≡ self.old) }
        ensures marked { OnErr result (scope.HasMarks self.old) }
    {
        let Some(place) = last_place(&self.marks) else {
            return Ok(());
        };
        keep_from(
            &mut self.olds,
            self.alloc,
            &self.own,
            &self.slots,
            place,
            path,
            below,
        )
    }

    /// How many marks stand.
    pub fn mark_count(&self) -> u64
        ensures { result ≡ length self.now.marks }
    {
        self.marks.len() as u64
    }

    /// Marks what stands, and answers the mark's place. No path is saved then. No memory is taken.
    pub fn mark(&mut self) -> u64
        requires { length self.old.marks < scope.mark_limit }
        ensures place { result ≡ length self.old.marks }
        ensures value { self.new ≡ scope.marked self.old }
    {
        let place = self.marks.len();
        self.marks.push(self.olds.len());
        place as u64
    }

    /// Goes back to a mark: the process and the saved paths are those of that time, and this mark and the later
    /// ones go. No memory is taken. The time grows with what was saved behind the mark.
    pub fn back_to(&mut self, mark: u64)
        requires { mark < length self.old.marks }
        ensures { self.new ≡ scope.gone_back mark self.old }
    {
        if let Some(place) = place_of(&self.marks, mark) {
            undo_to(&mut self.own, &mut self.slots, &mut self.olds, place);
            self.marks.truncate(mark as usize);
        }
    }

    /// Removes a mark and the later ones, and leaves the process. What was saved at them stays saved. No memory is
    /// taken.
    pub fn keep(&mut self, mark: u64)
        requires { mark < length self.old.marks }
        ensures { self.new ≡ scope.kept mark self.old }
    {
        if mark == 0 {
            self.olds.clear();
            self.marks.clear();
        } else {
            self.marks.truncate(mark as usize);
        }
    }
}

fn place_of(marks: &ArrayVec<usize, 8>, mark: u64) -> Option<usize>
    ensures { result ≡ slice_get marks.now.items mark }
{
    marks.as_slice().get(mark as usize).copied()
}

fn last_place(marks: &ArrayVec<usize, 8>) -> Option<usize>
    ensures { result ≡ last_of None marks.now.items }
{
    marks.as_slice().last().copied()
}

/// The slots of a tree, or none.
fn slots_of(alloc: Global, tree: Option<Tree>) -> BTreeMap<Path, Slot>
    ensures { filled result.entries ≡ unwrap_or tree [] }
{
    match tree {
        Some(tree) => tree.into_slots(),
        None => BTreeMap::new(alloc),
    }
}

/// The tree of these slots, if there is to be one.
fn tree_of(planted: bool, slots: BTreeMap<Path, Slot>) -> Option<Tree>
    ensures { result ≡ cond planted (Some (filled slots.entries)) None }
{
    if !planted {
        return None;
    }
    Some(Tree::of_slots(slots))
}

fn has_nothing(containers: &ContainerPool, format: Format) -> bool
    ensures { IsTrue result ↔ (no_containers format ≡ containers.now) }
{
    containers.format() == format && containers.is_empty()
}

fn is_whole(path: &Path, itself: bool) -> bool
    ensures { result ≡ (itself && same path.now []) }
{
    itself && *path == Path::root()
}
