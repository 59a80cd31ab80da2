// Keeping what stands, so that a scope can go back to it.
ghost use Rattle.std.specs.Prelude.{◌≡◌, ◌≤◌, [], length, take, cond, OnOk, OnErr, IfOk, IfErr, IfSome, Some, None};
ghost use Rattle.std.specs.List.Sorted.{IsStrictlySortedBy};
ghost use Rattle.std.specs.Map.{keys_of};
ghost use Rattle.std.specs.Ordering.{nat_cmp};
ghost use Rattle.std.specs.Cmp.Lexicographic.{slice_cmp};
ghost use Rattle.bts_names.specs.Names.{same};
ghost use Rattle.bts_tree.specs.Activities.{within};
ghost use Rattle.bts_tree.specs.Olds as undo;
ghost use Rattle.bts_tree.specs.Slots as slots;

use crate::Slot;
use crate::old::{Old, OldOwn, Own};
use crate::olds::Olds;
use crate::undoing::write;
use bts_names::{NoMemory, Path};
use std::alloc::Global;
use std::collections::BTreeMap;

/// Puts an activity at a free path, and keeps that it was free where a mark stands. Where there is no memory the
/// slot comes back.
pub(crate) fn add_slot(
    olds: &mut Olds,
    alloc: Global,
    own: &Own,
    map: &mut BTreeMap<Path, Slot>,
    place: Option<usize>,
    path: &Path,
    slot: Slot,
) -> Result<(), Slot>
    requires { IfSome place (λ n. n ≤ length olds.old) }
    ensures rising { IsStrictlySortedBy (slice_cmp nat_cmp) (keys_of map.old.entries) }
    ensures room { OnOk result
        (IsStrictlySortedBy (slice_cmp nat_cmp) (keys_of (slots.roomed path.now map.old.entries))) }
    ensures kept { OnOk result
        (olds.new ≡ undo.kept_maybe own.now map.old.entries place olds.old path.now) }
    ensures put { OnOk result (map.new.entries
        ≡ slots.mapped (slots.put_at path.now slot) (slots.roomed path.now map.old.entries)) }
    ensures same_olds { OnErr result (olds.new ≡ olds.old) }
    ensures same_map { OnErr result (map.new.entries ≡ map.old.entries) }
    ensures back { IfErr result (λ s. s ≡ slot) }
{
    // So it is known here that the paths rise.
    let _ = map.len();
    let len = olds.len();
    if let Err(NoMemory) = keep_maybe(olds, alloc, own, map, place, path) {
        return Err(slot);
    }
    if let Err(NoMemory) = make_room(map, path) {
        olds.truncate(len);
        return Err(slot);
    }
    write(map, path, slot);
    Ok(())
}

fn keep_maybe(
    olds: &mut Olds,
    alloc: Global,
    own: &Own,
    map: &BTreeMap<Path, Slot>,
    place: Option<usize>,
    path: &Path,
) -> Result<(), NoMemory>
    requires { IfSome place (λ n. n ≤ length olds.old) }
    ensures ok { OnOk result
        (olds.new ≡ undo.kept_maybe own.now map.now.entries place olds.old path.now) }
    ensures err { OnErr result (olds.new ≡ olds.old) }
    ensures front { take (length olds.old) olds.new ≡ olds.old }
{
    match place {
        Some(place) => keep_one(olds, alloc, own, map, place, path),
        None => Ok(()),
    }
}

/// Makes a slot for a path, where there is none.
fn make_room(map: &mut BTreeMap<Path, Slot>, path: &Path) -> Result<(), NoMemory>
    ensures ok { OnOk result (map.new.entries ≡ slots.roomed path.now map.old.entries) }
    ensures err { OnErr result (map.new.entries ≡ map.old.entries) }
{
    if map.contains_key(path) {
        return Ok(());
    }
    match map.insert(*path, Slot::empty()) {
        Ok(_) => Ok(()),
        Err(_) => Err(NoMemory),
    }
}

/// Keeps the fields at a path, where they aren't kept yet from a place on.
fn keep_one(
    olds: &mut Olds,
    alloc: Global,
    own: &Own,
    map: &BTreeMap<Path, Slot>,
    place: usize,
    path: &Path,
) -> Result<(), NoMemory>
    requires { place ≤ length olds.old }
    ensures ok { OnOk result (olds.new
        ≡ undo.kept_one own.now map.now.entries place olds.old path.now) }
    ensures err { OnErr result (olds.new ≡ olds.old) }
    ensures place { place ≤ length olds.new }
    ensures front { take (length olds.old) olds.new ≡ olds.old }
{
    if olds.has_from(place, path) {
        return Ok(());
    }
    let old = old_at(alloc, own, map, path)?;
    olds.push(old)
}

/// Keeps the fields at a path, and where `below` is true those of all activities below it. Where there is no memory
/// nothing more is kept.
pub(crate) fn keep_from(
    olds: &mut Olds,
    alloc: Global,
    own: &Own,
    map: &BTreeMap<Path, Slot>,
    place: usize,
    path: &Path,
    below: bool,
) -> Result<(), NoMemory>
    requires { place ≤ length olds.old }
    ensures rising { IsStrictlySortedBy (slice_cmp nat_cmp) (keys_of map.now.entries) }
    ensures ok { OnOk result (olds.new ≡ undo.kept_all own.now map.now.entries place olds.old
        (undo.paths_in path.now below own.now map.now.entries)) }
    ensures err { OnErr result (olds.new ≡ olds.old) }
{
    // So it is known here that the paths rise.
    let _ = map.len();
    let len = olds.len();
    match try_keep(olds, alloc, own, map, place, path, below) {
        Ok(()) => Ok(()),
        Err(failed) => {
            olds.truncate(len);
            Err(failed)
        }
    }
}

fn try_keep(
    olds: &mut Olds,
    alloc: Global,
    own: &Own,
    map: &BTreeMap<Path, Slot>,
    place: usize,
    path: &Path,
    below: bool,
) -> Result<(), NoMemory>
    requires { place ≤ length olds.old }
    ensures ok { OnOk result (olds.new ≡ undo.kept_all own.now map.now.entries place olds.old
        (undo.paths_in path.now below own.now map.now.entries)) }
    ensures front { take (length olds.old) olds.new ≡ olds.old }
{
    keep_one(olds, alloc, own, map, place, path)?;
    if below && own.planted {
        return keep_below(olds, alloc, own, map, place, path);
    }
    Ok(())
}

fn keep_below(
    olds: &mut Olds,
    alloc: Global,
    own: &Own,
    map: &BTreeMap<Path, Slot>,
    place: usize,
    path: &Path,
) -> Result<(), NoMemory>
    requires { place ≤ length olds.old }
    ensures ok { OnOk result (olds.new ≡ undo.kept_all own.now map.now.entries place olds.old
        (keys_of (within path.now (slots.filled map.now.entries)))) }
    ensures front { take (length olds.old) olds.new ≡ olds.old }
{
    for (there, slot) in map {
        if slot.is_filled() && path.is_prefix_of(there) {
            keep_one(olds, alloc, own, map, place, there)?;
        }
    }
    Ok(())
}

fn old_at(
    alloc: Global,
    own: &Own,
    map: &BTreeMap<Path, Slot>,
    path: &Path,
) -> Result<Old, NoMemory>
    ensures { IfOk result (λ old. old ≡ undo.old_at own.now map.now.entries path.now) }
{
    let activity = slot_at(alloc, map, path)?;
    let own = own_at(alloc, own, path)?;
    Ok(Old {
        path: *path,
        activity,
        own,
    })
}

fn slot_at(alloc: Global, map: &BTreeMap<Path, Slot>, path: &Path) -> Result<Slot, NoMemory>
    ensures { IfOk result (λ slot. slot ≡ slots.read path.now map.now.entries) }
{
    match map.get(path) {
        Some(slot) => slot.copy(alloc),
        None => Ok(Slot::empty()),
    }
}

fn own_at(alloc: Global, own: &Own, path: &Path) -> Result<OldOwn, NoMemory>
    ensures { IfOk result (λ kept. kept ≡ cond (same path.now []) (Some own.now) None) }
{
    if *path != Path::root() {
        return Ok(OldOwn::none());
    }
    let copy = own.copy(alloc)?;
    OldOwn::of(alloc, copy)
}
