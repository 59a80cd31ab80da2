// Rows of all activities.
ghost use Rattle.std.specs.Prelude.{◌≡◌, ◌++◌, IfOk, OnOk, map};
ghost use Rattle.std.specs.List.{flat_map};
ghost use Rattle.bts_tree.specs.Keeping as keeping;
ghost use Rattle.bts_tree.specs.Repositories as repo;
ghost use Rattle.bts_tree.specs.Slots.{filled};

use crate::kept::Kept;
use crate::{Activity, Slot};
use bts_names::{Key, NoMemory, Path, Row, Rows};
use std::alloc::Global;
use std::collections::BTreeMap;

/// A row for each activity, in order of keys and paths.
pub(crate) fn rows_of_all(
    alloc: Global,
    map: &BTreeMap<Key, Option<Kept>>,
) -> Result<Rows, NoMemory>
    ensures { IfOk result (λ rows. rows ≡ flat_map repo.rows_of (keeping.processes_of map.now.entries)) }
{
    let mut rows = Rows::new(alloc);
    for (key, slot) in map {
        add_rows(&mut rows, key, slot)?;
    }
    Ok(rows)
}

fn add_rows(rows: &mut Rows, key: &Key, slot: &Option<Kept>) -> Result<(), NoMemory>
    ensures { OnOk result (rows.new ≡ rows.old ++ map (repo.row_of key.now (keeping.generation_in slot.now)) (keeping.activities_in slot.now)) }
{
    let Some(kept) = slot else {
        return Ok(());
    };
    let Some(tree) = &kept.tree else {
        return Ok(());
    };
    add_tree(rows, key, kept.generation, tree.activities())
}

fn add_tree(
    rows: &mut Rows,
    key: &Key,
    generation: u64,
    activities: &BTreeMap<Path, Slot>,
) -> Result<(), NoMemory>
    ensures { OnOk result (rows.new
        ≡ rows.old ++ map (repo.row_of key.now generation) (filled activities.now.entries)) }
{
    for (path, slot) in activities {
        if let Some(activity) = slot.get() {
            rows.push(row_of(key, generation, path, activity))?;
        }
    }
    Ok(())
}

fn row_of(key: &Key, generation: u64, path: &Path, activity: &Activity) -> Row
    ensures { result ≡ repo.row_of key.now generation (path.now, activity.now) }
{
    Row {
        key: *key,
        generation,
        path: *path,
        name: activity.name,
        mode: activity.mode,
        status: activity.status,
        suspended: activity.suspended,
        queued: activity.pool.queued(),
        transid: activity.transid,
        program: activity.program,
    }
}
