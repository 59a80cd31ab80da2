// The rounds that are measured.
use crate::fault::Fault;
use crate::growth::put;
use bts_names::{Key, Path};
use bts_tree::Repository;
use std::alloc::Global;
use std::fmt;

/// How many copies were the same as what they were copied from, and how many activities were copied in all.
#[derive(Clone, Copy, Debug, PartialEq, Eq)]
pub struct Done {
    pub same: u32,
    pub copied: u64,
}

impl fmt::Display for Done {
    fn fmt<W: fmt::Write>(&self, f: &mut fmt::Formatter<W>) -> fmt::Result {
        write!(
            f,
            "{} copies the same, {} activities copied",
            self.same, self.copied
        )
    }
}

/// Copies the process of a key, compares the copy with it and puts it back, so many times.
pub fn play(alloc: Global, repo: &mut Repository, key: &Key, rounds: u32) -> Result<Done, Fault> {
    let mut done = Done { same: 0, copied: 0 };
    for _ in 0..rounds {
        let scope = repo.scope(alloc, key, &Path::root())?;
        if repo.same(&scope) {
            done.same = done.same.saturating_add(1);
        }
        done.copied = done.copied.saturating_add(scope.count() as u64);
        put(repo, scope)?;
    }
    Ok(done)
}
