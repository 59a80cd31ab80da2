// What a repository holds under a key.
ghost use Rattle.std.specs.Prelude.{◌≡◌, ◌↔◌, IsTrue, IfOk, None, Some};
ghost use Rattle.std.specs.Option.{option_map};
ghost use Rattle.bts_tree.specs.Keeping as keeping;
ghost use Rattle.bts_tree.specs.Repositories.{raised_tree};
ghost use Rattle.bts_tree.specs.Scopes.{held_whole};

use crate::{Scope, Tree};
use bts_container::ContainerPool;
use bts_names::{Key, NoMemory};
use std::alloc::Global;

/// A process, without its key.
#[derive(Drop)]
pub(crate) struct Kept {
    pub generation: u64,
    pub tree: Option<Tree>,
    pub containers: ContainerPool,
}

impl Kept {
    pub fn copy(&self, alloc: Global) -> Result<Kept, NoMemory>
        ensures { IfOk result (λ copy. copy ≡ self.now) }
    {
        let tree = copy_tree(alloc, &self.tree)?;
        let containers = self.containers.copy(alloc)?;
        Ok(Kept {
            generation: self.generation,
            tree,
            containers,
        })
    }

    /// Puts the process into the second format. No memory is taken.
    pub fn raise(&mut self)
        ensures { self.new ≡ keeping.raised_kept self.old }
    {
        self.containers.raise();
        raise_tree(&mut self.tree);
    }

    pub fn into_scope(self, alloc: Global, key: Key) -> Scope
        ensures { result ≡ held_whole (keeping.process_of key self) }
    {
        let Kept {
            generation,
            tree,
            containers,
        } = self;
        Scope::from_parts(alloc, key, generation, tree, containers)
    }

    /// Whether it is the scope's process, under the scope's key.
    pub fn same(&self, scope: &Scope) -> bool
        ensures { IsTrue result
            ↔ (keeping.process_of scope.now.process.key self.now ≡ scope.now.process) }
    {
        self.generation == scope.generation()
            && scope.has_same_tree(&self.tree)
            && self.containers.same(scope.containers())
    }
}

/// What a repository holds behind a put of this scope: no process where it was never defined.
pub(crate) fn slot_of(scope: Scope) -> Option<Kept>
    ensures { result ≡ keeping.slot_of scope.process }
{
    if scope.generation() == 0 {
        return None;
    }
    Some(kept_of(scope))
}

pub(crate) fn kept_of(scope: Scope) -> Kept
    ensures { result ≡ keeping.kept_of scope.process }
{
    let (generation, tree, containers) = scope.into_parts();
    Kept {
        generation,
        tree,
        containers,
    }
}

fn raise_tree(tree: &mut Option<Tree>)
    ensures { tree.new ≡ option_map raised_tree tree.old }
{
    if let Some(tree) = tree {
        tree.raise();
    }
}

fn copy_tree(alloc: Global, tree: &Option<Tree>) -> Result<Option<Tree>, NoMemory>
    ensures { IfOk result (λ copy. copy ≡ tree.now) }
{
    match tree {
        None => Ok(None),
        Some(tree) => {
            let copy = tree.copy(alloc)?;
            Ok(Some(copy))
        }
    }
}
