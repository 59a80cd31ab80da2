// Programs by name.
ghost use Rattle.std.specs.Prelude.{◌≡◌, false, OnOk, OnErr, [], ◌∷◌, ◌++◌};
ghost use Rattle.std.specs.Option.{option_copied};
ghost use Rattle.bts_names.specs.Named.{lookup, is_there};

use bts_forms::Script;
use bts_names::{NoMemory, ProgName};
use indexmap::IndexMap;
use std::alloc::Global;
use std::marker::Model;

/// Programs, which contracts see as the list of their names and scripts, in the order in which they were put.
/// No name is there twice.
#[derive(Debug, Drop)]
pub struct Programs {
    map: IndexMap<ProgName, Script>,
}

impl Model for Programs {
    ghost use Rattle.std.specs.Prelude.{List};
    ghost use Rattle.std.specs.List.{IsDistinct};
    ghost use Rattle.std.specs.Map.{keys_of};
    ghost use Rattle.bts_names.specs.Names.{Name, same};
    ghost use Rattle.bts_forms.specs.declared.statement.Statement.{Statement};

    ghost Value = { List (Name × List Statement) };

    ghost view = { λ p. p.map.entries };

    ghost invariant = { λ p. IsDistinct same (keys_of p.map.entries) };
}

impl Programs {
    /// Holds nothing, and has taken no memory yet.
    pub fn new(alloc: Global) -> Self
        ensures { result ≡ [] }
    {
        Programs {
            map: IndexMap::new(alloc),
        }
    }

    /// The script of a program, found in constant time on average.
    pub fn get(&self, name: ProgName) -> Option<&Script>
        ensures { option_copied result ≡ lookup name self.now }
    {
        self.map.get(&name)
    }

    pub fn holds(&self, name: ProgName) -> bool
        ensures { result ≡ is_there name self.now }
    {
        self.map.contains_key(&name)
    }

    /// Puts a program behind the others. Its name must be a new one.
    pub fn push(&mut self, name: ProgName, script: Script) -> Result<(), NoMemory>
        requires { is_there name self.old ≡ false }
        ensures ok { OnOk result (self.new ≡ self.old ++ (name, script) ∷ []) }
        ensures err { OnErr result (self.new ≡ self.old) }
    {
        self.map.insert(name, script)?;
        Ok(())
    }
}
