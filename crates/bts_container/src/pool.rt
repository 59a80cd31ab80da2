// Containers by name.
ghost use Rattle.std.specs.Prelude.{◌≡◌, ◌↔◌, IsTrue, IfOk, OnOk, OnErr, [], length, slice_get};
ghost use Rattle.std.specs.Option.{option_map};
ghost use Rattle.std.specs.List.{IsDistinct};
ghost use Rattle.std.specs.Map.{keys_of};
ghost use Rattle.bts_names.specs.Names.{same};
ghost use Rattle.bts_names.specs.Named.{lookup, is_there};
ghost use Rattle.bts_container.specs.Containers.{IsPool, no_containers, put_container, delete_container, raised};
ghost use Rattle.bts_container.specs.Puts.{refusal_of_put, Answers};

use crate::shared::Shared;
use crate::{Format, PutError};
use bts_names::{Blob, Name16, NoMemory};
use indexmap::IndexMap;
use std::alloc::Global;
use std::marker::Model;

/// The most containers of a pool.
const COUNT_LIMIT: usize = 64;

/// Containers, which contracts see as their format and the list of their names and bytes, in the order of
/// their first puts: at most 64, none longer than the format allows, and no name twice.
#[derive(Drop)]
pub struct ContainerPool {
    format: Format,
    map: IndexMap<Name16, Shared>,
}

impl Model for ContainerPool {
    ghost use Rattle.bts_container.specs.Containers.{Containers, IsPool};

    ghost Value = { Containers };

    ghost view = { λ p. record { format = p.format; items = p.map.entries } };

    ghost invariant = { λ p. IsPool (record { format = p.format; items = p.map.entries }) };
}

impl ContainerPool {
    /// Holds nothing, and has taken no memory yet.
    pub fn new(alloc: Global, format: Format) -> Self
        ensures { result ≡ no_containers format }
    {
        ContainerPool {
            format,
            map: IndexMap::new(alloc),
        }
    }

    /// A pool of these containers in this order. They must be what a pool of this format keeps.
    pub fn from_parts(
        alloc: Global,
        format: Format,
        containers: Vec<(Name16, Blob)>,
    ) -> Result<Self, NoMemory>
        requires { IsPool (record { format = format; items = containers.items }) }
        ensures { IfOk result (λ pool. pool ≡ record { format = format; items = containers.items }) }
    {
        let shared = shared_all(alloc, containers)?;
        let map = map_of(alloc, shared)?;
        Ok(ContainerPool { format, map })
    }

    /// The format that says how long a container may be.
    pub fn format(&self) -> Format
        ensures { result ≡ self.now.format }
    {
        self.format
    }

    /// Puts the pool into the second format, and takes no memory.
    pub fn raise(&mut self)
        ensures { self.new ≡ raised self.old }
    {
        self.format = Format::Two;
    }

    /// Why bytes can't be put under a name: Long, then Limit; None where only memory may be wanting.
    pub fn refuses_put(&self, name: Name16, bytes: &[u8]) -> Option<PutError>
        ensures { result ≡ refusal_of_put name bytes.now self.now }
    {
        refuses_put(self.format, &self.map, &name, bytes)
    }

    /// Puts the bytes under a name: a new name goes last, a present one keeps its place. The bytes are
    /// copied; the name is found in constant time on average.
    pub fn put(&mut self, alloc: Global, name: Name16, bytes: &[u8]) -> Result<(), PutError>
        ensures why { Answers result (refusal_of_put name bytes.now self.old) }
        ensures ok { OnOk result (self.new ≡ put_container name bytes.now self.old) }
        ensures err { OnErr result (self.new ≡ self.old) }
    {
        if let Some(error) = refuses_put(self.format, &self.map, &name, bytes) {
            return Err(error);
        }
        let Ok(blob) = Shared::copy_of(alloc, bytes) else {
            return Err(PutError::NoMemory);
        };
        match self.map.insert(name, blob) {
            Ok(_) => Ok(()),
            Err(_) => Err(PutError::NoMemory),
        }
    }

    /// The bytes under a name, found in constant time on average.
    pub fn get(&self, name: Name16) -> Option<&[u8]>
        ensures { option_map (λ bytes. bytes.now) result ≡ lookup name self.now.items }
    {
        match self.map.get(&name) {
            Some(blob) => Some(blob.as_slice()),
            None => None,
        }
    }

    /// Takes out what stands under a name, and what stood behind it closes up; false where nothing stands
    /// there. The time grows with the number of containers.
    pub fn delete(&mut self, name: Name16) -> bool
        ensures found { result ≡ is_there name self.old.items }
        ensures pool { self.new ≡ delete_container name self.old }
    {
        self.map.shift_remove(&name).is_some()
    }

    /// Takes all containers away.
    pub fn clear(&mut self)
        ensures { self.new ≡ no_containers self.old.format }
    {
        self.map.clear();
    }

    /// How many containers there are.
    pub fn len(&self) -> usize
        ensures { result ≡ length self.now.items }
    {
        self.map.len()
    }

    pub fn is_empty(&self) -> bool
        ensures { IsTrue result ↔ (self.now.items ≡ []) }
    {
        self.map.is_empty()
    }

    /// The name and the bytes at a place, in the order of the first puts and counted from 0; in constant time.
    pub fn get_index(&self, place: usize) -> Option<(Name16, &[u8])>
        ensures { option_map (λ c. (c.0, c.1.now)) result ≡ slice_get self.now.items place }
    {
        match self.map.get_index(place) {
            Some((name, blob)) => Some((*name, blob.as_slice())),
            None => None,
        }
    }

    /// A pool of the same containers in the same format. The bytes are shared, and the time grows with the number of containers.
    pub fn copy(&self, alloc: Global) -> Result<ContainerPool, NoMemory>
        ensures { IfOk result (λ copy. copy ≡ self.now) }
    {
        let containers = copies(alloc, &self.map)?;
        let map = map_of(alloc, containers)?;
        Ok(ContainerPool {
            format: self.format,
            map,
        })
    }

    /// Whether both have the same format, and the same containers in the same order. The time grows with their bytes.
    pub fn same(&self, other: &ContainerPool) -> bool
        ensures { IsTrue result ↔ (self.now ≡ other.now) }
    {
        self.format == other.format && holds_same(&self.map, &other.map)
    }

    /// What every pool keeps, for the proofs of callers; it does nothing.
    pub fn facts(&self)
        ensures { IsPool self.now }
    {
        let _ = &self.map;
    }
}

fn refuses_put(
    format: Format,
    map: &IndexMap<Name16, Shared>,
    name: &Name16,
    bytes: &[u8],
) -> Option<PutError>
    ensures { result ≡ refusal_of_put name.now bytes.now
        (record { format = format; items = map.now.entries }) }
{
    if bytes.len() > format.size_limit() {
        return Some(PutError::Long);
    }
    if map.len() >= COUNT_LIMIT && !map.contains_key(name) {
        return Some(PutError::Limit);
    }
    None
}

fn holds_same(map: &IndexMap<Name16, Shared>, other: &IndexMap<Name16, Shared>) -> bool
    ensures { IsTrue result ↔ (map.now.entries ≡ other.now.entries) }
{
    map.as_slice() == other.as_slice()
}

fn copies(alloc: Global, map: &IndexMap<Name16, Shared>) -> Result<Vec<(Name16, Shared)>, NoMemory>
    ensures { IfOk result (λ copies. copies.items ≡ map.now.entries) }
{
    let mut copies = Vec::new(alloc);
    for (name, blob) in map {
        let bytes = blob.share()?;
        copies.push((*name, bytes))?;
    }
    Ok(copies)
}

fn shared_all(
    alloc: Global,
    containers: Vec<(Name16, Blob)>,
) -> Result<Vec<(Name16, Shared)>, NoMemory>
    ensures { IfOk result (λ shared. shared.items ≡ containers.items) }
{
    let mut shared = Vec::new(alloc);
    let mut rest = containers.into_iter();
    while let Some(container) = rest.next() {
        let bytes = Shared::copy_of(alloc, container.1.as_slice())?;
        shared.push((container.0, bytes))?;
    }
    Ok(shared)
}

fn map_of(
    alloc: Global,
    containers: Vec<(Name16, Shared)>,
) -> Result<IndexMap<Name16, Shared>, NoMemory>
    requires { IsDistinct same (keys_of containers.items) }
    ensures { IfOk result (λ map. map.entries ≡ containers.items) }
{
    let mut map = IndexMap::new(alloc);
    let mut rest = containers.into_iter();
    while let Some(container) = rest.next() {
        if map.insert(container.0, container.1).is_err() {
            return Err(NoMemory);
        }
    }
    Ok(map)
}
