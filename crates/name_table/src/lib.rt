//! Names and their numbers, in the order in which they were first seen.
#![tactic(auto)]

ghost use Rattle.std.specs.Prelude.{◌≡◌, ◌+◌, ◌<◌, ◌≤◌, ◌∷◌, ◌++◌, [], None, Some, Err, IfOk, OnErr, IfSome, IfNone, length, map, slice_get, string_bytes};
ghost use Rattle.indexmap.specs.IndexMap.{index_map_len, keys};
ghost use Rattle.name_table.specs.Names.{AreDifferent, place_of, with_name};

use indexmap::IndexMap;
use plan_base::NoMemory;
use std::alloc::{AllocError, AllocFailed, Global};
use std::marker::Model;

/// The most names that a table holds.
pub const NAME_LIMIT: usize = 131_072;

/// Why a name gets no number.
#[derive(Clone, Copy, Debug, PartialEq, Eq)]
pub enum NameFault {
    /// The name is new, and the table holds `NAME_LIMIT` names.
    Full,
    /// Memory could not be had.
    NoMemory,
}

/// Different names in the order in which they were first seen. The number of a name is its place.
#[derive(Drop)]
pub struct Names {
    alloc: Global,
    /// The names in their order, as the keys of a map. `IndexSet` is such a map, but what it states beside would be written into
    /// every library above.
    by_name: IndexMap<String, ()>,
}

impl Model for Names {
    ghost use Rattle.std.specs.Prelude.{List, ℕ, ◌≤◌, map, string_bytes};
    ghost use Rattle.indexmap.specs.IndexMap.{index_map_len, keys};

    ghost Value = { List (List ℕ) };

    ghost view = { λ n. map string_bytes (keys n.by_name) };

    ghost invariant = { λ n. index_map_len n.by_name ≤ 131072 };
}

// The place of a name.
fn place_in(by_name: &IndexMap<String, ()>, name: &str) -> Option<usize>
    ensures place { result ≡ place_of (map string_bytes (keys by_name.now)) name.now }
    ensures within { IfSome result (λ place. place < index_map_len by_name.now) }
{
    by_name.get_index_of(name)
}

// Puts a new name at the end, or answers None where memory could not be had.
fn append(by_name: &mut IndexMap<String, ()>, name: String) -> Option<usize>
    requires { place_of (map string_bytes (keys by_name.old)) (string_bytes name) ≡ None }
    ensures place { IfSome result (λ place. place ≡ index_map_len by_name.old) }
    ensures names { IfSome result (λ place. map string_bytes (keys by_name.new) ≡ map string_bytes (keys by_name.old) ++ string_bytes name ∷ []) }
    ensures len { IfSome result (λ place. index_map_len by_name.new ≡ index_map_len by_name.old + 1) }
    ensures same { IfNone result (map string_bytes (keys by_name.new) ≡ map string_bytes (keys by_name.old)) }
{
    let Ok((place, _)) = by_name.insert_full(name, ()) else {
        return None;
    };
    Some(place)
}

impl Names {
    /// No names. It takes no memory.
    pub fn make(alloc: Global) -> Names
        ensures { result ≡ [] }
    {
        Names {
            alloc,
            by_name: IndexMap::new(alloc),
        }
    }

    /// The number of a name, which is appended where it is new.
    ///
    /// # Errors
    ///
    /// `Full` where the name is new and there are `NAME_LIMIT` names. After an error the names are as before.
    pub fn intern(&mut self, name: &str) -> Result<u32, NameFault>
        ensures place { IfOk result (λ id. place_of self.new name.now ≡ Some id) }
        ensures names { IfOk result (λ id. self.new ≡ with_name self.old name.now) }
        ensures full { result ≡ Err NameFault.Full → (place_of self.old name.now ≡ None) × (length self.old ≡ NAME_LIMIT) }
        ensures room { IfOk result (λ id. id < NAME_LIMIT) }
        ensures err { OnErr result (self.new ≡ self.old) }
    {
        if let Some(place) = place_in(&self.by_name, name) {
            return Ok(place as u32);
        }
        if self.by_name.len() >= NAME_LIMIT {
            return Err(NameFault::Full);
        }
        let Ok(owned) = String::from_str(self.alloc, name) else {
            return Err(NameFault::NoMemory);
        };
        let Some(place) = append(&mut self.by_name, owned) else {
            return Err(NameFault::NoMemory);
        };
        Ok(place as u32)
    }

    /// The number of a name, where it is there.
    pub fn find(&self, name: &str) -> Option<u32>
        ensures place { result ≡ place_of self.now name.now }
        ensures within { IfSome result (λ id. id < length self.now) }
        ensures named { IfSome result (λ id. slice_get self.now id ≡ Some name.now) }
    {
        match place_in(&self.by_name, name) {
            Some(place) => Some(place as u32),
            None => None,
        }
    }

    /// The name of a number.
    pub fn name_of(&self, id: u32) -> &str
        requires { id < length self.now }
        ensures name { slice_get self.now id ≡ Some result.now }
        // No other name is the same.
        ensures place { place_of self.now result.now ≡ Some id }
    {
        prove!(id < self.len());
        self.by_name.keys().as_slice()[id as usize].as_str()
    }

    /// How many names there are.
    pub fn len(&self) -> u32
        ensures length { result ≡ length self.now }
        ensures limit { length self.now ≤ NAME_LIMIT }
        ensures different { AreDifferent self.now }
    {
        self.by_name.len() as u32
    }
}
