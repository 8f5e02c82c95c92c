//! The sorted map.
ghost use Rattle.std.specs.Prelude.{◌≡◌, ◌<◌, ◌^◌, [], map, true, false, Some, None, length, string_bytes, option_map, is_some, IfOk, IfErr, IfSome, OnOk, OnErr};
ghost use Rattle.std.proofs.Props.{props};
ghost use Rattle.std.specs.Map.{lookup, remove_entry};
ghost use Rattle.std.specs.BTreeMap.{insert_entry, is_at};
ghost use Rattle.sdb_sorted_map.specs.Iter.{remaining_entries};
ghost use Rattle.sdb_sorted_map.specs.MapEntry.{key_value};
ghost use Rattle.sdb_sorted_map.specs.KeyOrder.{IsAscending, IsKeyIndex, IsInsertIndex, compare_bytes};
ghost use Rattle.sdb_sorted_map.specs.SearchModel.{entry_key_bytes, vec_keys};

use crate::iter::Iter;
use crate::map_entry::MapEntry;
use crate::map_key::MapKey;
use crate::search::{count_keys, find_key};
use crate::value_mut::entry_value_mut;
use sdb_chunks::{ChunkedVec, TryClone};
use std::alloc::{AllocError, Global};
use std::collections::BTreeMap;

/// A map sorted by the bytes of its keys, in one chunked list of entries.
///
/// ```
/// // `Number` implements `TryClone`.
/// let mut map = SortedMap::new(alloc);
/// let old = map.insert(alloc, String::from_str(alloc, "a")?, Number(7))?;
/// assert!(rt; old.is_none() && map.get("a").map(|number| number.0) == Some(7));
/// ```
#[derive(Drop)]
pub struct SortedMap<V> {
    entries: ChunkedVec<MapEntry<V>>,
    ghost small: { length (vec_keys entries) < 2 ^ 64 },
    ghost keys_ascending: { IsAscending (vec_keys entries) } by { Prim.hlevel props },
}

impl<V> SortedMap<V> {
    ghost use Rattle.sdb_sorted_map.specs.SortedMap.{map_entries, is_unique_map, is_shared_map, entry_keys, map_keys, map_chunks};

    /// Creates an empty map.
    pub fn new(alloc: Global) -> SortedMap<V>
        ensures members { map_entries result ≡ [] }
        ensures unique { is_unique_map result ≡ true }
    {
        SortedMap {
            entries: ChunkedVec::from_vec(Vec::new(alloc)),
        }
    }

    /// Creates a map from a list of entries that is sorted by key.
    pub fn from_entries(entries: ChunkedVec<MapEntry<V>>) -> SortedMap<V>
        requires bound { length (vec_keys entries) < 2 ^ 64 }
        requires ascending { IsAscending (vec_keys entries) }
        ensures { map_chunks result ≡ entries }
    {
        SortedMap { entries }
    }

    /// Returns the list of entries.
    pub fn into_chunks(self) -> ChunkedVec<MapEntry<V>>
        ensures equal { result ≡ map_chunks self }
        ensures bound { length (vec_keys result) < 2 ^ 64 }
        ensures ascending { IsAscending (vec_keys result) }
    {
        let SortedMap { entries } = self;
        entries
    }

    /// Returns the list of entries.
    pub fn chunks(&self) -> &ChunkedVec<MapEntry<V>>
        ensures equal { result.now ≡ map_chunks self.now }
        ensures bound { length (vec_keys result.now) < 2 ^ 64 }
        ensures ascending { IsAscending (vec_keys result.now) }
    {
        &self.entries
    }

    /// Iterates over the entries, in the order of their keys.
    pub fn iter(&self) -> Iter<'_, V>
        ensures members { remaining_entries result ≡ map_entries self.now }
        ensures ordered { IsAscending (entry_keys (map_entries self.now)) }
    {
        Iter::new(self.entries.iter())
    }

    /// Returns the number of entries.
    pub fn len(&self) -> usize
        ensures { result ≡ length (map_keys self.now) }
    {
        count_keys(&self.entries)
    }

    /// Returns the index of a key.
    ///
    /// # Errors
    ///
    /// The index at which to insert the key, if it is absent.
    pub fn position_of(&self, key: &str) -> Result<usize, usize>
        ensures key_index { IfOk result (λ i. IsKeyIndex (map_keys self.now) key.now i) }
        ensures insert_index { IfErr result (λ i. IsInsertIndex (map_keys self.now) key.now i) }
    {
        find_key(&self.entries, key)
    }

    /// Returns whether a clone is a pointer.
    pub fn is_shared(&self) -> bool
        ensures { result ≡ is_shared_map self.now }
    {
        self.entries.is_shared()
    }

    /// Clones the map by pointer if it is shared, or returns `None`.
    ///
    /// # Errors
    ///
    /// [`AllocError`] if the reference count is at its maximum.
    pub fn clone_shared(&self) -> Result<Option<SortedMap<V>>, AllocError>
        ensures equal { IfOk result (λ o. IfSome o (λ m. map_entries m ≡ map_entries self.now)) }
        ensures shared { IfOk result (λ o. IfSome o (λ m. is_shared_map m ≡ true)) }
        ensures found { IfOk result (λ o. is_some o ≡ is_shared_map self.now) }
    {
        match self.entries.clone_shared()? {
            Some(entries) => Ok(Some(SortedMap { entries })),
            None => Ok(None),
        }
    }
}

impl<V: Drop> SortedMap<V> {
    ghost use Rattle.sdb_sorted_map.specs.SortedMap.{map_entries, is_unique_map};

    /// Creates a map from entries that are sorted by key. Up to 20 entries keep the vector's
    /// memory, more are chunked.
    ///
    /// # Errors
    ///
    /// [`AllocError`] if an allocation fails.
    pub fn from_sorted(alloc: Global, entries: Vec<MapEntry<V>>) -> Result<SortedMap<V>, AllocError>
        requires { IsAscending (entry_key_bytes entries.items) }
        ensures members { IfOk result (λ m. map_entries m ≡ map key_value entries.items) }
        ensures unique { IfOk result (λ m. is_unique_map m ≡ true) }
    {
        Ok(SortedMap {
            entries: ChunkedVec::from_vec_chunked(alloc, entries)?,
        })
    }

    /// Creates a map from a `BTreeMap`.
    ///
    /// # Errors
    ///
    /// [`AllocError`] if an allocation fails.
    pub fn from_map(alloc: Global, entries: BTreeMap<String, V>) -> Result<SortedMap<V>, AllocError>
        ensures members { IfOk result (λ m. map_entries m
            ≡ map (λ e. (string_bytes e.0, e.1)) entries.entries) }
        ensures unique { IfOk result (λ m. is_unique_map m ≡ true) }
    {
        let mut members = Vec::with_capacity(alloc, entries.len())?;
        for (key, value) in entries {
            members.push(MapEntry {
                key: MapKey::new(key),
                value,
            })?;
        }
        SortedMap::from_sorted(alloc, members)
    }
}

impl<V: TryClone> SortedMap<V> {
    ghost use Rattle.sdb_sorted_map.specs.SortedMap.{map_entry_models, is_unique_map};

    /// Returns the value of a key, or `None` if it is absent.
    pub fn get(&self, key: &str) -> Option<&V>
        ensures { option_map (λ v. V.model v.now) result
            ≡ lookup (is_at (compare_bytes key.now)) (map_entry_models V.model self.now) }
    {
        match self.position_of(key) {
            Ok(index) => Some(&self.entries.get(index)?.value),
            Err(_) => None,
        }
    }

    /// Borrows the value of a key mutably. Returns `None` if the key is absent, its chunk is shared
    /// or the entries are in groups.
    pub fn get_mut(&mut self, key: &str) -> Option<&mut V>
        ensures unique { is_unique_map self.old ≡ true → option_map (λ v. V.model v.now) result
            ≡ lookup (is_at (compare_bytes key.now)) (map_entry_models V.model self.old) }
        ensures found { IfSome result (λ v. lookup (is_at (compare_bytes key.now)) (map_entry_models V.model self.old)
            ≡ Some (V.model v.now)) }
    {
        match self.position_of(key) {
            Ok(index) => entry_value_mut(&mut self.entries, index),
            Err(_) => None,
        }
    }

    /// Sets the value of a key and returns its old value. It allocates only if the key is new or a
    /// part is shared.
    ///
    /// # Errors
    ///
    /// [`AllocError`] if an allocation fails. The map is then unchanged.
    pub fn insert(&mut self, alloc: Global, key: String, value: V) -> Result<Option<V>, AllocError>
        ensures ok { OnOk result (map_entry_models V.model self.new
            ≡ insert_entry compare_bytes (map_entry_models V.model self.old) (string_bytes key) (V.model value)) }
        ensures value { IfOk result (λ o. option_map V.model o
            ≡ lookup (is_at (compare_bytes (string_bytes key))) (map_entry_models V.model self.old)) }
        ensures err { OnErr result (map_entry_models V.model self.new ≡ map_entry_models V.model self.old) }
        ensures absent_on_err { is_unique_map self.old ≡ true → OnErr result
            (lookup (is_at (compare_bytes (string_bytes key))) (map_entry_models V.model self.old) ≡ None) }
        ensures unique { is_unique_map self.old ≡ true → is_unique_map self.new ≡ true }
    {
        match self.position_of(key.as_str()) {
            Ok(index) => {
                let member = MapEntry {
                    key: MapKey::new(key),
                    value,
                };
                match self.entries.replace(alloc, index, member)? {
                    Some(old) => Ok(Some(old.value)),
                    None => unreachable!(),
                }
            }
            Err(index) => {
                if self.len() == usize::MAX {
                    return Err(AllocError);
                }
                let member = MapEntry {
                    key: MapKey::new(key),
                    value,
                };
                let _ = self.entries.insert(alloc, index, member)?;
                Ok(None)
            }
        }
    }

    /// Removes a key and returns its value, if present. It allocates only if a part is shared.
    ///
    /// # Errors
    ///
    /// [`AllocError`] if an allocation fails. The map is then unchanged.
    pub fn remove(&mut self, alloc: Global, key: &str) -> Result<Option<V>, AllocError>
        ensures ok { OnOk result (map_entry_models V.model self.new
            ≡ remove_entry (is_at (compare_bytes key.now)) (map_entry_models V.model self.old)) }
        ensures value { IfOk result (λ o. option_map V.model o
            ≡ lookup (is_at (compare_bytes key.now)) (map_entry_models V.model self.old)) }
        ensures err { OnErr result (map_entry_models V.model self.new ≡ map_entry_models V.model self.old) }
        ensures unique { is_unique_map self.old ≡ true → is_unique_map self.new ≡ true }
        ensures shared_on_err { OnErr result (is_unique_map self.old ≡ false) }
    {
        match self.position_of(key) {
            Ok(index) => match self.entries.remove(alloc, index)? {
                Some(member) => Ok(Some(member.value)),
                None => unreachable!(),
            },
            Err(_) => Ok(None),
        }
    }
}
