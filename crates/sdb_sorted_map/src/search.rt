//! The search for a key in a chunked list.
ghost use Rattle.std.specs.List.{flat_map};
ghost use Rattle.std.specs.Prelude.{◌≡◌, ◌≤◌, ◌<◌, ◌-◌, ◌^◌, ℕ, List, length, slice_get, option_map, IfOk, IfErr};
ghost use Rattle.sdb_sorted_map.specs.KeyOrder.{IsAscending, IsAboveAll, IsBelowAll, IsKeyIndex, IsInsertIndex};
ghost use Rattle.sdb_sorted_map.specs.SearchModel.{entry_key_bytes, vec_keys, keys_of_first_runs, keys_of_other_runs, first_key_above, first_key_at_most};

use crate::map_entry::MapEntry;
use sdb_chunks::{Chunk, ChunkGroup, ChunkedVec, Repr};
use std::cmp::Ordering;

// A run of sorted entries: a chunk or a group of chunks.
trait SortedRun {
    // The keys of the run.
    ghost keys: { Self → List (List ℕ) };

    // Returns the first key, or `None` for an empty run.
    fn first_key(&self) -> Option<&str>
        ensures { option_map (λ t. t.now) result ≡ slice_get (keys self.now) 0 };

    // Returns the number of entries.
    fn count(&self) -> u128
        ensures { result ≡ length (keys self.now) };

    // Returns the index of a key, or the index at which to insert it.
    fn find(&self, key: &str) -> Result<usize, usize>
        requires ascending { IsAscending (keys self.now) }
        requires bound { length (keys self.now) < 2 ^ 64 }
        ensures key_index { IfOk result (λ i. IsKeyIndex (keys self.now) key.now i) }
        ensures insert_index { IfErr result (λ i. IsInsertIndex (keys self.now) key.now i) };
}

impl<V> SortedRun for Chunk<MapEntry<V>> {
    ghost use Rattle.sdb_sorted_map.specs.SearchModel.{chunk_keys};

    ghost keys = { chunk_keys };

    fn first_key(&self) -> Option<&str> {
        match self.items().first() {
            Some(member) => Some(member.key.as_str()),
            None => None,
        }
    }

    fn count(&self) -> u128 {
        self.len() as u128
    }

    fn find(&self, key: &str) -> Result<usize, usize> {
        find_in_run(self.items(), key)
    }
}

impl<V> SortedRun for ChunkGroup<MapEntry<V>> {
    ghost use Rattle.sdb_sorted_map.specs.SearchModel.{group_keys};

    ghost keys = { group_keys };

    fn first_key(&self) -> Option<&str> {
        for chunk in self.chunks() {
            if let Some(first) = chunk.first_key() {
                return Some(first);
            }
        }
        None
    }

    fn count(&self) -> u128 {
        self.len()
    }

    fn find(&self, key: &str) -> Result<usize, usize> {
        find_in_runs(self.chunks(), key)
    }
}

// Returns whether there is a first key greater than this one.
fn is_before(key: &str, first: Option<&str>) -> bool
    ensures { result ≡ first_key_above key.now (option_map (λ t. t.now) first.entry) }
{
    match first {
        Some(first) => key.cmp(first).is_lt(),
        None => false,
    }
}

// Returns whether there is a first key, not greater than this one.
fn is_not_before(key: &str, first: Option<&str>) -> bool
    ensures { result ≡ first_key_at_most key.now (option_map (λ t. t.now) first.entry) }
{
    match first {
        Some(first) => !key.cmp(first).is_lt(),
        None => false,
    }
}

// Finds a key in one chunk by binary search.
fn find_in_run<V>(members: &[MapEntry<V>], key: &str) -> Result<usize, usize>
    requires { IsAscending (entry_key_bytes members.now) }
    ensures key_index { IfOk result (λ i. IsKeyIndex (entry_key_bytes members.now) key.now i) }
    ensures insert_index { IfErr result (λ i. IsInsertIndex (entry_key_bytes members.now) key.now i) }
{
    let mut low = 0;
    let mut high = members.len();
    while low < high {
        let middle = low + (high - low) / 2;
        match key.cmp(members[middle].key.as_str()) {
            Ordering::Less => high = middle,
            Ordering::Greater => low = middle + 1,
            Ordering::Equal => return Ok(middle),
        }
    }
    Err(low)
}

// Returns the first run such that all keys from it on are greater.
fn first_run_above<P: SortedRun>(runs: &[P], key: &str) -> usize
    requires { IsAscending (flat_map P.keys runs.now) }
    ensures in_range { result ≤ length runs.now }
    ensures below { IsBelowAll key.now (keys_of_other_runs P.keys runs.now result) }
{
    let mut low = 0;
    let mut high = runs.len();
    while low < high {
        let middle = low + (high - low) / 2;
        if is_before(key, runs[middle].first_key()) {
            high = middle;
        } else {
            low = middle + 1;
        }
    }
    high
}

// Returns the run after the one that may contain the key: keys from it on are greater, and keys
// before that one are less.
fn run_end<P: SortedRun>(runs: &[P], key: &str) -> usize
    requires { IsAscending (flat_map P.keys runs.now) }
    ensures in_range { result ≤ length runs.now }
    ensures above { IsAboveAll key.now (keys_of_first_runs P.keys runs.now (result - 1)) }
    ensures below { IsBelowAll key.now (keys_of_other_runs P.keys runs.now result) }
{
    let mut end = first_run_above(runs, key);
    while end > 0 {
        if is_not_before(key, runs[end - 1].first_key()) {
            return end;
        }
        end -= 1;
    }
    end
}

// Returns the number of entries in the runs.
fn count_in<P: SortedRun>(runs: &[P]) -> usize
    requires { length (flat_map P.keys runs.now) < 2 ^ 64 }
    ensures { result ≡ length (flat_map P.keys runs.now) }
{
    let mut count = 0;
    for run in runs {
        count += run.count();
    }
    count as usize
}

// Finds a key in runs.
fn find_in_runs<P: SortedRun>(runs: &[P], key: &str) -> Result<usize, usize>
    requires ascending { IsAscending (flat_map P.keys runs.now) }
    requires bound { length (flat_map P.keys runs.now) < 2 ^ 64 }
    ensures key_index { IfOk result (λ i. IsKeyIndex (flat_map P.keys runs.now) key.now i) }
    ensures insert_index { IfErr result (λ i. IsInsertIndex (flat_map P.keys runs.now) key.now i) }
{
    let end = run_end(runs, key);
    if end == 0 {
        return Err(0);
    }
    let start = count_in(&runs[..end - 1]);
    match runs[end - 1].find(key) {
        Ok(at) => Ok(start + at),
        Err(at) => Err(start + at),
    }
}

/// Returns the number of entries.
pub(crate) fn count_keys<V>(entries: &ChunkedVec<MapEntry<V>>) -> usize
    requires { length (vec_keys entries.now) < 2 ^ 64 }
    ensures { result ≡ length (vec_keys entries.now) }
{
    match entries.repr() {
        Repr::Flat(chunk) => chunk.len(),
        Repr::Chunks(chunks) => count_in(chunks.items()),
        Repr::Groups(groups) => count_in(groups.items()),
    }
}

/// Returns the index of a key, or the index at which to insert it.
pub(crate) fn find_key<V>(entries: &ChunkedVec<MapEntry<V>>, key: &str) -> Result<usize, usize>
    requires ascending { IsAscending (vec_keys entries.now) }
    requires bound { length (vec_keys entries.now) < 2 ^ 64 }
    ensures key_index { IfOk result (λ i. IsKeyIndex (vec_keys entries.now) key.now i) }
    ensures insert_index { IfErr result (λ i. IsInsertIndex (vec_keys entries.now) key.now i) }
{
    match entries.repr() {
        Repr::Flat(chunk) => chunk.find(key),
        Repr::Chunks(chunks) => find_in_runs(chunks.items(), key),
        Repr::Groups(groups) => find_in_runs(groups.items(), key),
    }
}
