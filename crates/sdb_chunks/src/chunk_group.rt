//! A group of chunks with its number of items.
ghost use Rattle.std.specs.List.{flat_map};
ghost use Rattle.std.specs.Prelude.{◌≡◌, length};
ghost use Rattle.sdb_chunks.specs.Chunk.{items_of};

use crate::chunk::{Chunk, TryClone};
use crate::chunk_edit::{MIN_CHUNK_LEN, item_in_chunks, split_off_half};
use crate::chunk_list::{insert_in_chunk_list, remove_from_chunk_list, replace_in_chunk_list};
use std::alloc::{AllocError, Global};

/// A group of chunks of a list, with their number of items.
#[derive(Drop)]
pub struct ChunkGroup<T> {
    count: u128,
    chunks: Chunk<Chunk<T>>,
    ghost count_is_sum: { count ≡ length (flat_map items_of (items_of chunks)) },
}

// Returns the number of items in the chunks.
fn count_items_of<T>(chunks: &[Chunk<T>]) -> u128
    ensures { result ≡ length (flat_map items_of chunks.now) }
{
    let mut count = 0;
    for chunk in chunks {
        count += chunk.len() as u128;
    }
    count
}

impl<T> ChunkGroup<T> {
    ghost use Rattle.sdb_chunks.specs.Chunk.{is_chunk_shared};
    ghost use Rattle.sdb_chunks.specs.ChunkGroup.{group_chunk_list, group_chunks};

    /// Creates a group of these chunks.
    pub fn new(chunks: Chunk<Chunk<T>>) -> ChunkGroup<T>
        ensures { group_chunk_list result ≡ chunks }
    {
        ChunkGroup {
            count: count_items_of(chunks.items()),
            chunks,
        }
    }

    /// Returns the list of chunks.
    pub fn into_chunks(self) -> Chunk<Chunk<T>>
        ensures { result ≡ group_chunk_list self }
    {
        let ChunkGroup { count: _, chunks } = self;
        chunks
    }

    /// Returns the chunks.
    pub fn chunks(&self) -> &[Chunk<T>]
        ensures { result.now ≡ group_chunks self.now }
    {
        self.chunks.items()
    }

    /// Returns the number of items.
    pub fn len(&self) -> u128
        ensures { result ≡ length (flat_map items_of (group_chunks self.now)) }
    {
        self.count
    }

    /// Returns whether a clone is a pointer.
    pub fn is_shared(&self) -> bool
        ensures { result ≡ is_chunk_shared (group_chunk_list self.now) }
    {
        !self.chunks.is_unique()
    }
}

impl<T: Drop> ChunkGroup<T> {
    ghost use Rattle.sdb_chunks.specs.ChunkGroup.{group_chunks};

    // Freezes the list of chunks in place.
    pub(crate) fn freeze(&mut self, alloc: Global) -> Result<(), AllocError>
        ensures { group_chunks self.new ≡ group_chunks self.old }
    {
        self.chunks.freeze(alloc)
    }
}

impl<T: TryClone> ChunkGroup<T> {
    ghost use Rattle.std.specs.List.{insert, remove};
    ghost use Rattle.std.specs.Prelude.{◌≤◌, ◌<◌, ◌++◌, true, false, slice_get, slice_set, option_map, max};
    ghost use Rattle.std.specs.Prelude.{IfOk, IfSome, OnOk, OnErr};
    ghost use Rattle.sdb_chunks.specs.Chunks.{max_chunk_length};
    ghost use Rattle.sdb_chunks.specs.ChunkGroup.{group_chunks, group_models, is_unique_group_at};

    // Returns the item at an index.
    pub(crate) fn get(&self, index: usize) -> Option<&T>
        ensures { option_map (λ x. T.model x.now) result ≡ slice_get (group_models T.model self.now) index }
    {
        item_in_chunks(self.chunks.items(), index)
    }

    // Inserts an item at an index.
    pub(crate) fn insert(&mut self, alloc: Global, index: usize, item: T) -> Result<(), AllocError>
        requires { index ≤ length (group_models T.model self.old) }
        ensures ok { OnOk result (group_models T.model self.new
            ≡ insert (group_models T.model self.old) index (T.model item)) }
        ensures err { OnErr result (group_models T.model self.new ≡ group_models T.model self.old) }
        ensures unique_after { OnOk result (is_unique_group_at self.new index ≡ true) }
        ensures bound { max_chunk_length (group_chunks self.new) ≤ max 20 (max_chunk_length (group_chunks self.old)) }
    {
        let _ = insert_in_chunk_list(alloc, &mut self.chunks, index, item, MIN_CHUNK_LEN)?;
        self.count += 1;
        Ok(())
    }

    // Removes the item at an index.
    pub(crate) fn remove(&mut self, alloc: Global, index: usize) -> Result<Option<T>, AllocError>
        requires { index < length (group_models T.model self.old) }
        ensures item { IfOk result (λ x. option_map T.model x ≡ slice_get (group_models T.model self.old) index) }
        ensures ok { OnOk result (group_models T.model self.new ≡ remove (group_models T.model self.old) index) }
        ensures err { OnErr result (group_models T.model self.new ≡ group_models T.model self.old) }
        ensures shared_on_err { OnErr result (is_unique_group_at self.old index ≡ false) }
        ensures bound { max_chunk_length (group_chunks self.new) ≤ max_chunk_length (group_chunks self.old) }
    {
        let item = remove_from_chunk_list(alloc, &mut self.chunks, index)?;
        self.count -= 1;
        Ok(item)
    }

    // Replaces the item at an index and returns the old one.
    pub(crate) fn replace(
        &mut self,
        alloc: Global,
        index: usize,
        item: T,
    ) -> Result<Option<T>, AllocError>
        ensures item { IfOk result (λ x. option_map T.model x ≡ slice_get (group_models T.model self.old) index) }
        ensures ok { OnOk result (group_models T.model self.new
            ≡ slice_set (group_models T.model self.old) index (T.model item)) }
        ensures err { OnErr result (group_models T.model self.new ≡ group_models T.model self.old) }
        ensures shared_on_err { OnErr result (is_unique_group_at self.old index ≡ false) }
        ensures unique_after { IfOk result (λ x. IfSome x (λ _. is_unique_group_at self.new index ≡ true)) }
        ensures bound { max_chunk_length (group_chunks self.new) ≤ max_chunk_length (group_chunks self.old) }
    {
        let old = replace_in_chunk_list(alloc, &mut self.chunks, index, item)?;
        Ok(old)
    }

    // Splits off a group of the second half of the chunks.
    pub(crate) fn split_off_half(&mut self, alloc: Global) -> Result<ChunkGroup<T>, AllocError>
        ensures ok { IfOk result (λ h. group_models T.model self.new ++ group_models T.model h
            ≡ group_models T.model self.old) }
        ensures err { OnErr result (group_models T.model self.new ≡ group_models T.model self.old) }
        ensures bound { max_chunk_length (group_chunks self.new) ≤ max_chunk_length (group_chunks self.old) }
        ensures upper_bound { IfOk result (λ h. max_chunk_length (group_chunks h) ≤ max_chunk_length
            (group_chunks self.old)) }
    {
        let high = split_off_half(alloc, &mut self.chunks)?;
        self.count = count_items_of(self.chunks.items());
        Ok(ChunkGroup::new(high))
    }
}

impl<T: TryClone> TryClone for ChunkGroup<T> {
    ghost use Rattle.std.specs.Prelude.{List, Bool, map};
    ghost use Rattle.sdb_chunks.specs.Chunk.{items_of, is_chunk_unique};
    ghost use Rattle.sdb_chunks.specs.Chunks.{chunk_model};
    ghost use Rattle.sdb_chunks.specs.ChunkGroup.{group_chunk_list};

    ghost Model = { List (List T.Model × Bool) × Bool };

    ghost model = { λ g. (
      map (chunk_model T.model) (items_of (group_chunk_list g)),
      is_chunk_unique
          (group_chunk_list g),
    ) };

    fn try_clone(&self, alloc: Global) -> Result<ChunkGroup<T>, AllocError> {
        Ok(ChunkGroup {
            count: self.count,
            chunks: self.chunks.try_clone(alloc)?,
        })
    }
}
