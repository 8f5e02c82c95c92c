//! Reads and edits of one item of a chunked list.
ghost use Rattle.std.specs.List.{insert, remove};
ghost use Rattle.std.specs.Option.{OnSome};
ghost use Rattle.std.specs.Borrow.{LendsSo, sem};
ghost use Rattle.sdb_chunks.specs.Rows.{chunked_vec_row};
ghost use Rattle.std.specs.Prelude.{◌≡◌, ◌≤◌, ◌<◌, true, false, length, max, slice_get, slice_set};
ghost use Rattle.std.specs.Prelude.{option_map, nat_le, if◌then◌else◌, Some, IfOk, IfSome, OnOk, OnErr};
ghost use Rattle.sdb_chunks.specs.ChunkedVec.{vec_models, is_unique_vec, is_unique_vec_at, is_grouped_vec, vec_chunks, vec_repr};
ghost use Rattle.sdb_chunks.specs.Chunk.{items_of};
ghost use Rattle.sdb_chunks.specs.Chunks.{max_chunk_length};
ghost use Rattle.sdb_chunks.specs.declared.chunked_vec.Repr.TheVariants.{Flat};

use crate::chunk::{Chunk, TryClone};
use crate::chunk_edit::{
    MIN_CHUNK_LEN, chunk_insert, chunk_remove, chunk_replace, item_in_chunks, item_mut,
    max_chunk_len,
};
use crate::chunk_list::{
    chunk_item, chunk_item_mut, insert_in_chunk_list, remove_from_chunk_list,
    replace_in_chunk_list, single_chunk,
};
use crate::chunked_vec::{ChunkedVec, Repr};
use crate::group_list::{
    grouped_item, insert_in_group_list, remove_from_group_list, replace_in_group_list,
};
use std::alloc::{AllocError, Global};

impl<T: TryClone> ChunkedVec<T> {
    /// Returns the item at an index, or `None` if it is out of range.
    pub fn get(&self, index: usize) -> Option<&T>
        ensures { option_map (λ x. T.model x.now) result ≡ slice_get (vec_models T.model self.now) index }
    {
        match &self.repr {
            Repr::Flat(chunk) => chunk_item(chunk, index),
            Repr::Chunks(chunks) => item_in_chunks(chunks.items(), index),
            Repr::Groups(groups) => grouped_item(groups.items(), index),
        }
    }

    /// Borrows the item at an index mutably. Returns `None` if the index is out of range, its chunk
    /// is shared, or the list has groups.
    pub fn get_mut(&mut self, index: usize) -> Option<&mut T>
        ensures* writes_back { sem 𝓛 (LendsSo (chunked_vec_row T.row) T.row self.entry result
            (λ n w. OnSome result (vec_models T.model n ≡ slice_set (vec_models T.model self.old) index (T.model w)))
            (λ n. vec_models T.model n ≡ vec_models T.model self.old)) }
        ensures item { IfSome result (λ x. slice_get (vec_models T.model self.old) index ≡ Some (T.model x.now)) }
        ensures value { is_unique_vec_at self.old index ≡ true → is_grouped_vec self.old ≡ false
            → option_map (λ x. T.model x.now) result ≡ slice_get (vec_models T.model self.old) index }
    {
        match &mut self.repr {
            Repr::Flat(chunk) => chunk_item_mut(chunk, index),
            Repr::Chunks(chunks) => match chunks {
                Chunk::Unique(chunks) => item_mut(chunks, index),
                Chunk::Shared(_) => None,
            },
            Repr::Groups(_) => None,
        }
    }

    // Returns the maximum length of a chunk.
    fn max_chunk_len(&self) -> usize
        ensures lower_bound { 20 ≤ result }
        ensures upper_bound { result ≤ 512 }
    {
        match &self.repr {
            Repr::Chunks(chunks) => max_chunk_len(chunks.len()),
            _ => MIN_CHUNK_LEN,
        }
    }

    // Turns a single chunk of maximum length into a list of chunks.
    fn reserve_for_insert(&mut self, alloc: Global, most: usize) -> Result<(), AllocError>
        ensures unchanged { vec_models T.model self.new ≡ vec_models T.model self.old }
        ensures unique { is_unique_vec self.old ≡ true → is_unique_vec self.new ≡ true }
        ensures chunks { vec_chunks self.new ≡ vec_chunks self.old }
        ensures bound { OnOk result ((b : Chunk T) → vec_repr self.new ≡ Flat b → length (items_of b) < most) }
    {
        if let Repr::Flat(chunk) = &mut self.repr {
            if chunk.len() >= most {
                let chunks = single_chunk(alloc, chunk)?;
                self.repr = Repr::Chunks(Chunk::Unique(chunks));
            }
        }
        Ok(())
    }

    /// Inserts an item at an index from 0 to the length. Returns `false`, with the list unchanged,
    /// if the index is greater. It first splits a full chunk: one with as many items as the list
    /// has chunks, but at least 20 (20 in groups). It also splits a group with as many chunks as
    /// there are groups.
    ///
    /// # Errors
    ///
    /// [`AllocError`] if an allocation fails. The list is then unchanged.
    pub fn insert(&mut self, alloc: Global, index: usize, item: T) -> Result<bool, AllocError>
        ensures ok { IfOk result (λ done. (done ≡ nat_le index (length (vec_models T.model self.old)))
            × (vec_models T.model self.new ≡ (if done
            then insert (vec_models T.model self.old) index (T.model item) else vec_models T.model self.old))) }
        ensures err { OnErr result (vec_models T.model self.new ≡ vec_models T.model self.old) }
        ensures unique { is_unique_vec self.old ≡ true → is_unique_vec self.new ≡ true }
        ensures unique_after { IfOk result (λ done. done ≡ true → is_unique_vec_at self.new index ≡ true) }
        ensures bound { max_chunk_length (vec_chunks self.new) ≤ max 512 (max_chunk_length (vec_chunks self.old)) }
    {
        let most = self.max_chunk_len();
        self.reserve_for_insert(alloc, most)?;
        match &mut self.repr {
            Repr::Flat(chunk) => {
                if index > chunk.len() {
                    return Ok(false);
                }
                chunk_insert(alloc, chunk, index, item)?;
                Ok(true)
            }
            Repr::Chunks(chunks) => {
                let done = insert_in_chunk_list(alloc, chunks, index, item, most)?;
                Ok(done)
            }
            Repr::Groups(groups) => {
                let done = insert_in_group_list(alloc, groups, index, item)?;
                Ok(done)
            }
        }
    }

    /// Removes the item at an index. Returns `None`, with the list unchanged, if the index is out
    /// of range. It allocates only if a part of the list is shared.
    ///
    /// # Errors
    ///
    /// [`AllocError`] if an allocation fails. The list is then unchanged.
    pub fn remove(&mut self, alloc: Global, index: usize) -> Result<Option<T>, AllocError>
        ensures ok { IfOk result (λ x. (option_map T.model x ≡ slice_get (vec_models T.model self.old) index)
            × (vec_models T.model self.new ≡ remove (vec_models T.model self.old) index)) }
        ensures err { OnErr result ((vec_models T.model self.new ≡ vec_models T.model self.old)
            × (is_unique_vec_at self.old index ≡ false)) }
        ensures unique { is_unique_vec self.old ≡ true → is_unique_vec self.new ≡ true }
        ensures bound { max_chunk_length (vec_chunks self.new) ≤ max_chunk_length (vec_chunks self.old) }
    {
        match &mut self.repr {
            Repr::Flat(chunk) => {
                if index >= chunk.len() {
                    return Ok(None);
                }
                let item = chunk_remove(alloc, chunk, index)?;
                Ok(item)
            }
            Repr::Chunks(chunks) => {
                let item = remove_from_chunk_list(alloc, chunks, index)?;
                Ok(item)
            }
            Repr::Groups(groups) => {
                let item = remove_from_group_list(alloc, groups, index)?;
                Ok(item)
            }
        }
    }

    /// Replaces the item at an index and returns the old one. Returns `None`, with the list
    /// unchanged, if the index is out of range. It allocates only if the list of chunks or the
    /// item's chunk is shared, and makes both unique.
    ///
    /// # Errors
    ///
    /// [`AllocError`] if an allocation fails. The list is then unchanged.
    pub fn replace(&mut self, alloc: Global, index: usize, item: T) -> Result<Option<T>, AllocError>
        ensures ok { IfOk result (λ x. (option_map T.model x ≡ slice_get (vec_models T.model self.old) index)
            × (vec_models T.model self.new ≡ slice_set (vec_models T.model self.old) index (T.model item))) }
        ensures err { OnErr result ((vec_models T.model self.new ≡ vec_models T.model self.old)
            × (is_unique_vec_at self.old index ≡ false)) }
        ensures unique { is_unique_vec self.old ≡ true → is_unique_vec self.new ≡ true }
        ensures unique_after { IfOk result (λ x. IfSome x (λ _. is_unique_vec_at self.new index ≡ true)) }
        ensures bound { max_chunk_length (vec_chunks self.new) ≤ max_chunk_length (vec_chunks self.old) }
    {
        match &mut self.repr {
            Repr::Flat(chunk) => {
                if index >= chunk.len() {
                    return Ok(None);
                }
                let old = chunk_replace(alloc, chunk, index, item)?;
                Ok(old)
            }
            Repr::Chunks(chunks) => {
                let old = replace_in_chunk_list(alloc, chunks, index, item)?;
                Ok(old)
            }
            Repr::Groups(groups) => {
                let old = replace_in_group_list(alloc, groups, index, item)?;
                Ok(old)
            }
        }
    }
}
