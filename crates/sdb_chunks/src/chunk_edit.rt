//! Edits of chunks in place.
ghost use Rattle.std.specs.Prelude.{◌≡◌, ◌≤◌, ◌<◌, ◌+◌, ◌*◌, ◌/◌, true, false, [], ℕ, length, map, take, drop, max};
ghost use Rattle.std.specs.Prelude.{slice_get, slice_set, Some};
ghost use Rattle.std.specs.Prelude.{nat_le, if◌then◌else◌, option_map, IfOk, IfSome, IfNone, OnOk, OnErr};
ghost use Rattle.std.specs.List.{insert, remove};
ghost use Rattle.std.specs.Option.{OnSome};
ghost use Rattle.std.specs.Borrow.{LendsSo, sem};
ghost use Rattle.sdb_chunks.specs.Rows.{chunks_row};
ghost use Rattle.sdb_chunks.specs.Chunk.{items_of, is_chunk_unique};
ghost use Rattle.sdb_chunks.specs.Chunks.{max_chunk_length, insert_chunk_index, chunk_length_at};
ghost use Rattle.sdb_chunks.specs.ChunkedVec.{chunk_models, flatten_models, all_unique, is_unique_at};
ghost use Rattle.sdb_chunks.specs.Position.{IsInsertPosition, IsItemPosition};

use crate::chunk::{Chunk, TryClone};
use std::alloc::{AllocError, Global};
use std::mem::replace;

// Maximum length of a chunk in a short list, and in a long one. The first is also the maximum
// number of chunks of a frozen list without groups.
pub(crate) const MIN_CHUNK_LEN: usize = 20;

const MAX_CHUNK_LEN: usize = 512;

// Returns the maximum length of a chunk in a list of this many chunks: that number, but at least 20
// and at most 512. A change of shared parts then copies about as many chunks as items of one chunk.
pub(crate) fn max_chunk_len(chunks: usize) -> usize
    ensures lower_bound { 20 ≤ result }
    ensures upper_bound { result ≤ 512 }
{
    chunks.clamp(MIN_CHUNK_LEN, MAX_CHUNK_LEN)
}

// Returns the maximum length of a chunk for a list of this many items.
pub(crate) fn max_chunk_len_for(items: usize) -> usize
    ensures some { 0 < result }
    ensures upper_bound { result ≤ 512 }
{
    let mut bound = MIN_CHUNK_LEN;
    while bound < MAX_CHUNK_LEN && items / bound > bound {
        bound = (bound * 2).min(MAX_CHUNK_LEN);
    }
    bound
}

// Returns the chunk and the index in it at which to insert an item. Returns `None` if the index is
// out of range.
fn insert_position<T: TryClone>(chunks: &[Chunk<T>], index: usize) -> Option<(usize, usize)>
    ensures position { IfSome result (λ r. IsInsertPosition (chunk_models T.model) chunks.now index r.0 r.1) }
    ensures first { IfSome result (λ r. r.0 ≡ insert_chunk_index chunks.now index) }
    ensures none { IfNone result (index ≤ length (flatten_models T.model chunks.now) → chunks.now ≡ []) }
{
    let mut left = index;
    for (at, chunk) in chunks.iter().enumerate() {
        if left <= chunk.len() {
            return Some((at, left));
        }
        left -= chunk.len();
    }
    None
}

// Returns the chunk and the index in it of an item. Returns `None` if the index is out of range.
fn item_position<T: TryClone>(chunks: &[Chunk<T>], index: usize) -> Option<(usize, usize)>
    ensures item { IfSome result (λ r. IsItemPosition (chunk_models T.model) chunks.now index r.0 r.1) }
    ensures none { IfNone result (length (flatten_models T.model chunks.now) ≤ index) }
{
    let mut left = index;
    for (at, chunk) in chunks.iter().enumerate() {
        if left < chunk.len() {
            return Some((at, left));
        }
        left -= chunk.len();
    }
    None
}

// Returns the item at an index.
pub(crate) fn item_in_chunks<T: TryClone>(chunks: &[Chunk<T>], index: usize) -> Option<&T>
    ensures { option_map (λ x. T.model x.now) result ≡ slice_get (flatten_models T.model chunks.now) index }
{
    let mut left = index;
    for chunk in chunks {
        if left < chunk.len() {
            return chunk.get(left);
        }
        left -= chunk.len();
    }
    None
}

// Inserts an item into a chunk and makes it unique.
pub(crate) fn chunk_insert<T: TryClone>(
    alloc: Global,
    chunk: &mut Chunk<T>,
    index: usize,
    item: T,
) -> Result<(), AllocError>
    requires { index ≤ length (items_of chunk.old) }
    ensures ok { OnOk result (map T.model (items_of chunk.new)
        ≡ insert (map T.model (items_of chunk.old)) index (T.model item)) }
    ensures err { OnErr result (map T.model (items_of chunk.new) ≡ map T.model (items_of chunk.old)) }
    ensures unique { is_chunk_unique chunk.old ≡ true → is_chunk_unique chunk.new ≡ true }
    ensures unique_after { OnOk result (is_chunk_unique chunk.new ≡ true) }
    ensures bound { length (items_of chunk.new) ≤ length (items_of chunk.old) + 1 }
{
    chunk.make_unique_with_capacity(alloc, 1)?;
    if let Chunk::Unique(items) = chunk {
        items.insert(index, item)?;
    }
    Ok(())
}

// Removes an item from a chunk and makes it unique.
pub(crate) fn chunk_remove<T: TryClone>(
    alloc: Global,
    chunk: &mut Chunk<T>,
    index: usize,
) -> Result<Option<T>, AllocError>
    requires { index < length (items_of chunk.old) }
    ensures item { IfOk result (λ x. option_map T.model x ≡ slice_get (map T.model (items_of chunk.old)) index) }
    ensures ok { OnOk result (map T.model (items_of chunk.new) ≡ remove (map T.model (items_of chunk.old)) index) }
    ensures err { OnErr result (map T.model (items_of chunk.new) ≡ map T.model (items_of chunk.old)) }
    ensures unique { is_chunk_unique chunk.old ≡ true → is_chunk_unique chunk.new ≡ true }
    ensures shared_on_err { OnErr result (is_chunk_unique chunk.old ≡ false) }
    ensures bound { length (items_of chunk.new) ≤ length (items_of chunk.old) }
{
    chunk.make_unique(alloc)?;
    match chunk {
        Chunk::Unique(items) => Ok(Some(items.remove(index))),
        Chunk::Shared(_) => Ok(None),
    }
}

// Replaces an item of a chunk, makes the chunk unique, and returns the old item.
pub(crate) fn chunk_replace<T: TryClone>(
    alloc: Global,
    chunk: &mut Chunk<T>,
    index: usize,
    item: T,
) -> Result<Option<T>, AllocError>
    requires { index < length (items_of chunk.old) }
    ensures item { IfOk result (λ x. option_map T.model x ≡ slice_get (map T.model (items_of chunk.old)) index) }
    ensures ok { OnOk result (map T.model (items_of chunk.new)
        ≡ slice_set (map T.model (items_of chunk.old)) index (T.model item)) }
    ensures err { OnErr result (map T.model (items_of chunk.new) ≡ map T.model (items_of chunk.old)) }
    ensures unique { is_chunk_unique chunk.old ≡ true → is_chunk_unique chunk.new ≡ true }
    ensures shared_on_err { OnErr result (is_chunk_unique chunk.old ≡ false) }
    ensures unique_after { OnOk result (is_chunk_unique chunk.new ≡ true) }
    ensures bound { length (items_of chunk.new) ≤ length (items_of chunk.old) }
{
    chunk.make_unique(alloc)?;
    match chunk {
        Chunk::Unique(items) => Ok(Some(replace(&mut items[index], item))),
        Chunk::Shared(_) => Ok(None),
    }
}

// Splits off the second half of a chunk's items.
pub(crate) fn split_off_half<T: TryClone>(
    alloc: Global,
    chunk: &mut Chunk<T>,
) -> Result<Chunk<T>, AllocError>
    ensures lower_half { OnOk result (map T.model (items_of chunk.new)
        ≡ take (length (items_of chunk.old) / 2) (map T.model (items_of chunk.old))) }
    ensures upper_half { IfOk result (λ b. map T.model (items_of b)
        ≡ drop (length (items_of chunk.old) / 2) (map T.model (items_of chunk.old))) }
    ensures err { OnErr result (map T.model (items_of chunk.new) ≡ map T.model (items_of chunk.old)) }
    ensures unique { is_chunk_unique chunk.old ≡ true → is_chunk_unique chunk.new ≡ true }
    ensures new_unique { IfOk result (λ b. is_chunk_unique b ≡ true) }
{
    let middle = chunk.len() / 2;
    chunk.make_unique(alloc)?;
    match chunk {
        Chunk::Unique(items) => Ok(Chunk::Unique(items.split_off(middle)?)),
        Chunk::Shared(_) => Ok(Chunk::Unique(Vec::new(alloc))),
    }
}

/// Splits a chunk into two halves; the second one follows it.
///
/// # Errors
///
/// [`AllocError`] if an allocation fails. The items are then unchanged.
pub fn split_chunk<T: TryClone>(
    alloc: Global,
    chunks: &mut Vec<Chunk<T>>,
    at: usize,
) -> Result<(), AllocError>
    requires { at < length chunks.old.items }
    ensures unchanged { flatten_models T.model chunks.new.items ≡ flatten_models T.model chunks.old.items }
    ensures unique { all_unique chunks.old.items ≡ true → all_unique chunks.new.items ≡ true }
    ensures bound { max_chunk_length chunks.new.items ≤ max_chunk_length chunks.old.items }
    ensures half { OnOk result ((i : ℕ) → insert_chunk_index chunks.old.items i ≡ at
        → 2 * chunk_length_at chunks.new.items i ≤ chunk_length_at chunks.old.items i + 1) }
{
    chunks.insert(at + 1, Chunk::Unique(Vec::new(alloc)))?;
    let high = split_off_half(alloc, &mut chunks[at])?;
    chunks[at + 1] = high;
    Ok(())
}

// Inserts an item at an index. Returns `false`, with all unchanged, if it is out of range.
fn insert_in_chunk<T: TryClone>(
    alloc: Global,
    chunks: &mut Vec<Chunk<T>>,
    index: usize,
    item: T,
    most: usize,
) -> Result<bool, AllocError>
    ensures ok { IfOk result (λ done. flatten_models T.model chunks.new.items ≡ (if done
        then insert (flatten_models T.model chunks.old.items) index
        (T.model item) else flatten_models T.model chunks.old.items)) }
    ensures in_range { IfOk result (λ done. done ≡ nat_le index (length (flatten_models T.model chunks.old.items))) }
    ensures err { OnErr result (flatten_models T.model chunks.new.items ≡ flatten_models T.model chunks.old.items) }
    ensures unique { all_unique chunks.old.items ≡ true → all_unique chunks.new.items ≡ true }
    ensures unique_after { IfOk result (λ done. done ≡ true → is_unique_at chunks.new.items index ≡ true) }
    ensures bound { max_chunk_length chunks.new.items ≤ max (chunk_length_at chunks.old.items index + 1)
        (max_chunk_length chunks.old.items) }
{
    match insert_position(chunks, index) {
        Some((at, inside)) => {
            chunk_insert(alloc, &mut chunks[at], inside, item)?;
            Ok(true)
        }
        None => {
            if !chunks.is_empty() || index != 0 {
                return Ok(false);
            }
            let mut items = Vec::with_capacity(alloc, most)?;
            items.push(item)?;
            chunks.push(Chunk::Unique(items))?;
            Ok(true)
        }
    }
}

// Inserts an item, after splitting a chunk of maximum length.
pub(crate) fn insert_in_chunks<T: TryClone>(
    alloc: Global,
    chunks: &mut Vec<Chunk<T>>,
    index: usize,
    item: T,
    most: usize,
) -> Result<bool, AllocError>
    requires { 1 < most }
    ensures ok { IfOk result (λ done. flatten_models T.model chunks.new.items ≡ (if done
        then insert (flatten_models T.model chunks.old.items) index
        (T.model item) else flatten_models T.model chunks.old.items)) }
    ensures in_range { IfOk result (λ done. done ≡ nat_le index (length (flatten_models T.model chunks.old.items))) }
    ensures err { OnErr result (flatten_models T.model chunks.new.items ≡ flatten_models T.model chunks.old.items) }
    ensures unique { all_unique chunks.old.items ≡ true → all_unique chunks.new.items ≡ true }
    ensures unique_after { IfOk result (λ done. done ≡ true → is_unique_at chunks.new.items index ≡ true) }
    ensures bound { max_chunk_length chunks.new.items ≤ max most (max_chunk_length chunks.old.items) }
{
    if let Some((at, _)) = insert_position(chunks, index) {
        if chunks[at].len() >= most {
            split_chunk(alloc, chunks, at)?;
        }
    }
    let done = insert_in_chunk(alloc, chunks, index, item, most)?;
    Ok(done)
}

// Removes the chunk if it is empty.
fn remove_empty_chunk<T: TryClone>(chunks: &mut Vec<Chunk<T>>, at: usize)
    requires { at < length chunks.old.items }
    ensures unchanged { flatten_models T.model chunks.new.items ≡ flatten_models T.model chunks.old.items }
    ensures unique { all_unique chunks.old.items ≡ true → all_unique chunks.new.items ≡ true }
    ensures bound { max_chunk_length chunks.new.items ≤ max_chunk_length chunks.old.items }
{
    if chunks[at].len() == 0 {
        drop(chunks.remove(at));
    }
}

// Removes the item at an index. Returns `None`, with all unchanged, if it is out of range.
pub(crate) fn remove_from_chunks<T: TryClone>(
    alloc: Global,
    chunks: &mut Vec<Chunk<T>>,
    index: usize,
) -> Result<Option<T>, AllocError>
    ensures item { IfOk result (λ x. option_map T.model x ≡ slice_get (flatten_models T.model chunks.old.items) index) }
    ensures ok { OnOk result (flatten_models T.model chunks.new.items
        ≡ remove (flatten_models T.model chunks.old.items) index) }
    ensures err { OnErr result (flatten_models T.model chunks.new.items ≡ flatten_models T.model chunks.old.items) }
    ensures unique { all_unique chunks.old.items ≡ true → all_unique chunks.new.items ≡ true }
    ensures shared_on_err { OnErr result (all_unique chunks.old.items ≡ false) }
    ensures item_shared_on_err { OnErr result (is_unique_at chunks.old.items index ≡ false) }
    ensures bound { max_chunk_length chunks.new.items ≤ max_chunk_length chunks.old.items }
{
    let Some((at, inside)) = item_position(chunks, index) else {
        return Ok(None);
    };
    let item = chunk_remove(alloc, &mut chunks[at], inside)?;
    remove_empty_chunk(chunks, at);
    Ok(item)
}

// Replaces the item at an index and returns the old one. Returns `None`, with all unchanged, if it
// is out of range.
pub(crate) fn replace_in_chunks<T: TryClone>(
    alloc: Global,
    chunks: &mut Vec<Chunk<T>>,
    index: usize,
    item: T,
) -> Result<Option<T>, AllocError>
    ensures item { IfOk result (λ x. option_map T.model x ≡ slice_get (flatten_models T.model chunks.old.items) index) }
    ensures ok { OnOk result (flatten_models T.model chunks.new.items
        ≡ slice_set (flatten_models T.model chunks.old.items) index (T.model item)) }
    ensures err { OnErr result (flatten_models T.model chunks.new.items ≡ flatten_models T.model chunks.old.items) }
    ensures unique { all_unique chunks.old.items ≡ true → all_unique chunks.new.items ≡ true }
    ensures shared_on_err { OnErr result (is_unique_at chunks.old.items index ≡ false) }
    ensures unique_after { IfOk result (λ x. IfSome x (λ _. is_unique_at chunks.new.items index ≡ true)) }
    ensures bound { max_chunk_length chunks.new.items ≤ max_chunk_length chunks.old.items }
{
    let Some((at, inside)) = item_position(chunks, index) else {
        return Ok(None);
    };
    let old = chunk_replace(alloc, &mut chunks[at], inside, item)?;
    Ok(old)
}

// Borrows the item at an index mutably, if its chunk is unique.
pub(crate) fn item_mut<T: TryClone>(chunks: &mut Vec<Chunk<T>>, index: usize) -> Option<&mut T>
    ensures* writes_back { sem 𝓛 (LendsSo (chunks_row T.row) T.row chunks.entry result
        (λ n w. OnSome result (flatten_models T.model n.items
        ≡ slice_set (flatten_models T.model chunks.old.items) index (T.model w)))
        (λ n. flatten_models T.model n.items ≡ flatten_models T.model chunks.old.items)) }
    ensures item { IfSome result (λ x. slice_get (flatten_models T.model chunks.old.items) index
        ≡ Some (T.model x.now)) }
    ensures value { is_unique_at chunks.old.items index ≡ true
        → option_map (λ x. T.model x.now) result ≡ slice_get (flatten_models T.model chunks.old.items) index }
{
    let (at, inside) = item_position(chunks, index)?;
    match chunks.get_mut(at)? {
        Chunk::Unique(items) => items.get_mut(inside),
        Chunk::Shared(_) => None,
    }
}
