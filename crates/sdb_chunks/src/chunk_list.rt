//! Edits of a list of chunks, which makes it unique.
ghost use Rattle.std.specs.List.{insert, remove};
ghost use Rattle.std.specs.Option.{OnSome};
ghost use Rattle.std.specs.Borrow.{LendsSo, sem};
ghost use Rattle.sdb_chunks.specs.Rows.{chunk_row};
ghost use Rattle.std.specs.Prelude.{◌≡◌, ◌≤◌, ◌<◌, ◌∷◌, true, false, [], ℕ, length, map, max, slice_get, slice_set};
ghost use Rattle.std.specs.Prelude.{option_map, nat_le, if◌then◌else◌, IfOk, IfSome, OnOk, OnErr, Some};
ghost use Rattle.sdb_chunks.specs.Chunk.{items_of, is_chunk_unique};
ghost use Rattle.sdb_chunks.specs.ChunkedVec.{flatten_models, all_unique, is_unique_at, is_unique_repr, is_unique_repr_at, max_chunk_length};
ghost use Rattle.sdb_chunks.specs.declared.chunked_vec.Repr.TheVariants.{Chunks};

use crate::chunk::{Chunk, TryClone};
use crate::chunk_edit::{insert_in_chunks, remove_from_chunks, replace_in_chunks};
use std::alloc::{AllocError, Global};
use std::mem::swap;

// Makes the list of chunks unique.
fn make_chunks_unique<T: TryClone>(
    alloc: Global,
    chunks: &mut Chunk<Chunk<T>>,
) -> Result<(), AllocError>
    ensures same { flatten_models T.model (items_of chunks.new) ≡ flatten_models T.model (items_of chunks.old) }
    ensures unchanged { all_unique (items_of chunks.new) ≡ all_unique (items_of chunks.old) }
    ensures uniqueness_unchanged { (i : ℕ)
        → is_unique_at (items_of chunks.new) i ≡ is_unique_at (items_of chunks.old) i }
    ensures unique { OnOk result (is_chunk_unique chunks.new ≡ true) }
    ensures shared_on_err { OnErr result (is_chunk_unique chunks.old ≡ false) }
    ensures bound { max_chunk_length (items_of chunks.new) ≡ max_chunk_length (items_of chunks.old) }
{
    chunks.make_unique(alloc)?;
    Ok(())
}

// Inserts an item at an index and makes the list of chunks unique.
pub(crate) fn insert_in_chunk_list<T: TryClone>(
    alloc: Global,
    chunks: &mut Chunk<Chunk<T>>,
    index: usize,
    item: T,
    most: usize,
) -> Result<bool, AllocError>
    requires { 1 < most }
    ensures ok { IfOk result (λ done. flatten_models T.model (items_of chunks.new) ≡ (if done
        then insert (flatten_models T.model (items_of chunks.old)) index (T.model item)
        else flatten_models T.model (items_of chunks.old))) }
    ensures in_range { IfOk result (λ done. done
        ≡ nat_le index (length (flatten_models T.model (items_of chunks.old)))) }
    ensures err { OnErr result (flatten_models T.model (items_of chunks.new)
        ≡ flatten_models T.model (items_of chunks.old)) }
    ensures unique { is_unique_repr (Chunks chunks.old) ≡ true → is_unique_repr (Chunks chunks.new) ≡ true }
    ensures unique_after { IfOk result (λ done. done ≡ true → is_unique_repr_at (Chunks chunks.new) index ≡ true) }
    ensures bound { max_chunk_length (items_of chunks.new) ≤ max most (max_chunk_length (items_of chunks.old)) }
{
    make_chunks_unique(alloc, chunks)?;
    match chunks {
        Chunk::Unique(own) => {
            let done = insert_in_chunks(alloc, own, index, item, most)?;
            Ok(done)
        }
        Chunk::Shared(_) => Ok(false),
    }
}

// Removes the item at an index and makes the list of chunks unique.
pub(crate) fn remove_from_chunk_list<T: TryClone>(
    alloc: Global,
    chunks: &mut Chunk<Chunk<T>>,
    index: usize,
) -> Result<Option<T>, AllocError>
    ensures item { IfOk result (λ x. option_map T.model x
        ≡ slice_get (flatten_models T.model (items_of chunks.old)) index) }
    ensures ok { OnOk result (flatten_models T.model (items_of chunks.new)
        ≡ remove (flatten_models T.model (items_of chunks.old)) index) }
    ensures err { OnErr result (flatten_models T.model (items_of chunks.new)
        ≡ flatten_models T.model (items_of chunks.old)) }
    ensures unique { is_unique_repr (Chunks chunks.old) ≡ true → is_unique_repr (Chunks chunks.new) ≡ true }
    ensures shared_on_err { OnErr result (is_unique_repr (Chunks chunks.old) ≡ false) }
    ensures item_shared_on_err { OnErr result (is_unique_repr_at (Chunks chunks.old) index ≡ false) }
    ensures bound { max_chunk_length (items_of chunks.new) ≤ max_chunk_length (items_of chunks.old) }
{
    make_chunks_unique(alloc, chunks)?;
    match chunks {
        Chunk::Unique(own) => {
            let item = remove_from_chunks(alloc, own, index)?;
            Ok(item)
        }
        Chunk::Shared(_) => Ok(None),
    }
}

// Replaces the item at an index and makes the list of chunks unique.
pub(crate) fn replace_in_chunk_list<T: TryClone>(
    alloc: Global,
    chunks: &mut Chunk<Chunk<T>>,
    index: usize,
    item: T,
) -> Result<Option<T>, AllocError>
    ensures item { IfOk result (λ x. option_map T.model x
        ≡ slice_get (flatten_models T.model (items_of chunks.old)) index) }
    ensures ok { OnOk result (flatten_models T.model (items_of chunks.new)
        ≡ slice_set (flatten_models T.model (items_of chunks.old)) index (T.model item)) }
    ensures err { OnErr result (flatten_models T.model (items_of chunks.new)
        ≡ flatten_models T.model (items_of chunks.old)) }
    ensures unique { is_unique_repr (Chunks chunks.old) ≡ true → is_unique_repr (Chunks chunks.new) ≡ true }
    ensures shared_on_err { OnErr result (is_unique_repr_at (Chunks chunks.old) index ≡ false) }
    ensures unique_after { IfOk result (λ x. IfSome x (λ _. is_unique_repr_at (Chunks chunks.new) index ≡ true)) }
    ensures bound { max_chunk_length (items_of chunks.new) ≤ max_chunk_length (items_of chunks.old) }
{
    make_chunks_unique(alloc, chunks)?;
    match chunks {
        Chunk::Unique(own) => {
            let old = replace_in_chunks(alloc, own, index, item)?;
            Ok(old)
        }
        Chunk::Shared(_) => Ok(None),
    }
}

// Returns the item at an index of a chunk.
pub(crate) fn chunk_item<T: TryClone>(chunk: &Chunk<T>, index: usize) -> Option<&T>
    ensures { option_map (λ x. T.model x.now) result ≡ slice_get (map T.model (items_of chunk.now)) index }
{
    chunk.get(index)
}

// Borrows the item at an index of a chunk mutably, if the chunk is unique.
pub(crate) fn chunk_item_mut<T: TryClone>(chunk: &mut Chunk<T>, index: usize) -> Option<&mut T>
    ensures* writes_back { sem 𝓛 (LendsSo (chunk_row T.row) T.row chunk.entry result
        (λ n w. OnSome result (map T.model (items_of n)
        ≡ slice_set (map T.model (items_of chunk.old)) index (T.model w)))
        (λ n. map T.model (items_of n) ≡ map T.model (items_of chunk.old))) }
    ensures item { IfSome result (λ x. slice_get (map T.model (items_of chunk.old)) index ≡ Some (T.model x.now)) }
    ensures value { is_chunk_unique chunk.old ≡ true
        → option_map (λ x. T.model x.now) result ≡ slice_get (map T.model (items_of chunk.old)) index }
{
    match chunk {
        Chunk::Unique(items) => items.get_mut(index),
        Chunk::Shared(_) => None,
    }
}

// Moves the chunk into a list of one, and leaves an empty chunk.
pub(crate) fn single_chunk<T: Drop>(
    alloc: Global,
    chunk: &mut Chunk<T>,
) -> Result<Vec<Chunk<T>>, AllocError>
    ensures ok { IfOk result (λ v. v.items ≡ chunk.old ∷ []) }
    ensures err { OnErr result (chunk.new ≡ chunk.old) }
{
    let mut chunks = Vec::with_capacity(alloc, 2)?;
    chunks.push(Chunk::Unique(Vec::new(alloc)))?;
    swap(&mut chunks[0], chunk);
    Ok(chunks)
}
