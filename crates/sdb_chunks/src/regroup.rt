//! Freezing of lists, which puts the chunks of a long list into groups.
ghost use Rattle.std.specs.Prelude.{◌≡◌, ◌≤◌, ◌<◌, ◌++◌, true, map, max, IfOk, IfSome, OnOk};
ghost use Rattle.sdb_chunks.specs.Chunk.{items_of, is_chunk_shared};
ghost use Rattle.sdb_chunks.specs.ChunkGroup.{flatten_group_models, max_grouped_length};
ghost use Rattle.sdb_chunks.specs.ChunkedVec.{flatten_models, chunk_models, repr_models, is_shared_repr, repr_chunks, max_chunk_length};

use crate::chunk::{Chunk, TryClone, clone_items};
use crate::chunk_edit::MIN_CHUNK_LEN;
use crate::chunk_group::ChunkGroup;
use crate::chunked_vec::Repr;
use std::alloc::{AllocError, Global};

// Returns the number of chunks per new group. Each group can grow to twice that number.
fn chunks_per_group(chunks: usize) -> usize
    ensures { 0 < result }
{
    let mut size = MIN_CHUNK_LEN / 2;
    while size < 256 && size < chunks / size {
        size *= 2;
    }
    size
}

// Appends the chunk's items in chunks of at most 20. A shared chunk that is short enough is
// appended by pointer.
fn push_merged<T: TryClone>(
    alloc: Global,
    chunks: &mut Vec<Chunk<T>>,
    chunk: &Chunk<T>,
) -> Result<(), AllocError>
    ensures items { OnOk result (flatten_models T.model chunks.new.items
        ≡ flatten_models T.model chunks.old.items ++ chunk_models T.model chunk.now) }
    ensures bound { OnOk result (max_chunk_length chunks.new.items ≤ max 20 (max_chunk_length chunks.old.items)) }
{
    if chunk.len() <= MIN_CHUNK_LEN {
        chunks.push(chunk.try_clone(alloc)?)?;
        return Ok(());
    }
    push_split(alloc, chunks, chunk.items())
}

// Appends clones of the items in chunks of 20.
fn push_split<T: TryClone>(
    alloc: Global,
    chunks: &mut Vec<Chunk<T>>,
    items: &[T],
) -> Result<(), AllocError>
    ensures items { OnOk result (flatten_models T.model chunks.new.items
        ≡ flatten_models T.model chunks.old.items ++ map T.model items.now) }
    ensures bound { OnOk result (max_chunk_length chunks.new.items ≤ max 20 (max_chunk_length chunks.old.items)) }
{
    let mut start = 0;
    while start < items.len() {
        let end = start + (items.len() - start).min(MIN_CHUNK_LEN);
        let part = clone_items(alloc, &items[start..end], 0)?;
        chunks.push(Chunk::Unique(part).into_frozen(alloc)?)?;
        start = end;
    }
    Ok(())
}

// Clones the items into chunks of at most 20.
fn rebalance_chunks<T: TryClone>(
    alloc: Global,
    chunks: &[Chunk<T>],
) -> Result<Vec<Chunk<T>>, AllocError>
    ensures items { IfOk result (λ v. flatten_models T.model v.items ≡ flatten_models T.model chunks.now) }
    ensures bound { IfOk result (λ v. max_chunk_length v.items ≤ 20) }
{
    let mut short = Vec::with_capacity(alloc, chunks.len())?;
    for chunk in chunks {
        push_merged(alloc, &mut short, chunk)?;
    }
    Ok(short)
}

// Clones the chunks into groups.
fn split_into_groups<T: TryClone>(
    alloc: Global,
    chunks: &[Chunk<T>],
) -> Result<Vec<ChunkGroup<T>>, AllocError>
    ensures items { IfOk result (λ v. flatten_group_models T.model v.items ≡ flatten_models T.model chunks.now) }
    ensures bound { IfOk result (λ v. max_grouped_length v.items ≤ max_chunk_length chunks.now) }
{
    let size = chunks_per_group(chunks.len());
    let mut groups = Vec::with_capacity(alloc, chunks.len() / size + 1)?;
    let mut start = 0;
    while start < chunks.len() {
        let end = start + (chunks.len() - start).min(size);
        let group = clone_items(alloc, &chunks[start..end], 0)?;
        groups.push(ChunkGroup::new(Chunk::Unique(group)))?;
        start = end;
    }
    Ok(groups)
}

// Freezes the list of each group's chunks.
fn freeze_each<T: TryClone>(
    alloc: Global,
    groups: &mut Vec<ChunkGroup<T>>,
) -> Result<(), AllocError>
    ensures unchanged { flatten_group_models T.model groups.new.items ≡ flatten_group_models T.model groups.old.items }
    ensures bound { max_grouped_length groups.new.items ≡ max_grouped_length groups.old.items }
{
    for at in 0..groups.len() {
        groups[at].freeze(alloc)?;
    }
    Ok(())
}

// Freezes the groups, unless the list of groups is shared.
fn freeze_unique<T: TryClone>(
    alloc: Global,
    groups: &mut Chunk<ChunkGroup<T>>,
) -> Result<(), AllocError>
    ensures unchanged { flatten_group_models T.model (items_of groups.new)
        ≡ flatten_group_models T.model (items_of groups.old) }
    ensures bound { max_grouped_length (items_of groups.new) ≡ max_grouped_length (items_of groups.old) }
{
    match groups {
        Chunk::Unique(groups) => freeze_each(alloc, groups),
        Chunk::Shared(_) => Ok(()),
    }
}

// Freezes the groups and their list.
fn freeze_groups<T: TryClone>(
    alloc: Global,
    groups: &mut Chunk<ChunkGroup<T>>,
) -> Result<(), AllocError>
    ensures unchanged { flatten_group_models T.model (items_of groups.new)
        ≡ flatten_group_models T.model (items_of groups.old) }
    ensures shared { OnOk result (is_chunk_shared groups.new ≡ true) }
    ensures bound { max_grouped_length (items_of groups.new) ≡ max_grouped_length (items_of groups.old) }
{
    freeze_unique(alloc, groups)?;
    groups.freeze(alloc)
}

impl<T: TryClone> Repr<T> {
    // Returns the chunks of a long list in groups, if the list of chunks is unique.
    fn into_groups(&self, alloc: Global) -> Result<Option<Vec<ChunkGroup<T>>>, AllocError>
        ensures items { IfOk result (λ o. IfSome o (λ v. flatten_group_models T.model v.items
            ≡ repr_models T.model self.now)) }
        ensures bound { IfOk result (λ o. IfSome o (λ v. max_grouped_length v.items ≤ 20)) }
    {
        match self {
            Repr::Chunks(chunks) => {
                if !chunks.is_unique() || chunks.len() <= MIN_CHUNK_LEN {
                    return Ok(None);
                }
                let short = rebalance_chunks(alloc, chunks.items())?;
                Ok(Some(split_into_groups(alloc, &short)?))
            }
            _ => Ok(None),
        }
    }

    /// Freezes the list in place, so that its next clone is a pointer. More than 20 chunks are put
    /// into groups, in chunks of at most 20 items; unique chunks are cloned for this.
    ///
    /// # Errors
    ///
    /// [`AllocError`] if an allocation fails. The items are then equal.
    pub fn freeze(&mut self, alloc: Global) -> Result<(), AllocError>
        ensures unchanged { repr_models T.model self.new ≡ repr_models T.model self.old }
        ensures shared { OnOk result (is_shared_repr self.new ≡ true) }
        ensures bound { max_chunk_length (repr_chunks self.new) ≤ max 20 (max_chunk_length (repr_chunks self.old)) }
    {
        if let Some(groups) = self.into_groups(alloc)? {
            *self = Repr::Groups(Chunk::Unique(groups));
        }
        match self {
            Repr::Flat(chunk) => chunk.freeze(alloc),
            Repr::Chunks(chunks) => chunks.freeze(alloc),
            Repr::Groups(groups) => freeze_groups(alloc, groups),
        }
    }
}
