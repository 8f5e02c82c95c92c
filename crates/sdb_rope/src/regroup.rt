//! Groups of chunks.
ghost use Rattle.std.specs.Prelude.{◌≡◌, ◌<◌, ◌++◌, true, IfOk, OnOk};
ghost use Rattle.sdb_chunks.specs.Chunk.{items_of, is_chunk_shared};
ghost use Rattle.sdb_rope.specs.ChunkModel.{chunk_texts};
ghost use Rattle.sdb_rope.specs.GroupModel.{texts_of_groups};
ghost use Rattle.sdb_rope.specs.RopeChunk.{chunk_list_texts};

use crate::chunk_list::{clone_chunk_list, clone_shared_chunks, freeze_chunks};
use crate::rope_chunk::RopeChunk;
use sdb_chunks::{Chunk, TryClone};
use std::alloc::{AllocError, Global};

/// Minimum number of chunks of a text with groups, and of a group that is split.
pub(crate) const MIN_GROUP: usize = 16;

// Returns the number of chunks per new group. Each group can grow to twice that number.
fn chunks_per_group(pieces: usize) -> usize
    ensures { 0 < result }
{
    let mut size = MIN_GROUP / 2;
    while size < 64 && size < pieces / size {
        size *= 2;
    }
    size
}

/// Clones the chunks into shared groups.
pub(crate) fn into_groups(
    alloc: Global,
    chunks: &[RopeChunk],
) -> Result<Chunk<Chunk<RopeChunk>>, AllocError>
    ensures equal { IfOk result (λ g. texts_of_groups (items_of g) ≡ chunk_list_texts chunks.now) }
    ensures shared { IfOk result (λ g. is_chunk_shared g ≡ true) }
{
    let groups = split_into_groups(alloc, chunks)?;
    Chunk::Unique(groups).into_frozen(alloc)
}

fn split_into_groups(
    alloc: Global,
    chunks: &[RopeChunk],
) -> Result<Vec<Chunk<RopeChunk>>, AllocError>
    ensures { IfOk result (λ v. texts_of_groups v.items ≡ chunk_list_texts chunks.now) }
{
    let size = chunks_per_group(chunks.len());
    let mut groups = Vec::with_capacity(alloc, chunks.len() / size + 1)?;
    let mut start = 0;
    while start < chunks.len() {
        let end = start + (chunks.len() - start).min(size);
        let group = clone_chunk_list(alloc, &chunks[start..end])?;
        groups.push(Chunk::Unique(group).into_frozen(alloc)?)?;
        start = end;
    }
    Ok(groups)
}

/// Clones the chunks of all groups, shared ones by pointer.
pub(crate) fn ungroup_chunks(
    alloc: Global,
    groups: &[Chunk<RopeChunk>],
) -> Result<Vec<RopeChunk>, AllocError>
    ensures { IfOk result (λ v. chunk_list_texts v.items ≡ texts_of_groups groups.now) }
{
    let mut chunks = Vec::new(alloc);
    for group in groups {
        push_chunks(alloc, &mut chunks, group.items())?;
    }
    Ok(chunks)
}

fn push_chunks(
    alloc: Global,
    chunks: &mut Vec<RopeChunk>,
    group: &[RopeChunk],
) -> Result<(), AllocError>
    ensures { OnOk result (chunk_list_texts chunks.new.items
        ≡ chunk_list_texts chunks.old.items ++ chunk_list_texts group.now) }
{
    for chunk in group {
        chunks.push(chunk.try_clone(alloc)?)?;
    }
    Ok(())
}

/// Clones the groups so that they are shared; by pointer if they are shared already.
pub(crate) fn clone_shared_groups(
    alloc: Global,
    groups: &Chunk<Chunk<RopeChunk>>,
) -> Result<Chunk<Chunk<RopeChunk>>, AllocError>
    ensures equal { IfOk result (λ g. texts_of_groups (items_of g) ≡ texts_of_groups (items_of groups.now)) }
    ensures shared { IfOk result (λ g. is_chunk_shared g ≡ true) }
{
    if let Some(copy) = groups.clone_shared()? {
        return Ok(copy);
    }
    let copies = clone_each(alloc, groups.items())?;
    Chunk::Unique(copies).into_frozen(alloc)
}

fn clone_each(
    alloc: Global,
    groups: &[Chunk<RopeChunk>],
) -> Result<Vec<Chunk<RopeChunk>>, AllocError>
    ensures { IfOk result (λ v. texts_of_groups v.items ≡ texts_of_groups groups.now) }
{
    let mut copies = Vec::with_capacity(alloc, groups.len())?;
    for group in groups {
        copies.push(clone_shared_chunks(alloc, group)?)?;
    }
    Ok(copies)
}

/// Freezes the groups and their list in place. Shared parts are skipped.
pub(crate) fn freeze_groups(
    alloc: Global,
    groups: &mut Chunk<Chunk<RopeChunk>>,
) -> Result<(), AllocError>
    ensures unchanged { texts_of_groups (items_of groups.new) ≡ texts_of_groups (items_of groups.old) }
    ensures shared { OnOk result (is_chunk_shared groups.new ≡ true) }
{
    freeze_within_group(alloc, groups)?;
    groups.freeze(alloc)
}

fn freeze_within_group(
    alloc: Global,
    groups: &mut Chunk<Chunk<RopeChunk>>,
) -> Result<(), AllocError>
    ensures { texts_of_groups (items_of groups.new) ≡ texts_of_groups (items_of groups.old) }
{
    match groups {
        Chunk::Unique(groups) => freeze_each(alloc, groups),
        Chunk::Shared(_) => Ok(()),
    }
}

fn freeze_each(alloc: Global, groups: &mut Vec<Chunk<RopeChunk>>) -> Result<(), AllocError>
    ensures { texts_of_groups groups.new.items ≡ texts_of_groups groups.old.items }
{
    for at in 0..groups.len() {
        freeze_group(alloc, &mut groups[at])?;
    }
    Ok(())
}

fn freeze_group(alloc: Global, group: &mut Chunk<RopeChunk>) -> Result<(), AllocError>
    ensures { chunk_texts group.new ≡ chunk_texts group.old }
{
    if group.is_unique() {
        return freeze_chunks(alloc, group);
    }
    Ok(())
}
