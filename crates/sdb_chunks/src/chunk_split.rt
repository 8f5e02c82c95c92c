//! Splitting a vector into chunks.
ghost use Rattle.std.specs.Prelude.{◌≡◌, ◌≤◌, ◌<◌, true, IfOk};
ghost use Rattle.std.specs.List.{flat_map};
ghost use Rattle.sdb_chunks.specs.Chunk.{items_of};
ghost use Rattle.sdb_chunks.specs.ChunkedVec.{all_unique, max_chunk_length};

use crate::chunk::Chunk;
use std::alloc::{AllocError, Global};

// Splits the items into chunks of at most `most` items.
pub(crate) fn split_into_chunks<T: Drop>(
    alloc: Global,
    items: Vec<T>,
    most: usize,
) -> Result<Vec<Chunk<T>>, AllocError>
    requires { 0 < most }
    ensures items { IfOk result (λ v. flat_map items_of v.items ≡ items.items) }
    ensures unique { IfOk result (λ v. all_unique v.items ≡ true) }
    ensures bound { IfOk result (λ v. max_chunk_length v.items ≤ most) }
{
    let mut left = items;
    let mut chunks = Vec::with_capacity(alloc, left.len() / most + 1)?;
    while left.len() > most {
        let last = left.split_off(left.len() - most)?;
        chunks.push(Chunk::Unique(last))?;
    }
    left.shrink_to_fit();
    chunks.push(Chunk::Unique(left))?;
    chunks.reverse();
    Ok(chunks)
}
