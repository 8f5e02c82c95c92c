//! Reads of the chunks of a text.
ghost use Rattle.std.specs.Prelude.{◌≡◌, is_some, length, min, nat_eq, option_map, slice_get, string_bytes, IfOk, IfSome};
ghost use Rattle.std.specs.List.{concat};
ghost use Rattle.sdb_chunks.specs.Chunk.{items_of};
ghost use Rattle.sdb_chunks.specs.Iter.{remaining_items};
ghost use Rattle.sdb_rope.specs.ChunkModel.{chunk_texts};
ghost use Rattle.sdb_rope.specs.GroupModel.{texts_of_groups};
ghost use Rattle.sdb_rope.specs.RopeChunk.{chunk_list_texts};

use crate::rope_chunk::RopeChunk;
use sdb_chunks::{Chunk, Iter};
use std::alloc::{AllocError, Global};

/// Returns the number of bytes, at most the limit. It stops at the limit.
pub(crate) fn bytes_up_to(chunks: Iter<'_, RopeChunk>, limit: u64) -> u64
    ensures { result ≡ min limit (length (concat (chunk_list_texts (remaining_items chunks.entry)))) }
{
    let mut left = limit;
    for chunk in chunks {
        if left == 0 {
            return limit;
        }
        left -= (chunk.as_str().len() as u64).min(left);
    }
    limit - left
}

/// Concatenates the chunks.
pub(crate) fn concat_chunks(
    alloc: Global,
    chunks: Iter<'_, RopeChunk>,
) -> Result<String, AllocError>
    ensures { IfOk result (λ s. string_bytes s ≡ concat (chunk_list_texts (remaining_items chunks.entry))) }
{
    let mut whole = String::new(alloc);
    for chunk in chunks {
        whole.push_str(chunk.as_str())?;
    }
    Ok(whole)
}

/// Returns the text of a single chunk, or `None` for none or several.
pub(crate) fn single_chunk_str<'a>(mut chunks: Iter<'a, RopeChunk>) -> Option<&'a str>
    ensures text { IfSome result (λ s. s.now ≡ concat (chunk_list_texts (remaining_items chunks.entry))) }
    ensures found { is_some result ≡ nat_eq (length (chunk_list_texts (remaining_items chunks.entry))) 1 }
{
    let first = chunks.next()?;
    match chunks.next() {
        Some(_) => None,
        None => Some(first.as_str()),
    }
}

/// Iterates over the chunks in order.
pub(crate) fn iter_chunks(chunks: &Chunk<RopeChunk>) -> Iter<'_, RopeChunk>
    ensures { chunk_list_texts (remaining_items result) ≡ chunk_texts chunks.now }
{
    Iter::new(chunks.items(), &[])
}

/// Iterates over the chunks of all groups in order.
pub(crate) fn iter_groups(groups: &Chunk<Chunk<RopeChunk>>) -> Iter<'_, RopeChunk>
    ensures { chunk_list_texts (remaining_items result) ≡ texts_of_groups (items_of groups.now) }
{
    Iter::new(&[], groups.items())
}

/// Returns the text of the chunk at an index, or `None` if it is out of range.
pub(crate) fn chunk_str(chunks: &[RopeChunk], index: usize) -> Option<&str>
    ensures { option_map (λ s. s.now) result ≡ slice_get (chunk_list_texts chunks.now) index }
{
    Some(chunks.get(index)?.as_str())
}

/// Returns the text of the chunk at an index of all groups, or `None` if it is out of range.
pub(crate) fn grouped_chunk_str(groups: &[Chunk<RopeChunk>], index: usize) -> Option<&str>
    ensures { option_map (λ s. s.now) result ≡ slice_get (texts_of_groups groups.now) index }
{
    let mut left = index;
    for group in groups {
        if left < group.len() {
            return chunk_str(group.items(), left);
        }
        left -= group.len();
    }
    None
}
