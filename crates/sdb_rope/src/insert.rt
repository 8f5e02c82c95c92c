//! Inserts into the chunks of a text.
ghost use Rattle.std.specs.Prelude.{◌≡◌, ◌≤◌, ◌<◌, ◌+◌, ◌++◌, true, All, length, IfOk, OnOk, OnErr};
ghost use Rattle.std.specs.List.{concat, insert_slice};
ghost use Rattle.std.specs.String.Boundary.{IsSplitPoint};
ghost use Rattle.sdb_rope.specs.EditOutcome.{EditOutcome};
ghost use Rattle.sdb_rope.specs.RopeChunk.{chunk_list_texts, is_unique_rope_chunk, IsUniqueChunk};
ghost use Rattle.sdb_rope.specs.Position.{chunk_text, bytes_before, bytes_after, AreBounded};
ghost use Rattle.sdb_rope.specs.Utf16 as texts;

use crate::position::byte_position;
use crate::rope_chunk::RopeChunk;
use std::alloc::{AllocError, Global};

/// Maximum length in bytes of a chunk.
pub(crate) const MAX_CHUNK_LEN: usize = 4096;

// Length in bytes of the chunks into which a text is split, which leaves capacity for inserts.
const SPLIT_LEN: usize = 3072;

/// Splits the text into unique chunks.
pub(crate) fn split_chunks(alloc: Global, text: &str) -> Result<Vec<RopeChunk>, AllocError>
    ensures ok { IfOk result (λ v. concat (chunk_list_texts v.items) ≡ text.now) }
    ensures unique { IfOk result (λ v. All IsUniqueChunk v.items) }
    ensures chunks_bounded { IfOk result (λ v. AreBounded (chunk_list_texts v.items)) }
{
    let mut chunks = Vec::new(alloc);
    let mut start = 0;
    while text.len() - start > SPLIT_LEN {
        let end = text.floor_char_boundary(start + SPLIT_LEN);
        chunks.push(RopeChunk::new(String::from_str(alloc, &text[start..end])?))?;
        start = end;
    }
    chunks.push(RopeChunk::new(String::from_str(alloc, &text[start..])?))?;
    Ok(chunks)
}

/// Splits the text, with another one inserted at a byte, into unique chunks.
pub(crate) fn split_chunks_with(
    alloc: Global,
    text: &str,
    at: usize,
    new: &str,
) -> Result<Vec<RopeChunk>, AllocError>
    requires { IsSplitPoint text.now at }
    ensures ok { IfOk result (λ v. concat (chunk_list_texts v.items) ≡ insert_slice text.now at new.now) }
    ensures unique { IfOk result (λ v. All IsUniqueChunk v.items) }
    ensures chunks_bounded { IfOk result (λ v. AreBounded (chunk_list_texts v.items)) }
{
    let mut whole = String::from_str(alloc, text)?;
    whole.insert_str(at, new)?;
    let chunks = split_chunks(alloc, whole.as_str())?;
    Ok(chunks)
}

// Inserts a text at a byte of a chunk, and splits the chunk if it gets too long.
fn insert_in_chunk(
    alloc: Global,
    chunks: &mut Vec<RopeChunk>,
    at: usize,
    byte: usize,
    new: &str,
) -> Result<(), AllocError>
    requires in_list { at < length chunks.old.items }
    requires boundary { IsSplitPoint (chunk_text (chunk_list_texts chunks.old.items) at) byte }
    ensures ok { OnOk result (concat (chunk_list_texts chunks.new.items)
        ≡ bytes_before (chunk_list_texts chunks.old.items) at byte ++ (new.now ++ bytes_after
        (chunk_list_texts chunks.old.items) at byte)) }
    ensures err { OnErr result (concat (chunk_list_texts chunks.new.items)
        ≡ concat (chunk_list_texts chunks.old.items)) }
    ensures unique { All IsUniqueChunk chunks.old.items → All IsUniqueChunk chunks.new.items }
    ensures chunks_bounded { AreBounded (chunk_list_texts chunks.old.items)
        → AreBounded (chunk_list_texts chunks.new.items) }
{
    if chunks[at].as_str().len() + new.len() <= MAX_CHUNK_LEN {
        let done = chunks[at].insert(alloc, byte, new)?;
        return Ok(done);
    }
    let fresh = split_chunks_with(alloc, chunks[at].as_str(), byte, new)?;
    let _removed_units = chunks.splice(at..at + 1, fresh)?;
    Ok(())
}

// Adds an empty chunk if there is none.
fn ensure_chunk(alloc: Global, chunks: &mut Vec<RopeChunk>) -> Result<(), AllocError>
    ensures unchanged { concat (chunk_list_texts chunks.new.items) ≡ concat (chunk_list_texts chunks.old.items) }
    ensures some { OnOk result (0 < length chunks.new.items) }
    ensures unique { All IsUniqueChunk chunks.old.items → All IsUniqueChunk chunks.new.items }
    ensures chunks_bounded { AreBounded (chunk_list_texts chunks.old.items)
        → AreBounded (chunk_list_texts chunks.new.items) }
{
    if chunks.is_empty() {
        chunks.push(RopeChunk::new(String::new(alloc)))?;
    }
    Ok(())
}

/// Inserts a text at an offset in UTF-16 code units. Returns `false`, with the text unchanged, if
/// the offset is inside a surrogate pair or after the end.
///
/// # Errors
///
/// [`AllocError`] if an allocation fails. The text is then unchanged.
pub(crate) fn insert(
    alloc: Global,
    chunks: &mut Vec<RopeChunk>,
    offset: u64,
    new: &str,
) -> Result<bool, AllocError>
    ensures ok { IfOk result (λ done. EditOutcome done (texts.insert_text offset new.now (concat
        (chunk_list_texts chunks.old.items)))
        (concat (chunk_list_texts chunks.old.items)) (concat (chunk_list_texts chunks.new.items))) }
    ensures err { OnErr result (concat (chunk_list_texts chunks.new.items)
        ≡ concat (chunk_list_texts chunks.old.items)) }
    ensures unique { All IsUniqueChunk chunks.old.items → All IsUniqueChunk chunks.new.items }
    ensures chunks_bounded { AreBounded (chunk_list_texts chunks.old.items)
        → AreBounded (chunk_list_texts chunks.new.items) }
{
    ensure_chunk(alloc, chunks)?;
    let Some((at, byte)) = byte_position(chunks, offset) else {
        return Ok(false);
    };
    insert_in_chunk(alloc, chunks, at, byte, new)?;
    Ok(true)
}
