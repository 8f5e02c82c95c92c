//! Edits of a text in a list of chunks.
ghost use Rattle.std.specs.Prelude.{◌≡◌, true, false, IfOk, OnOk, OnErr};
ghost use Rattle.std.specs.List.{concat};
ghost use Rattle.sdb_chunks.specs.Chunk.{is_chunk_shared};
ghost use Rattle.sdb_rope.specs.ChunkModel.{chunk_texts, is_unique_chunk};
ghost use Rattle.sdb_rope.specs.EditOutcome.{EditOutcome};
ghost use Rattle.sdb_rope.specs.RopeChunk.{chunk_list_texts};
ghost use Rattle.sdb_rope.specs.Position.{AreBounded};
ghost use Rattle.sdb_rope.specs.Utf16 as texts;

use crate::insert::insert;
use crate::position::find_span;
use crate::remove::remove_span;
use crate::rope_chunk::RopeChunk;
use sdb_chunks::Chunk;
use std::alloc::{AllocError, Global};

/// Inserts a text at an offset in UTF-16 code units. Returns `false`, with the text unchanged, if
/// the offset is inside a surrogate pair or after the end.
///
/// # Errors
///
/// [`AllocError`] if an allocation fails. The text is then unchanged.
pub(crate) fn insert_into_chunks(
    alloc: Global,
    chunk_list: &mut Chunk<RopeChunk>,
    offset: u64,
    new: &str,
) -> Result<bool, AllocError>
    ensures ok { IfOk result (λ done. EditOutcome done (texts.insert_text offset new.now (concat
        (chunk_texts chunk_list.old)))
        (concat (chunk_texts chunk_list.old)) (concat (chunk_texts chunk_list.new))) }
    ensures err { OnErr result (concat (chunk_texts chunk_list.new) ≡ concat (chunk_texts chunk_list.old)) }
    ensures unique { is_unique_chunk chunk_list.old ≡ true → is_unique_chunk chunk_list.new ≡ true }
    ensures chunks_bounded { AreBounded (chunk_texts chunk_list.old) → AreBounded (chunk_texts chunk_list.new) }
{
    chunk_list.make_unique(alloc)?;
    match chunk_list {
        Chunk::Unique(chunks) => {
            let done = insert(alloc, chunks, offset, new)?;
            Ok(done)
        }
        Chunk::Shared(_) => unreachable!(),
    }
}

/// Removes a text at an offset in UTF-16 code units. Returns `false`, with the text unchanged, if
/// the offset is inside a surrogate pair or after the end, or another text is there.
pub(crate) fn remove_from_chunks(
    alloc: Global,
    chunk_list: &mut Chunk<RopeChunk>,
    offset: u64,
    old: &str,
) -> Result<bool, AllocError>
    ensures ok { IfOk result (λ done. EditOutcome done (texts.remove_text offset old.now (concat
        (chunk_texts chunk_list.old)))
        (concat (chunk_texts chunk_list.old)) (concat (chunk_texts chunk_list.new))) }
    ensures err { OnErr result (concat (chunk_texts chunk_list.new) ≡ concat (chunk_texts chunk_list.old)) }
    ensures unique { is_unique_chunk chunk_list.old ≡ true → is_unique_chunk chunk_list.new ≡ true }
    ensures chunks_bounded { AreBounded (chunk_texts chunk_list.old) → AreBounded (chunk_texts chunk_list.new) }
    ensures shared_on_err { OnErr result (is_unique_chunk chunk_list.old ≡ false) }
{
    if chunk_list.items().is_empty() {
        return Ok(offset == 0 && old.is_empty());
    }
    let Some(span) = find_span(chunk_list.items(), offset, old) else {
        return Ok(false);
    };
    chunk_list.make_unique(alloc)?;
    match chunk_list {
        Chunk::Unique(chunks) => {
            remove_span(alloc, chunks, span)?;
            Ok(true)
        }
        Chunk::Shared(_) => unreachable!(),
    }
}

/// Clones the list of chunks so that it is shared; by pointer if it is shared already.
pub(crate) fn clone_shared_chunks(
    alloc: Global,
    chunk_list: &Chunk<RopeChunk>,
) -> Result<Chunk<RopeChunk>, AllocError>
    ensures equal { IfOk result (λ b. chunk_texts b ≡ chunk_texts chunk_list.now) }
    ensures shared { IfOk result (λ b. is_chunk_shared b ≡ true) }
{
    if let Some(copy) = chunk_list.clone_shared()? {
        return Ok(copy);
    }
    let chunks = clone_chunk_list(alloc, chunk_list.items())?;
    Chunk::Unique(chunks).into_frozen(alloc)
}

pub(crate) fn clone_chunk_list(
    alloc: Global,
    chunks: &[RopeChunk],
) -> Result<Vec<RopeChunk>, AllocError>
    ensures { IfOk result (λ v. chunk_list_texts v.items ≡ chunk_list_texts chunks.now) }
{
    let mut copies = Vec::with_capacity(alloc, chunks.len())?;
    for chunk in chunks {
        copies.push(chunk.frozen_clone(alloc)?)?;
    }
    Ok(copies)
}

/// Freezes the chunks and their list in place. Shared parts are skipped.
pub(crate) fn freeze_chunks(
    alloc: Global,
    chunk_list: &mut Chunk<RopeChunk>,
) -> Result<(), AllocError>
    ensures unchanged { chunk_texts chunk_list.new ≡ chunk_texts chunk_list.old }
    ensures shared { OnOk result (is_chunk_shared chunk_list.new ≡ true) }
{
    freeze_within(alloc, chunk_list)?;
    chunk_list.freeze(alloc)
}

fn freeze_within(alloc: Global, chunk_list: &mut Chunk<RopeChunk>) -> Result<(), AllocError>
    ensures { chunk_texts chunk_list.new ≡ chunk_texts chunk_list.old }
{
    match chunk_list {
        Chunk::Unique(chunks) => freeze_chunk_list(alloc, chunks),
        Chunk::Shared(_) => Ok(()),
    }
}

fn freeze_chunk_list(alloc: Global, chunks: &mut Vec<RopeChunk>) -> Result<(), AllocError>
    ensures { chunk_list_texts chunks.new.items ≡ chunk_list_texts chunks.old.items }
{
    for at in 0..chunks.len() {
        chunks[at].freeze(alloc)?;
    }
    Ok(())
}
