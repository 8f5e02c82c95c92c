//! Removals from the chunks of a text.
ghost use Rattle.std.specs.Prelude.{◌≡◌, ◌≤◌, ◌<◌, ◌+◌, ◌++◌, ℕ, All, length, OnOk, OnErr};
ghost use Rattle.std.specs.List.{concat, remove_range, HoldsAt};
ghost use Rattle.std.specs.String.Boundary.{IsSplitPoint};
ghost use Rattle.sdb_rope.specs.RopeChunk.{chunk_list_texts, is_unique_rope_chunk, IsUniqueChunk};
ghost use Rattle.sdb_rope.specs.Position.{chunk_text, bytes_before, bytes_after, AreBounded, IsByteRange};

use crate::position::Span;
use crate::rope_chunk::RopeChunk;
use std::alloc::{AllocError, Global};

/// Removes a range. Fails only if a chunk is shared and an allocation fails; the text is then
/// unchanged.
pub(crate) fn remove_span(
    alloc: Global,
    chunks: &mut Vec<RopeChunk>,
    span: Span,
) -> Result<(), AllocError>
    requires { IsByteRange (chunk_list_texts chunks.old.items) span.first span.from span.last span.to }
    ensures ok { OnOk result (concat (chunk_list_texts chunks.new.items)
        ≡ bytes_before (chunk_list_texts chunks.old.items) span.first span.from
        ++ bytes_after (chunk_list_texts chunks.old.items) span.last span.to) }
    ensures err { OnErr result (concat (chunk_list_texts chunks.new.items)
        ≡ concat (chunk_list_texts chunks.old.items)) }
    ensures unique { All IsUniqueChunk chunks.old.items → All IsUniqueChunk chunks.new.items }
    ensures chunks_bounded { AreBounded (chunk_list_texts chunks.old.items)
        → AreBounded (chunk_list_texts chunks.new.items) }
    ensures shared_on_err { OnErr result (All IsUniqueChunk chunks.old.items → ⊥) }
{
    make_chunk_unique(alloc, chunks, span.first)?;
    make_chunk_unique(alloc, chunks, span.last)?;
    if span.first == span.last {
        remove_within_chunk(chunks, span.first, span.from, span.to);
    } else {
        remove_across_chunks(chunks, span);
    }
    Ok(())
}

// Makes a chunk unique.
fn make_chunk_unique(
    alloc: Global,
    chunks: &mut Vec<RopeChunk>,
    at: usize,
) -> Result<(), AllocError>
    requires { at < length chunks.old.items }
    ensures unchanged { chunk_list_texts chunks.new.items ≡ chunk_list_texts chunks.old.items }
    ensures unique_at_index { OnOk result (HoldsAt IsUniqueChunk chunks.new.items at) }
    ensures others_unchanged { (k : ℕ) → HoldsAt IsUniqueChunk chunks.old.items k
        → HoldsAt IsUniqueChunk chunks.new.items k }
    ensures unique { All IsUniqueChunk chunks.old.items → All IsUniqueChunk chunks.new.items }
    ensures chunks_bounded { AreBounded (chunk_list_texts chunks.old.items)
        → AreBounded (chunk_list_texts chunks.new.items) }
    ensures shared_on_err { OnErr result (All IsUniqueChunk chunks.old.items → ⊥) }
{
    let done = chunks[at].make_unique(alloc)?;
    Ok(done)
}

// Removes bytes of one chunk.
fn remove_within_chunk(chunks: &mut Vec<RopeChunk>, at: usize, from: usize, to: usize)
    requires range { IsByteRange (chunk_list_texts chunks.old.items) at from at to }
    requires unique { HoldsAt IsUniqueChunk chunks.old.items at }
    ensures bytes { concat (chunk_list_texts chunks.new.items)
        ≡ bytes_before (chunk_list_texts chunks.old.items) at from ++ bytes_after
        (chunk_list_texts chunks.old.items) at to }
    ensures unique { All IsUniqueChunk chunks.old.items → All IsUniqueChunk chunks.new.items }
    ensures chunks_bounded { AreBounded (chunk_list_texts chunks.old.items)
        → AreBounded (chunk_list_texts chunks.new.items) }
{
    chunks[at].remove(from, to);
    remove_empty_chunk(chunks, at);
}

// Removes the end of one chunk, the beginning of a later one, and the chunks between them.
fn remove_across_chunks(chunks: &mut Vec<RopeChunk>, span: Span)
    requires range { IsByteRange (chunk_list_texts chunks.old.items) span.first span.from span.last span.to }
    requires distinct_chunks { span.first < span.last }
    requires first { HoldsAt IsUniqueChunk chunks.old.items span.first }
    requires last { HoldsAt IsUniqueChunk chunks.old.items span.last }
    ensures bytes { concat (chunk_list_texts chunks.new.items)
        ≡ bytes_before (chunk_list_texts chunks.old.items) span.first span.from
        ++ bytes_after (chunk_list_texts chunks.old.items) span.last span.to }
    ensures unique { All IsUniqueChunk chunks.old.items → All IsUniqueChunk chunks.new.items }
    ensures chunks_bounded { AreBounded (chunk_list_texts chunks.old.items)
        → AreBounded (chunk_list_texts chunks.new.items) }
{
    let len = chunks[span.first].as_str().len();
    chunks[span.first].remove(span.from, len);
    chunks[span.last].remove(0, span.to);
    remove_chunks_between(chunks, span.first + 1, span.last);
    remove_empty_chunk(chunks, span.first + 1);
    remove_empty_chunk(chunks, span.first);
}

// Removes a range of chunks.
fn remove_chunks_between(chunks: &mut Vec<RopeChunk>, from: usize, to: usize)
    requires ordered { from ≤ to }
    requires in_range { to ≤ length chunks.old.items }
    ensures { chunks.new.items ≡ remove_range chunks.old.items from to }
{
    drop(chunks.drain(from..to));
}

// Removes the chunk if it is empty.
fn remove_empty_chunk(chunks: &mut Vec<RopeChunk>, at: usize)
    requires { at < length chunks.old.items }
    ensures unchanged { concat (chunk_list_texts chunks.new.items) ≡ concat (chunk_list_texts chunks.old.items) }
    ensures count { length chunks.old.items ≤ length chunks.new.items + 1 }
    ensures unique { All IsUniqueChunk chunks.old.items → All IsUniqueChunk chunks.new.items }
    ensures chunks_bounded { AreBounded (chunk_list_texts chunks.old.items)
        → AreBounded (chunk_list_texts chunks.new.items) }
{
    if chunks[at].as_str().is_empty() {
        let _removed_units = chunks.remove(at);
    }
}
