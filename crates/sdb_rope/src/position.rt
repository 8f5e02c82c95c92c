//! Positions in the chunks of a text.
ghost use Rattle.std.specs.Prelude.{◌≡◌, ◌≤◌, ◌<◌, ◌+◌, ◌++◌, false, None, length, nat_eq, IfOk, IfErr, IfSome, IfNone};
ghost use Rattle.std.specs.List.{starts_with, concat};
ghost use Rattle.sdb_rope.specs.RopeChunk.{chunk_list_texts};
ghost use Rattle.sdb_rope.specs.Position.{chunk_text, bytes_before, bytes_after, IsUnitPosition, IsBytePosition, IsEndPosition, IsByteRange};
ghost use Rattle.sdb_rope.specs.Utf16 as texts;

use crate::rope_chunk::RopeChunk;
use crate::utf16::cut_at;

/// A range from a byte of a chunk to a byte of that chunk or a later one.
#[derive(Clone, Copy)]
pub(crate) struct Span {
    pub first: usize,
    pub from: usize,
    pub last: usize,
    pub to: usize,
}

/// Returns the chunk that contains the offset, and the offset inside it. `Err` has the number of
/// code units after the end.
pub(crate) fn chunk_at_offset(chunks: &[RopeChunk], offset: u64) -> Result<(usize, u64), u64>
    ensures ok { IfOk result (λ r. IsUnitPosition (chunk_list_texts chunks.now) offset r.0 r.1) }
    ensures err { IfErr result (λ left. texts.units (concat (chunk_list_texts chunks.now)) + left ≡ offset) }
{
    let mut left = offset;
    for (at, chunk) in chunks.iter().enumerate() {
        let units = chunk.units();
        if left < units {
            return Ok((at, left));
        }
        left -= units;
    }
    Err(left)
}

/// Returns the chunk and the byte at an offset in UTF-16 code units. Returns `None` if the offset
/// is inside a surrogate pair or after the end.
pub(crate) fn byte_position(chunks: &[RopeChunk], offset: u64) -> Option<(usize, usize)>
    requires { 0 < length chunks.now }
    ensures some { IfSome result (λ r. IsBytePosition (chunk_list_texts chunks.now) offset r.0 r.1) }
    ensures none { IfNone result (texts.cut_at (concat (chunk_list_texts chunks.now)) offset ≡ None) }
{
    match chunk_at_offset(chunks, offset) {
        Ok((at, left)) => match cut_at(chunks[at].as_str(), left) {
            Some(byte) => Some((at, byte)),
            None => None,
        },
        Err(left) => {
            if left != 0 {
                return None;
            }
            let last = chunks.len() - 1;
            Some((last, chunks[last].as_str().len()))
        }
    }
}

/// Returns the end of a text that begins at a byte of a chunk: the chunk with its last byte, and
/// the byte after that. Returns `None` if another text is there.
pub(crate) fn end_position(
    chunks: &[RopeChunk],
    first: usize,
    from: usize,
    old: &str,
) -> Option<(usize, usize)>
    requires in_list { first < length chunks.now }
    requires in_range { from ≤ length (chunk_text (chunk_list_texts chunks.now) first) }
    ensures some { IfSome result (λ e. IsEndPosition (chunk_list_texts chunks.now) first from old.now e.0 e.1) }
    ensures none { IfNone result (starts_with nat_eq (bytes_after (chunk_list_texts chunks.now) first from) old.now
        ≡ false) }
{
    let text = old.as_bytes();
    let mut done = 0;
    let mut at = first;
    let mut start = from;
    while at < chunks.len() {
        let here = &chunks[at].as_str().as_bytes()[start..];
        let rest = &text[done..];
        if rest.len() <= here.len() {
            return if here.starts_with(rest) {
                Some((at, start + rest.len()))
            } else {
                None
            };
        }
        if !rest.starts_with(here) {
            return None;
        }
        done += here.len();
        at += 1;
        start = 0;
    }
    None
}

/// Returns the range of a text at an offset in UTF-16 code units. Returns `None` if the offset is
/// inside a surrogate pair or after the end, or another text is there.
pub(crate) fn find_span(chunks: &[RopeChunk], offset: u64, old: &str) -> Option<Span>
    requires { 0 < length chunks.now }
    ensures position { IfSome result (λ s. IsBytePosition (chunk_list_texts chunks.now) offset s.first s.from) }
    ensures text { IfSome result (λ s. bytes_after (chunk_list_texts chunks.now) s.first s.from
        ≡ old.now ++ bytes_after (chunk_list_texts chunks.now) s.last s.to) }
    ensures range { IfSome result (λ s. IsByteRange (chunk_list_texts chunks.now) s.first s.from s.last s.to) }
    ensures none { IfNone result (texts.remove_text offset old.now (concat (chunk_list_texts chunks.now)) ≡ None) }
{
    let Some((first, from)) = byte_position(chunks, offset) else {
        return None;
    };
    let Some((last, to)) = end_position(chunks, first, from, old) else {
        return None;
    };
    Some(Span {
        first,
        from,
        last,
        to,
    })
}
