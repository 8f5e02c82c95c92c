//! Equality of chunked texts.
ghost use Rattle.std.specs.Prelude.{◌≡◌, ◌++◌, [], ℕ, List, IsTrue, IsFalse};
ghost use Rattle.std.specs.List.{concat};
ghost use Rattle.sdb_chunks.specs.Iter.{remaining_items};
ghost use Rattle.sdb_rope.specs.Cursor.{remaining_bytes};
ghost use Rattle.sdb_rope.specs.RopeChunk.{chunk_list_texts};

use crate::rope_chunk::RopeChunk;
use sdb_chunks::Iter;

/// Returns whether the concatenated chunks equal the text.
pub(crate) fn chunks_equal_str(chunks: Iter<'_, RopeChunk>, text: &str) -> bool
    ensures on_true { IsTrue result → concat (chunk_list_texts (remaining_items chunks.entry)) ≡ text.now }
    ensures on_false { IsFalse result → concat (chunk_list_texts (remaining_items chunks.entry)) ≡ text.now → ⊥ }
{
    let mut left = ChunkCursor::new(chunks);
    left.advance(text) && left.is_end()
}

/// Returns whether two lists of chunks concatenate to the same text.
pub(crate) fn chunks_equal(chunks: Iter<'_, RopeChunk>, others: Iter<'_, RopeChunk>) -> bool
    ensures on_true { IsTrue result → concat (chunk_list_texts (remaining_items chunks.entry))
        ≡ concat (chunk_list_texts (remaining_items others.entry)) }
    ensures on_false { IsFalse result → concat (chunk_list_texts (remaining_items chunks.entry))
        ≡ concat (chunk_list_texts (remaining_items others.entry)) → ⊥ }
{
    let mut left = ChunkCursor::new(chunks);
    for other in others {
        if !left.advance(other.as_str()) {
            return false;
        }
    }
    left.is_end()
}

// A cursor over the chunks of a text.
#[derive(Drop)]
struct ChunkCursor<'a> {
    // The rest of the current chunk.
    current: &'a [u8],
    // The chunks after it.
    rest: Iter<'a, RopeChunk>,
}

impl<'a> ChunkCursor<'a> {
    fn new(chunks: Iter<'a, RopeChunk>) -> ChunkCursor<'a>
        ensures { remaining_bytes result ≡ concat (chunk_list_texts (remaining_items chunks.entry)) }
    {
        ChunkCursor {
            current: &[],
            rest: chunks,
        }
    }

    // Advances by the text. Returns `false` if another text is there.
    fn advance(&mut self, text: &str) -> bool
        ensures yes { IsTrue result → remaining_bytes self.old ≡ text.now ++ remaining_bytes self.new }
        ensures no { IsFalse result → (more : List ℕ) → remaining_bytes self.old ≡ text.now ++ more → ⊥ }
    {
        let mut wanted = text.as_bytes();
        while wanted.len() > self.current.len() {
            let Some(others) = wanted.strip_prefix(self.current) else {
                return false;
            };
            let Some(chunk) = self.rest.next() else {
                return false;
            };
            wanted = others;
            self.current = chunk.as_str().as_bytes();
        }
        let Some(others) = self.current.strip_prefix(wanted) else {
            return false;
        };
        self.current = others;
        true
    }

    // Returns whether the cursor is at the end.
    fn is_end(self) -> bool
        ensures yes { IsTrue result → remaining_bytes self.entry ≡ [] }
        ensures no { IsFalse result → remaining_bytes self.entry ≡ [] → ⊥ }
    {
        if !self.current.is_empty() {
            return false;
        }
        for chunk in self.rest {
            if !chunk.as_str().is_empty() {
                return false;
            }
        }
        true
    }
}
