//! The rope.
ghost use Rattle.std.specs.Prelude.{◌≡◌, ◌<◌, true, false, is_some, length, min, nat_eq, option_map, slice_get, string_bytes};
ghost use Rattle.std.specs.Prelude.{IfOk, OnOk, OnErr, IfSome, IsTrue, IsFalse};
ghost use Rattle.std.specs.List.{concat};
ghost use Rattle.sdb_chunks.specs.Iter.{remaining_items};
ghost use Rattle.sdb_rope.specs.EditOutcome.{EditOutcome};
ghost use Rattle.sdb_rope.specs.Rope.{rope_bytes, rope_texts, is_unique_rope, is_shared_rope, HasBoundedChunks};
ghost use Rattle.sdb_rope.specs.RopeChunk.{chunk_list_texts};
ghost use Rattle.sdb_rope.specs.Utf16 as texts;

use crate::chunk_list::{
    clone_shared_chunks, freeze_chunks, insert_into_chunks, remove_from_chunks,
};
use crate::compare::{chunks_equal, chunks_equal_str};
use crate::group_list::{insert_into_groups, remove_across_groups, remove_from_groups};
use crate::insert::{MAX_CHUNK_LEN, split_chunks, split_chunks_with};
use crate::read::{
    bytes_up_to, chunk_str, concat_chunks, grouped_chunk_str, iter_chunks, iter_groups,
    single_chunk_str,
};
use crate::regroup::{MIN_GROUP, clone_shared_groups, freeze_groups, into_groups};
use crate::rope_chunk::RopeChunk;
use crate::shared_str::SharedStr;
use crate::utf16::cut_at;
use sdb_chunks::{Chunk, Iter, TryClone};
use std::alloc::{AllocError, Global};

/// A text in chunks of at most 4,096 bytes, unique or shared with clones. Offsets are in UTF-16
/// code units.
///
/// ```
/// let mut text = Rope::from_str(alloc, "a😀b")?;
/// assert!(rt; text.insert(alloc, 3, "x")? && text.remove(alloc, 0, "a")?);
/// assert_eq!(rt; text.to_string(alloc)?.as_str(), "😀xb");
/// ```
#[derive(Drop)]
pub struct Rope {
    repr: RopeRepr,
}

/// The representation of a rope. A short text is in one chunk.
#[derive(Drop)]
pub enum RopeRepr {
    /// One chunk.
    Flat(SharedStr),
    /// A list of chunks.
    Chunks(Chunk<RopeChunk>),
    /// Groups of chunks, some of them shared.
    Groups(Chunk<Chunk<RopeChunk>>),
}

impl Rope {
    /// Creates a rope. A text of more than 4,096 bytes is split into chunks; a shorter one keeps
    /// its memory.
    ///
    /// # Errors
    ///
    /// [`AllocError`] if an allocation fails, for a text of more than 4,096 bytes.
    pub fn new(alloc: Global, text: String) -> Result<Rope, AllocError>
        ensures ok { IfOk result (λ t. rope_bytes t ≡ string_bytes text) }
        ensures unique { IfOk result (λ t. is_unique_rope t ≡ true) }
        ensures bound { IfOk result HasBoundedChunks }
        ensures memory { OnErr result (4096 < length (string_bytes text)) }
    {
        if text.len() > MAX_CHUNK_LEN {
            let chunks = split_chunks(alloc, text.as_str())?;
            return Ok(Rope {
                repr: RopeRepr::Chunks(Chunk::Unique(chunks)),
            });
        }
        Ok(Rope {
            repr: RopeRepr::Flat(SharedStr::Unique(text)),
        })
    }

    /// Creates a rope from a copy of the text, in chunks if it has more than 4,096 bytes.
    ///
    /// # Errors
    ///
    /// [`AllocError`] if an allocation fails.
    pub fn from_str(alloc: Global, text: &str) -> Result<Rope, AllocError>
        ensures ok { IfOk result (λ t. rope_bytes t ≡ text.now) }
        ensures unique { IfOk result (λ t. is_unique_rope t ≡ true) }
        ensures bound { IfOk result HasBoundedChunks }
    {
        if text.len() > MAX_CHUNK_LEN {
            let chunks = split_chunks(alloc, text)?;
            return Ok(Rope {
                repr: RopeRepr::Chunks(Chunk::Unique(chunks)),
            });
        }
        let chars = String::from_str(alloc, text)?;
        Ok(Rope {
            repr: RopeRepr::Flat(SharedStr::Unique(chars)),
        })
    }

    /// Returns the allocator.
    pub fn allocator(&self) -> Global {
        match &self.repr {
            RopeRepr::Flat(chars) => chars.allocator(),
            RopeRepr::Chunks(chunks) => chunks.allocator(),
            RopeRepr::Groups(groups) => groups.allocator(),
        }
    }

    /// Returns the number of bytes, at most the limit. It stops at the limit.
    pub fn bytes_up_to(&self, limit: u64) -> u64
        ensures { result ≡ min limit (length (rope_bytes self.now)) }
    {
        match &self.repr {
            RopeRepr::Flat(chars) => (chars.as_str().len() as u64).min(limit),
            RopeRepr::Chunks(chunks) => bytes_up_to(iter_chunks(chunks), limit),
            RopeRepr::Groups(groups) => bytes_up_to(iter_groups(groups), limit),
        }
    }

    /// Returns the whole text if it is in one chunk, or `None`.
    pub fn as_str(&self) -> Option<&str>
        ensures text { IfSome result (λ s. s.now ≡ rope_bytes self.now) }
        ensures found { is_some result ≡ nat_eq (length (rope_texts self.now)) 1 }
    {
        match &self.repr {
            RopeRepr::Flat(chars) => Some(chars.as_str()),
            RopeRepr::Chunks(chunks) => single_chunk_str(iter_chunks(chunks)),
            RopeRepr::Groups(groups) => single_chunk_str(iter_groups(groups)),
        }
    }

    /// Returns the chunk at an index, or `None` if it is out of range.
    pub fn chunk(&self, index: usize) -> Option<&str>
        ensures { option_map (λ s. s.now) result ≡ slice_get (rope_texts self.now) index }
    {
        match &self.repr {
            RopeRepr::Flat(chars) => match index {
                0 => Some(chars.as_str()),
                _ => None,
            },
            RopeRepr::Chunks(chunks) => chunk_str(chunks.items(), index),
            RopeRepr::Groups(groups) => grouped_chunk_str(groups.items(), index),
        }
    }

    /// Copies the whole text.
    ///
    /// # Errors
    ///
    /// [`AllocError`] if an allocation fails.
    pub fn to_string(&self, alloc: Global) -> Result<String, AllocError>
        ensures { IfOk result (λ s. string_bytes s ≡ rope_bytes self.now) }
    {
        match &self.repr {
            RopeRepr::Flat(chars) => {
                let copy = String::from_str(alloc, chars.as_str())?;
                Ok(copy)
            }
            RopeRepr::Chunks(chunks) => {
                let copy = concat_chunks(alloc, iter_chunks(chunks))?;
                Ok(copy)
            }
            RopeRepr::Groups(groups) => {
                let copy = concat_chunks(alloc, iter_groups(groups))?;
                Ok(copy)
            }
        }
    }

    /// Inserts a text at an offset in UTF-16 code units. Returns `false`, with the text unchanged,
    /// if the offset is inside a surrogate pair or after the end.
    ///
    /// # Errors
    ///
    /// [`AllocError`] if an allocation fails. The text is then unchanged.
    pub fn insert(&mut self, alloc: Global, offset: u64, new: &str) -> Result<bool, AllocError>
        ensures ok { IfOk result (λ done. EditOutcome done (texts.insert_text offset new.now (rope_bytes self.old))
            (rope_bytes self.old) (rope_bytes self.new)) }
        ensures err { OnErr result (rope_bytes self.new ≡ rope_bytes self.old) }
        ensures unique { is_unique_rope self.old ≡ true → is_unique_rope self.new ≡ true }
        ensures bound { HasBoundedChunks self.old → HasBoundedChunks self.new }
    {
        match &mut self.repr {
            RopeRepr::Flat(chars) => {
                let Some(at) = cut_at(chars.as_str(), offset) else {
                    return Ok(false);
                };
                if chars.as_str().len() + new.len() <= MAX_CHUNK_LEN {
                    chars.insert(alloc, at, new)?;
                    return Ok(true);
                }
                let chunks = split_chunks_with(alloc, chars.as_str(), at, new)?;
                self.repr = RopeRepr::Chunks(Chunk::Unique(chunks));
                Ok(true)
            }
            RopeRepr::Chunks(chunks) => {
                let done = insert_into_chunks(alloc, chunks, offset, new)?;
                Ok(done)
            }
            RopeRepr::Groups(groups) => {
                let done = insert_into_groups(alloc, groups, offset, new)?;
                Ok(done)
            }
        }
    }

    /// Removes a text at an offset in UTF-16 code units. Returns `false`, with the text unchanged,
    /// if the offset is inside a surrogate pair or after the end, or another text is there. It
    /// allocates only if a part is shared.
    ///
    /// # Errors
    ///
    /// [`AllocError`] if an allocation fails. The text is then unchanged.
    pub fn remove(&mut self, alloc: Global, offset: u64, old: &str) -> Result<bool, AllocError>
        ensures ok { IfOk result (λ done. EditOutcome done (texts.remove_text offset old.now (rope_bytes self.old))
            (rope_bytes self.old) (rope_bytes self.new)) }
        ensures err { OnErr result (rope_bytes self.new ≡ rope_bytes self.old) }
        ensures unique { is_unique_rope self.old ≡ true → is_unique_rope self.new ≡ true }
        ensures bound { HasBoundedChunks self.old → HasBoundedChunks self.new }
        ensures shared_on_err { OnErr result (is_unique_rope self.old ≡ false) }
    {
        match &mut self.repr {
            RopeRepr::Flat(chars) => {
                let done = chars.remove_text(alloc, offset, old)?;
                Ok(done)
            }
            RopeRepr::Chunks(chunks) => {
                let done = remove_from_chunks(alloc, chunks, offset, old)?;
                Ok(done)
            }
            RopeRepr::Groups(groups) => {
                if remove_from_groups(alloc, groups, offset, old)? {
                    return Ok(true);
                }
                match remove_across_groups(alloc, groups.items(), offset, old)? {
                    Some(chunks) => {
                        self.repr = RopeRepr::Chunks(chunks);
                        Ok(true)
                    }
                    None => Ok(false),
                }
            }
        }
    }

    /// Returns whether both texts are equal. It doesn't allocate.
    pub fn equals(&self, other: &Rope) -> bool
        ensures on_true { IsTrue result → rope_bytes self.now ≡ rope_bytes other.now }
        ensures on_false { IsFalse result → rope_bytes self.now ≡ rope_bytes other.now → ⊥ }
    {
        match &self.repr {
            RopeRepr::Flat(chars) => other.is_str(chars.as_str()),
            RopeRepr::Chunks(chunks) => other.is_concat_of(iter_chunks(chunks)),
            RopeRepr::Groups(groups) => other.is_concat_of(iter_groups(groups)),
        }
    }

    fn is_str(&self, text: &str) -> bool
        ensures on_true { IsTrue result → text.now ≡ rope_bytes self.now }
        ensures on_false { IsFalse result → text.now ≡ rope_bytes self.now → ⊥ }
    {
        match &self.repr {
            RopeRepr::Flat(chars) => text == chars.as_str(),
            RopeRepr::Chunks(chunks) => chunks_equal_str(iter_chunks(chunks), text),
            RopeRepr::Groups(groups) => chunks_equal_str(iter_groups(groups), text),
        }
    }

    fn is_concat_of(&self, chunks: Iter<'_, RopeChunk>) -> bool
        ensures on_true { IsTrue result → concat (chunk_list_texts (remaining_items chunks.entry))
            ≡ rope_bytes self.now }
        ensures on_false { IsFalse result
            → concat (chunk_list_texts (remaining_items chunks.entry)) ≡ rope_bytes self.now
            → ⊥ }
    {
        match &self.repr {
            RopeRepr::Flat(chars) => chunks_equal_str(chunks, chars.as_str()),
            RopeRepr::Chunks(others) => chunks_equal(chunks, iter_chunks(others)),
            RopeRepr::Groups(groups) => chunks_equal(chunks, iter_groups(groups)),
        }
    }

    /// Clones the rope so that the clone is frozen: its next clone is a pointer. Only parts that
    /// aren't shared yet are copied.
    ///
    /// # Errors
    ///
    /// [`AllocError`] if an allocation fails.
    pub fn frozen_clone(&self, alloc: Global) -> Result<Rope, AllocError>
        ensures bytes { IfOk result (λ t. rope_bytes t ≡ rope_bytes self.now) }
        ensures chunks { IfOk result (λ t. rope_texts t ≡ rope_texts self.now) }
        ensures shared { IfOk result (λ t. is_shared_rope t ≡ true) }
    {
        match &self.repr {
            RopeRepr::Flat(chars) => {
                let copy = chars.frozen_clone(alloc)?;
                Ok(Rope {
                    repr: RopeRepr::Flat(copy),
                })
            }
            RopeRepr::Chunks(chunks) => {
                let copy = clone_shared_chunks(alloc, chunks)?;
                Ok(Rope {
                    repr: RopeRepr::Chunks(copy),
                })
            }
            RopeRepr::Groups(groups) => {
                let copy = clone_shared_groups(alloc, groups)?;
                Ok(Rope {
                    repr: RopeRepr::Groups(copy),
                })
            }
        }
    }

    /// Freezes the rope in place, so that a clone is a pointer. Each chunk that isn't shared yet
    /// takes one allocation for its pointer; many chunks are grouped.
    ///
    /// # Errors
    ///
    /// [`AllocError`] if an allocation fails. The text is then equal, but may be frozen in part.
    pub fn freeze(&mut self, alloc: Global) -> Result<(), AllocError>
        ensures chunks { rope_texts self.new ≡ rope_texts self.old }
        ensures shared { OnOk result (is_shared_rope self.new ≡ true) }
    {
        match &mut self.repr {
            RopeRepr::Flat(chars) => chars.freeze(alloc),
            RopeRepr::Chunks(chunks) => {
                freeze_chunks(alloc, chunks)?;
                if chunks.len() > MIN_GROUP {
                    let groups = into_groups(alloc, chunks.items())?;
                    self.repr = RopeRepr::Groups(groups);
                }
                Ok(())
            }
            RopeRepr::Groups(groups) => freeze_groups(alloc, groups),
        }
    }

    /// Returns whether a clone is a pointer.
    pub fn is_shared(&self) -> bool
        ensures { result ≡ is_shared_rope self.now }
    {
        match &self.repr {
            RopeRepr::Flat(chars) => chars.is_shared(),
            RopeRepr::Chunks(chunks) => !chunks.is_unique(),
            RopeRepr::Groups(groups) => !groups.is_unique(),
        }
    }
}

impl TryClone for Rope {
    ghost use Rattle.std.specs.Prelude.{List, ℕ, Bool};
    ghost use Rattle.sdb_rope.specs.Rope.{rope_bytes, is_unique_rope};

    ghost Model = { List ℕ × Bool };

    ghost model = { λ t. (rope_bytes t, is_unique_rope t) };

    fn try_clone(&self, alloc: Global) -> Result<Rope, AllocError> {
        match &self.repr {
            RopeRepr::Flat(chars) => {
                let copy = chars.try_clone(alloc)?;
                Ok(Rope {
                    repr: RopeRepr::Flat(copy),
                })
            }
            RopeRepr::Chunks(chunks) => {
                let copy = chunks.try_clone(alloc)?;
                Ok(Rope {
                    repr: RopeRepr::Chunks(copy),
                })
            }
            RopeRepr::Groups(groups) => {
                let copy = groups.try_clone(alloc)?;
                Ok(Rope {
                    repr: RopeRepr::Groups(copy),
                })
            }
        }
    }
}
