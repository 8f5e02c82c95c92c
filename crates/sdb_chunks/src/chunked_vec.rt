//! Chunked lists.
ghost use Rattle.sdb_chunks.specs.Iter.{remaining_items, remaining_chunks};
ghost use Rattle.std.specs.Prelude.{◌≡◌, ◌≤◌, ◌∷◌, [], true, false, length, map};
ghost use Rattle.std.specs.Prelude.{Some, IfOk, IfSome, is_some, OnErr};
ghost use Rattle.sdb_chunks.specs.ChunkedVec.{vec_models, is_unique_vec, is_shared_vec, is_unique_flat_vec, is_grouped_vec, all_unique, all_shared, vec_chunks, vec_items, vec_chunk_items, vec_repr};
ghost use Rattle.sdb_chunks.specs.Chunks.{max_chunk_length};

use crate::chunk::{Chunk, TryClone};
use crate::chunk_edit::max_chunk_len_for;
use crate::chunk_group::ChunkGroup;
use crate::chunk_split::split_into_chunks;
use crate::iter::{Chunks, Iter};
use std::alloc::{AllocError, Global};
use std::slice;
use std::sync::Arc;

/// A list: one chunk if it is short, else chunks of bounded length. Each chunk is unique or shared
/// with clones.
///
/// ```
/// // `Number` implements `TryClone`.
/// let mut list = ChunkedVec::from_vec(Vec::new(alloc));
/// assert!(rt; list.insert(alloc, 0, Number(7))?);
/// assert!(rt; list.get(0).map(|item| item.0) == Some(7) && list.get(1).is_none());
/// ```
#[derive(Drop)]
pub struct ChunkedVec<T> {
    pub(crate) repr: Repr<T>,
}

/// The representation of a chunked list.
#[derive(Drop)]
pub enum Repr<T> {
    /// One chunk.
    Flat(Chunk<T>),
    /// A list of chunks.
    Chunks(Chunk<Chunk<T>>),
    /// Groups of chunks, as of a long list after a freeze.
    Groups(Chunk<ChunkGroup<T>>),
}

impl<T> ChunkedVec<T> {
    /// Creates a list that keeps the vector's memory.
    pub fn from_vec(items: Vec<T>) -> ChunkedVec<T>
        ensures items { vec_chunk_items result ≡ items.items ∷ [] }
        ensures unique { is_unique_vec result ≡ true }
    {
        ChunkedVec {
            repr: Repr::Flat(Chunk::Unique(items)),
        }
    }

    /// Creates a list from its representation.
    pub fn from_repr(repr: Repr<T>) -> ChunkedVec<T>
        ensures { vec_repr result ≡ repr }
    {
        ChunkedVec { repr: repr }
    }

    /// Returns the representation.
    pub fn into_repr(self) -> Repr<T>
        ensures { result ≡ vec_repr self }
    {
        let ChunkedVec { repr: repr } = self;
        repr
    }

    /// Returns whether a clone is a pointer.
    pub fn is_shared(&self) -> bool
        ensures { result ≡ is_shared_vec self.now }
    {
        match &self.repr {
            Repr::Flat(chunk) => !chunk.is_unique(),
            Repr::Chunks(chunks) => !chunks.is_unique(),
            Repr::Groups(groups) => !groups.is_unique(),
        }
    }

    /// Returns whether the list has groups.
    pub fn is_grouped(&self) -> bool
        ensures { result ≡ is_grouped_vec self.now }
    {
        matches!(&self.repr, Repr::Groups(_))
    }

    /// Returns the representation.
    pub fn repr(&self) -> &Repr<T>
        ensures { result.now ≡ vec_repr self.now }
    {
        &self.repr
    }

    /// Iterates over the chunks in order.
    pub fn chunks(&self) -> Chunks<'_, T>
        ensures { remaining_chunks result ≡ vec_chunks self.now }
    {
        match &self.repr {
            Repr::Flat(chunk) => Chunks::new(slice::from_ref(chunk), &[]),
            Repr::Chunks(chunks) => Chunks::new(chunks.items(), &[]),
            Repr::Groups(groups) => Chunks::new(&[], groups.items()),
        }
    }

    /// Iterates over the items in order.
    pub fn iter(&self) -> Iter<'_, T>
        ensures { remaining_items result ≡ vec_items self.now }
    {
        match &self.repr {
            Repr::Flat(chunk) => Iter::new(chunk.items(), &[]),
            Repr::Chunks(chunks) => Iter::new(&[], chunks.items()),
            Repr::Groups(groups) => Iter::of_groups(groups.items()),
        }
    }
}

impl<T: Drop> ChunkedVec<T> {
    /// Creates a list from its chunks. A single chunk needs no list of chunks.
    pub fn from_chunks(mut chunks: Vec<Chunk<T>>) -> ChunkedVec<T>
        ensures chunks { vec_chunks result ≡ chunks.items }
        ensures unique { is_unique_vec result ≡ all_unique chunks.items }
    {
        if chunks.len() == 1 {
            if let Some(chunk) = chunks.pop() {
                return ChunkedVec {
                    repr: Repr::Flat(chunk),
                };
            }
        }
        ChunkedVec {
            repr: Repr::Chunks(Chunk::Unique(chunks)),
        }
    }

    /// Creates a list. At most 20 items keep the vector's memory; more are split into chunks of 20
    /// to 512 items, longer ones for more items.
    ///
    /// # Errors
    ///
    /// [`AllocError`] if an allocation fails.
    pub fn from_vec_chunked(alloc: Global, items: Vec<T>) -> Result<ChunkedVec<T>, AllocError>
        ensures items { IfOk result (λ l. vec_items l ≡ items.items) }
        ensures unique { IfOk result (λ l. is_unique_vec l ≡ true) }
        ensures bound { IfOk result (λ l. max_chunk_length (vec_chunks l) ≤ 512) }
    {
        let most = max_chunk_len_for(items.len());
        if items.len() <= most {
            return Ok(ChunkedVec::from_repr(Repr::Flat(Chunk::Unique(items))));
        }
        Ok(ChunkedVec::from_chunks(split_into_chunks(alloc, items, most)?))
    }

    /// Creates a list from shared chunks, so that its next clone is a pointer.
    ///
    /// # Errors
    ///
    /// [`AllocError`] if an allocation fails.
    pub fn from_shared_chunks(
        alloc: Global,
        mut chunks: Vec<Chunk<T>>,
    ) -> Result<ChunkedVec<T>, AllocError>
        requires { all_shared chunks.items ≡ true }
        ensures chunks { IfOk result (λ l. vec_chunks l ≡ chunks.items) }
        ensures shared { IfOk result (λ l. is_shared_vec l ≡ true) }
    {
        if chunks.len() == 1 {
            if let Some(chunk) = chunks.pop() {
                return Ok(ChunkedVec {
                    repr: Repr::Flat(chunk),
                });
            }
        }
        let chunks = Arc::new(alloc, chunks)?;
        Ok(ChunkedVec {
            repr: Repr::Chunks(Chunk::Shared(chunks)),
        })
    }
}

impl<T> ChunkedVec<T> {
    /// Clones the list by pointer if it is shared, or returns `None`.
    ///
    /// # Errors
    ///
    /// [`AllocError`] if the reference count is at its maximum.
    pub fn clone_shared(&self) -> Result<Option<ChunkedVec<T>>, AllocError>
        ensures equal { IfOk result (λ o. IfSome o (λ l. vec_chunk_items l ≡ vec_chunk_items self.now)) }
        ensures shared { IfOk result (λ o. IfSome o (λ l. is_shared_vec l ≡ true)) }
        ensures found { IfOk result (λ o. is_some o ≡ is_shared_vec self.now) }
        ensures memory { OnErr result (is_shared_vec self.now ≡ true) }
    {
        match &self.repr {
            Repr::Flat(chunk) => match chunk.clone_shared()? {
                Some(chunk) => Ok(Some(ChunkedVec {
                    repr: Repr::Flat(chunk),
                })),
                None => Ok(None),
            },
            Repr::Chunks(chunks) => match chunks.clone_shared()? {
                Some(chunks) => Ok(Some(ChunkedVec {
                    repr: Repr::Chunks(chunks),
                })),
                None => Ok(None),
            },
            Repr::Groups(groups) => match groups.clone_shared()? {
                Some(groups) => Ok(Some(ChunkedVec {
                    repr: Repr::Groups(groups),
                })),
                None => Ok(None),
            },
        }
    }
}

impl<T: TryClone> ChunkedVec<T> {
    /// Returns the items in one vector. A list of one unique chunk returns its own vector; any
    /// other clones the items.
    ///
    /// # Errors
    ///
    /// [`AllocError`] if an allocation fails.
    pub fn into_vec(self, alloc: Global) -> Result<Vec<T>, AllocError>
        ensures items { IfOk result (λ v. map T.model v.items ≡ vec_models T.model self) }
        ensures shared_on_err { OnErr result (is_unique_flat_vec self ≡ false) }
    {
        let ChunkedVec { repr: repr } = self;
        match repr {
            Repr::Flat(Chunk::Unique(items)) => Ok(items),
            repr => clone_flat(alloc, &ChunkedVec { repr: repr }),
        }
    }
}

// Clones all items into one vector.
fn clone_flat<T: TryClone>(alloc: Global, list: &ChunkedVec<T>) -> Result<Vec<T>, AllocError>
    ensures { IfOk result (λ v. map T.model v.items ≡ vec_models T.model list.now) }
{
    let mut items = Vec::new(alloc);
    for item in list.iter() {
        items.push(item.try_clone(alloc)?)?;
    }
    Ok(items)
}

impl<T: TryClone> TryClone for ChunkedVec<T> {
    ghost use Rattle.std.specs.Prelude.{List, Bool};
    ghost use Rattle.sdb_chunks.specs.ChunkedVec.{vec_models, is_unique_vec};

    ghost Model = { List T.Model × Bool };

    ghost model = { λ l. (vec_models T.model l, is_unique_vec l) };

    fn try_clone(&self, alloc: Global) -> Result<ChunkedVec<T>, AllocError> {
        match &self.repr {
            Repr::Flat(chunk) => Ok(ChunkedVec {
                repr: Repr::Flat(chunk.try_clone(alloc)?),
            }),
            Repr::Chunks(chunks) => Ok(ChunkedVec {
                repr: Repr::Chunks(chunks.try_clone(alloc)?),
            }),
            Repr::Groups(groups) => Ok(ChunkedVec {
                repr: Repr::Groups(groups.try_clone(alloc)?),
            }),
        }
    }
}
