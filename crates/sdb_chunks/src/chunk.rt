//! A chunk: items in one vector, unique or shared with clones.
ghost use Rattle.std.specs.Option.{option_copied};
ghost use Rattle.std.specs.Prelude.{◌≡◌, true, false, length, map, slice_get, if◌then◌else◌, IfOk, OnOk, OnErr, IfSome, is_some};
ghost use Rattle.sdb_chunks.specs.Chunk.{items_of, is_chunk_unique, is_chunk_shared};

use std::alloc::{AllocError, Global};
use std::mem::replace;
use std::sync::Arc;

/// A value whose clone may fail. Shared parts are cloned by reference count.
pub trait TryClone: Drop {
    // The model of a value, which all its clones share.
    ghost Model: { Type 0 };

    ghost model: { Self → Model };

    /// Clones the value; a shared one by pointer.
    ///
    /// # Errors
    ///
    /// [`AllocError`] if an allocation fails.
    fn try_clone(&self, alloc: Global) -> Result<Self, AllocError>
        ensures { IfOk result (λ x. model x ≡ model self.now) };
}

/// Items in one vector, unique or shared.
#[derive(Drop)]
pub enum Chunk<T> {
    /// Unique.
    Unique(Vec<T>),
    /// Shared by reference count.
    Shared(Arc<Vec<T>>),
}

// Clones the items into a vector with spare capacity.
pub(crate) fn clone_items<T: TryClone>(
    alloc: Global,
    items: &[T],
    room: usize,
) -> Result<Vec<T>, AllocError>
    ensures { IfOk result (λ v. map T.model v.items ≡ map T.model items.now) }
{
    let mut copies = Vec::with_capacity(alloc, items.len().saturating_add(room))?;
    for item in items {
        copies.push(item.try_clone(alloc)?)?;
    }
    Ok(copies)
}

impl<T> Chunk<T> {
    /// Returns the items.
    pub fn items(&self) -> &[T]
        ensures { result.now ≡ items_of self.now }
    {
        match self {
            Chunk::Unique(items) => items.as_slice(),
            Chunk::Shared(items) => items.as_slice(),
        }
    }

    /// Returns the number of items.
    pub fn len(&self) -> usize
        ensures { result ≡ length (items_of self.now) }
    {
        self.items().len()
    }

    /// Returns whether the chunk is unique.
    pub fn is_unique(&self) -> bool
        ensures { result ≡ is_chunk_unique self.now }
    {
        match self {
            Chunk::Unique(_) => true,
            Chunk::Shared(_) => false,
        }
    }

    /// Returns the allocator.
    pub fn allocator(&self) -> Global {
        match self {
            Chunk::Unique(items) => *items.allocator(),
            Chunk::Shared(items) => *items.allocator(),
        }
    }

    /// Returns the item at an index, or `None` if it is out of range.
    pub fn get(&self, index: usize) -> Option<&T>
        ensures { option_copied result ≡ slice_get (items_of self.now) index }
    {
        self.items().get(index)
    }
}

impl<T: Drop> Chunk<T> {
    /// Makes the chunk shared, so that its next clone is a pointer.
    ///
    /// # Errors
    ///
    /// [`AllocError`] if an allocation fails. The chunk is then dropped.
    pub fn into_frozen(self, alloc: Global) -> Result<Chunk<T>, AllocError>
        ensures equal { IfOk result (λ b. items_of b ≡ items_of self) }
        ensures shared { IfOk result (λ b. is_chunk_shared b ≡ true) }
        ensures unique { OnErr result (is_chunk_unique self ≡ true) }
    {
        match self {
            Chunk::Unique(items) => Ok(Chunk::Shared(Arc::new(alloc, items)?)),
            Chunk::Shared(items) => Ok(Chunk::Shared(items)),
        }
    }

    /// Freezes the chunk in place, so that its next clone is a pointer. A unique vector is moved,
    /// which takes one allocation for the pointer.
    ///
    /// # Errors
    ///
    /// [`AllocError`] if an allocation fails. The items are then unchanged.
    pub fn freeze(&mut self, alloc: Global) -> Result<(), AllocError>
        ensures unchanged { items_of self.new ≡ items_of self.old }
        ensures shared { OnOk result (is_chunk_shared self.new ≡ true) }
    {
        match replace(self, Chunk::Unique(Vec::new(alloc))) {
            Chunk::Unique(items) => match Arc::new(alloc, items) {
                Ok(shared) => {
                    *self = Chunk::Shared(shared);
                    Ok(())
                }
                Err(refused) => {
                    *self = Chunk::Unique(refused.value);
                    Err(AllocError)
                }
            },
            Chunk::Shared(shared) => {
                *self = Chunk::Shared(shared);
                Ok(())
            }
        }
    }
}

impl<T> Chunk<T> {
    /// Clones the chunk by pointer if it is shared, or returns `None`.
    ///
    /// # Errors
    ///
    /// [`AllocError`] if the reference count is at its maximum.
    pub fn clone_shared(&self) -> Result<Option<Chunk<T>>, AllocError>
        ensures equal { IfOk result (λ o. IfSome o (λ b. items_of b ≡ items_of self.now)) }
        ensures shared { IfOk result (λ o. IfSome o (λ b. is_chunk_shared b ≡ true)) }
        ensures found { IfOk result (λ o. is_some o ≡ is_chunk_shared self.now) }
        ensures memory { OnErr result (is_chunk_shared self.now ≡ true) }
    {
        match self {
            Chunk::Unique(_) => Ok(None),
            Chunk::Shared(items) => Ok(Some(Chunk::Shared(Arc::try_clone(items)?))),
        }
    }
}

impl<T: TryClone> Chunk<T> {
    /// Makes the chunk unique. Copies the items if another owner shares them.
    ///
    /// # Errors
    ///
    /// [`AllocError`] if an allocation fails. The items are then equal.
    pub fn make_unique(&mut self, alloc: Global) -> Result<(), AllocError>
        ensures unchanged { map T.model (items_of self.new) ≡ map T.model (items_of self.old) }
        ensures unique { OnOk result (is_chunk_unique self.new ≡ true) }
        ensures shared_on_err { OnErr result (is_chunk_unique self.old ≡ false) }
    {
        self.make_unique_with_capacity(alloc, 0)
    }

    // Makes the chunk unique; a copy has this spare capacity.
    pub(crate) fn make_unique_with_capacity(
        &mut self,
        alloc: Global,
        room: usize,
    ) -> Result<(), AllocError>
        ensures unchanged { map T.model (items_of self.new) ≡ map T.model (items_of self.old) }
        ensures unique { OnOk result (is_chunk_unique self.new ≡ true) }
        ensures shared_on_err { OnErr result (is_chunk_unique self.old ≡ false) }
    {
        match replace(self, Chunk::Unique(Vec::new(alloc))) {
            Chunk::Unique(items) => {
                *self = Chunk::Unique(items);
                Ok(())
            }
            Chunk::Shared(shared) => match Arc::try_unwrap(shared) {
                Ok(items) => {
                    *self = Chunk::Unique(items);
                    Ok(())
                }
                Err(shared) => {
                    let copied = clone_items(alloc, &shared, room);
                    *self = Chunk::Shared(shared);
                    *self = Chunk::Unique(copied?);
                    Ok(())
                }
            },
        }
    }
}

impl<T: TryClone> TryClone for Chunk<T> {
    ghost use Rattle.std.specs.Prelude.{List, Bool, map};
    ghost use Rattle.sdb_chunks.specs.Chunk.{items_of, is_chunk_unique};

    ghost Model = { List T.Model × Bool };

    ghost model = { λ b. (map T.model (items_of b), is_chunk_unique b) };

    fn try_clone(&self, alloc: Global) -> Result<Chunk<T>, AllocError> {
        match self {
            Chunk::Unique(items) => Ok(Chunk::Unique(clone_items(alloc, items, 0)?)),
            Chunk::Shared(items) => Ok(Chunk::Shared(Arc::try_clone(items)?)),
        }
    }
}
