//! The bytes of a chunk.
ghost use Rattle.std.specs.Prelude.{length, ◌≡◌, ◌≤◌, true, false, string_bytes, IfOk, OnOk, OnErr};
ghost use Rattle.std.specs.List.{insert_slice, remove_range};
ghost use Rattle.std.specs.String.Boundary.{IsSplitPoint};
ghost use Rattle.sdb_rope.specs.EditOutcome.{EditOutcome};
ghost use Rattle.sdb_rope.specs.Utf16 as texts;
ghost use Rattle.sdb_rope.specs.SharedStr.{str_bytes, is_unique_str, is_shared_str};

use crate::utf16::cut_at;
use sdb_chunks::TryClone;
use std::alloc::{AllocError, Global};
use std::mem::replace;
use std::sync::Arc;

/// A part of a text, unique or shared.
#[derive(Drop)]
pub enum SharedStr {
    /// Unique.
    Unique(String),
    /// Shared by reference count.
    Shared(Arc<String>),
}

// Copies the bytes, with spare capacity.
fn with_capacity_of(alloc: Global, text: &str, room: usize) -> Result<String, AllocError>
    ensures { IfOk result (λ s. string_bytes s ≡ text.now) }
{
    let mut copy = String::with_capacity(alloc, text.len().saturating_add(room))?;
    copy.push_str(text)?;
    Ok(copy)
}

impl SharedStr {
    pub(crate) fn as_str(&self) -> &str
        ensures { result.now ≡ str_bytes self.now }
    {
        match self {
            SharedStr::Unique(text) => text.as_str(),
            SharedStr::Shared(text) => text.as_str(),
        }
    }

    /// Makes the bytes unique. Fails only if they are shared and an allocation fails.
    pub(crate) fn make_unique(&mut self, alloc: Global) -> Result<(), AllocError>
        ensures unchanged { str_bytes self.new ≡ str_bytes self.old }
        ensures unique { OnOk result (is_unique_str self.new ≡ true) }
        ensures shared_on_err { OnErr result (is_unique_str self.old ≡ false) }
        ensures stays_unique { is_unique_str self.old ≡ true → is_unique_str self.new ≡ true }
    {
        self.make_unique_with_capacity(alloc, 0)
    }

    // Makes the bytes unique; a copy has this spare capacity.
    fn make_unique_with_capacity(&mut self, alloc: Global, room: usize) -> Result<(), AllocError>
        ensures unchanged { str_bytes self.new ≡ str_bytes self.old }
        ensures unique { OnOk result (is_unique_str self.new ≡ true) }
        ensures shared_on_err { OnErr result (is_unique_str self.old ≡ false) }
        ensures stays_unique { is_unique_str self.old ≡ true → is_unique_str self.new ≡ true }
    {
        match replace(self, SharedStr::Unique(String::new(alloc))) {
            SharedStr::Unique(text) => {
                *self = SharedStr::Unique(text);
                Ok(())
            }
            SharedStr::Shared(shared) => match Arc::try_unwrap(shared) {
                Ok(text) => {
                    *self = SharedStr::Unique(text);
                    Ok(())
                }
                Err(shared) => {
                    let copied = with_capacity_of(alloc, shared.as_str(), room);
                    *self = SharedStr::Shared(shared);
                    *self = SharedStr::Unique(copied?);
                    Ok(())
                }
            },
        }
    }

    /// Inserts a text at a byte.
    pub(crate) fn insert(&mut self, alloc: Global, at: usize, new: &str) -> Result<(), AllocError>
        requires { IsSplitPoint (str_bytes self.old) at }
        ensures ok { OnOk result (str_bytes self.new ≡ insert_slice (str_bytes self.old) at new.now) }
        ensures err { OnErr result (str_bytes self.new ≡ str_bytes self.old) }
        ensures unique { is_unique_str self.old ≡ true → is_unique_str self.new ≡ true }
    {
        self.make_unique_with_capacity(alloc, new.len())?;
        match self {
            SharedStr::Unique(text) => text.insert_str(at, new)?,
            SharedStr::Shared(_) => unreachable!(),
        }
        Ok(())
    }

    /// Removes a range of bytes.
    pub(crate) fn remove(&mut self, from: usize, to: usize)
        requires unique { is_unique_str self.old ≡ true }
        requires ordered { from ≤ to }
        requires start { IsSplitPoint (str_bytes self.old) from }
        requires end { IsSplitPoint (str_bytes self.old) to }
        ensures bytes { str_bytes self.new ≡ remove_range (str_bytes self.old) from to }
        ensures unique { is_unique_str self.new ≡ true }
    {
        match self {
            SharedStr::Unique(text) => {
                let _done = text.replace_range(from..to, "");
            }
            SharedStr::Shared(_) => unreachable!(),
        }
    }

    /// Removes a text at an offset in UTF-16 code units. Returns `false`, with the bytes unchanged,
    /// if the offset is inside a surrogate pair or after the end, or another text is there.
    pub(crate) fn remove_text(
        &mut self,
        alloc: Global,
        offset: u64,
        old: &str,
    ) -> Result<bool, AllocError>
        ensures ok { IfOk result (λ done. EditOutcome done (texts.remove_text offset old.now (str_bytes self.old))
            (str_bytes self.old) (str_bytes self.new)) }
        ensures err { OnErr result (str_bytes self.new ≡ str_bytes self.old) }
        ensures unique { is_unique_str self.old ≡ true → is_unique_str self.new ≡ true }
        ensures shared_on_err { OnErr result (is_unique_str self.old ≡ false) }
        ensures bound { length (str_bytes self.new) ≤ length (str_bytes self.old) }
    {
        let Some(at) = cut_at(self.as_str(), offset) else {
            return Ok(false);
        };
        if !self.as_str().as_bytes()[at..].starts_with(old.as_bytes()) {
            return Ok(false);
        }
        self.make_unique(alloc)?;
        self.remove(at, at + old.len());
        Ok(true)
    }

    /// Clones the bytes so that the clone is shared; by pointer if they are shared already.
    pub(crate) fn frozen_clone(&self, alloc: Global) -> Result<SharedStr, AllocError>
        ensures equal { IfOk result (λ c. str_bytes c ≡ str_bytes self.now) }
        ensures shared { IfOk result (λ c. is_shared_str c ≡ true) }
    {
        match self {
            SharedStr::Unique(text) => {
                let copy = String::from_str(alloc, text.as_str())?;
                Ok(SharedStr::Shared(Arc::new(alloc, copy)?))
            }
            SharedStr::Shared(text) => Ok(SharedStr::Shared(Arc::try_clone(text)?)),
        }
    }

    /// Freezes the bytes in place. Unique bytes are moved, which takes one allocation for the
    /// pointer.
    pub(crate) fn freeze(&mut self, alloc: Global) -> Result<(), AllocError>
        ensures unchanged { str_bytes self.new ≡ str_bytes self.old }
        ensures shared { OnOk result (is_shared_str self.new ≡ true) }
    {
        match replace(self, SharedStr::Unique(String::new(alloc))) {
            SharedStr::Unique(text) => match Arc::new(alloc, text) {
                Ok(shared) => {
                    *self = SharedStr::Shared(shared);
                    Ok(())
                }
                Err(refused) => {
                    *self = SharedStr::Unique(refused.value);
                    Err(AllocError)
                }
            },
            SharedStr::Shared(shared) => {
                *self = SharedStr::Shared(shared);
                Ok(())
            }
        }
    }

    /// Returns whether a clone is a pointer.
    pub(crate) fn is_shared(&self) -> bool
        ensures { result ≡ is_shared_str self.now }
    {
        match self {
            SharedStr::Unique(_) => false,
            SharedStr::Shared(_) => true,
        }
    }

    /// Returns the allocator of the bytes.
    pub(crate) fn allocator(&self) -> Global {
        match self {
            SharedStr::Unique(text) => *text.allocator(),
            SharedStr::Shared(text) => *text.allocator(),
        }
    }
}

impl TryClone for SharedStr {
    ghost use Rattle.std.specs.Prelude.{List, ℕ, Bool};
    ghost use Rattle.sdb_rope.specs.SharedStr.{str_bytes, is_unique_str};

    ghost Model = { List ℕ × Bool };

    ghost model = { λ c. (str_bytes c, is_unique_str c) };

    fn try_clone(&self, alloc: Global) -> Result<SharedStr, AllocError> {
        match self {
            SharedStr::Unique(text) => Ok(SharedStr::Unique(String::from_str(
                alloc,
                text.as_str(),
            )?)),
            SharedStr::Shared(text) => Ok(SharedStr::Shared(Arc::try_clone(text)?)),
        }
    }
}
