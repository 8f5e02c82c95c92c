//! A chunk of a rope.
ghost use Rattle.std.specs.Prelude.{◌≡◌};
ghost use Rattle.sdb_rope.specs.SharedStr.{str_bytes};
ghost use Rattle.sdb_rope.specs.Utf16 as texts;

use crate::shared_str::SharedStr;
use crate::utf16::units;
use sdb_chunks::TryClone;
use std::alloc::{AllocError, Global};

/// A part of a text with its length in UTF-16 code units.
#[derive(Drop)]
pub struct RopeChunk {
    units: u64,
    text: SharedStr,
    ghost utf16_len_is_units: { units ≡ texts.units (str_bytes text) },
}

impl RopeChunk {
    ghost use Rattle.std.specs.Prelude.{true, false, ◌≤◌, string_bytes, length, IfOk, OnOk, OnErr};
    ghost use Rattle.std.specs.List.{insert_slice, remove_range};
    ghost use Rattle.std.specs.String.Boundary.{IsSplitPoint};
    ghost use Rattle.sdb_rope.specs.RopeChunk.{chunk_bytes, is_unique_rope_chunk};

    pub(crate) fn new(text: String) -> RopeChunk
        ensures bytes { chunk_bytes result ≡ string_bytes text }
        ensures unique { is_unique_rope_chunk result ≡ true }
    {
        RopeChunk {
            units: units(text.as_str()),
            text: SharedStr::Unique(text),
        }
    }

    pub(crate) fn as_str(&self) -> &str
        ensures { result.now ≡ chunk_bytes self.now }
    {
        self.text.as_str()
    }

    pub(crate) fn units(&self) -> u64
        ensures { result ≡ texts.units (chunk_bytes self.now) }
    {
        self.units
    }

    /// Makes the bytes unique. Fails only if they are shared and an allocation fails.
    pub(crate) fn make_unique(&mut self, alloc: Global) -> Result<(), AllocError>
        ensures unchanged { chunk_bytes self.new ≡ chunk_bytes self.old }
        ensures unique { OnOk result (is_unique_rope_chunk self.new ≡ true) }
        ensures shared_on_err { OnErr result (is_unique_rope_chunk self.old ≡ false) }
        ensures stays_unique { is_unique_rope_chunk self.old ≡ true → is_unique_rope_chunk self.new ≡ true }
    {
        let done = self.text.make_unique(alloc);
        done
    }

    /// Inserts a text at a byte.
    pub(crate) fn insert(&mut self, alloc: Global, at: usize, new: &str) -> Result<(), AllocError>
        requires { IsSplitPoint (chunk_bytes self.old) at }
        ensures ok { OnOk result (chunk_bytes self.new ≡ insert_slice (chunk_bytes self.old) at new.now) }
        ensures err { OnErr result (chunk_bytes self.new ≡ chunk_bytes self.old) }
        ensures unique { is_unique_rope_chunk self.old ≡ true → is_unique_rope_chunk self.new ≡ true }
    {
        self.text.insert(alloc, at, new)?;
        self.units += units(new);
        Ok(())
    }

    /// Removes a range of bytes.
    pub(crate) fn remove(&mut self, from: usize, to: usize)
        requires unique { is_unique_rope_chunk self.old ≡ true }
        requires ordered { from ≤ to }
        requires start { IsSplitPoint (chunk_bytes self.old) from }
        requires end { IsSplitPoint (chunk_bytes self.old) to }
        ensures bytes { chunk_bytes self.new ≡ remove_range (chunk_bytes self.old) from to }
        ensures unique { is_unique_rope_chunk self.new ≡ true }
    {
        let removed_units = units(&self.text.as_str()[from..to]);
        self.text.remove(from, to);
        self.units -= removed_units;
    }

    /// Clones the chunk so that the clone is shared.
    pub(crate) fn frozen_clone(&self, alloc: Global) -> Result<RopeChunk, AllocError>
        ensures { IfOk result (λ p. chunk_bytes p ≡ chunk_bytes self.now) }
    {
        Ok(RopeChunk {
            units: self.units,
            text: self.text.frozen_clone(alloc)?,
        })
    }

    /// Freezes the bytes in place.
    pub(crate) fn freeze(&mut self, alloc: Global) -> Result<(), AllocError>
        ensures { chunk_bytes self.new ≡ chunk_bytes self.old }
    {
        let done = self.text.freeze(alloc);
        done
    }
}

impl TryClone for RopeChunk {
    ghost use Rattle.std.specs.Prelude.{List, ℕ, Bool};
    ghost use Rattle.sdb_rope.specs.RopeChunk.{chunk_bytes, is_unique_rope_chunk};

    ghost Model = { List ℕ × Bool };

    ghost model = { λ p. (chunk_bytes p, is_unique_rope_chunk p) };

    fn try_clone(&self, alloc: Global) -> Result<RopeChunk, AllocError> {
        Ok(RopeChunk {
            units: self.units,
            text: self.text.try_clone(alloc)?,
        })
    }
}
