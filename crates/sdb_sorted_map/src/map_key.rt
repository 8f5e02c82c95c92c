//! A key of a sorted map.
ghost use Rattle.std.specs.Prelude.{◌≡◌, ◌≤◌, ◌<◌, ◌↔◌, length, take, string_bytes, IsUtf8};
ghost use Rattle.std.specs.Prelude.{IsSome, IfSome, IfOk, OnErr};

use sdb_chunks::TryClone;
use std::alloc::{AllocError, Global};
use std::str;

// Maximum length in bytes of an inline key. A UUID has 36 bytes, and with 39 a key has a size of 48
// bytes.
const INLINE_LEN: usize = 39;

// A text of at most `INLINE_LEN` bytes, stored inline.
#[derive(Clone, Copy)]
struct InlineText {
    bytes: [u8; INLINE_LEN],
    count: u8,
    ghost fits_inline: { count ≤ 39 },
    ghost is_text: { ∥ IsUtf8 (take count bytes) ∥₁ },
}

impl InlineText {
    ghost use Rattle.sdb_sorted_map.specs.MapKey.{inline_bytes};

    // Copies the text if it is short enough.
    fn new(text: &str) -> Option<InlineText>
        ensures some { IsSome result ↔ (length text.now ≤ 39) }
        ensures value { IfSome result (λ s. inline_bytes s ≡ text.now) }
    {
        let count = text.len();
        if count > INLINE_LEN {
            return None;
        }
        let mut bytes = [0u8; INLINE_LEN];
        bytes[..count].copy_from_slice(text.as_bytes());
        Some(InlineText {
            bytes,
            count: count as u8,
        })
    }

    // Returns the text.
    fn as_str(&self) -> &str
        ensures { result.now ≡ inline_bytes self.now }
    {
        unsafe { str::from_utf8_unchecked(&self.bytes[..self.count as usize]) }
    }
}

// The representation of a key.
#[derive(Drop)]
enum KeyRepr {
    Inline(InlineText),
    Heap(String),
}

/// A key. A text of at most 39 bytes is stored inline.
#[derive(Drop)]
pub struct MapKey {
    repr: KeyRepr,
}

const _: () = prove!(size_of::<MapKey>() == 48);

impl MapKey {
    ghost use Rattle.sdb_sorted_map.specs.MapKey.{key_bytes};

    /// Creates a key. A short text is copied into the key and its memory is freed.
    pub fn new(text: String) -> MapKey
        ensures { key_bytes result ≡ string_bytes text }
    {
        match InlineText::new(text.as_str()) {
            Some(short) => MapKey {
                repr: KeyRepr::Inline(short),
            },
            None => MapKey {
                repr: KeyRepr::Heap(text),
            },
        }
    }

    /// Creates a key from a copy of the text. It allocates only for more than 39 bytes.
    ///
    /// # Errors
    ///
    /// [`AllocError`] if an allocation fails.
    pub fn from_str(alloc: Global, text: &str) -> Result<MapKey, AllocError>
        ensures value { IfOk result (λ k. key_bytes k ≡ text.now) }
        ensures memory { OnErr result (39 < length text.now) }
    {
        match InlineText::new(text) {
            Some(short) => Ok(MapKey {
                repr: KeyRepr::Inline(short),
            }),
            None => Ok(MapKey {
                repr: KeyRepr::Heap(String::from_str(alloc, text)?),
            }),
        }
    }

    /// Returns the text.
    pub fn as_str(&self) -> &str
        ensures { result.now ≡ key_bytes self.now }
    {
        match &self.repr {
            KeyRepr::Inline(short) => short.as_str(),
            KeyRepr::Heap(text) => text.as_str(),
        }
    }
}

impl TryClone for MapKey {
    ghost use Rattle.std.specs.Prelude.{List, ℕ};
    ghost use Rattle.sdb_sorted_map.specs.MapKey.{key_bytes};

    ghost Model = { List ℕ };

    ghost model = { key_bytes };

    fn try_clone(&self, alloc: Global) -> Result<MapKey, AllocError> {
        match &self.repr {
            KeyRepr::Inline(short) => Ok(MapKey {
                repr: KeyRepr::Inline(*short),
            }),
            KeyRepr::Heap(text) => Ok(MapKey {
                repr: KeyRepr::Heap(String::from_str(alloc, text.as_str())?),
            }),
        }
    }
}
