//! Laws of texts, as contracts of functions without effect.
ghost use Rattle.std.specs.Str.{IsUtf8};
ghost use Rattle.sdb_rope.specs.Rope.{rope_bytes};

use crate::rope::Rope;

/// States that the bytes of a text are UTF-8.
pub fn text_is_utf8(_text: &Rope)
    ensures { IsUtf8 (rope_bytes _text.now) }
{}
