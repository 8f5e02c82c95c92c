//! What isn't written yet of a value's text.
ghost use Rattle.std.specs.Prelude.{All};
ghost use Rattle.sdb_value_text.specs.Level.{HasText};

use crate::level::Level;

/// The text of a JSON value that isn't written yet. It has clones of the lists, objects and texts
/// that are begun; of a frozen value these are pointers.
///
/// ```
/// let mut text = ValueText::new(alloc, &value)?;
/// let mut out = Vec::new(alloc);
/// while !text.write_part(alloc, &mut out, 65_536)? {
///     // Send `out` and clear it.
/// }
/// ```
#[derive(Drop)]
pub struct ValueText {
    pub(crate) levels: Vec<Level>,
    ghost has_text: { All HasText levels.items },
}
