//! The text of a value, written in parts.
ghost use Rattle.std.specs.Prelude.{◌≡◌, ◌≤◌, ◌+◌, ◌++◌, [], length, true, false, All, IfOk, OnOk, IfSome};
ghost use Rattle.sdb_value.specs.View.{value_of};
ghost use Rattle.sdb_value_text.specs.Level.{HasText, levels_text, opened_text};
ghost use Rattle.sdb_value_text.specs.Remaining.{remaining_text};
ghost use Rattle.sdb_value_text.specs.ValueText.{value_text};

use crate::level::Level;
use crate::levels::ValueText;
use sdb_value::Json;
use std::alloc::{AllocError, Global};

impl ValueText {
    /// Creates the text of a value.
    ///
    /// # Errors
    ///
    /// [`AllocError`] if an allocation fails.
    pub fn new(alloc: Global, value: &Json) -> Result<ValueText, AllocError>
        ensures { IfOk result (λ t. remaining_text t ≡ value_text (value_of value.now)) }
    {
        let mut levels = Vec::new(alloc);
        levels.push(Level::Whole(value.frozen_clone(alloc)?))?;
        Ok(ValueText { levels })
    }

    /// Appends the next part of the text, of at least `limit` bytes unless nothing remains after it.
    /// It ends with the first piece that reaches the limit: a chunk of a text, a key, a value of a
    /// size below 1,024, or a bracket. Returns whether nothing remains.
    ///
    /// # Errors
    ///
    /// [`AllocError`] if an allocation fails. A part of the text is then lost.
    pub fn write_part(
        &mut self,
        alloc: Global,
        out: &mut Vec<u8>,
        limit: usize,
    ) -> Result<bool, AllocError>
        ensures ok { OnOk result (out.new.items ++ remaining_text self.new ≡ out.old.items ++ remaining_text self.old) }
        ensures end { IfOk result (λ is_end. (is_end ≡ true → remaining_text self.new ≡ [])
            × (remaining_text self.new ≡ [] → is_end ≡ true)) }
        ensures progress { IfOk result (λ is_end. is_end ≡ false
            → length (remaining_text self.new) + limit ≤ length (remaining_text self.old)) }
    {
        let end = out.len().saturating_add(limit);
        for _ in 0..limit {
            if out.len() >= end {
                break;
            }
            let Some(level) = self.levels.pop() else {
                break;
            };
            let rest = level.write_piece(alloc, out)?;
            push_some(&mut self.levels, rest.own)?;
            push_some(&mut self.levels, rest.inner)?;
        }
        Ok(self.levels.is_empty())
    }
}

fn push_some(levels: &mut Vec<Level>, level: Option<Level>) -> Result<(), AllocError>
    requires have_text { All HasText levels.old.items }
    requires has_text { IfSome level HasText }
    ensures text { OnOk result (levels_text levels.new.items ≡ opened_text level ++ levels_text levels.old.items) }
    ensures have_text { All HasText levels.new.items }
{
    match level {
        Some(level) => {
            levels.push(level)?;
            Ok(())
        }
        None => Ok(()),
    }
}
