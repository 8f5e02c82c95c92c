//! Texts that aren't empty.
ghost use Rattle.std.specs.Prelude.{◌≡◌, ◌<◌, length, IfOk, IfNone, IfSome, [], string_bytes};

use std::alloc::AllocError;
use std::marker::Model;

/// The text of `si` or `sd`, which isn't empty.
#[derive(Drop)]
pub struct NonEmptyText {
    text: String,
}

impl Model for NonEmptyText {
    ghost use Rattle.std.specs.Prelude.{ℕ, List, ◌<◌, length, string_bytes};

    ghost Value = { List ℕ };

    ghost view = { λ p. string_bytes p.text };

    ghost invariant = { λ p. 0 < length (string_bytes p.text) };
}

impl NonEmptyText {
    /// Creates the text, or returns `None` if it is empty.
    pub fn new(text: String) -> Option<NonEmptyText>
        ensures some { IfSome result (λ p. p ≡ string_bytes text) }
        ensures none { IfNone result (string_bytes text ≡ []) }
    {
        if text.is_empty() {
            return None;
        }
        Some(NonEmptyText { text })
    }

    /// Returns the text.
    pub fn as_str(&self) -> &str
        ensures value { result.now ≡ self.now }
        ensures nonempty { 0 < length result.now }
    {
        self.text.as_str()
    }

    /// Clones the text.
    ///
    /// # Errors
    ///
    /// [`AllocError`] if an allocation fails.
    pub fn try_clone(&self) -> Result<NonEmptyText, AllocError>
        ensures { IfOk result (λ p. p ≡ self.now) }
    {
        let text = self.text.clone()?;
        Ok(NonEmptyText { text })
    }

    /// Returns the owned text.
    pub fn into_string(self) -> String
        ensures value { string_bytes result ≡ self }
        ensures nonempty { 0 < length (string_bytes result) }
    {
        self.text
    }
}
