//! The writer of members with a text or a number.
ghost use Rattle.std.specs.Prelude.{◌≡◌, ◌∷◌, [], ◌++◌, OnOk, OnErr, decimal};
ghost use Rattle.json.specs.Token.{key as key_token, string, number};
ghost use Rattle.json.specs.Written.{WritesFront};

use json::Writer;
use std::alloc::AllocError;

/// Writes a member of an object with a text.
///
/// # Errors
///
/// [`AllocError`] if an allocation fails. A prefix of the tokens may then be written.
pub fn write_text(name: &str, text: &str, out: &mut Writer) -> Result<(), AllocError>
    ensures tokens { OnOk result (out.new.tokens ≡ out.old.tokens ++ key_token name.now ∷ string text.now ∷ []) }
    ensures before_unchanged { out.new.before ≡ out.old.before }
    ensures err { OnErr result (WritesFront out.old.tokens out.new.tokens (key_token name.now ∷ string text.now ∷ [])) }
{
    out.key(name)?;
    out.string(text)
}

/// Writes a member of an object with a number.
///
/// # Errors
///
/// [`AllocError`] if an allocation fails. A prefix of the tokens may then be written.
pub fn write_count(name: &str, count: u64, out: &mut Writer) -> Result<(), AllocError>
    ensures tokens { OnOk result (out.new.tokens ≡ out.old.tokens ++ key_token name.now ∷ number (decimal count) ∷ []) }
    ensures before_unchanged { out.new.before ≡ out.old.before }
    ensures err { OnErr result (WritesFront out.old.tokens out.new.tokens
        (key_token name.now ∷ number (decimal count) ∷ [])) }
{
    out.key(name)?;
    out.u64(count)
}
