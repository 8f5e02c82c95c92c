//! Pieces of the text of a value.
ghost use Rattle.std.specs.Prelude.{◌≡◌, ◌++◌, [], List, ℕ, OnOk, IfOk};
ghost use Rattle.json.specs.Print.{escape, print, quoted};
ghost use Rattle.serde_json.specs.Written.{comma_if};
ghost use Rattle.sdb_value.specs.View.{value_of};
ghost use Rattle.sdb_value_text.specs.ValueText.{key_text, value_text};

use json::Writer;
use sdb_value::{Json, write_value};
use std::alloc::{AllocError, Global};

// Initial capacity in bytes of a piece.
const PIECE_LEN: usize = 64;

fn new_writer(alloc: Global) -> Result<Writer, AllocError>
    ensures before { IfOk result (λ w. w.before ≡ []) }
    ensures tokens { IfOk result (λ w. w.tokens ≡ []) }
{
    Ok(Writer::new(Vec::with_capacity(alloc, PIECE_LEN)?))
}

// Returns the bytes written.
fn bytes_of(writer: Writer) -> Vec<u8>
    requires { writer.before ≡ [] }
    ensures { result.items ≡ print writer.tokens }
{
    writer.into_inner()
}

fn text_of_value(alloc: Global, value: &Json) -> Result<Vec<u8>, AllocError>
    ensures { IfOk result (λ v. v.items ≡ value_text (value_of value.now)) }
{
    let mut writer = new_writer(alloc)?;
    write_value(value, &mut writer)?;
    Ok(bytes_of(writer))
}

fn text_of_key(alloc: Global, key: &str) -> Result<Vec<u8>, AllocError>
    ensures { IfOk result (λ v. v.items ≡ key_text key.now) }
{
    let mut writer = new_writer(alloc)?;
    writer.key(key)?;
    Ok(bytes_of(writer))
}

fn text_of_string(alloc: Global, text: &str) -> Result<Vec<u8>, AllocError>
    ensures { IfOk result (λ v. v.items ≡ quoted text.now) }
{
    let mut writer = new_writer(alloc)?;
    writer.string(text)?;
    Ok(bytes_of(writer))
}

/// Appends the text of a value.
pub(crate) fn append_value(alloc: Global, value: &Json, out: &mut Vec<u8>) -> Result<(), AllocError>
    ensures { OnOk result (out.new.items ≡ out.old.items ++ value_text (value_of value.now)) }
{
    let text = text_of_value(alloc, value)?;
    out.extend_from_slice(text.as_slice())
}

/// Appends a comma, unless it is the first of its list or object.
pub(crate) fn append_comma(is_later: bool, out: &mut Vec<u8>) -> Result<(), AllocError>
    ensures { OnOk result (out.new.items ≡ out.old.items ++ comma_if is_later) }
{
    if is_later {
        out.push(b',')?;
    }
    Ok(())
}

/// Appends the key of a member, with a colon.
pub(crate) fn append_key(alloc: Global, key: &str, out: &mut Vec<u8>) -> Result<(), AllocError>
    ensures { OnOk result (out.new.items ≡ out.old.items ++ key_text key.now) }
{
    let text = text_of_key(alloc, key)?;
    out.extend_from_slice(text.as_slice())
}

/// Appends a part of a text, without quotes.
pub(crate) fn append_escaped(alloc: Global, text: &str, out: &mut Vec<u8>) -> Result<(), AllocError>
    ensures { OnOk result (out.new.items ≡ out.old.items ++ escape text.now) }
{
    let text = text_of_string(alloc, text)?;
    let inside = without_quotes(text.as_slice());
    out.extend_from_slice(inside)
}

// Returns the bytes without the first and the last one.
fn without_quotes(text: &[u8]) -> &[u8]
    ensures { (s : List ℕ) → text.now ≡ quoted s → result.now ≡ escape s }
{
    match text {
        [_, inside @ .., _] => inside,
        _ => &[],
    }
}
