//! The parser from a text to its tree.
ghost use Rattle.std.specs.Prelude.{◌≡◌, ◌⊎◌, ◌<◌, IfOk, IsTrue, OnErr, is_some, length, option_map};
ghost use Rattle.json.specs.Lex.{tokens};
ghost use Rattle.json.specs.Reads.{opens};
ghost use Rattle.json.specs.Scratch.{room};
ghost use Rattle.json.specs.Value.{items_view, members_view, value_view};
ghost use Rattle.serde_json.specs.Data.{no_members};
ghost use Rattle.serde_json.specs.Read.{of_items, of_json, of_members, read as read_text};
ghost use Rattle.sdb_json.specs.TreeData.{tree_data};

use crate::number::is_in_range;
use json::{Error, Reader, Scratch, Value};
use std::alloc::{AllocError, Global};

// The nesting limit of arrays and objects, equal to that of `serde_json`.
const MAX_DEPTH: usize = 127;

/// Parses a JSON text (RFC 8259) with the limits of `serde_json`; returns `None` if it is malformed.
/// Arrays and objects nest at most 127 deep, and each number must fit a finite float. Strings with
/// escapes are decoded into the scratch, which grows to the length of the text.
///
/// # Errors
///
/// [`AllocError`] if an allocation fails, which only a text that is longer than the scratch or that
/// begins with an array or an object can cause.
pub fn parse_json<'a>(
    alloc: Global,
    text: &'a str,
    scratch: &'a mut Scratch,
) -> Result<Option<Value<'a>>, AllocError>
    ensures ok { IfOk result (λ tree. option_map tree_data tree ≡ read_text text.now) }
    ensures memory { OnErr result (IsTrue (opens (tokens text.now)) ⊎ (room scratch.old < length text.now)) }
{
    let mut reader = Reader::new(text, scratch)?;
    let tree = match Value::read(alloc, &mut reader, MAX_DEPTH) {
        Ok(tree) => tree,
        Err(Error::OutOfMemory) => return Err(AllocError),
        Err(_) => return Ok(None),
    };
    if reader.next().is_some() || !has_numbers_in_range(&tree) {
        return Ok(None);
    }
    Ok(Some(tree))
}

#[cycle(numbers_in_range)]
fn has_numbers_in_range(value: &Value<'_>) -> bool
    ensures { result ≡ is_some (of_json (value_view value.now)) }
{
    match value {
        Value::Number(token) => is_in_range(token),
        Value::Array(items) => have_numbers_in_range(items),
        Value::Object(members) => members_have_numbers_in_range(members),
        _ => true,
    }
}

#[cycle(numbers_in_range)]
fn have_numbers_in_range(items: &[Value<'_>]) -> bool
    ensures { result ≡ is_some (of_items (items_view items.now)) }
{
    for item in items {
        if !has_numbers_in_range(item) {
            return false;
        }
    }
    true
}

#[cycle(numbers_in_range)]
fn members_have_numbers_in_range(members: &[(&str, Value<'_>)]) -> bool
    ensures { result ≡ is_some (of_members (members_view members.now) no_members) }
{
    for (_, member) in members {
        if !has_numbers_in_range(member) {
            return false;
        }
    }
    true
}
