//! The writer of values.
ghost use Rattle.std.specs.Prelude.{◌≡◌, ◌∷◌, [], ◌++◌, OnOk, OnErr};
ghost use Rattle.json.specs.Token.{string};
ghost use Rattle.sdb_rope.specs.Rope.{rope_bytes};
ghost use Rattle.json.specs.Written.{WritesFront};
ghost use Rattle.sdb_value.specs.ToJson.{array_tail_tokens, data_tokens, object_tail_tokens};
ghost use Rattle.sdb_value.specs.FromJson.{data_of_value, data_of_items, data_of_members};
ghost use Rattle.sdb_value.specs.View.{value_of, list_value, object_value};

use crate::value::{Json, List, Members};
use json::Writer;
use sdb_rope::Rope;
use std::alloc::AllocError;

/// Writes a value as compact JSON, with members sorted by the bytes of their keys.
///
/// # Errors
///
/// [`AllocError`] if an allocation fails. A prefix of the tokens may then be written.
pub fn write_value(value: &Json, out: &mut Writer) -> Result<(), AllocError>
    ensures tokens { OnOk result (out.new.tokens ≡ out.old.tokens ++ data_tokens (data_of_value (value_of value.now))) }
    ensures before_unchanged { out.new.before ≡ out.old.before }
    ensures err { OnErr result (WritesFront out.old.tokens out.new.tokens (data_tokens (data_of_value
        (value_of value.now)))) }
{
    write_json(value, out)
}

#[cycle(write_json)]
#[tactic(auto, using(crate::proofs::WeightLemmas::levels))]
fn write_json(value: &Json, out: &mut Writer) -> Result<(), AllocError>
    ensures tokens { OnOk result (out.new.tokens ≡ out.old.tokens ++ data_tokens (data_of_value (value_of value.now))) }
    ensures before_unchanged { out.new.before ≡ out.old.before }
    ensures err { OnErr result (WritesFront out.old.tokens out.new.tokens (data_tokens (data_of_value
        (value_of value.now)))) }
{
    match value {
        Json::Null => out.null(),
        Json::Bool(b) => out.boolean(*b),
        Json::Int(n) => out.i64(n.get()),
        Json::Text(text) => write_text(text, out),
        Json::List(items) => {
            out.begin_array()?;
            write_items(items, out)
        }
        Json::Object(members) => {
            out.begin_object()?;
            write_members(members, out)
        }
    }
}

// Writes a text. A text of several chunks is concatenated first.
fn write_text(text: &Rope, out: &mut Writer) -> Result<(), AllocError>
    ensures tokens { OnOk result (out.new.tokens ≡ out.old.tokens ++ string (rope_bytes text.now) ∷ []) }
    ensures before_unchanged { out.new.before ≡ out.old.before }
    ensures err { OnErr result (out.new.tokens ≡ out.old.tokens) }
{
    match text.as_str() {
        Some(whole) => out.string(whole),
        None => {
            let whole = text.to_string(text.allocator())?;
            out.string(whole.as_str())
        }
    }
}

#[cycle(write_json)]
fn write_items(items: &List, out: &mut Writer) -> Result<(), AllocError>
    ensures tokens { OnOk result (out.new.tokens
        ≡ out.old.tokens ++ array_tail_tokens (data_of_items (list_value items.now))) }
    ensures before_unchanged { out.new.before ≡ out.old.before }
    ensures err { OnErr result (WritesFront out.old.tokens out.new.tokens
        (array_tail_tokens (data_of_items (list_value items.now)))) }
{
    for item in items.iter() {
        write_json(item, out)?;
    }
    out.end_array()
}

#[cycle(write_json)]
fn write_members(members: &Members, out: &mut Writer) -> Result<(), AllocError>
    ensures tokens { OnOk result (out.new.tokens
        ≡ out.old.tokens ++ object_tail_tokens (data_of_members (object_value members.now))) }
    ensures before_unchanged { out.new.before ≡ out.old.before }
    ensures err { OnErr result (WritesFront out.old.tokens out.new.tokens
        (object_tail_tokens (data_of_members (object_value members.now)))) }
{
    for (key, member) in members.iter() {
        out.key(key)?;
        write_json(member, out)?;
    }
    out.end_object()
}
