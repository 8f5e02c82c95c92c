//! The writer of operation messages and of entries.
ghost use Rattle.std.specs.Prelude.{◌≡◌, ◌++◌, OnOk, OnErr};
ghost use Rattle.json.specs.Written.{WritesFront};
ghost use Rattle.serde_json.specs.Data.{Members};
ghost use Rattle.sdb_value.specs.ToJson.{data_tokens, object_tail_tokens};
ghost use Rattle.sdb_value.specs.View.{value_of};
ghost use Rattle.sdb_oplog.specs.Keys.{plain_key};
ghost use Rattle.sdb_wire.specs.Answers.{answer_tokens, op_message, with_content, create_data, content_members, entry_data, entry_members, op_tail};

use crate::members::{write_count, write_text};
use crate::message::TYPE;
use json::Writer;
use sdb_component::write_op;
use sdb_oplog::{Content, Entry, Key, Kind};
use sdb_value::{Json, write_value};
use std::alloc::AllocError;

// Writes an operation message with this content.
pub(crate) fn write_op_message(
    key: &Key,
    entry: &Entry,
    content: &Content,
    out: &mut Writer,
) -> Result<(), AllocError>
    ensures tokens { OnOk result (out.new.tokens
        ≡ out.old.tokens ++ answer_tokens
        (op_message (plain_key key.now) (with_content entry.now content.now))) }
    ensures before_unchanged { out.new.before ≡ out.old.before }
{
    out.begin_object()?;
    write_text("a", "op", out)?;
    write_content(key, content, out)?;
    write_tail(entry, out)
}

/// Writes an entry, as [`entry_value`](crate::entry_value) has it.
///
/// # Errors
///
/// [`AllocError`] if an allocation fails. A prefix of the tokens may then be written.
pub fn write_entry(entry: &Entry, out: &mut Writer) -> Result<(), AllocError>
    ensures tokens { OnOk result (out.new.tokens ≡ out.old.tokens ++ data_tokens (entry_data entry.now)) }
    ensures before_unchanged { out.new.before ≡ out.old.before }
    ensures err { OnErr result (WritesFront out.old.tokens out.new.tokens (data_tokens (entry_data entry.now))) }
{
    out.begin_object()?;
    write_entry_content(entry, out)?;
    write_tail(entry, out)
}

// Writes the content without the key.
fn write_entry_content(entry: &Entry, out: &mut Writer) -> Result<(), AllocError>
    ensures tokens { OnOk result (out.new.tokens ++ object_tail_tokens (op_tail entry.now)
        ≡ out.old.tokens ++ object_tail_tokens (entry_members entry.now (entry.now).content)) }
    ensures before_unchanged { out.new.before ≡ out.old.before }
    ensures err { OnErr result (WritesFront out.old.tokens out.new.tokens
        (object_tail_tokens (entry_members entry.now (entry.now).content))) }
{
    match entry.content().kind() {
        Kind::Create(value) => {
            out.key("create")?;
            write_create(value, out)
        }
        Kind::Delete => {
            out.key("del")?;
            out.boolean(true)
        }
        Kind::Edit(op) => {
            out.key("op")?;
            write_op(op, out)
        }
    }
}

// Writes the members after the content, and the end of the object.
fn write_tail(entry: &Entry, out: &mut Writer) -> Result<(), AllocError>
    ensures tokens { OnOk result (out.new.tokens ≡ out.old.tokens ++ object_tail_tokens (op_tail entry.now)) }
    ensures before_unchanged { out.new.before ≡ out.old.before }
    ensures err { OnErr result (WritesFront out.old.tokens out.new.tokens (object_tail_tokens (op_tail entry.now))) }
{
    write_count("seq", entry.arrived().seq(), out)?;
    write_text("src", entry.arrived().src(), out)?;
    write_count("v", entry.version(), out)?;
    out.end_object()
}

// Writes the key and the content, with members in byte order.
fn write_content(key: &Key, content: &Content, out: &mut Writer) -> Result<(), AllocError>
    ensures tokens { OnOk result ((rest : Members) → out.new.tokens ++ object_tail_tokens rest
        ≡ out.old.tokens ++ object_tail_tokens (content_members (plain_key key.now) content.now rest)) }
    ensures before_unchanged { out.new.before ≡ out.old.before }
{
    write_text("c", key.collection.as_str(), out)?;
    match content.kind() {
        Kind::Create(value) => {
            out.key("create")?;
            write_create(value, out)?;
            write_text("d", key.id.as_str(), out)
        }
        Kind::Delete => {
            write_text("d", key.id.as_str(), out)?;
            out.key("del")?;
            out.boolean(true)
        }
        Kind::Edit(op) => {
            write_text("d", key.id.as_str(), out)?;
            out.key("op")?;
            write_op(op, out)
        }
    }
}

/// Writes the data and the type of a create.
///
/// # Errors
///
/// [`AllocError`] if an allocation fails. A prefix of the tokens may then be written.
pub fn write_create(value: &Json, out: &mut Writer) -> Result<(), AllocError>
    ensures tokens { OnOk result (out.new.tokens ≡ out.old.tokens ++ data_tokens (create_data (value_of value.now))) }
    ensures before_unchanged { out.new.before ≡ out.old.before }
    ensures err { OnErr result (WritesFront out.old.tokens out.new.tokens
        (data_tokens (create_data (value_of value.now)))) }
{
    out.begin_object()?;
    out.key("data")?;
    write_value(value, out)?;
    write_text("type", TYPE, out)?;
    out.end_object()
}
