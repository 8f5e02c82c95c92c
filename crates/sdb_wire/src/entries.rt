//! Entries as JSON values.
ghost use Rattle.std.specs.Prelude.{◌≡◌, IfOk, OnOk};
ghost use Rattle.serde_json.specs.Data.{no_members};
ghost use Rattle.serde_json.specs.View.{view as data_view, members_view};
ghost use Rattle.sdb_value.specs.View.{value_of};
ghost use Rattle.sdb_wire.specs.Answers.{create_data, entry_data, entry_members, op_tail};

use crate::message::TYPE;
use sdb_component::op_value;
use sdb_oplog::{Entry, Kind};
use sdb_value::{Json, to_value};
use serde_json::{Map, Value, json, put};
use std::alloc::{AllocError, Global};
use std::collections::BTreeMap;

/// Returns the JSON value of an entry: its content, seq, source and version. An operation message
/// also has `a`, and the document's `c` and `d`.
///
/// # Errors
///
/// [`AllocError`] if an allocation fails.
pub fn entry_value(alloc: Global, entry: &Entry) -> Result<Value, AllocError>
    ensures { IfOk result (λ v. data_view v ≡ entry_data entry.now) }
{
    let mut members = BTreeMap::new(alloc);
    push_tail(alloc, &mut members, entry)?;
    push_content(alloc, &mut members, entry)?;
    Ok(Value::Object(members))
}

// Adds seq, source and version to an empty object.
fn push_tail(
    alloc: Global,
    members: &mut Map<String, Value>,
    entry: &Entry,
) -> Result<(), AllocError>
    requires { members_view members.old.entries ≡ no_members }
    ensures { OnOk result (members_view members.new.entries ≡ op_tail entry.now) }
{
    let src = String::from_str(alloc, entry.arrived().src())?;
    put(members, alloc, "seq", Value::from(entry.arrived().seq()))?;
    put(members, alloc, "src", Value::String(src))?;
    put(members, alloc, "v", Value::from(entry.version()))
}

// Adds the content to the object.
fn push_content(
    alloc: Global,
    members: &mut Map<String, Value>,
    entry: &Entry,
) -> Result<(), AllocError>
    requires { members_view members.old.entries ≡ op_tail entry.now }
    ensures { OnOk result (members_view members.new.entries ≡ entry_members entry.now (entry.now).content) }
{
    match entry.content().kind() {
        Kind::Create(value) => put(members, alloc, "create", create_value(alloc, value)?),
        Kind::Delete => put(members, alloc, "del", Value::Bool(true)),
        Kind::Edit(op) => put(members, alloc, "op", op_value(alloc, op)?),
    }
}

fn create_value(alloc: Global, value: &Json) -> Result<Value, AllocError>
    ensures { IfOk result (λ v. data_view v ≡ create_data (value_of value.now)) }
{
    let data = to_value(alloc, value)?;
    json!(in alloc; {"data": data, "type": TYPE})
}
