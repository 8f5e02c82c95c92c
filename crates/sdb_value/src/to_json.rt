//! Conversion to `serde_json`'s `Value`.
ghost use Rattle.std.specs.Prelude.{◌≡◌, IfOk};
ghost use Rattle.sdb_value.specs.FromJson.{data_of_value, data_of_items, data_of_members};
ghost use Rattle.sdb_value.specs.View.{value_of, list_value, object_value};
ghost use Rattle.serde_json.specs.View as raw;

use crate::value::{Json, List, Members};
use serde_json::{Map, Number, Value};
use std::alloc::{AllocError, Global};
use std::collections::BTreeMap;

/// Converts a value to JSON, with members sorted by the bytes of their keys.
///
/// # Errors
///
/// [`AllocError`] if an allocation fails.
pub fn to_value(alloc: Global, json: &Json) -> Result<Value, AllocError>
    ensures { IfOk result (λ v. raw.view v ≡ data_of_value (value_of json.now)) }
{
    write(alloc, json)
}

#[cycle(write)]
#[tactic(auto, using(crate::proofs::WeightLemmas::levels))]
fn write(alloc: Global, json: &Json) -> Result<Value, AllocError>
    ensures { IfOk result (λ v. raw.view v ≡ data_of_value (value_of json.now)) }
{
    match json {
        Json::Null => Ok(Value::Null),
        Json::Bool(b) => Ok(Value::Bool(*b)),
        Json::Int(n) => Ok(Value::Number(Number::from(n.get()))),
        Json::Text(text) => Ok(Value::String(text.to_string(alloc)?)),
        Json::List(items) => Ok(Value::Array(write_items(alloc, items)?)),
        Json::Object(members) => Ok(Value::Object(write_members(alloc, members)?)),
    }
}

#[cycle(write)]
fn write_items(alloc: Global, items: &List) -> Result<Vec<Value>, AllocError>
    ensures { IfOk result (λ v. raw.items_view v.items ≡ data_of_items (list_value items.now)) }
{
    let mut made = Vec::new(alloc);
    for item in items.iter() {
        made.push(write(alloc, item)?)?;
    }
    Ok(made)
}

#[cycle(write)]
fn write_members(alloc: Global, members: &Members) -> Result<Map<String, Value>, AllocError>
    ensures { IfOk result (λ m. raw.members_view m.entries ≡ data_of_members (object_value members.now)) }
{
    let mut made = BTreeMap::new(alloc);
    for (key, member) in members.iter() {
        let name = String::from_str(alloc, key)?;
        drop(made.insert(name, write(alloc, member)?)?);
    }
    Ok(made)
}
