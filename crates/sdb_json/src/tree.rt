//! The implementation of `JsonData` for the trees of `json`.
ghost use Rattle.std.specs.Prelude.{◌≡◌, IfOk};
ghost use Rattle.json.specs.Value.{members_view};
ghost use Rattle.serde_json.specs.Data.{no_members};
ghost use Rattle.sdb_json.specs.TreeData.{members_data, sorted_members, tree_data};

use crate::json_data::JsonData;
use crate::number::{token_i64, token_u64};
use json::Value;
use std::alloc::{AllocError, Global};
use std::collections::BTreeMap;

impl<'a> JsonData for Value<'a> {
    ghost json = { tree_data };

    fn is_null(&self) -> bool {
        Value::is_null(self)
    }

    fn as_bool(&self) -> Option<bool> {
        Value::as_bool(self)
    }

    fn is_number(&self) -> bool {
        Value::as_number(self).is_some()
    }

    fn as_u64(&self) -> Option<u64> {
        token_u64(Value::as_number(self)?)
    }

    fn as_i64(&self) -> Option<i64> {
        token_i64(Value::as_number(self)?)
    }

    fn as_str(&self) -> Option<&str> {
        Value::as_str(self)
    }

    fn as_array(&self) -> Option<&[Value<'a>]> {
        match self {
            Value::Array(items) => Some(items.as_slice()),
            _ => None,
        }
    }

    fn is_object(&self) -> bool {
        matches!(self, Value::Object(_))
    }

    fn members(&self, alloc: Global) -> Result<Option<BTreeMap<&str, &Value<'a>>>, AllocError> {
        match self {
            Value::Object(members) => Ok(Some(sort_members(alloc, members.as_slice())?)),
            _ => Ok(None),
        }
    }

    fn get(&self, key: &str) -> Option<&Value<'a>> {
        Value::get(self, key)
    }
}

// Returns the last value of each key, sorted by key.
fn sort_members<'v, 'a>(
    alloc: Global,
    members: &'v [(&'a str, Value<'a>)],
) -> Result<BTreeMap<&'v str, &'v Value<'a>>, AllocError>
    ensures { IfOk result (λ m. sorted_members tree_data m.entries
        ≡ members_data (members_view members.now) no_members) }
{
    let mut found = BTreeMap::new(alloc);
    for (name, value) in members {
        found.insert(*name, value)?;
    }
    Ok(found)
}
