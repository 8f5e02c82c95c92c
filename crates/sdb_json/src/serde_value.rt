//! The implementation of `JsonData` for the values of `serde_json`.
ghost use Rattle.std.specs.Prelude.{◌≡◌, IfOk};
ghost use Rattle.serde_json.specs.View.{members_view, view};
ghost use Rattle.sdb_json.specs.TreeData.{sorted_members};

use crate::json_data::JsonData;
use serde_json::{Map, Value};
use std::alloc::{AllocError, Global};
use std::collections::BTreeMap;

impl JsonData for Value {
    ghost json = { view };

    fn is_null(&self) -> bool {
        Value::is_null(self)
    }

    fn as_bool(&self) -> Option<bool> {
        Value::as_bool(self)
    }

    fn is_number(&self) -> bool {
        Value::is_number(self)
    }

    fn as_u64(&self) -> Option<u64> {
        Value::as_u64(self)
    }

    fn as_i64(&self) -> Option<i64> {
        Value::as_i64(self)
    }

    fn as_str(&self) -> Option<&str> {
        Value::as_str(self)
    }

    fn as_array(&self) -> Option<&[Value]> {
        match Value::as_array(self) {
            Some(items) => Some(items.as_slice()),
            None => None,
        }
    }

    fn is_object(&self) -> bool {
        Value::is_object(self)
    }

    fn members(&self, alloc: Global) -> Result<Option<BTreeMap<&str, &Value>>, AllocError> {
        match Value::as_object(self) {
            Some(members) => Ok(Some(borrow_members(alloc, members)?)),
            None => Ok(None),
        }
    }

    fn get(&self, key: &str) -> Option<&Value> {
        Value::get(self, key)
    }
}

// Returns the members, sorted by borrowed keys.
fn borrow_members<'v>(
    alloc: Global,
    members: &'v Map<String, Value>,
) -> Result<BTreeMap<&'v str, &'v Value>, AllocError>
    ensures { IfOk result (λ m. sorted_members view m.entries ≡ members_view members.now.entries) }
{
    let mut found = BTreeMap::new(alloc);
    for (key, member) in members.iter() {
        found.insert(key.as_str(), member)?;
    }
    Ok(found)
}
