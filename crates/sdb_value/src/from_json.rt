//! Values from parsed JSON.
ghost use Rattle.std.specs.Prelude.{◌≡◌, ◌≤◌, ◌++◌, ◌∷◌, [], map, true, Some, None, IfOk, IfErr, OnOk};
ghost use Rattle.sdb_value.specs.Value.{depth, items_depth, members_depth};
ghost use Rattle.sdb_value.specs.Uniqueness.{is_unique, items_unique, object_unique};
ghost use Rattle.sdb_value.specs.FromJson.{value_of_data, items_of_data, members_of_data, bounded_value_of_data};
ghost use Rattle.sdb_value.specs.FromJson.{FaultMeansNone, IsReadFault, IsItemsReadFault, IsMembersReadFault};
ghost use Rattle.sdb_value.specs.View.{value_of, items_value, object_value};
ghost use Rattle.serde_json.specs.Find.{as_array, as_object};
ghost use Rattle.serde_json.specs.View as raw;
ghost use Rattle.sdb_json.specs.TreeData.{sorted_members};
ghost use Rattle.sdb_sorted_map.specs.MapEntry.{key_value};

use crate::list_edits::push_item;
use crate::numbers::whole_of;
use crate::value::{Json, Members};
use sdb_json::JsonData;
use sdb_rope::Rope;
use sdb_sorted_map::{MapEntry, MapKey};
use std::alloc::{AllocError, Global};
use std::collections::BTreeMap;
use thiserror::Error;

/// The reason why a JSON value isn't in the profile.
#[derive(Debug, Drop, Error)]
pub enum ValueFault {
    /// A number has a fraction or an exponent, or exceeds 9007199254740991 in size (E3).
    #[error("a number is not whole or too large")]
    NumberOutOfRange,
    /// Lists and objects are nested more than 50 deep (E3).
    #[error("a value nests too deep")]
    TooDeep,
    /// An allocation failed (E10).
    #[error("out of memory")]
    OutOfMemory,
}

impl From<AllocError> for ValueFault {
    ghost use Rattle.sdb_value.specs.declared.from_json.ValueFault.TheVariants.{OutOfMemory};

    ghost from_gives = { λ _ f. f ≡ OutOfMemory };

    fn from(_error: AllocError) -> ValueFault {
        ValueFault::OutOfMemory
    }
}

/// Converts a JSON value to a value of the profile: integers from -9007199254740991 to
/// 9007199254740991, and lists and objects at most 50 deep. The result is unique.
///
/// # Errors
///
/// [`ValueFault::NumberOutOfRange`] or [`ValueFault::TooDeep`], the one that is found first, or
/// [`ValueFault::OutOfMemory`] if an allocation fails.
pub fn from_value<D: JsonData>(alloc: Global, value: &D) -> Result<Json, ValueFault>
    ensures ok { IfOk result (λ j. bounded_value_of_data (D.json value.now) ≡ Some (value_of j)) }
    ensures err { IfErr result (λ f. FaultMeansNone (bounded_value_of_data (D.json value.now)) f) }
    ensures cause { IfErr result (λ f. IsReadFault 50 (D.json value.now) f) }
    ensures unique { IfOk result (λ j. is_unique j ≡ true) }
{
    read_value(alloc, value, 50)
}

#[cycle(read_value)]
fn read_value<D: JsonData>(alloc: Global, value: &D, left: u64) -> Result<Json, ValueFault>
    ensures ok { IfOk result (λ j. value_of_data (D.json value.now) ≡ Some (value_of j)) }
    ensures depth { IfOk result (λ j. depth (value_of j) ≤ left) }
    ensures unique { IfOk result (λ j. is_unique j ≡ true) }
    ensures err { IfErr result (λ f. IsReadFault left (D.json value.now) f) }
{
    if let Some(items) = value.as_array() {
        if left == 0 {
            return Err(ValueFault::TooDeep);
        }
        return Ok(Json::from_items(alloc, read_items(alloc, items, left - 1)?)?);
    }
    if left == 0 && value.is_object() {
        return Err(ValueFault::TooDeep);
    }
    if let Some(members) = value.members(alloc)? {
        return Ok(Json::from_members(read_members(alloc, &members, left - 1)?));
    }
    read_leaf(alloc, value)
}

// Converts a value that is neither an array nor an object.
fn read_leaf<D: JsonData>(alloc: Global, value: &D) -> Result<Json, ValueFault>
    requires no_list { as_array (D.json value.now) ≡ None }
    requires no_object { as_object (D.json value.now) ≡ None }
    ensures ok { IfOk result (λ j. value_of_data (D.json value.now) ≡ Some (value_of j)) }
    ensures depth { IfOk result (λ j. depth (value_of j) ≡ 0) }
    ensures unique { IfOk result (λ j. is_unique j ≡ true) }
    ensures err { IfErr result (λ f. IsReadFault 0 (D.json value.now) f) }
{
    if let Some(text) = value.as_str() {
        return Ok(Json::Text(Rope::from_str(alloc, text)?));
    }
    if value.is_number() {
        return match whole_of(value) {
            Some(n) => Ok(Json::Int(n)),
            None => Err(ValueFault::NumberOutOfRange),
        };
    }
    match value.as_bool() {
        Some(truth) => Ok(Json::Bool(truth)),
        None => Ok(Json::Null),
    }
}

#[cycle(read_value)]
fn read_items<D: JsonData>(alloc: Global, items: &[D], left: u64) -> Result<Vec<Json>, ValueFault>
    ensures ok { IfOk result (λ v. items_of_data (raw.items_of (map D.json items.now)) ≡ Some (items_value v.items)) }
    ensures depth { IfOk result (λ v. items_depth (items_value v.items) ≤ left) }
    ensures unique { IfOk result (λ v. items_unique v.items ≡ true) }
    ensures err { IfErr result (λ f. IsItemsReadFault left (raw.items_of (map D.json items.now)) f) }
{
    let mut done = Vec::with_capacity(alloc, items.len())?;
    for item in items {
        let new = read_value(alloc, item, left)?;
        push_item(&mut done, new)?;
    }
    Ok(done)
}

#[cycle(read_value)]
fn read_members<D: JsonData>(
    alloc: Global,
    members: &BTreeMap<&str, &D>,
    left: u64,
) -> Result<Members, ValueFault>
    ensures ok { IfOk result (λ m. members_of_data (sorted_members D.json members.now.entries)
        ≡ Some (object_value m)) }
    ensures depth { IfOk result (λ m. members_depth (object_value m) ≤ left) }
    ensures unique { IfOk result (λ m. object_unique m ≡ true) }
    ensures err { IfErr result (λ f. IsMembersReadFault left (sorted_members D.json members.now.entries) f) }
{
    let mut entries = Vec::with_capacity(alloc, members.len())?;
    for (key, member) in members.iter() {
        let value = read_value(alloc, *member, left)?;
        push_object_member(alloc, &mut entries, key, value)?;
    }
    Ok(Members::from_sorted(alloc, entries)?)
}

// Appends a member with this key and value.
fn push_object_member(
    alloc: Global,
    entries: &mut Vec<MapEntry<Json>>,
    key: &str,
    value: Json,
) -> Result<(), AllocError>
    ensures { OnOk result (map key_value entries.new.items ≡ map key_value entries.old.items ++ (key.now, value) ∷ []) }
{
    let key = MapKey::from_str(alloc, key)?;
    entries.push(MapEntry { key, value })?;
    Ok(())
}
