//! Objects changed in place.
ghost use Rattle.std.specs.Prelude.{◌≡◌, ◌∷◌, [], true, false, None, map, slice_get, slice_set, option_map, IfOk, IfSome, IfNone, OnOk, OnErr, string_bytes};
ghost use Rattle.sdb_sorted_map.specs.MapEntry.{entry_key};
ghost use Rattle.sdb_sorted_map.specs.SortedMap.{is_unique_map};
ghost use Rattle.sdb_sorted_map.specs.SearchModel.{vec_keys};
ghost use Rattle.sdb_chunks.specs.ChunkedVec.{is_unique_vec_at};
ghost use Rattle.sdb_value.specs.Uniqueness.{is_unique, entries_unique, object_unique};
ghost use Rattle.sdb_value.specs.Value.{member_at, put_member, without_member, item_at, set_item, null};
ghost use Rattle.sdb_value.specs.View.{value_of, object_value, values_of_entries};

use crate::value::{Json, Members};
use sdb_chunks::ChunkedVec;
use sdb_sorted_map::{MapEntry, MapKey};
use std::alloc::{AllocError, Global};

/// Sets the value of a key, present or not. It allocates only if the key is new or a part of the
/// members is shared.
///
/// # Errors
///
/// [`AllocError`] if an allocation fails. The object is then unchanged.
pub fn put_at_key(
    alloc: Global,
    members: &mut Members,
    key: String,
    new: Json,
) -> Result<(), AllocError>
    ensures ok { OnOk result (object_value members.new
        ≡ put_member (string_bytes key) (value_of new) (object_value members.old)) }
    ensures err { OnErr result (object_value members.new ≡ object_value members.old) }
    ensures absent_on_err { is_unique_map members.old ≡ true
        → OnErr result (member_at (string_bytes key) (object_value members.old) ≡ None) }
    ensures unique { object_unique members.old ≡ true → is_unique new ≡ true → object_unique members.new ≡ true }
{
    drop(members.insert(alloc, key, new)?);
    Ok(())
}

/// Removes a key and its value, if present. It allocates only if a part of the members is shared.
///
/// # Errors
///
/// [`AllocError`] if an allocation fails. The object is then unchanged.
pub fn remove_at_key(alloc: Global, members: &mut Members, key: &str) -> Result<(), AllocError>
    ensures ok { OnOk result (object_value members.new ≡ without_member key.now (object_value members.old)) }
    ensures err { OnErr result (object_value members.new ≡ object_value members.old) }
    ensures unique { object_unique members.old ≡ true → object_unique members.new ≡ true }
    ensures memory { OnErr result (is_unique_map members.old ≡ false) }
    ensures shared_on_err { OnErr result (object_unique members.old ≡ false) }
{
    drop(members.remove(alloc, key)?);
    Ok(())
}

// Takes the member at an index out for a change, leaving one without a key, and makes its part
// unique.
pub(crate) fn take_member(
    alloc: Global,
    entries: &mut ChunkedVec<MapEntry<Json>>,
    index: usize,
) -> Result<Option<MapEntry<Json>>, AllocError>
    ensures value { IfOk result (λ o. option_map (λ m. value_of m.value) o
        ≡ item_at index (values_of_entries entries.old)) }
    ensures key { IfOk result (λ o. option_map entry_key o ≡ slice_get (vec_keys entries.old) index) }
    ensures none { IfOk result (λ o. IfNone o (values_of_entries entries.new ≡ values_of_entries entries.old)) }
    ensures none_names { IfOk result (λ o. IfNone o (vec_keys entries.new ≡ vec_keys entries.old)) }
    ensures left { OnOk result (values_of_entries entries.new ≡ set_item index (values_of_entries entries.old) null) }
    ensures names { OnOk result (vec_keys entries.new ≡ slice_set (vec_keys entries.old) index []) }
    ensures err { OnErr result (values_of_entries entries.new ≡ values_of_entries entries.old) }
    ensures err_names { OnErr result (vec_keys entries.new ≡ vec_keys entries.old) }
    ensures unique { entries_unique entries.old ≡ true → entries_unique entries.new ≡ true }
    ensures value_unique { entries_unique entries.old ≡ true
        → IfOk result (λ o. IfSome o (λ m. is_unique m.value ≡ true)) }
    ensures shared_on_err { OnErr result (is_unique_vec_at entries.old index ≡ false) }
    ensures unique_after { IfOk result (λ o. IfSome o (λ _. is_unique_vec_at entries.new index ≡ true)) }
{
    let spare = MapEntry {
        key: MapKey::new(String::new(alloc)),
        value: Json::Null,
    };
    entries.replace(alloc, index, spare)
}

// Puts a member back at an index; the one there is dropped.
pub(crate) fn put_member_back(
    alloc: Global,
    entries: &mut ChunkedVec<MapEntry<Json>>,
    index: usize,
    member: MapEntry<Json>,
)
    requires { is_unique_vec_at entries.old index ≡ true }
    ensures values { values_of_entries entries.new
        ≡ set_item index (values_of_entries entries.old) (value_of member.value) }
    ensures names { vec_keys entries.new ≡ slice_set (vec_keys entries.old) index (entry_key member) }
    ensures unique { entries_unique entries.old ≡ true → is_unique member.value ≡ true
        → entries_unique entries.new ≡ true }
{
    discard_member(entries.replace(alloc, index, member));
}

fn discard_member(_member: Result<Option<MapEntry<Json>>, AllocError>) {}
