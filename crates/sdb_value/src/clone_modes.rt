//! Clones of values in three modes.
ghost use Rattle.std.specs.Prelude.{◌≡◌, Bool, map, true, false, IfOk, IfSome, IfNone};
ghost use Rattle.std.specs.List.{flat_map};
ghost use Rattle.sdb_chunks.specs.Chunk.{items_of, is_chunk_unique, is_chunk_shared};
ghost use Rattle.sdb_chunks.specs.ChunkedVec.{all_shared, vec_chunks, is_grouped_vec, is_shared_vec};
ghost use Rattle.sdb_chunks.specs.declared.chunked_vec.ChunkedVec.{ChunkedVec};
ghost use Rattle.sdb_sorted_map.specs.MapKey.{key_bytes};
ghost use Rattle.sdb_sorted_map.specs.MapEntry.{key_value};
ghost use Rattle.sdb_sorted_map.specs.SortedMap.{is_shared_map};
ghost use Rattle.sdb_rope.specs.Rope.{rope_bytes, is_unique_rope, is_shared_rope};
ghost use Rattle.sdb_value.specs.CloneModes.{HasUniquenessOfMode, is_deep_unique_chunk, are_deep_unique_chunks, is_deep_unique_member_chunk, are_deep_unique_member_chunks};
ghost use Rattle.sdb_value.specs.Uniqueness.{is_unique, is_frozen, items_unique, list_unique, object_unique, members_unique};
ghost use Rattle.sdb_value.specs.View.{value_of, entries_value, items_value, list_value, object_value};
ghost use Rattle.sdb_value.specs.declared.clone_modes.CloneMode.TheVariants.{Preserve, Unique};
ghost use Rattle.sdb_value.specs.declared.value.Json.{Json};

use crate::value::{Json, List, Members};
use sdb_chunks::{Chunk, ChunkedVec, TryClone};
use sdb_rope::Rope;
use sdb_sorted_map::{MapEntry, MapKey};
use std::alloc::{AllocError, Global};

/// The mode of a clone.
#[derive(Clone, Copy, Drop)]
pub(crate) enum CloneMode {
    /// Shared parts are cloned by pointer, all others are copied.
    Preserve,
    /// All parts are copied, so the clone is unique.
    Unique,
    /// All parts of the clone are shared. Parts that are shared already are cloned by pointer.
    Frozen,
}

// Clones a shared object by pointer, the most frequent case.
#[inline(always)]
fn clone_shared_object(value: &Json) -> Result<Option<Json>, AllocError>
    ensures value { IfOk result (λ o. IfSome o (λ v. value_of v ≡ value_of value.now)) }
    ensures unique { IfOk result (λ o. IfSome o (λ v. is_unique v ≡ is_unique value.now)) }
    ensures frozen { IfOk result (λ o. IfSome o (λ v. is_frozen v ≡ true)) }
{
    match value {
        Json::Object(members) => match members.clone_shared()? {
            Some(members) => Ok(Some(Json::Object(members))),
            None => Ok(None),
        },
        _ => Ok(None),
    }
}

// Clones shared parts by pointer, and copies all others.
#[inline(always)]
pub(crate) fn clone_preserving(alloc: Global, value: &Json) -> Result<Json, AllocError>
    ensures value { IfOk result (λ v. value_of v ≡ value_of value.now) }
    ensures unique { IfOk result (λ v. is_unique v ≡ is_unique value.now) }
{
    match clone_shared_object(value)? {
        Some(copy) => Ok(copy),
        None => copy(alloc, value, CloneMode::Preserve),
    }
}

// Clones a value so that the clone is frozen. Only parts that aren't shared yet are copied.
#[inline(always)]
pub(crate) fn clone_frozen(alloc: Global, value: &Json) -> Result<Json, AllocError>
    ensures value { IfOk result (λ v. value_of v ≡ value_of value.now) }
    ensures frozen { IfOk result (λ v. is_frozen v ≡ true) }
{
    match clone_shared_object(value)? {
        Some(copy) => Ok(copy),
        None => copy(alloc, value, CloneMode::Frozen),
    }
}

#[cycle(copy)]
pub(crate) fn copy(alloc: Global, value: &Json, mode: CloneMode) -> Result<Json, AllocError>
    ensures value { IfOk result (λ v. value_of v ≡ value_of value.now) }
    ensures unique { IfOk result (λ v. HasUniquenessOfMode mode (is_unique value.now) (is_unique v) (is_frozen v)) }
{
    match value {
        Json::Null => Ok(Json::Null),
        Json::Bool(b) => Ok(Json::Bool(*b)),
        Json::Int(n) => Ok(Json::Int(*n)),
        Json::Text(text) => Ok(Json::Text(clone_text(alloc, text, mode)?)),
        Json::List(items) => Ok(Json::List(clone_list(alloc, items, mode)?)),
        Json::Object(members) => Ok(Json::Object(clone_members(alloc, members, mode)?)),
    }
}

fn clone_text(alloc: Global, text: &Rope, mode: CloneMode) -> Result<Rope, AllocError>
    ensures bytes { IfOk result (λ t. rope_bytes t ≡ rope_bytes text.now) }
    ensures unique { IfOk result (λ t. HasUniquenessOfMode mode (is_unique_rope text.now) (is_unique_rope t)
        (is_shared_rope t)) }
{
    match mode {
        CloneMode::Preserve => text.try_clone(alloc),
        CloneMode::Unique => Rope::new(alloc, text.to_string(alloc)?),
        CloneMode::Frozen => text.frozen_clone(alloc),
    }
}

#[cycle(copy)]
fn clone_list(alloc: Global, items: &List, mode: CloneMode) -> Result<List, AllocError>
    ensures items { IfOk result (λ l. list_value l ≡ list_value items.now) }
    ensures unique { IfOk result (λ l. HasUniquenessOfMode mode (list_unique items.now) (list_unique l)
        (is_shared_vec l)) }
{
    if let Some(list) = clone_list_pointer(items, mode)? {
        return Ok(list);
    }
    let inner = chunk_clone_mode(items, mode);
    let copies = clone_chunks(alloc, items, inner)?;
    match inner {
        CloneMode::Frozen => ChunkedVec::from_shared_chunks(alloc, copies),
        _ => Ok(ChunkedVec::from_chunks(copies)),
    }
}

// Clones a shared list by pointer, unless the mode is `Unique`.
fn clone_list_pointer(items: &List, mode: CloneMode) -> Result<Option<List>, AllocError>
    ensures items { IfOk result (λ o. IfSome o (λ l. list_value l ≡ list_value items.now)) }
    ensures unique { IfOk result (λ o. IfSome o
        (λ l. HasUniquenessOfMode mode (list_unique items.now) (list_unique l) (is_shared_vec l))) }
    ensures none { IfOk result (λ o. IfNone o (mode ≡ Preserve → is_shared_vec items.now ≡ false)) }
{
    match mode {
        CloneMode::Unique => Ok(None),
        _ => items.clone_shared(),
    }
}

// Returns the mode for the chunks of a list. A list in groups isn't unique, so its clone in chunks
// is shared.
fn chunk_clone_mode<T>(items: &ChunkedVec<T>, mode: CloneMode) -> CloneMode
    ensures copied { (was now pointer : Bool) → (is_grouped_vec items.now ≡ true → was ≡ false)
        → (pointer ≡ true → now ≡ false) → HasUniquenessOfMode result was now pointer
        → HasUniquenessOfMode mode was now pointer }
    ensures equal { result ≡ Preserve → mode ≡ Preserve }
    ensures in_blocks { result ≡ Preserve → is_grouped_vec items.now ≡ false }
{
    if items.is_grouped() && matches!(mode, CloneMode::Preserve) {
        return CloneMode::Frozen;
    }
    mode
}

#[cycle(copy)]
fn clone_chunks(
    alloc: Global,
    items: &List,
    mode: CloneMode,
) -> Result<Vec<Chunk<Json>>, AllocError>
    ensures items { IfOk result (λ v. items_value (flat_map items_of v.items) ≡ list_value items.now) }
    ensures unique { IfOk result (λ v. HasUniquenessOfMode mode
        (are_deep_unique_chunks (vec_chunks items.now)) (are_deep_unique_chunks v.items) (all_shared v.items)) }
{
    let mut copies = Vec::new(alloc);
    for chunk in items.chunks() {
        copies.push(clone_chunk(alloc, chunk, mode)?)?;
    }
    Ok(copies)
}

#[cycle(copy)]
fn clone_chunk(
    alloc: Global,
    chunk: &Chunk<Json>,
    mode: CloneMode,
) -> Result<Chunk<Json>, AllocError>
    ensures items { IfOk result (λ b. items_value (items_of b) ≡ items_value (items_of chunk.now)) }
    ensures unique { IfOk result (λ b. HasUniquenessOfMode mode
        (is_deep_unique_chunk chunk.now) (is_deep_unique_chunk b) (is_chunk_shared b)) }
{
    if let Some(chunk) = clone_chunk_pointer(chunk, mode)? {
        return Ok(chunk);
    }
    let items = clone_items(alloc, chunk.items(), mode)?;
    match mode {
        CloneMode::Frozen => Chunk::Unique(items).into_frozen(alloc),
        _ => Ok(Chunk::Unique(items)),
    }
}

// Clones a shared chunk by pointer, unless the mode is `Unique`.
fn clone_chunk_pointer<T>(chunk: &Chunk<T>, mode: CloneMode) -> Result<Option<Chunk<T>>, AllocError>
    ensures equal { IfOk result (λ o. IfSome o (λ b. items_of b ≡ items_of chunk.now)) }
    ensures shared { IfOk result (λ o. IfSome o (λ b. is_chunk_shared b ≡ true)) }
    ensures was_shared { IfOk result (λ o. IfSome o (λ _. is_chunk_shared chunk.now ≡ true)) }
    ensures not_unique_mode { IfOk result (λ o. IfSome o (λ _. mode ≡ Unique → ⊥)) }
    ensures none { IfOk result (λ o. IfNone o (mode ≡ Preserve → is_chunk_unique chunk.now ≡ true)) }
{
    match mode {
        CloneMode::Unique => Ok(None),
        _ => chunk.clone_shared(),
    }
}

#[cycle(copy)]
fn clone_items(alloc: Global, items: &[Json], mode: CloneMode) -> Result<Vec<Json>, AllocError>
    ensures items { IfOk result (λ v. items_value v.items ≡ items_value items.now) }
    ensures unique { IfOk result (λ v. HasUniquenessOfMode mode (items_unique items.now)
        (items_unique v.items) true) }
{
    let mut copies = Vec::with_capacity(alloc, items.len())?;
    for item in items {
        copies.push(copy(alloc, item, mode)?)?;
    }
    Ok(copies)
}

#[cycle(copy)]
fn clone_members(alloc: Global, members: &Members, mode: CloneMode) -> Result<Members, AllocError>
    ensures members { IfOk result (λ m. object_value m ≡ object_value members.now) }
    ensures unique { IfOk result (λ m. HasUniquenessOfMode mode (object_unique members.now) (object_unique m)
        (is_shared_map m)) }
{
    if let Some(copy) = clone_members_pointer(members, mode)? {
        return Ok(copy);
    }
    let inner = chunk_clone_mode(members.chunks(), mode);
    let copies = clone_member_chunks(alloc, members.chunks(), inner)?;
    match inner {
        CloneMode::Frozen => {
            let entries = ChunkedVec::from_shared_chunks(alloc, copies)?;
            Ok(Members::from_entries(entries))
        }
        _ => Ok(Members::from_entries(ChunkedVec::from_chunks(copies))),
    }
}

// Clones shared members by pointer, unless the mode is `Unique`.
fn clone_members_pointer(members: &Members, mode: CloneMode) -> Result<Option<Members>, AllocError>
    ensures members { IfOk result (λ o. IfSome o (λ m. object_value m ≡ object_value members.now)) }
    ensures unique { IfOk result (λ o. IfSome o
        (λ m. HasUniquenessOfMode mode (object_unique members.now) (object_unique m) (is_shared_map m))) }
    ensures none { IfOk result (λ o. IfNone o (mode ≡ Preserve → is_shared_map members.now ≡ false)) }
{
    match mode {
        CloneMode::Unique => Ok(None),
        _ => members.clone_shared(),
    }
}

#[cycle(copy)]
fn clone_member_chunks(
    alloc: Global,
    entries: &ChunkedVec<MapEntry<Json>>,
    mode: CloneMode,
) -> Result<Vec<Chunk<MapEntry<Json>>>, AllocError>
    ensures members { IfOk result (λ v. entries_value (flat_map items_of v.items)
        ≡ entries_value (flat_map items_of (vec_chunks entries.now))) }
    ensures unique { IfOk result (λ v. HasUniquenessOfMode mode
        (are_deep_unique_member_chunks (vec_chunks entries.now)) (are_deep_unique_member_chunks v.items)
        (all_shared v.items)) }
{
    let mut copies = Vec::new(alloc);
    for chunk in entries.chunks() {
        copies.push(clone_member_chunk(alloc, chunk, mode)?)?;
    }
    Ok(copies)
}

#[cycle(copy)]
fn clone_member_chunk(
    alloc: Global,
    chunk: &Chunk<MapEntry<Json>>,
    mode: CloneMode,
) -> Result<Chunk<MapEntry<Json>>, AllocError>
    ensures members { IfOk result (λ b. entries_value (items_of b) ≡ entries_value (items_of chunk.now)) }
    ensures unique { IfOk result (λ b. HasUniquenessOfMode mode (is_deep_unique_member_chunk chunk.now)
        (is_deep_unique_member_chunk b) (is_chunk_shared b)) }
{
    if let Some(chunk) = clone_chunk_pointer(chunk, mode)? {
        return Ok(chunk);
    }
    let members = clone_each_member(alloc, chunk.items(), mode)?;
    match mode {
        CloneMode::Frozen => Chunk::Unique(members).into_frozen(alloc),
        _ => Ok(Chunk::Unique(members)),
    }
}

#[cycle(copy)]
fn clone_each_member(
    alloc: Global,
    members: &[MapEntry<Json>],
    mode: CloneMode,
) -> Result<Vec<MapEntry<Json>>, AllocError>
    ensures members { IfOk result (λ v. entries_value v.items ≡ entries_value members.now) }
    ensures unique { IfOk result (λ v. HasUniquenessOfMode mode (members_unique members.now)
        (members_unique v.items) true) }
{
    let mut copies = Vec::with_capacity(alloc, members.len())?;
    for member in members {
        let value = copy(alloc, &member.value, mode)?;
        copies.push(clone_entry(alloc, &member.key, value)?)?;
    }
    Ok(copies)
}

// Creates a member from a clone of the key and a value.
fn clone_entry(alloc: Global, key: &MapKey, value: Json) -> Result<MapEntry<Json>, AllocError>
    ensures { IfOk result (λ m. key_value m ≡ (key_bytes key.now, value)) }
{
    Ok(MapEntry {
        key: key.try_clone(alloc)?,
        value,
    })
}
