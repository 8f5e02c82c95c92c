//! Freezing of values in place.
ghost use Rattle.std.specs.Prelude.{◌≡◌, true, OnOk};
ghost use Rattle.std.specs.List.{flat_map};
ghost use Rattle.sdb_chunks.specs.Chunk.{items_of, is_chunk_shared};
ghost use Rattle.sdb_chunks.specs.ChunkedVec.{is_shared_repr, is_shared_vec};
ghost use Rattle.sdb_sorted_map.specs.SortedMap.{is_shared_map};
ghost use Rattle.sdb_value.specs.Uniqueness.{is_frozen};
ghost use Rattle.sdb_value.specs.View.{value_of, repr_value, items_of_group, items_value, list_value};
ghost use Rattle.sdb_value.specs.View.{entries_value, members_of_group, member_repr_value, object_value};

use crate::value::{Json, List, Members};
use sdb_chunks::{Chunk, ChunkGroup, ChunkedVec, Repr};
use sdb_sorted_map::MapEntry;
use std::alloc::{AllocError, Global};
use std::mem::replace;

// Freezes a value. Frozen parts are skipped.
#[cycle(freeze_value)]
#[inline(always)]
pub(crate) fn freeze_value(alloc: Global, value: &mut Json) -> Result<(), AllocError>
    ensures value { value_of value.new ≡ value_of value.old }
    ensures frozen { OnOk result (is_frozen value.new ≡ true) }
{
    if is_frozen(value) {
        return Ok(());
    }
    freeze_list_parts(alloc, value)
}

// Freezes the parts, and then the value.
#[cycle(freeze_value)]
#[tactic(auto, using(crate::proofs::FreezeLemmas::levels))]
fn freeze_list_parts(alloc: Global, value: &mut Json) -> Result<(), AllocError>
    ensures value { value_of value.new ≡ value_of value.old }
    ensures frozen { OnOk result (is_frozen value.new ≡ true) }
{
    match value {
        Json::Null => Ok(()),
        Json::Bool(_) => Ok(()),
        Json::Int(_) => Ok(()),
        Json::Text(text) => text.freeze(alloc),
        Json::List(items) => freeze_list(alloc, items),
        Json::Object(members) => freeze_members(alloc, members),
    }
}

// Returns whether a clone is a pointer or as cheap.
#[inline(always)]
fn is_frozen(value: &Json) -> bool
    ensures { result ≡ is_frozen value.now }
{
    match value {
        Json::Null | Json::Bool(_) | Json::Int(_) => true,
        Json::Text(text) => text.is_shared(),
        Json::List(items) => items.is_shared(),
        Json::Object(members) => members.is_shared(),
    }
}

#[cycle(freeze_value)]
fn freeze_list(alloc: Global, items: &mut List) -> Result<(), AllocError>
    ensures items { list_value items.new ≡ list_value items.old }
    ensures shared { OnOk result (is_shared_vec items.new ≡ true) }
{
    let mut repr = replace(items, ChunkedVec::from_vec(Vec::new(alloc))).into_repr();
    let done = freeze_list_repr(alloc, &mut repr);
    *items = ChunkedVec::from_repr(repr);
    done
}

#[cycle(freeze_value)]
fn freeze_list_repr(alloc: Global, repr: &mut Repr<Json>) -> Result<(), AllocError>
    ensures items { repr_value repr.new ≡ repr_value repr.old }
    ensures shared { OnOk result (is_shared_repr repr.new ≡ true) }
{
    freeze_unique_chunks(alloc, repr)?;
    repr.freeze(alloc)
}

// Freezes the parts of a list that isn't frozen.
#[cycle(freeze_value)]
fn freeze_unique_chunks(alloc: Global, repr: &mut Repr<Json>) -> Result<(), AllocError>
    ensures { repr_value repr.new ≡ repr_value repr.old }
{
    match repr {
        Repr::Flat(chunk) => freeze_unique_items(alloc, chunk),
        Repr::Chunks(chunks) => freeze_unique_group_chunks(alloc, chunks),
        Repr::Groups(groups) => freeze_unique_groups(alloc, groups),
    }
}

// Freezes the chunks of each group, unless the list of groups is shared.
#[cycle(freeze_value)]
fn freeze_unique_groups(
    alloc: Global,
    groups: &mut Chunk<ChunkGroup<Json>>,
) -> Result<(), AllocError>
    ensures { items_value (flat_map items_of_group (items_of groups.new))
        ≡ items_value (flat_map items_of_group (items_of groups.old)) }
{
    match groups {
        Chunk::Unique(groups) => freeze_each_group(alloc, groups),
        Chunk::Shared(_) => Ok(()),
    }
}

#[cycle(freeze_value)]
fn freeze_each_group(alloc: Global, groups: &mut Vec<ChunkGroup<Json>>) -> Result<(), AllocError>
    ensures { items_value (flat_map items_of_group groups.new.items)
        ≡ items_value (flat_map items_of_group groups.old.items) }
{
    for at in 0..groups.len() {
        freeze_group(alloc, &mut groups[at])?;
    }
    Ok(())
}

// Freezes the chunks of a group, unless the group is shared.
#[cycle(freeze_value)]
fn freeze_group(alloc: Global, group: &mut ChunkGroup<Json>) -> Result<(), AllocError>
    ensures { items_value (items_of_group group.new) ≡ items_value (items_of_group group.old) }
{
    if group.is_shared() {
        return Ok(());
    }
    let empty = ChunkGroup::new(Chunk::Unique(Vec::new(alloc)));
    let mut chunks = replace(group, empty).into_chunks();
    let done = freeze_unique_group_chunks(alloc, &mut chunks);
    *group = ChunkGroup::new(chunks);
    done
}

// Freezes each chunk, unless the list of chunks is shared.
#[cycle(freeze_value)]
fn freeze_unique_group_chunks(
    alloc: Global,
    chunks: &mut Chunk<Chunk<Json>>,
) -> Result<(), AllocError>
    ensures { items_value (flat_map items_of (items_of chunks.new))
        ≡ items_value (flat_map items_of (items_of chunks.old)) }
{
    match chunks {
        Chunk::Unique(chunks) => freeze_each_chunk(alloc, chunks),
        Chunk::Shared(_) => Ok(()),
    }
}

#[cycle(freeze_value)]
fn freeze_each_chunk(alloc: Global, chunks: &mut Vec<Chunk<Json>>) -> Result<(), AllocError>
    ensures { items_value (flat_map items_of chunks.new.items) ≡ items_value (flat_map items_of chunks.old.items) }
{
    for at in 0..chunks.len() {
        freeze_chunk(alloc, &mut chunks[at])?;
    }
    Ok(())
}

#[cycle(freeze_value)]
fn freeze_chunk(alloc: Global, chunk: &mut Chunk<Json>) -> Result<(), AllocError>
    ensures items { items_value (items_of chunk.new) ≡ items_value (items_of chunk.old) }
    ensures shared { OnOk result (is_chunk_shared chunk.new ≡ true) }
{
    freeze_unique_items(alloc, chunk)?;
    chunk.freeze(alloc)
}

// Freezes each item, unless the chunk is shared.
#[cycle(freeze_value)]
fn freeze_unique_items(alloc: Global, chunk: &mut Chunk<Json>) -> Result<(), AllocError>
    ensures { items_value (items_of chunk.new) ≡ items_value (items_of chunk.old) }
{
    match chunk {
        Chunk::Unique(items) => freeze_each_item(alloc, items),
        Chunk::Shared(_) => Ok(()),
    }
}

#[cycle(freeze_value)]
fn freeze_each_item(alloc: Global, items: &mut Vec<Json>) -> Result<(), AllocError>
    ensures { items_value items.new.items ≡ items_value items.old.items }
{
    for at in 0..items.len() {
        freeze_value(alloc, &mut items[at])?;
    }
    Ok(())
}

#[cycle(freeze_value)]
fn freeze_members(alloc: Global, members: &mut Members) -> Result<(), AllocError>
    ensures members_unchanged { object_value members.new ≡ object_value members.old }
    ensures shared { OnOk result (is_shared_map members.new ≡ true) }
{
    let mut repr = replace(members, Members::new(alloc))
        .into_chunks()
        .into_repr();
    let done = freeze_member_repr(alloc, &mut repr);
    *members = Members::from_entries(ChunkedVec::from_repr(repr));
    done
}

#[cycle(freeze_value)]
fn freeze_member_repr(alloc: Global, repr: &mut Repr<MapEntry<Json>>) -> Result<(), AllocError>
    ensures members_unchanged { member_repr_value repr.new ≡ member_repr_value repr.old }
    ensures shared { OnOk result (is_shared_repr repr.new ≡ true) }
{
    freeze_unique_member_chunks(alloc, repr)?;
    repr.freeze(alloc)
}

// Freezes the parts of members that aren't frozen.
#[cycle(freeze_value)]
fn freeze_unique_member_chunks(
    alloc: Global,
    repr: &mut Repr<MapEntry<Json>>,
) -> Result<(), AllocError>
    ensures { member_repr_value repr.new ≡ member_repr_value repr.old }
{
    match repr {
        Repr::Flat(chunk) => freeze_unique_members(alloc, chunk),
        Repr::Chunks(chunks) => freeze_unique_member_group_chunks(alloc, chunks),
        Repr::Groups(groups) => freeze_unique_member_groups(alloc, groups),
    }
}

// Freezes the chunks of each group, unless the list of groups is shared.
#[cycle(freeze_value)]
fn freeze_unique_member_groups(
    alloc: Global,
    groups: &mut Chunk<ChunkGroup<MapEntry<Json>>>,
) -> Result<(), AllocError>
    ensures { entries_value (flat_map members_of_group (items_of groups.new))
        ≡ entries_value (flat_map members_of_group (items_of groups.old)) }
{
    match groups {
        Chunk::Unique(groups) => freeze_each_member_group(alloc, groups),
        Chunk::Shared(_) => Ok(()),
    }
}

#[cycle(freeze_value)]
fn freeze_each_member_group(
    alloc: Global,
    groups: &mut Vec<ChunkGroup<MapEntry<Json>>>,
) -> Result<(), AllocError>
    ensures { entries_value (flat_map members_of_group groups.new.items)
        ≡ entries_value (flat_map members_of_group groups.old.items) }
{
    for at in 0..groups.len() {
        freeze_member_group(alloc, &mut groups[at])?;
    }
    Ok(())
}

// Freezes the chunks of a group, unless the group is shared.
#[cycle(freeze_value)]
fn freeze_member_group(
    alloc: Global,
    group: &mut ChunkGroup<MapEntry<Json>>,
) -> Result<(), AllocError>
    ensures { entries_value (members_of_group group.new) ≡ entries_value (members_of_group group.old) }
{
    if group.is_shared() {
        return Ok(());
    }
    let empty = ChunkGroup::new(Chunk::Unique(Vec::new(alloc)));
    let mut chunks = replace(group, empty).into_chunks();
    let done = freeze_unique_member_group_chunks(alloc, &mut chunks);
    *group = ChunkGroup::new(chunks);
    done
}

// Freezes each chunk, unless the list of chunks is shared.
#[cycle(freeze_value)]
fn freeze_unique_member_group_chunks(
    alloc: Global,
    chunks: &mut Chunk<Chunk<MapEntry<Json>>>,
) -> Result<(), AllocError>
    ensures { entries_value (flat_map items_of (items_of chunks.new))
        ≡ entries_value (flat_map items_of (items_of chunks.old)) }
{
    match chunks {
        Chunk::Unique(chunks) => freeze_each_member_chunk(alloc, chunks),
        Chunk::Shared(_) => Ok(()),
    }
}

#[cycle(freeze_value)]
fn freeze_each_member_chunk(
    alloc: Global,
    chunks: &mut Vec<Chunk<MapEntry<Json>>>,
) -> Result<(), AllocError>
    ensures { entries_value (flat_map items_of chunks.new.items) ≡ entries_value (flat_map items_of chunks.old.items) }
{
    for at in 0..chunks.len() {
        freeze_member_chunk(alloc, &mut chunks[at])?;
    }
    Ok(())
}

#[cycle(freeze_value)]
fn freeze_member_chunk(alloc: Global, chunk: &mut Chunk<MapEntry<Json>>) -> Result<(), AllocError>
    ensures members_unchanged { entries_value (items_of chunk.new) ≡ entries_value (items_of chunk.old) }
    ensures shared { OnOk result (is_chunk_shared chunk.new ≡ true) }
{
    freeze_unique_members(alloc, chunk)?;
    chunk.freeze(alloc)
}

// Freezes each value, unless the chunk is shared.
#[cycle(freeze_value)]
fn freeze_unique_members(alloc: Global, chunk: &mut Chunk<MapEntry<Json>>) -> Result<(), AllocError>
    ensures { entries_value (items_of chunk.new) ≡ entries_value (items_of chunk.old) }
{
    match chunk {
        Chunk::Unique(members) => freeze_each_value(alloc, members),
        Chunk::Shared(_) => Ok(()),
    }
}

#[cycle(freeze_value)]
fn freeze_each_value(alloc: Global, members: &mut Vec<MapEntry<Json>>) -> Result<(), AllocError>
    ensures { entries_value members.new.items ≡ entries_value members.old.items }
{
    for at in 0..members.len() {
        freeze_value(alloc, &mut members[at].value)?;
    }
    Ok(())
}
