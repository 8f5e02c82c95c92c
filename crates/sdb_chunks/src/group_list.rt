//! Edits of a list with groups.
ghost use Rattle.std.specs.List.{insert, remove};
ghost use Rattle.std.specs.Prelude.{◌≡◌, ◌≤◌, ◌<◌, true, false, [], ℕ, length, max, slice_get, slice_set};
ghost use Rattle.std.specs.Prelude.{option_map, nat_le, if◌then◌else◌, IfOk, IfSome, IfNone, OnOk, OnErr};
ghost use Rattle.sdb_chunks.specs.Chunk.{items_of, is_chunk_unique};
ghost use Rattle.sdb_chunks.specs.ChunkGroup.{group_models, flatten_group_models, is_unique_in_groups_at, max_grouped_length};
ghost use Rattle.sdb_chunks.specs.ChunkedVec.{is_unique_repr_at};
ghost use Rattle.sdb_chunks.specs.Position.{IsInsertPosition, IsItemPosition};
ghost use Rattle.sdb_chunks.specs.declared.chunked_vec.Repr.TheVariants.{Groups};

use crate::chunk::{Chunk, TryClone};
use crate::chunk_edit::MIN_CHUNK_LEN;
use crate::chunk_group::ChunkGroup;
use std::alloc::{AllocError, Global};

// Returns the group and the index in it at which to insert an item. Returns `None` if the index is
// out of range.
fn group_insert_position<T: TryClone>(
    groups: &[ChunkGroup<T>],
    index: usize,
) -> Option<(usize, usize)>
    ensures position { IfSome result (λ r. IsInsertPosition (group_models T.model) groups.now index r.0 r.1) }
    ensures none { IfNone result (index ≤ length (flatten_group_models T.model groups.now) → groups.now ≡ []) }
{
    let mut left = index as u128;
    for (at, group) in groups.iter().enumerate() {
        if left <= group.len() {
            return Some((at, left as usize));
        }
        left -= group.len();
    }
    None
}

// Returns the group and the index in it of an item. Returns `None` if the index is out of range.
fn group_item_position<T: TryClone>(
    groups: &[ChunkGroup<T>],
    index: usize,
) -> Option<(usize, usize)>
    ensures item { IfSome result (λ r. IsItemPosition (group_models T.model) groups.now index r.0 r.1) }
    ensures none { IfNone result (length (flatten_group_models T.model groups.now) ≤ index) }
{
    let mut left = index as u128;
    for (at, group) in groups.iter().enumerate() {
        if left < group.len() {
            return Some((at, left as usize));
        }
        left -= group.len();
    }
    None
}

// Returns the item at an index.
pub(crate) fn grouped_item<T: TryClone>(groups: &[ChunkGroup<T>], index: usize) -> Option<&T>
    ensures { option_map (λ x. T.model x.now) result ≡ slice_get (flatten_group_models T.model groups.now) index }
{
    match group_item_position(groups, index) {
        Some((at, inside)) => groups[at].get(inside),
        None => None,
    }
}

// Makes the list of groups unique.
fn make_groups_unique<T: TryClone>(
    alloc: Global,
    groups: &mut Chunk<ChunkGroup<T>>,
) -> Result<(), AllocError>
    ensures unchanged { flatten_group_models T.model (items_of groups.new)
        ≡ flatten_group_models T.model (items_of groups.old) }
    ensures uniqueness_unchanged { (i : ℕ) → is_unique_in_groups_at (items_of groups.new) i
        ≡ is_unique_in_groups_at (items_of groups.old) i }
    ensures unique { OnOk result (is_chunk_unique groups.new ≡ true) }
    ensures shared_on_err { OnErr result (is_chunk_unique groups.old ≡ false) }
    ensures bound { max_grouped_length (items_of groups.new) ≡ max_grouped_length (items_of groups.old) }
{
    groups.make_unique(alloc)?;
    Ok(())
}

// Splits a group into two halves; the second one follows it.
fn split_group<T: TryClone>(
    alloc: Global,
    groups: &mut Vec<ChunkGroup<T>>,
    at: usize,
) -> Result<(), AllocError>
    requires { at < length groups.old.items }
    ensures unchanged { flatten_group_models T.model groups.new.items ≡ flatten_group_models T.model groups.old.items }
    ensures bound { max_grouped_length groups.new.items ≤ max_grouped_length groups.old.items }
{
    groups.insert(at + 1, ChunkGroup::new(Chunk::Unique(Vec::new(alloc))))?;
    let high = groups[at].split_off_half(alloc)?;
    groups[at + 1] = high;
    Ok(())
}

// Splits the group at the index if it has as many chunks as there are groups, and at least
// `MIN_CHUNK_LEN`.
fn split_long_chunk<T: TryClone>(
    alloc: Global,
    groups: &mut Vec<ChunkGroup<T>>,
    index: usize,
) -> Result<(), AllocError>
    ensures unchanged { flatten_group_models T.model groups.new.items ≡ flatten_group_models T.model groups.old.items }
    ensures bound { max_grouped_length groups.new.items ≤ max_grouped_length groups.old.items }
{
    if let Some((at, _)) = group_insert_position(groups, index) {
        if groups[at].chunks().len() >= groups.len().max(MIN_CHUNK_LEN) {
            split_group(alloc, groups, at)?;
        }
    }
    Ok(())
}

// Adds an empty group if there is none.
fn ensure_group<T: TryClone>(
    alloc: Global,
    groups: &mut Vec<ChunkGroup<T>>,
) -> Result<(), AllocError>
    ensures unchanged { flatten_group_models T.model groups.new.items ≡ flatten_group_models T.model groups.old.items }
    ensures some { OnOk result (0 < length groups.new.items) }
    ensures bound { max_grouped_length groups.new.items ≤ max_grouped_length groups.old.items }
{
    if groups.is_empty() {
        groups.push(ChunkGroup::new(Chunk::Unique(Vec::new(alloc))))?;
    }
    Ok(())
}

// Inserts an item at an index. Returns `false`, with all unchanged, if it is out of range.
fn insert_in_group_at<T: TryClone>(
    alloc: Global,
    groups: &mut Vec<ChunkGroup<T>>,
    index: usize,
    item: T,
) -> Result<bool, AllocError>
    requires { 0 < length groups.old.items }
    ensures ok { IfOk result (λ done. flatten_group_models T.model groups.new.items ≡ (if done
        then insert (flatten_group_models T.model groups.old.items) index (T.model item)
        else flatten_group_models T.model groups.old.items)) }
    ensures in_range { IfOk result (λ done. done
        ≡ nat_le index (length (flatten_group_models T.model groups.old.items))) }
    ensures err { OnErr result (flatten_group_models T.model groups.new.items
        ≡ flatten_group_models T.model groups.old.items) }
    ensures unique_after { IfOk result (λ done. done ≡ true → is_unique_in_groups_at groups.new.items index ≡ true) }
    ensures bound { max_grouped_length groups.new.items ≤ max 20 (max_grouped_length groups.old.items) }
{
    match group_insert_position(groups, index) {
        Some((at, inside)) => {
            groups[at].insert(alloc, inside, item)?;
            Ok(true)
        }
        None => Ok(false),
    }
}

// Inserts an item, after splitting a group of maximum length.
fn insert_in_groups<T: TryClone>(
    alloc: Global,
    groups: &mut Vec<ChunkGroup<T>>,
    index: usize,
    item: T,
) -> Result<bool, AllocError>
    ensures ok { IfOk result (λ done. flatten_group_models T.model groups.new.items ≡ (if done
        then insert (flatten_group_models T.model groups.old.items) index (T.model item)
        else flatten_group_models T.model groups.old.items)) }
    ensures in_range { IfOk result (λ done. done
        ≡ nat_le index (length (flatten_group_models T.model groups.old.items))) }
    ensures err { OnErr result (flatten_group_models T.model groups.new.items
        ≡ flatten_group_models T.model groups.old.items) }
    ensures unique_after { IfOk result (λ done. done ≡ true → is_unique_in_groups_at groups.new.items index ≡ true) }
    ensures bound { max_grouped_length groups.new.items ≤ max 20 (max_grouped_length groups.old.items) }
{
    split_long_chunk(alloc, groups, index)?;
    ensure_group(alloc, groups)?;
    let done = insert_in_group_at(alloc, groups, index, item)?;
    Ok(done)
}

// Inserts an item at an index and makes the list of groups unique.
pub(crate) fn insert_in_group_list<T: TryClone>(
    alloc: Global,
    groups: &mut Chunk<ChunkGroup<T>>,
    index: usize,
    item: T,
) -> Result<bool, AllocError>
    ensures ok { IfOk result (λ done. flatten_group_models T.model (items_of groups.new) ≡ (if done
        then insert (flatten_group_models T.model (items_of groups.old)) index (T.model item)
        else flatten_group_models T.model (items_of groups.old))) }
    ensures in_range { IfOk result (λ done. done
        ≡ nat_le index (length (flatten_group_models T.model (items_of groups.old)))) }
    ensures err { OnErr result (flatten_group_models T.model (items_of groups.new)
        ≡ flatten_group_models T.model (items_of groups.old)) }
    ensures unique_after { IfOk result (λ done. done ≡ true → is_unique_repr_at (Groups groups.new) index ≡ true) }
    ensures bound { max_grouped_length (items_of groups.new) ≤ max 20 (max_grouped_length (items_of groups.old)) }
{
    make_groups_unique(alloc, groups)?;
    match groups {
        Chunk::Unique(own) => {
            let done = insert_in_groups(alloc, own, index, item)?;
            Ok(done)
        }
        Chunk::Shared(_) => Ok(false),
    }
}

// Removes the group if it has no chunks.
fn remove_empty_group<T: TryClone>(groups: &mut Vec<ChunkGroup<T>>, at: usize)
    requires { at < length groups.old.items }
    ensures unchanged { flatten_group_models T.model groups.new.items ≡ flatten_group_models T.model groups.old.items }
    ensures bound { max_grouped_length groups.new.items ≤ max_grouped_length groups.old.items }
{
    if groups[at].chunks().len() == 0 {
        drop(groups.remove(at));
    }
}

// Removes the item at an index. Returns `None`, with all unchanged, if it is out of range.
fn remove_from_groups<T: TryClone>(
    alloc: Global,
    groups: &mut Vec<ChunkGroup<T>>,
    index: usize,
) -> Result<Option<T>, AllocError>
    ensures item { IfOk result (λ x. option_map T.model x
        ≡ slice_get (flatten_group_models T.model groups.old.items) index) }
    ensures ok { OnOk result (flatten_group_models T.model groups.new.items
        ≡ remove (flatten_group_models T.model groups.old.items) index) }
    ensures err { OnErr result (flatten_group_models T.model groups.new.items
        ≡ flatten_group_models T.model groups.old.items) }
    ensures shared_on_err { OnErr result (is_unique_in_groups_at groups.old.items index ≡ false) }
    ensures bound { max_grouped_length groups.new.items ≤ max_grouped_length groups.old.items }
{
    let Some((at, inside)) = group_item_position(groups, index) else {
        return Ok(None);
    };
    let item = groups[at].remove(alloc, inside)?;
    remove_empty_group(groups, at);
    Ok(item)
}

// Removes the item at an index and makes the list of groups unique.
pub(crate) fn remove_from_group_list<T: TryClone>(
    alloc: Global,
    groups: &mut Chunk<ChunkGroup<T>>,
    index: usize,
) -> Result<Option<T>, AllocError>
    ensures item { IfOk result (λ x. option_map T.model x
        ≡ slice_get (flatten_group_models T.model (items_of groups.old)) index) }
    ensures ok { OnOk result (flatten_group_models T.model (items_of groups.new)
        ≡ remove (flatten_group_models T.model (items_of groups.old)) index) }
    ensures err { OnErr result (flatten_group_models T.model (items_of groups.new)
        ≡ flatten_group_models T.model (items_of groups.old)) }
    ensures shared_on_err { OnErr result (is_unique_repr_at (Groups groups.old) index ≡ false) }
    ensures bound { max_grouped_length (items_of groups.new) ≤ max_grouped_length (items_of groups.old) }
{
    make_groups_unique(alloc, groups)?;
    match groups {
        Chunk::Unique(own) => {
            let item = remove_from_groups(alloc, own, index)?;
            Ok(item)
        }
        Chunk::Shared(_) => Ok(None),
    }
}

// Replaces the item at an index and returns the old one. Returns `None`, with all unchanged, if it
// is out of range.
fn replace_in_groups<T: TryClone>(
    alloc: Global,
    groups: &mut Vec<ChunkGroup<T>>,
    index: usize,
    item: T,
) -> Result<Option<T>, AllocError>
    ensures item { IfOk result (λ x. option_map T.model x
        ≡ slice_get (flatten_group_models T.model groups.old.items) index) }
    ensures ok { OnOk result (flatten_group_models T.model groups.new.items
        ≡ slice_set (flatten_group_models T.model groups.old.items) index (T.model item)) }
    ensures err { OnErr result (flatten_group_models T.model groups.new.items
        ≡ flatten_group_models T.model groups.old.items) }
    ensures shared_on_err { OnErr result (is_unique_in_groups_at groups.old.items index ≡ false) }
    ensures unique_after { IfOk result (λ x. IfSome x (λ _. is_unique_in_groups_at groups.new.items index ≡ true)) }
    ensures bound { max_grouped_length groups.new.items ≤ max_grouped_length groups.old.items }
{
    let Some((at, inside)) = group_item_position(groups, index) else {
        return Ok(None);
    };
    let old = groups[at].replace(alloc, inside, item)?;
    Ok(old)
}

// Replaces the item at an index and makes the list of groups unique.
pub(crate) fn replace_in_group_list<T: TryClone>(
    alloc: Global,
    groups: &mut Chunk<ChunkGroup<T>>,
    index: usize,
    item: T,
) -> Result<Option<T>, AllocError>
    ensures item { IfOk result (λ x. option_map T.model x
        ≡ slice_get (flatten_group_models T.model (items_of groups.old)) index) }
    ensures ok { OnOk result (flatten_group_models T.model (items_of groups.new)
        ≡ slice_set (flatten_group_models T.model (items_of groups.old)) index (T.model item)) }
    ensures err { OnErr result (flatten_group_models T.model (items_of groups.new)
        ≡ flatten_group_models T.model (items_of groups.old)) }
    ensures shared_on_err { OnErr result (is_unique_repr_at (Groups groups.old) index ≡ false) }
    ensures unique_after { IfOk result (λ x. IfSome x (λ _. is_unique_repr_at (Groups groups.new) index ≡ true)) }
    ensures bound { max_grouped_length (items_of groups.new) ≤ max_grouped_length (items_of groups.old) }
{
    make_groups_unique(alloc, groups)?;
    match groups {
        Chunk::Unique(own) => {
            let old = replace_in_groups(alloc, own, index, item)?;
            Ok(old)
        }
        Chunk::Shared(_) => Ok(None),
    }
}
