//! Edits of a text in groups of chunks.
ghost use Rattle.std.specs.Prelude.{◌≡◌, ◌<◌, true, false, [], Some, None, length, IfOk, IfSome, IfNone, OnOk, OnErr};
ghost use Rattle.std.specs.List.{concat};
ghost use Rattle.sdb_chunks.specs.Chunk.{items_of};
ghost use Rattle.sdb_rope.specs.ChunkModel.{chunk_texts};
ghost use Rattle.sdb_rope.specs.EditOutcome.{EditOutcome};
ghost use Rattle.sdb_rope.specs.GroupModel.{texts_of_groups, group_texts, IsGroupAtOffset};
ghost use Rattle.sdb_rope.specs.RopeChunk.{chunk_list_texts};
ghost use Rattle.sdb_rope.specs.Position.{AreBounded};
ghost use Rattle.sdb_rope.specs.Utf16 as texts;

use crate::chunk_list::{insert_into_chunks, remove_from_chunks};
use crate::position::chunk_at_offset;
use crate::regroup::{MIN_GROUP, ungroup_chunks};
use crate::rope_chunk::RopeChunk;
use sdb_chunks::{Chunk, split_chunk};
use std::alloc::{AllocError, Global};

// Returns the group that contains the offset, or the last one, with the offset inside it. Returns
// `None` without groups.
fn group_at_offset(groups: &[Chunk<RopeChunk>], offset: u64) -> Option<(usize, u64)>
    ensures some { IfSome result (λ r. IsGroupAtOffset (group_texts groups.now) offset r.0 r.1) }
    ensures none { IfNone result (groups.now ≡ []) }
{
    let mut left = offset;
    for (at, group) in groups.iter().enumerate() {
        let past = match chunk_at_offset(group.items(), left) {
            Ok(_) => return Some((at, left)),
            Err(past) => past,
        };
        if at + 1 == groups.len() {
            return Some((at, left));
        }
        left = past;
    }
    None
}

/// Inserts a text at an offset in UTF-16 code units. Returns `false`, with the text unchanged, if
/// the offset is inside a surrogate pair or after the end.
///
/// # Errors
///
/// [`AllocError`] if an allocation fails. The text is then unchanged.
pub(crate) fn insert_into_groups(
    alloc: Global,
    groups: &mut Chunk<Chunk<RopeChunk>>,
    offset: u64,
    new: &str,
) -> Result<bool, AllocError>
    ensures ok { IfOk result (λ done. EditOutcome done
        (texts.insert_text offset new.now (concat (texts_of_groups (items_of groups.old))))
        (concat (texts_of_groups (items_of groups.old))) (concat (texts_of_groups (items_of groups.new)))) }
    ensures err { OnErr result (concat (texts_of_groups (items_of groups.new))
        ≡ concat (texts_of_groups (items_of groups.old))) }
    ensures chunks_bounded { AreBounded (texts_of_groups (items_of groups.old))
        → AreBounded (texts_of_groups (items_of groups.new)) }
{
    groups.make_unique(alloc)?;
    match groups {
        Chunk::Unique(groups) => {
            let done = insert_in_group_list(alloc, groups, offset, new)?;
            Ok(done)
        }
        Chunk::Shared(_) => unreachable!(),
    }
}

fn insert_in_group_list(
    alloc: Global,
    groups: &mut Vec<Chunk<RopeChunk>>,
    offset: u64,
    new: &str,
) -> Result<bool, AllocError>
    ensures ok { IfOk result (λ done. EditOutcome done
        (texts.insert_text offset new.now (concat (texts_of_groups groups.old.items)))
        (concat (texts_of_groups groups.old.items)) (concat (texts_of_groups groups.new.items))) }
    ensures err { OnErr result (concat (texts_of_groups groups.new.items) ≡ concat (texts_of_groups groups.old.items)) }
    ensures chunks_bounded { AreBounded (texts_of_groups groups.old.items)
        → AreBounded (texts_of_groups groups.new.items) }
{
    split_long_chunk(alloc, groups, offset)?;
    ensure_group(alloc, groups)?;
    match group_at_offset(groups, offset) {
        Some((at, left)) => {
            let done = insert_into_chunks(alloc, &mut groups[at], left, new)?;
            Ok(done)
        }
        None => unreachable!(),
    }
}

// Splits the group at the offset if it has as many chunks as there are groups, and at least
// `MIN_GROUP`.
#[tactic(auto, using(crate::proofs::GroupLemmas::same_joined))]
fn split_long_chunk(
    alloc: Global,
    groups: &mut Vec<Chunk<RopeChunk>>,
    offset: u64,
) -> Result<(), AllocError>
    ensures { texts_of_groups groups.new.items ≡ texts_of_groups groups.old.items }
{
    if let Some((at, _)) = group_at_offset(groups, offset) {
        if groups[at].len() >= groups.len().max(MIN_GROUP) {
            split_chunk(alloc, groups, at)?;
        }
    }
    Ok(())
}

// Adds an empty group if there is none.
fn ensure_group(alloc: Global, groups: &mut Vec<Chunk<RopeChunk>>) -> Result<(), AllocError>
    ensures unchanged { texts_of_groups groups.new.items ≡ texts_of_groups groups.old.items }
    ensures some { OnOk result (0 < length groups.new.items) }
{
    if groups.is_empty() {
        groups.push(Chunk::Unique(Vec::new(alloc)))?;
    }
    Ok(())
}

/// Removes a text that is in one group, at an offset in UTF-16 code units. Returns `false`, with
/// the text unchanged, if it isn't.
pub(crate) fn remove_from_groups(
    alloc: Global,
    groups: &mut Chunk<Chunk<RopeChunk>>,
    offset: u64,
    old: &str,
) -> Result<bool, AllocError>
    ensures removed { IfOk result (λ done. done ≡ true
        → texts.remove_text offset old.now (concat (texts_of_groups (items_of groups.old)))
        ≡ Some (concat (texts_of_groups (items_of groups.new)))) }
    ensures equal { IfOk result (λ done. done ≡ false
        → concat (texts_of_groups (items_of groups.new)) ≡ concat (texts_of_groups (items_of groups.old))) }
    ensures err { OnErr result (concat (texts_of_groups (items_of groups.new))
        ≡ concat (texts_of_groups (items_of groups.old))) }
    ensures chunks_bounded { AreBounded (texts_of_groups (items_of groups.old))
        → AreBounded (texts_of_groups (items_of groups.new)) }
{
    groups.make_unique(alloc)?;
    match groups {
        Chunk::Unique(groups) => {
            let done = remove_in_group_list(alloc, groups, offset, old)?;
            Ok(done)
        }
        Chunk::Shared(_) => unreachable!(),
    }
}

fn remove_in_group_list(
    alloc: Global,
    groups: &mut Vec<Chunk<RopeChunk>>,
    offset: u64,
    old: &str,
) -> Result<bool, AllocError>
    ensures removed { IfOk result (λ done. done ≡ true
        → texts.remove_text offset old.now (concat (texts_of_groups groups.old.items))
        ≡ Some (concat (texts_of_groups groups.new.items))) }
    ensures equal { IfOk result (λ done. done ≡ false
        → concat (texts_of_groups groups.new.items) ≡ concat (texts_of_groups groups.old.items)) }
    ensures err { OnErr result (concat (texts_of_groups groups.new.items) ≡ concat (texts_of_groups groups.old.items)) }
    ensures chunks_bounded { AreBounded (texts_of_groups groups.old.items)
        → AreBounded (texts_of_groups groups.new.items) }
{
    let Some((at, left)) = group_at_offset(groups, offset) else {
        return Ok(false);
    };
    let done = remove_from_chunks(alloc, &mut groups[at], left, old)?;
    remove_empty_group(groups, at);
    Ok(done)
}

// Removes the group if it is empty.
fn remove_empty_group(groups: &mut Vec<Chunk<RopeChunk>>, at: usize)
    requires { at < length groups.old.items }
    ensures { texts_of_groups groups.new.items ≡ texts_of_groups groups.old.items }
{
    if groups[at].len() == 0 {
        drop(groups.remove(at));
    }
}

/// Returns the chunks that remain after a text in any groups is removed. Returns `None` if the
/// offset is inside a surrogate pair or after the end, or another text is there.
pub(crate) fn remove_across_groups(
    alloc: Global,
    groups: &[Chunk<RopeChunk>],
    offset: u64,
    old: &str,
) -> Result<Option<Chunk<RopeChunk>>, AllocError>
    ensures some { IfOk result (λ o. IfSome o
        (λ b. texts.remove_text offset old.now (concat (texts_of_groups groups.now)) ≡ Some (concat (chunk_texts b)))) }
    ensures none { IfOk result (λ o. IfNone o
        (texts.remove_text offset old.now (concat (texts_of_groups groups.now)) ≡ None)) }
    ensures chunks_bounded { IfOk result (λ o. IfSome o
        (λ b. AreBounded (texts_of_groups groups.now) → AreBounded (chunk_texts b))) }
{
    let mut chunks = Chunk::Unique(ungroup_chunks(alloc, groups)?);
    if remove_from_chunks(alloc, &mut chunks, offset, old)? {
        return Ok(Some(chunks));
    }
    Ok(None)
}
