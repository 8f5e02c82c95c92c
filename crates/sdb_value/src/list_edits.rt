//! Lists changed in place.
ghost use Rattle.std.specs.Prelude.{◌≡◌, ◌++◌, ◌∷◌, [], true, false, option_map, IfOk, IfSome, IfNone, OnOk, OnErr};
ghost use Rattle.std.specs.Option.{is_some};
ghost use Rattle.sdb_chunks.specs.ChunkedVec.{is_unique_vec_at, is_unique_vec};
ghost use Rattle.sdb_rope.specs.EditOutcome.{EditOutcome};
ghost use Rattle.sdb_value.specs.Uniqueness.{is_unique, list_unique, value_model};
ghost use Rattle.sdb_value.specs.Value.{insert_item, remove_item, replace_item, item_at, set_item, null};
ghost use Rattle.sdb_value.specs.View.{value_of, list_value};

use crate::value::{Json, List};
use std::alloc::{AllocError, Global};

pub(crate) fn push_item(items: &mut Vec<Json>, new: Json) -> Result<(), AllocError>
    ensures ok { OnOk result (items.new.items ≡ items.old.items ++ new ∷ []) }
    ensures err { OnErr result (items.new.items ≡ items.old.items) }
{
    items.push(new)?;
    Ok(())
}

/// Inserts an item at an index from 0 to the length. Returns `false`, with the list unchanged, if
/// the index is greater.
///
/// # Errors
///
/// [`AllocError`] if an allocation fails. The list is then unchanged.
pub fn insert_item(
    alloc: Global,
    items: &mut List,
    index: u64,
    new: Json,
) -> Result<bool, AllocError>
    ensures ok { IfOk result (λ done. EditOutcome done
        (insert_item index (value_of new) (list_value items.old)) (list_value items.old) (list_value items.new)) }
    ensures err { OnErr result (list_value items.new ≡ list_value items.old) }
    ensures unique { list_unique items.old ≡ true → is_unique new ≡ true → list_unique items.new ≡ true }
{
    items.insert(alloc, index as usize, new)
}

/// Removes the item at an index. Returns `false`, with the list unchanged, if the index is out of
/// range. It allocates only if a part of the list is shared.
///
/// # Errors
///
/// [`AllocError`] if an allocation fails. The list is then unchanged.
pub fn remove_item(alloc: Global, items: &mut List, index: u64) -> Result<bool, AllocError>
    ensures ok { IfOk result (λ done. EditOutcome done
        (remove_item index (list_value items.old)) (list_value items.old) (list_value items.new)) }
    ensures err { OnErr result (list_value items.new ≡ list_value items.old) }
    ensures unique { list_unique items.old ≡ true → list_unique items.new ≡ true }
    ensures shared_on_err { OnErr result (is_unique_vec items.old ≡ false) }
{
    Ok(is_some(items.remove(alloc, index as usize)?))
}

// Returns whether there was an item, which is dropped.
fn is_some(item: Option<Json>) -> bool
    ensures { result ≡ is_some item }
{
    item.is_some()
}

/// Replaces the item at an index. Returns `false`, with the list unchanged, if the index is out of
/// range. It allocates only if the item's part of the list is shared.
///
/// # Errors
///
/// [`AllocError`] if an allocation fails. The list is then unchanged.
pub fn replace_item(
    alloc: Global,
    items: &mut List,
    index: u64,
    new: Json,
) -> Result<bool, AllocError>
    ensures ok { IfOk result (λ done. EditOutcome done
        (replace_item index (value_of new) (list_value items.old)) (list_value items.old) (list_value items.new)) }
    ensures err { OnErr result (list_value items.new ≡ list_value items.old) }
    ensures unique { list_unique items.old ≡ true → is_unique new ≡ true → list_unique items.new ≡ true }
    ensures shared_on_err { OnErr result (is_unique_vec_at items.old index ≡ false) }
{
    Ok(is_some(items.replace(alloc, index as usize, new)?))
}

// Takes the item at the index out for a change, leaving null, and makes its part of the list
// unique. Returns `None` if the index is out of range.
pub(crate) fn take_list_item(
    alloc: Global,
    items: &mut List,
    index: u64,
) -> Result<Option<Json>, AllocError>
    ensures item { IfOk result (λ o. option_map value_of o ≡ item_at index (list_value items.old)) }
    ensures none { IfOk result (λ o. IfNone o (list_value items.new ≡ list_value items.old)) }
    ensures left { OnOk result (list_value items.new ≡ set_item index (list_value items.old) null) }
    ensures err { OnErr result (list_value items.new ≡ list_value items.old) }
    ensures unique { list_unique items.old ≡ true → list_unique items.new ≡ true }
    ensures item_unique { list_unique items.old ≡ true → IfOk result (λ o. IfSome o (λ v. is_unique v ≡ true)) }
    ensures shared_on_err { OnErr result (is_unique_vec_at items.old index ≡ false) }
    ensures unique_after { IfOk result (λ o. IfSome o (λ _. is_unique_vec_at items.new index ≡ true)) }
{
    items.replace(alloc, index as usize, Json::Null)
}

// Puts a value back at the index. Its part of the list is unique, so this doesn't allocate.
pub(crate) fn put_item_back(alloc: Global, items: &mut List, index: u64, item: Json)
    requires { is_unique_vec_at items.old index ≡ true }
    ensures items { list_value items.new ≡ set_item index (list_value items.old) (value_of item) }
    ensures unique { list_unique items.old ≡ true → is_unique item ≡ true → list_unique items.new ≡ true }
{
    discard_item(items.replace(alloc, index as usize, item));
}

fn discard_item(_item: Result<Option<Json>, AllocError>) {}
