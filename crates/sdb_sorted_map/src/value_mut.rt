//! A mutable borrow of a value.
ghost use Rattle.std.specs.Prelude.{◌≡◌, option_map, slice_get, true, false, Some, IfSome};
ghost use Rattle.std.specs.Borrow.{LendsSo, sem};
ghost use Rattle.sdb_chunks.specs.ChunkedVec.{vec_models, is_grouped_vec, is_unique_vec_at};
ghost use Rattle.sdb_sorted_map.specs.MapEntry.{entry_model};
ghost use Rattle.sdb_sorted_map.specs.Rows.{entries_row};
ghost use Rattle.sdb_sorted_map.specs.SearchModel.{vec_keys};

use crate::map_entry::MapEntry;
use sdb_chunks::{ChunkedVec, TryClone};

// Borrows the value at an index mutably, if its chunk is unique. The keys are unchanged.
pub(crate) fn entry_value_mut<V: TryClone>(
    entries: &mut ChunkedVec<MapEntry<V>>,
    index: usize,
) -> Option<&mut V>
    ensures* writes_back { sem 𝓛 (LendsSo (entries_row V.row) V.row entries.entry result
        (λ n _. vec_keys n ≡ vec_keys entries.old)
        (λ n. vec_keys n ≡ vec_keys entries.old)) }
    ensures value { is_unique_vec_at entries.old index ≡ true → is_grouped_vec entries.old ≡ false
        → option_map (λ v. V.model v.now) result
        ≡ option_map (λ e. e.1) (slice_get (vec_models (entry_model V.model) entries.old) index) }
    ensures found { IfSome result (λ v. option_map (λ e. e.1)
        (slice_get (vec_models (entry_model V.model) entries.old) index) ≡ Some (V.model v.now)) }
{
    let member = entries.get_mut(index)?;
    Some(&mut member.value)
}
