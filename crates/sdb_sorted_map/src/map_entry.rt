//! An entry of a sorted map.
ghost use Rattle.std.specs.Prelude.{◌≡◌};

use crate::map_key::MapKey;
use sdb_chunks::TryClone;
use std::alloc::{AllocError, Global};

/// A key and its value.
#[derive(Drop)]
pub struct MapEntry<V> {
    /// The key.
    pub key: MapKey,
    /// The value.
    pub value: V,
}

impl<V: TryClone> TryClone for MapEntry<V> {
    ghost use Rattle.std.specs.Prelude.{List, ℕ};
    ghost use Rattle.sdb_sorted_map.specs.MapEntry.{entry_model};

    ghost Model = { List ℕ × V.Model };

    ghost model = { entry_model V.model };

    fn try_clone(&self, alloc: Global) -> Result<MapEntry<V>, AllocError> {
        Ok(MapEntry {
            key: self.key.try_clone(alloc)?,
            value: self.value.try_clone(alloc)?,
        })
    }
}
