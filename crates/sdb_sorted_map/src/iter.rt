//! The iterator over a sorted map.
ghost use Rattle.std.specs.Prelude.{◌≡◌};
ghost use Rattle.std.specs.Iterator.{YieldsFirstBy, item_count};
ghost use Rattle.sdb_chunks.specs.Iter.{remaining_items};
ghost use Rattle.sdb_sorted_map.specs.Iter.{remaining_entries};

use crate::map_entry::MapEntry;

/// An iterator over the entries, in the order of their keys.
#[derive(Drop)]
pub struct Iter<'a, V> {
    entries: sdb_chunks::Iter<'a, MapEntry<V>>,
}

impl<'a, V> Iter<'a, V> {
    pub(crate) fn new(entries: sdb_chunks::Iter<'a, MapEntry<V>>) -> Iter<'a, V>
        ensures { remaining_items result.entries ≡ remaining_items entries.entry }
    {
        Iter { entries }
    }
}

impl<'a, V> Iterator for Iter<'a, V> {
    type Item = (&'a str, &'a V);

    ghost next_gives = { YieldsFirstBy (λ m. (m.0.now, m.1.now)) remaining_entries };

    ghost remaining = { item_count remaining_entries };

    fn next(&mut self) -> Option<(&'a str, &'a V)> {
        let member = self.entries.next()?;
        Some((member.key.as_str(), &member.value))
    }
}
