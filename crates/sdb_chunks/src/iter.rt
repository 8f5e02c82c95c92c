//! Iterators over a chunked list.
ghost use Rattle.std.specs.Prelude.{◌≡◌, ◌++◌};
ghost use Rattle.std.specs.List.{flat_map};
ghost use Rattle.std.specs.Iterator.{YieldsFirstRef, item_count};
ghost use Rattle.sdb_chunks.specs.Chunk.{items_of};
ghost use Rattle.sdb_chunks.specs.ChunkGroup.{group_chunks};
ghost use Rattle.sdb_chunks.specs.Iter.{remaining_items, remaining_chunks};

use crate::chunk::Chunk;
use crate::chunk_group::ChunkGroup;

/// An iterator over the chunks of a list.
#[derive(Drop)]
pub struct Chunks<'a, T> {
    // The rest of the current group.
    chunks: &'a [Chunk<T>],
    // The groups after it.
    groups: &'a [ChunkGroup<T>],
}

impl<'a, T> Chunks<'a, T> {
    /// Creates an iterator over these chunks, and then those of the groups.
    pub fn new(chunks: &'a [Chunk<T>], groups: &'a [ChunkGroup<T>]) -> Chunks<'a, T>
        ensures { remaining_chunks result ≡ chunks.now ++ flat_map group_chunks groups.now }
    {
        Chunks { chunks, groups }
    }
}

impl<'a, T> Iterator for Chunks<'a, T> {
    type Item = &'a Chunk<T>;

    ghost next_gives = { YieldsFirstRef remaining_chunks };

    ghost remaining = { item_count remaining_chunks };

    fn next(&mut self) -> Option<&'a Chunk<T>> {
        while self.chunks.is_empty() {
            let (group, others) = self.groups.split_first()?;
            self.chunks = group.chunks();
            self.groups = others;
        }
        let (first, others) = self.chunks.split_first()?;
        self.chunks = others;
        Some(first)
    }
}

/// An iterator over the items of a list.
#[derive(Drop)]
pub struct Iter<'a, T> {
    // The rest of the current chunk.
    items: &'a [T],
    // The chunks after it.
    chunks: Chunks<'a, T>,
}

impl<'a, T> Iter<'a, T> {
    /// Creates an iterator over these items, and then those of the chunks.
    pub fn new(items: &'a [T], chunks: &'a [Chunk<T>]) -> Iter<'a, T>
        ensures { remaining_items result ≡ items.now ++ flat_map items_of chunks.now }
    {
        Iter {
            items,
            chunks: Chunks::new(chunks, &[]),
        }
    }

    /// Creates an iterator over the items of groups.
    pub(crate) fn of_groups(groups: &'a [ChunkGroup<T>]) -> Iter<'a, T>
        ensures { remaining_items result ≡ flat_map items_of (flat_map group_chunks groups.now) }
    {
        Iter {
            items: &[],
            chunks: Chunks::new(&[], groups),
        }
    }
}

impl<'a, T> Iterator for Iter<'a, T> {
    type Item = &'a T;

    ghost next_gives = { YieldsFirstRef remaining_items };

    ghost remaining = { item_count remaining_items };

    fn next(&mut self) -> Option<&'a T> {
        while self.items.is_empty() {
            self.items = self.chunks.next()?.items();
        }
        let (first, others) = self.items.split_first()?;
        self.items = others;
        Some(first)
    }
}
