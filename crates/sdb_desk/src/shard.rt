//! All documents and queues by key.
ghost use Rattle.std.specs.Prelude.{◌≡◌, ◌≢◌, ◌≤◌, [], length, map, IfOk, IfSome, OnOk, OnErr, option_map, unwrap_or};
ghost use Rattle.sdb_oplog.specs.Decide.{IsMade};
ghost use Rattle.sdb_oplog.specs.Keys.{plain_key, with_value_at_key};
ghost use Rattle.sdb_snapcache.specs.SnapInvariant.{AreSnapsOf};
ghost use Rattle.sdb_desk.specs.DocumentModel.{empty_document};
ghost use Rattle.sdb_desk.specs.ShardView.{slots_of, documents_of, cache_at, queues_of, logs_of, log_at, state_of};
ghost use Rattle.sdb_desk.specs.StoredKeys.{IsKeyList};
ghost use Rattle.sdb_desk.specs.OpenQueues.{IsOpenCount};
ghost use Rattle.sdb_desk.specs.ShardState.{empty_state};

use crate::document::{Document, Reply};
use crate::document_slot::DocumentSlot;
use crate::work::Look;
use sdb_oplog::{Key, Log};
use sdb_subscribe::SubId;
use sdb_value::Json;
use std::alloc::{AllocError, Global};
use std::collections::BTreeMap;

/// The outcome of a commit.
#[derive(Drop)]
pub enum Outcome {
    /// The submission is decided.
    Decided(Reply),
    /// The log has grown since the look; a new look.
    Moved(Look),
}

/// The decision about a work, before the work is updated.
#[derive(Drop)]
pub enum CommitDecision {
    /// Stored at version `v`. The missed entries are those of the work's look.
    Store { v: u64 },
    /// The outcome, with an unchanged work.
    Reply(Outcome),
}

/// A version and the document at it.
#[derive(Drop)]
pub struct FetchResult {
    pub version: u64,
    pub snapshot: Option<Json>,
}

/// A new queue: its number, its start version, the current version and the current document.
#[derive(Drop)]
pub struct SubscribeResult {
    pub id: SubId,
    pub start: u64,
    pub version: u64,
    pub snapshot: Option<Json>,
}

/// The documents and queues of one shard by key. A key without a document has version 0 and may
/// have queues. A key keeps its count of queue numbers after all its queues are closed.
#[derive(Drop)]
pub struct Shard {
    pub(crate) alloc: Global,
    pub(crate) slots: BTreeMap<Key, DocumentSlot>,
}

impl Shard {
    /// Creates a shard without documents and queues. It keeps the allocator.
    ///
    /// ```
    /// let shard = Shard::new(alloc);
    /// assert_eq!(rt; (shard.version(&key), shard.queues()), (0, 0));
    /// ```
    pub fn new(alloc: Global) -> Shard
        ensures { state_of result ≡ empty_state }
    {
        Shard {
            alloc,
            slots: BTreeMap::new(alloc),
        }
    }

    // Returns the key's document, if it has entries.
    pub(crate) fn find(&self, key: &Key) -> Option<&Document>
        ensures { unwrap_or (option_map (λ d. d.now) result) empty_document
            ≡ documents_of self.now (plain_key key.now) }
    {
        match self.slots.get(key) {
            Some(slot) => slot.document(),
            None => None,
        }
    }

    /// Returns the document's log, or `None` if it has no entries. Each log is made: an entry is
    /// what its submission stores on the entries before it.
    pub fn log(&self, key: &Key) -> Option<&Log>
        ensures log { unwrap_or (option_map (λ l. l.now) result) [] ≡ log_at self.now key.now }
        ensures nonempty { IfSome result (λ l. l.now ≢ []) }
        ensures is_made { IsMade (log_at self.now key.now) }
    {
        match self.find(key) {
            Some(document) => Some(document.log()),
            None => None,
        }
    }

    /// Returns the keys of all documents with entries, by the bytes of the collection and then of
    /// the id.
    ///
    /// # Errors
    ///
    /// [`AllocError`] if an allocation fails.
    pub fn documents(&self) -> Result<Vec<Key>, AllocError>
        ensures { IfOk result (λ keys. IsKeyList (logs_of self.now) (map plain_key keys.items)) }
    {
        let mut keys = Vec::with_capacity(self.alloc, self.slots.len())?;
        for (key, slot) in self.slots.iter() {
            if slot.has_document() {
                keys.push(key.try_clone()?)?;
            }
        }
        Ok(keys)
    }

    /// Returns the number of open queues of all keys, at most the greatest `u64`. It doesn't
    /// allocate.
    pub fn queues(&self) -> u64
        ensures { IsOpenCount (queues_of self.now) result }
    {
        let mut count: u64 = 0;
        for slot in self.slots.values() {
            count = count.saturating_add(slot.queues().count());
        }
        count
    }

    /// Returns the number of the document's cached snapshots, at most eight. Each is the document
    /// at its version.
    pub fn cached_count(&self, key: &Key) -> usize
        ensures count { result ≡ length (cache_at self.now key.now) }
        ensures bound { length (cache_at self.now key.now) ≤ 8 }
        ensures snaps { AreSnapsOf (log_at self.now key.now) (cache_at self.now key.now) }
    {
        match self.find(key) {
            Some(document) => document.cached_count(),
            None => 0,
        }
    }

    /// Returns the current version: the number of the document's entries.
    pub fn version(&self, key: &Key) -> u64
        ensures { result ≡ length (log_at self.now key.now) }
    {
        match self.find(key) {
            Some(document) => document.log().len(),
            None => 0,
        }
    }

    // Inserts the slot of a key.
    pub(crate) fn insert_slot(&mut self, key: &Key, slot: DocumentSlot) -> Result<(), AllocError>
        ensures ok { OnOk result
            (slots_of self.new ≡ with_value_at_key (slots_of self.old) (plain_key key.now) slot) }
        ensures err { OnErr result (slots_of self.new ≡ slots_of self.old) }
    {
        drop(self.slots.insert(key.try_clone()?, slot)?);
        Ok(())
    }
}
