//! A shard's queues.
ghost use Rattle.std.specs.Prelude.{◌≡◌, true, length, IfOk, IfErr, OnOk, OnErr, Some, None, option_map, nat_eq};
ghost use Rattle.sdb_oplog.specs.Keys.{plain_key};
ghost use Rattle.sdb_oplog.specs.Refusal.{IsRefusalOrOutOfMemory};
ghost use Rattle.sdb_subscribe.specs.Queue.{open_queue, queue_at, is_open_by};
ghost use Rattle.sdb_subscribe.specs.Ring.{open_ringed_queue, remove_ringed_queue_by};
ghost use Rattle.sdb_desk.specs.ShardView.{queues_at, log_at, open_queues_at, ring_of, state_of};
ghost use Rattle.sdb_desk.specs.Machine.{queue_start, queue_start_or_full, SubscribesOrOutOfMemory};
ghost use Rattle.sdb_desk.specs.View.{subscribe_result_view, taken_view};
ghost use Rattle.sdb_desk.specs.ShardState.{with_ringed_queues, with_open_queues};
ghost use Rattle.sdb_desk.specs.StateChanges.{StateAfterSubscribe, StateAfterTake};

use crate::document_slot::DocumentSlot;
use crate::shard::{FetchResult, Shard, SubscribeResult};
use sdb_oplog::{Code, Entry, Key};
use sdb_subscribe::SubId;
use std::alloc::AllocError;

impl Shard {
    /// Opens a queue of all entries from a version on, or from the current one if it is `None`, and
    /// returns the current document. The queue belongs to the number `by`.
    ///
    /// # Errors
    ///
    /// [`Code::E4`] if the version is above the current one, [`Code::E11`] if the key's
    /// 18,446,744,073,709,551,615 queue numbers are used up, [`Code::E10`] if an allocation fails.
    /// No queue, ring buffer, cache or log changes.
    pub fn subscribe(
        &mut self,
        key: &Key,
        by: u64,
        version: Option<u64>,
    ) -> Result<SubscribeResult, Code>
        ensures subscribes { SubscribesOrOutOfMemory (log_at self.old key.now) by version
            (queues_at self.old key.now) (subscribe_result_view result)
            (queues_at self.new key.now) }
        // The queue is at its start: no entry was read.
        ensures open { IfOk result (λ s. queue_at s.id (queues_at self.new key.now).queues ≡
            Some (record { start = s.start; taken = 0; by = by })) }
        ensures state { StateAfterSubscribe (plain_key key.now) by (subscribe_result_view result)
            (state_of self.old) (state_of self.new) }
    {
        let start = self.queue_start(key, version)?;
        if self.ids_exhausted(key) {
            return Err(Code::E11);
        }
        let FetchResult { version, snapshot } = self.fetch(key)?;
        let id = self.open(key, by, start)?;
        Ok(SubscribeResult {
            id,
            start,
            version,
            snapshot,
        })
    }

    /// Returns the version at which a queue would start: the given one, or the current one if it is
    /// `None`. It doesn't allocate.
    ///
    /// # Errors
    ///
    /// [`Code::E4`] if the version is above the current one, [`Code::E11`] if the key's queue
    /// numbers are used up.
    pub fn queue_start_or_full(&self, key: &Key, version: Option<u64>) -> Result<u64, Code>
        ensures { result ≡ queue_start_or_full (log_at self.now key.now) version
            (queues_at self.now key.now) }
    {
        let start = self.queue_start(key, version)?;
        if !self.ids_exhausted(key) {
            return Ok(start);
        }
        Err(Code::E11)
    }

    // Returns the start version of a queue, or E4 if it is above the current one.
    fn queue_start(&self, key: &Key, version: Option<u64>) -> Result<u64, Code>
        ensures { result ≡ queue_start (log_at self.now key.now) version }
    {
        let present = self.version(key);
        let start = version.unwrap_or(present);
        if present < start {
            return Err(Code::E4);
        }
        Ok(start)
    }

    // Returns whether the key's queue numbers are used up.
    fn ids_exhausted(&self, key: &Key) -> bool
        ensures { result ≡ nat_eq (queues_at self.now key.now).next 18446744073709551615 }
    {
        match self.slots.get(key) {
            Some(slot) => slot.queues().next_id() == u64::MAX,
            None => false,
        }
    }

    /// Returns the number of entries in a queue's ring buffer, at most 64, or `None` if the key has
    /// no open queue of this number. It doesn't allocate.
    pub fn ring_entries(&self, key: &Key, id: SubId) -> Option<u64>
        ensures { result ≡ option_map length (ring_of self.now key.now id) }
    {
        match self.slots.get(key) {
            Some(slot) => slot.queues().ringed(id),
            None => None,
        }
    }

    // Opens a queue at a version, for an owner number.
    fn open(&mut self, key: &Key, by: u64, start: u64) -> Result<SubId, Code>
        ensures id { IfOk result (λ id. id ≡ (queues_at self.old key.now).next) }
        ensures ok { OnOk result (state_of self.new ≡
            with_ringed_queues (state_of self.old) (plain_key key.now)
            (open_ringed_queue by start ((state_of self.old).queues (plain_key key.now)))) }
        ensures open { IfOk result (λ id. queue_at id (queues_at self.new key.now).queues ≡
            Some (record { start = start; taken = 0; by = by })) }
        ensures err { IfErr result (λ code. IsRefusalOrOutOfMemory
            (open_queue by start (queues_at self.old key.now)) code) }
        ensures unchanged_on_err { OnErr result (state_of self.new ≡ state_of self.old) }
    {
        if let Some(slot) = self.slots.get_mut(key) {
            return slot.open(by, start);
        }
        let mut slot = DocumentSlot::new(self.alloc);
        let id = slot.open(by, start)?;
        self.insert_slot(key, slot)?;
        Ok(id)
    }

    /// Returns the next entries of a queue, at most `max`; fewer if the log ends before. Returns
    /// `None` if the key has no open queue of this number, or if it belongs to another number than
    /// `by`. Without pending entries it doesn't allocate.
    ///
    /// # Errors
    ///
    /// [`AllocError`] if an allocation fails. The queue is then unchanged.
    pub fn take(
        &mut self,
        key: &Key,
        by: u64,
        id: SubId,
        max: u64,
    ) -> Result<Option<Vec<Entry>>, AllocError>
        ensures { StateAfterTake (plain_key key.now) by id max (taken_view result)
            (state_of self.old) (state_of self.new) }
    {
        match self.slots.get_mut(key) {
            Some(slot) => slot.take(self.alloc, by, id, max),
            None => Ok(None),
        }
    }

    /// Closes a queue of the key. It has no effect if no open queue has this number, or if it
    /// belongs to another number than `by`. It doesn't allocate.
    pub fn unsubscribe(&mut self, key: &Key, by: u64, id: SubId)
        ensures closed { state_of self.new ≡
            with_open_queues (state_of self.old) (plain_key key.now)
            (remove_ringed_queue_by by id (open_queues_at self.old key.now)) }
        ensures removed { is_open_by by id (queues_at self.old key.now).queues ≡ true →
            queue_at id (queues_at self.new key.now).queues ≡ None }
    {
        if let Some(slot) = self.slots.get_mut(key) {
            slot.close(by, id);
        }
    }
}
