//! A shard's reads and its snapshot caches.
ghost use Rattle.std.specs.Prelude.{◌≡◌, ◌≤◌, ◌<◌, [], true, length, is_some, take, IfOk, IfErr, IfSome, OnErr, Ok, Err, Some, option_map, unwrap_or};
ghost use Rattle.sdb_oplog.specs.Decide.{IsMade};
ghost use Rattle.sdb_oplog.specs.Keys.{plain_key};
ghost use Rattle.sdb_oplog.specs.Snap.{document_of};
ghost use Rattle.sdb_oplog.specs.declared.codes.Code.TheVariants.{E10};
ghost use Rattle.sdb_value.specs.Uniqueness.{is_frozen};
ghost use Rattle.sdb_value.specs.View.{value_of};
ghost use Rattle.sdb_desk.specs.ShardView.{cache_at, log_at, state_of};
ghost use Rattle.sdb_desk.specs.Reads.{IsReplayBaseUpTo, IsCachedReplayBase};
ghost use Rattle.sdb_desk.specs.Machine.{fetch_result, operations_from, operations_between, snapshot_at, is_nonempty, read_has_document, read_has_version, version_at_moment, fetch_at_moment, ReadOrOutOfMemory};
ghost use Rattle.sdb_desk.specs.View.{plain_replay_base, fetch_result_view, entries_view};
ghost use Rattle.sdb_desk.specs.ShardState.{with_cache};
ghost use Rattle.sdb_desk.specs.StateChanges.{StateAfterRead, StateAfterUse, StateAfterOffer};

use crate::document::entries_between;
use crate::replay_base::{ReplayBase, empty_replay_base};
use crate::shard::{FetchResult, Shard};
use sdb_oplog::{Code, Entry, Key, Moment, clone_entries};
use sdb_value::Json;
use std::alloc::AllocError;

impl Shard {
    /// Returns the current version and a clone of the document. It costs a pointer, and the
    /// freezing of the parts that changed since the last freeze.
    ///
    /// # Errors
    ///
    /// [`Code::E10`] if an allocation fails. No log and no queue changes.
    ///
    /// ```
    /// drop(shard.commit_now(&key, &create, Moment::zero()));
    /// let fetched = shard.fetch(&key)?;
    /// assert!(rt; fetched.version == 1 && fetched.snapshot.is_some());
    /// ```
    pub fn fetch(&mut self, key: &Key) -> Result<FetchResult, Code>
        ensures fetched { ReadOrOutOfMemory read_has_document (fetch_result_view result)
            (Ok (fetch_result (log_at self.old key.now))) }
        ensures frozen { IfOk result (λ f. IfSome f.snapshot (λ v. is_frozen v ≡ true)) }
        ensures unchanged { state_of self.new ≡ state_of self.old }
    {
        let version = self.version(key);
        let snapshot = self.freeze(key)?;
        Ok(FetchResult { version, snapshot })
    }

    // Returns a clone of the current value, after freezing it.
    fn freeze(&mut self, key: &Key) -> Result<Option<Json>, AllocError>
        ensures copy { IfOk result
            (λ d. option_map value_of d ≡ document_of (log_at self.old key.now)) }
        ensures frozen { IfOk result (λ d. IfSome d (λ v. is_frozen v ≡ true)) }
        ensures memory { OnErr result (is_some (document_of (log_at self.old key.now)) ≡ true) }
        ensures unchanged { state_of self.new ≡ state_of self.old }
    {
        match self.slots.get_mut(key) {
            Some(slot) => slot.freeze(self.alloc),
            None => Ok(None),
        }
    }

    /// Returns clones of the entries from a version on.
    ///
    /// # Errors
    ///
    /// [`Code::E4`] if the version is above the current one, [`Code::E10`] if an allocation fails.
    /// Without entries it doesn't fail.
    pub fn ops_from(&self, key: &Key, version: u64) -> Result<Vec<Entry>, Code>
        ensures { ReadOrOutOfMemory is_nonempty (entries_view result)
            (operations_from (log_at self.now key.now) version) }
    {
        if self.version(key) < version {
            return Err(Code::E4);
        }
        match self.find(key) {
            Some(document) => {
                Ok(clone_entries(self.alloc, document.log().entries_from(version))?)
            }
            None => Ok(Vec::new(self.alloc)),
        }
    }

    /// Returns clones of the entries from version `from` up to, and without, version `to`; fewer if
    /// the log ends before.
    ///
    /// # Errors
    ///
    /// [`AllocError`] if an allocation fails. Without entries it doesn't fail.
    pub fn ops_between(&self, key: &Key, from: u64, to: u64) -> Result<Vec<Entry>, AllocError>
        ensures entries { IfOk result
            (λ es. es.items ≡ operations_between (log_at self.now key.now) from to) }
        ensures memory { OnErr result
            (is_nonempty (operations_between (log_at self.now key.now) from to) ≡ true) }
        ensures is_made { IsMade (log_at self.now key.now) }
    {
        match self.find(key) {
            Some(document) => clone_entries(self.alloc, entries_between(document.log(), from, to)),
            None => Ok(Vec::new(self.alloc)),
        }
    }

    /// Returns the version at a moment, or the current one if it is `None`: the number of entries
    /// stored up to the moment. It is found by binary search and doesn't allocate.
    pub fn version_at(&self, key: &Key, moment: Option<Moment>) -> u64
        ensures { result ≡ version_at_moment (log_at self.now key.now) moment }
    {
        match moment {
            Some(moment) => match self.find(key) {
                Some(document) => document.log().version_at(moment),
                None => 0,
            },
            None => self.version(key),
        }
    }

    /// Returns the document at a version, or the current one if it is `None`, with its version. An
    /// older document is replayed from the nearest cached snapshot and then cached: at most eight
    /// per document, of which the least recently used one is evicted first.
    ///
    /// Snapshots share the parts that the entries between them don't change. A cached snapshot
    /// costs a pointer, the current document as much as [`Shard::fetch`]. Any other costs the
    /// replay of its entries and a copy of the parts that they change.
    ///
    /// # Errors
    ///
    /// [`Code::E4`] if the version is above the current one, [`Code::E10`] if an allocation fails
    /// at a version above 0. Nothing changes, except for the order of use of the cached snapshots.
    ///
    /// ```
    /// // The only entry creates the document, so version 0 has none.
    /// assert!(rt; shard.snapshot_at(&key, Some(0))?.snapshot.is_none());
    /// assert!(rt; shard.snapshot_at(&key, Some(1))?.snapshot.is_some());
    /// assert!(rt; matches!(shard.snapshot_at(&key, Some(2)), Err(Code::E4)));
    /// ```
    pub fn snapshot_at(&mut self, key: &Key, version: Option<u64>) -> Result<FetchResult, Code>
        ensures snapshot { ReadOrOutOfMemory read_has_version (fetch_result_view result)
            (snapshot_at (log_at self.old key.now) version) }
        ensures cache { StateAfterRead (plain_key key.now)
            (unwrap_or version (length (log_at self.old key.now)))
            (fetch_result_view result) (state_of self.old) (state_of self.new) }
    {
        let present = self.version(key);
        let version = version.unwrap_or(present);
        if present < version {
            return Err(Code::E4);
        }
        let snapshot = self.snapshot_of(key, version)?;
        Ok(FetchResult { version, snapshot })
    }

    /// Returns the document at a moment, or the current one if it is `None`, with its version. It
    /// is replayed and cached as by [`Shard::snapshot_at`].
    ///
    /// # Errors
    ///
    /// [`Code::E10`] if an allocation fails at a version above 0. Nothing changes, except for the
    /// order of use of the cached snapshots.
    pub fn snapshot_at_time(
        &mut self,
        key: &Key,
        moment: Option<Moment>,
    ) -> Result<FetchResult, Code>
        ensures snapshot { ReadOrOutOfMemory read_has_version (fetch_result_view result)
            (Ok (fetch_at_moment (log_at self.old key.now) moment)) }
        ensures cache { StateAfterRead (plain_key key.now)
            (version_at_moment (log_at self.old key.now) moment)
            (fetch_result_view result) (state_of self.old) (state_of self.new) }
    {
        let version = self.version_at(key, moment);
        Ok(FetchResult {
            version,
            snapshot: self.snapshot_of(key, version)?,
        })
    }

    // Returns the document at a version up to the current one.
    fn snapshot_of(&mut self, key: &Key, version: u64) -> Result<Option<Json>, Code>
        requires { version ≤ length (log_at self.old key.now) }
        ensures snapshot { IfOk result
            (λ d. document_of (take version (log_at self.old key.now)) ≡ option_map value_of d) }
        ensures err { IfErr result (λ code. code ≡ E10) }
        ensures memory { OnErr result (0 < version) }
        ensures cache { StateAfterRead (plain_key key.now) version result
            (state_of self.old) (state_of self.new) }
    {
        match self.slots.get_mut(key) {
            Some(slot) => slot.snapshot_at(self.alloc, version),
            None => Ok(None),
        }
    }

    /// Returns the replay base of a version: the nearest cached snapshot and the entries after it,
    /// each as a shared pointer, or the current document. If there are more than `max` entries, it
    /// has the first `max`, and its replay is the document at the version that they reach.
    ///
    /// # Errors
    ///
    /// [`Code::E4`] if the version is above the current one, [`Code::E10`] if an allocation fails
    /// at a version above 0. No log and no queue changes.
    pub fn replay_base(&mut self, key: &Key, version: u64, max: u64) -> Result<ReplayBase, Code>
        ensures replay_base { IfOk result (λ l. IsReplayBaseUpTo (log_at self.old key.now) version max
            (plain_replay_base l)) }
        ensures cached_base { IfOk result (λ l. IsCachedReplayBase (log_at self.old key.now)
            (cache_at self.old key.now) version (plain_replay_base l)) }
        ensures err { IfErr result (λ code. ReadOrOutOfMemory read_has_version (Err code)
            (snapshot_at (log_at self.old key.now) (Some version))) }
        ensures cache { StateAfterUse (plain_key key.now) version
            (state_of self.old) (state_of self.new) }
    {
        if version > self.version(key) {
            return Err(Code::E4);
        }
        Ok(self.replay_base_in_range(key, version, max)?)
    }

    // Returns the replay base of a version up to the current one.
    fn replay_base_in_range(
        &mut self,
        key: &Key,
        version: u64,
        max: u64,
    ) -> Result<ReplayBase, AllocError>
        requires { version ≤ length (log_at self.old key.now) }
        ensures replay_base { IfOk result (λ l. IsReplayBaseUpTo (log_at self.old key.now) version max
            (plain_replay_base l)) }
        ensures cached_base { IfOk result (λ l. IsCachedReplayBase (log_at self.old key.now)
            (cache_at self.old key.now) version (plain_replay_base l)) }
        ensures memory { OnErr result (0 < version) }
        ensures cache { StateAfterUse (plain_key key.now) version
            (state_of self.old) (state_of self.new) }
    {
        match self.slots.get_mut(key) {
            Some(slot) => slot.replay_base(self.alloc, version, max),
            None => Ok(empty_replay_base(self.alloc)),
        }
    }

    /// Caches the document at a version, unless it is absent or an allocation fails. At most eight
    /// snapshots are cached, and the least recently used one is evicted.
    pub fn offer(&mut self, key: &Key, version: u64, snapshot: Option<&Json>)
        requires bound { version ≤ length (log_at self.old key.now) }
        requires snapshot { document_of (take version (log_at self.old key.now)) ≡
            option_map (λ v. value_of v.now) snapshot }
        ensures is_made { IsMade (log_at self.old key.now) }
        ensures cache { StateAfterOffer (plain_key key.now) version
            (option_map (λ v. value_of v.now) snapshot.entry)
            (state_of self.old) (state_of self.new) }
    {
        if let Some(slot) = self.slots.get_mut(key) {
            slot.offer(self.alloc, version, snapshot);
        }
    }

    /// Empties the document's snapshot cache. It doesn't allocate.
    pub fn forget(&mut self, key: &Key)
        ensures { state_of self.new ≡ with_cache (state_of self.old) (plain_key key.now) [] }
    {
        if let Some(slot) = self.slots.get_mut(key) {
            slot.forget();
        }
    }
}
