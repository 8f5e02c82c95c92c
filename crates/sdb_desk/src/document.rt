//! One document: its log, its current value and its snapshots.
ghost use Rattle.std.specs.Prelude.{◌≡◌, ◌≢◌, ◌<◌, ◌≤◌, [], true, length, take, drop, OnOk, OnErr, IfOk, IfErr, IfSome, is_some, Some, option_map};
ghost use Rattle.sdb_value.specs.Uniqueness.{is_frozen};
ghost use Rattle.sdb_value.specs.View.{value_of};
ghost use Rattle.sdb_oplog.specs.Decide.{IsMade};
ghost use Rattle.sdb_oplog.specs.DecidedLog.{WillStore};
ghost use Rattle.sdb_oplog.specs.Snap.{document_of, snap};
ghost use Rattle.sdb_oplog.specs.declared.codes.Code.TheVariants.{E10};
ghost use Rattle.sdb_desk.specs.Machine.{operations_between, look_at, look_after, look_allocates};
ghost use Rattle.sdb_desk.specs.View.{plain_replay_base, plain_look};
ghost use Rattle.sdb_snapcache.specs.CacheModel.{nearest, promote_nearest};
ghost use Rattle.sdb_snapcache.specs.View.{plain_snapshot};
ghost use Rattle.sdb_desk.specs.DocumentModel.{DocumentAfterStore, empty_document, IsReplayStart};
ghost use Rattle.sdb_snapcache.specs.SnapInvariant.{AreSnapsOf};
ghost use Rattle.sdb_desk.specs.Reads.{CacheAfterRead, CacheAfterOffer, IsReplayBaseUpTo, IsCachedReplayBase, CacheAfterUse};

use crate::replay_base::ReplayBase;
use crate::work::Look;
use sdb_oplog::{
    Code, DecidedLog, Entry, Log, Moment, RebaseResult, Rejection, Submission, clone_document,
    clone_entries,
};
use sdb_snapcache::Cache;
use sdb_value::Json;
use std::alloc::{AllocError, Global};
use std::marker::Model;

/// The reply to a submission.
#[derive(Drop)]
pub enum Reply {
    /// Stored at version `v`, with the entries stored since the submission's base version.
    Stored { v: u64, missed: Vec<Entry> },
    /// A duplicate of the submission stored at version `v`.
    Repeat { v: u64 },
    /// Refused, without any change. E10 is an allocation failure.
    Refused(Code),
}

impl From<Rejection> for Reply {
    ghost use Rattle.std.specs.Prelude.{◌≡◌};
    ghost use Rattle.sdb_oplog.specs.DecidedLog.{plain_rejection};
    ghost use Rattle.sdb_desk.specs.ReplyView.{plain_reply};

    ghost from_gives = { λ rejection reply. plain_reply reply ≡ plain_rejection rejection };

    fn from(rejection: Rejection) -> Reply {
        match rejection {
            Rejection::Repeat { v } => Reply::Repeat { v },
            Rejection::Refused(code) => Reply::Refused(code),
        }
    }
}

// A log that isn't empty, and a cache of snapshots at older versions.
#[derive(Drop)]
pub(crate) struct Document {
    decided: DecidedLog,
    cache: Cache,
}

impl Model for Document {
    ghost use Rattle.sdb_desk.specs.Coding.{document_code};
    ghost use Rattle.sdb_desk.specs.DocumentModel.{PlainDocument, IsDocument};

    ghost Value = { PlainDocument };

    ghost coded = { document_code };

    ghost view = { λ d. record { log = d.decided; cache = d.cache } };

    ghost invariant = { λ d. IsDocument d.decided d.cache };
}

impl Document {
    // Creates the document of the first submission of a key.
    pub(crate) fn with_first_entry(
        alloc: Global,
        submission: Submission,
        now: Moment,
        rebased: RebaseResult,
    ) -> Result<Document, AllocError>
        requires { WillStore [] submission rebased.content (option_map value_of rebased.document) }
        ensures { IfOk result (DocumentAfterStore submission now empty_document) }
    {
        let mut decided = DecidedLog::new(alloc);
        decided.append(submission, now, rebased)?;
        let cache = Cache::new(alloc);
        Ok(Document { decided, cache })
    }

    // Returns the log with its document.
    pub(crate) fn decided(&self) -> &DecidedLog
        ensures { result.now ≡ self.now.log }
    {
        &self.decided
    }

    pub(crate) fn log(&self) -> &Log
        ensures log { result.now ≡ self.now.log }
        ensures nonempty { self.now.log ≢ [] }
        ensures is_made { IsMade self.now.log }
    {
        self.decided.log()
    }

    // Returns a clone of the current value, after freezing it.
    pub(crate) fn freeze(&mut self, alloc: Global) -> Result<Option<Json>, AllocError>
        ensures copy { IfOk result (λ d. option_map value_of d ≡ document_of self.old.log) }
        ensures frozen { IfOk result (λ d. IfSome d (λ v. is_frozen v ≡ true)) }
        ensures memory { OnErr result (is_some (document_of self.old.log) ≡ true) }
        ensures unchanged { self.new ≡ self.old }
    {
        self.decided.freeze(alloc)
    }

    // Returns the number of cached snapshots.
    pub(crate) fn cached_count(&self) -> usize
        ensures count { result ≡ length self.now.cache }
        ensures bound { length self.now.cache ≤ 8 }
        ensures snaps { AreSnapsOf self.now.log self.now.cache }
    {
        self.cache.len()
    }

    // Appends a submission with its rebased content and the new value.
    pub(crate) fn append(
        &mut self,
        submission: Submission,
        now: Moment,
        rebased: RebaseResult,
    ) -> Result<(), AllocError>
        requires { WillStore self.old.log submission rebased.content
            (option_map value_of rebased.document) }
        ensures ok { OnOk result (DocumentAfterStore submission now self.old self.new) }
        ensures err { OnErr result (self.new ≡ self.old) }
    {
        self.decided.append(submission, now, rebased)
    }

    // Returns the document at a version, replayed from the nearest cached snapshot. The result is
    // cached unless an allocation fails.
    pub(crate) fn snapshot_at(&mut self, alloc: Global, version: u64) -> Result<Option<Json>, Code>
        requires { version ≤ length self.old.log }
        ensures snap { IfOk result
            (λ d. snap (take version self.old.log) ≡ Some (option_map value_of d)) }
        ensures err { IfErr result (λ code. code ≡ E10) }
        ensures memory { OnErr result (0 < version) }
        ensures log { self.new.log ≡ self.old.log }
        ensures cache { CacheAfterRead self.old.log version result self.old.cache self.new.cache }
    {
        if version == self.log().len() {
            return Ok(self.freeze(alloc)?);
        }
        let (from, base) = self.nearest(alloc, version)?;
        if from == version {
            return Ok(base);
        }
        let snapshot = self.log().replay_from(base, from, version)?;
        self.offer(alloc, version, snapshot.as_ref());
        Ok(snapshot)
    }

    // Returns the replay base of a version: the nearest cached snapshot and at most `max` entries
    // after it.
    pub(crate) fn replay_base(
        &mut self,
        alloc: Global,
        version: u64,
        max: u64,
    ) -> Result<ReplayBase, AllocError>
        requires { version ≤ length self.old.log }
        ensures replay_base { IfOk result
            (λ l. IsReplayBaseUpTo self.old.log version max (plain_replay_base l)) }
        ensures cached_base { IfOk result
            (λ l. IsCachedReplayBase self.old.log self.old.cache version (plain_replay_base l)) }
        ensures memory { OnErr result (0 < version) }
        ensures log { self.new.log ≡ self.old.log }
        ensures cache { CacheAfterUse self.old.log version self.old.cache self.new.cache }
    {
        if self.log().len() == version {
            return Ok(ReplayBase {
                version,
                snapshot: self.freeze(alloc)?,
                entries: Vec::new(alloc),
            });
        }
        let (from, snapshot) = self.nearest(alloc, version)?;
        let count = (version - from).min(max) as usize;
        let entries = clone_entries(alloc, &self.log().entries_from(from)[..count])?;
        Ok(ReplayBase {
            version: from,
            snapshot,
            entries,
        })
    }

    // Returns the nearest cached snapshot up to this version, or the absent document at version 0.
    fn nearest(&mut self, alloc: Global, version: u64) -> Result<(u64, Option<Json>), AllocError>
        requires { version ≤ length self.old.log }
        ensures bound { IfOk result (λ r. r.0 ≤ version) }
        ensures snap { IfOk result
            (λ r. snap (take r.0 self.old.log) ≡ Some (option_map value_of r.1)) }
        ensures replay_start { IfOk result (λ r. IsReplayStart (nearest version self.old.cache) r.0
            (option_map value_of r.1)) }
        ensures memory { OnErr result (0 < version) }
        ensures log { self.new.log ≡ self.old.log }
        ensures cache { self.new.cache ≡ promote_nearest version self.old.cache }
    {
        let found = clone_nearest(alloc, &mut self.cache, version)?;
        Ok(replay_start(found))
    }

    // Caches a clone of the snapshot, unless it is absent or an allocation fails.
    pub(crate) fn offer(&mut self, alloc: Global, version: u64, snapshot: Option<&Json>)
        requires bound { version ≤ length self.old.log }
        requires snapshot { document_of (take version self.old.log) ≡
            option_map (λ v. value_of v.now) snapshot }
        ensures log { self.new.log ≡ self.old.log }
        ensures cache { CacheAfterOffer version (option_map (λ v. value_of v.now) snapshot.entry)
            self.old.cache self.new.cache }
        ensures is_made { IsMade self.old.log }
    {
        if let Ok(Some(copy)) = clone_document(alloc, snapshot) {
            let _ = self.cache.offer(version, copy);
        }
    }

    // Empties the snapshot cache.
    pub(crate) fn forget(&mut self)
        ensures { self.new ≡ record { log = self.old.log; cache = [] } }
    {
        self.cache.forget();
    }
}

// Returns a clone of the nearest cached snapshot up to this version.
fn clone_nearest(
    alloc: Global,
    cache: &mut Cache,
    version: u64,
) -> Result<Option<(u64, Json)>, AllocError>
    ensures found { IfOk result (λ o. option_map plain_snapshot o ≡ nearest version cache.old) }
    ensures cache { cache.new ≡ promote_nearest version cache.old }
    ensures memory { OnErr result (is_some (nearest version cache.old) ≡ true) }
{
    match cache.nearest(version) {
        Some((at, value)) => Ok(Some((at, value.try_clone(alloc)?))),
        None => Ok(None),
    }
}

// Returns the version and the document from which a replay starts.
fn replay_start(found: Option<(u64, Json)>) -> (u64, Option<Json>)
    ensures { IsReplayStart (option_map plain_snapshot found) result.0
        (option_map value_of result.1) }
{
    match found {
        Some((at, value)) => (at, Some(value)),
        None => (0, None),
    }
}

// Returns a look at the log and its document, for a submission, without its first `known` missed
// entries.
pub(crate) fn look_after(
    alloc: Global,
    decided: &DecidedLog,
    submission: &Submission,
    known: usize,
) -> Result<Look, AllocError>
    ensures look { IfOk result
        (λ l. plain_look l ≡ look_after known (look_at decided.now submission.now)) }
    ensures memory { OnErr result (look_allocates decided.now submission.now ≡ true) }
{
    let log = decided.log();
    Ok(Look {
        version: log.len(),
        repeat: log.stored_at(submission.src(), submission.seq()),
        missed: clone_entries(alloc, entries_after(log.missed_entries(submission), known))?,
        snapshot: clone_document(alloc, decided.document())?,
    })
}

// Returns the entries after the first ones; none if there are fewer.
pub(crate) fn entries_after(entries: &[Entry], first: usize) -> &[Entry]
    ensures { result.now ≡ drop first entries.now }
{
    &entries[first.min(entries.len())..]
}

// Returns the entries from a version on, before another one; fewer if the log ends before.
pub(crate) fn entries_between(log: &Log, from: u64, to: u64) -> &[Entry]
    ensures { result.now ≡ operations_between log.now from to }
{
    let end = to.min(log.len());
    let start = from.min(end);
    &log.entries_from(start)[..(end - start) as usize]
}
