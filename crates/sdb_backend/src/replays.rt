//! Reads of older versions. The entries of a replay are copied in parts, each under the lock, and
//! replayed without it.
ghost use Rattle.std.specs.Prelude.{◌≡◌, IfOk, IfErr, Some, option_map};
ghost use Rattle.sdb_value.specs.View.{value_of};
ghost use Rattle.sdb_oplog.specs.Keys.{plain_key};
ghost use Rattle.sdb_oplog.specs.declared.codes.Code.TheVariants.{E10};
ghost use Rattle.sdb_desk.specs.View.{fetch_result_view, plain_replay_base};
ghost use Rattle.sdb_submit.specs.Calls.{snapshot, snapshot_at_time, copied_entries_view};
ghost use Rattle.sdb_backend.specs.CallAnswers.{AnsweredAtExtension};
ghost use Rattle.sdb_backend.specs.PassModel.{IsPassOfBackend};
ghost use Rattle.sdb_backend.specs.ReplaysInParts.{CopiedAtExtension, HasOnlyRead, IsReplayBaseSeenBy, IsDocumentSeenBy, IsSnapshotSeenBy};

use crate::backend::Backend;
use crate::jobs::{OfferJob, OpsBetweenJob, ReplayBaseAt, ReplayBaseAtMomentJob, ReplayBaseJob};
use crate::pass::Pass;
use crate::work_limits::SHORT_REPLAY;
use sdb_desk::{FetchResult, ReplayBase};
use sdb_oplog::{Code, Entry, Key, Moment};
use sdb_value::Json;
use std::alloc::{AllocError, Global};
use std::sync::Wait;

/// Greatest number of entries that are copied for a replay while a lock is held.
pub(crate) const MAX_REPLAY: u64 = 8192;

/// The logs of a backend. The trait has no bound `Wait`, so that a loop over its calls is proved
/// to end.
pub(crate) trait EntrySource {
    ghost use Rattle.sdb_backend.specs.declared.pass.Pass.{Pass};

    // Whether a pass belongs to this source.
    ghost accepts: { Self → Pass → Type 0 };

    /// Returns clones of the entries of a log from version `from` up to, and without, version `to`.
    fn entries_between(
        &self,
        pass: &mut Pass,
        key: &Key,
        from: u64,
        to: u64,
    ) -> Result<Vec<Entry>, AllocError>
        requires { accepts self.now pass.old }
        ensures pass { accepts self.now pass.new }
        ensures copied { CopiedAtExtension (plain_key key.now) from to pass.old
            (copied_entries_view result) pass.new };
}

impl<R: Wait> EntrySource for Backend<R> {
    ghost accepts = { λ b p. IsPassOfBackend p b };

    fn entries_between(
        &self,
        pass: &mut Pass,
        key: &Key,
        from: u64,
        to: u64,
    ) -> Result<Vec<Entry>, AllocError> {
        self.run(pass, key, OpsBetweenJob { key, from, to })
    }
}

// Replays a document to a version. The replay base has the first entries; the others are copied in
// parts, of which each reaches a later version.
fn replay_in_parts<S: EntrySource>(
    alloc: Global,
    source: &S,
    pass: &mut Pass,
    key: &Key,
    base: ReplayBase,
    version: u64,
) -> Result<Option<Json>, Code>
    requires pass { S.accepts source.now pass.old }
    requires base { IsReplayBaseSeenBy pass.old (plain_key key.now) version MAX_REPLAY
        (plain_replay_base base) }
    ensures pass { S.accepts source.now pass.new }
    ensures read { HasOnlyRead (plain_key key.now) pass.old pass.new }
    ensures ok { IfOk result
        (λ d. IsDocumentSeenBy pass.new (plain_key key.now) version (option_map value_of d)) }
    ensures err { IfErr result (λ code. code ≡ E10) }
{
    let mut at = base.version + (version - base.version).min(MAX_REPLAY);
    let mut snapshot = base.replay(alloc)?;
    while at < version {
        let to = at + (version - at).min(MAX_REPLAY);
        let entries = source.entries_between(pass, key, at, to)?;
        let part = ReplayBase {
            version: at,
            snapshot,
            entries,
        };
        snapshot = part.replay(alloc)?;
        at = to;
    }
    Ok(snapshot)
}

// Returns whether a replay to a version takes long.
fn is_long(base: &ReplayBase, version: u64) -> bool {
    version.saturating_sub(base.version) > MAX_REPLAY || base.component_count() > SHORT_REPLAY
}

impl<R: Wait + Drop> Backend<R> {
    // Returns the document at a version.
    pub(crate) fn snapshot_of(
        &self,
        pass: &mut Pass,
        key: &Key,
        version: u64,
    ) -> Result<FetchResult, Code>
        requires { IsPassOfBackend pass.old self.now }
        ensures pass { IsPassOfBackend pass.new self.now }
        ensures answered { AnsweredAtExtension (plain_key key.now) (snapshot (Some version)) pass.old
            (fetch_result_view result) pass.new }
    {
        let job = ReplayBaseJob {
            key,
            version,
            max: MAX_REPLAY,
        };
        let base = self.run(pass, key, job)?;
        if base.version == version {
            let ReplayBase { snapshot, .. } = base;
            return Ok(FetchResult { version, snapshot });
        }
        let snapshot = self.replay(pass, key, base, version)?;
        Ok(FetchResult { version, snapshot })
    }

    // Returns the version at a moment and the document at it. Entries stored meanwhile are later
    // than the moment, unless the version is the current one, which needs no replay.
    pub(crate) fn snapshot_at_moment(
        &self,
        pass: &mut Pass,
        key: &Key,
        moment: Moment,
    ) -> Result<FetchResult, Code>
        requires { IsPassOfBackend pass.old self.now }
        ensures pass { IsPassOfBackend pass.new self.now }
        ensures answered { AnsweredAtExtension (plain_key key.now) (snapshot_at_time (Some moment)) pass.old
            (fetch_result_view result) pass.new }
    {
        let job = ReplayBaseAtMomentJob {
            key,
            moment,
            max: MAX_REPLAY,
        };
        let ReplayBaseAt { version, base } = self.run(pass, key, job)?;
        if base.version == version {
            let ReplayBase { snapshot, .. } = base;
            return Ok(FetchResult { version, snapshot });
        }
        let snapshot = self.replay(pass, key, base, version)?;
        Ok(FetchResult { version, snapshot })
    }

    // Replays a document to a version, if it isn't long or a place is free.
    fn replay_in_place(
        &self,
        pass: &mut Pass,
        key: &Key,
        base: ReplayBase,
        version: u64,
    ) -> Result<Option<Json>, Code>
        requires pass { IsPassOfBackend pass.old self.now }
        requires base { IsReplayBaseSeenBy pass.old (plain_key key.now) version MAX_REPLAY
            (plain_replay_base base) }
        ensures pass { IsPassOfBackend pass.new self.now }
        ensures read { HasOnlyRead (plain_key key.now) pass.old pass.new }
        ensures ok { IfOk result
            (λ d. IsDocumentSeenBy pass.new (plain_key key.now) version (option_map value_of d)) }
        ensures err { IfErr result (λ code. code ≡ E10) }
    {
        let Some(work) = self.limits.begin(is_long(&base, version)) else {
            return Err(Code::E10);
        };
        let replayed = replay_in_parts(self.alloc, self, pass, key, base, version);
        self.limits.end(work);
        replayed
    }

    // Replays a document to a version, and offers it to the cache.
    fn replay(
        &self,
        pass: &mut Pass,
        key: &Key,
        base: ReplayBase,
        version: u64,
    ) -> Result<Option<Json>, Code>
        requires pass { IsPassOfBackend pass.old self.now }
        requires base { IsReplayBaseSeenBy pass.old (plain_key key.now) version MAX_REPLAY
            (plain_replay_base base) }
        ensures pass { IsPassOfBackend pass.new self.now }
        ensures read { HasOnlyRead (plain_key key.now) pass.old pass.new }
        ensures ok { IfOk result
            (λ d. IsSnapshotSeenBy pass.new (plain_key key.now) version (option_map value_of d)) }
        ensures err { IfErr result (λ code. code ≡ E10) }
    {
        let snapshot = self.replay_in_place(pass, key, base, version)?;
        let offer = OfferJob {
            key,
            version,
            snapshot: &snapshot,
        };
        self.run(pass, key, offer);
        Ok(snapshot)
    }
}
