//! Restoring documents, and the backend that has them.
ghost use Rattle.std.specs.Prelude.{◌≡◌, ◌≢◌, ℕ, ◌<◌, ◌≤◌, [], IfOk, IfSome, option_map, unwrap_or};
ghost use Rattle.sdb_oplog.specs.Decide.{IsMade};
ghost use Rattle.sdb_oplog.specs.Keys.{PlainKey, plain_key};
ghost use Rattle.sdb_desk.specs.Machine.{DecidesOrOutOfMemory};
ghost use Rattle.sdb_desk.specs.ReplyView.{plain_reply};
ghost use Rattle.sdb_backend.specs.AuditModel.{HasShard, audit_logs};
ghost use Rattle.sdb_backend.specs.HistoryOrder.{IsExtension};
ghost use Rattle.sdb_backend.specs.RestorationModel.{HasRestoredShard, restored_logs, IsEmptyRestoration, RestoresSubmission, HasNoShare, HasSameShare, IsRestoredBackend};
ghost use Rattle.sdb_backend.specs.declared.shard_value.Held.{Held as HeldShard};

use crate::audit::Audit;
use crate::backend::Backend;
use crate::counts::StoredCounts;
use crate::pass::Host;
use crate::restoration::Restoration;
use crate::saving::SHARD_COUNT;
use crate::shard_value::Held;
use crate::work_limits::WorkLimits;
use sdb_desk::Reply;
use sdb_oplog::{Key, Log, Moment, Submission};
use sdb_striped_lock::StripedLock;
use std::alloc::{AllocError, Global};

impl Restoration {
    /// Creates the shards without documents.
    ///
    /// # Errors
    ///
    /// [`AllocError`] if an allocation fails.
    pub fn new(alloc: Global) -> Result<Restoration, AllocError>
        ensures empty { IfOk result IsEmptyRestoration }
        ensures logs { IfOk result (λ r. (k : PlainKey) → restored_logs r k ≡ []) }
        ensures shares { IfOk result (λ r. (n : ℕ) → HasNoShare n r) }
    {
        let mut shards = Vec::with_capacity(alloc, SHARD_COUNT)?;
        for _shard in 0..SHARD_COUNT {
            shards.push_reserved(Held::new(alloc));
        }
        let counts = StoredCounts::new();
        Ok(Restoration {
            alloc,
            shards,
            counts,
        })
    }

    /// Decides a submission at a moment, in one step, as
    /// [`Shard::commit_now`](sdb_desk::Shard::commit_now) does in the shard of the key. `Refused(E10)`
    /// is an allocation failure, and nothing changes.
    pub fn commit(&mut self, key: &Key, submission: &Submission, now: Moment) -> Reply
        ensures decides { RestoresSubmission (plain_key key.now) submission.now now (plain_reply result)
            self.old self.new }
        ensures logs { DecidesOrOutOfMemory (restored_logs self.old) (plain_key key.now) submission.now now
            (plain_reply result) (restored_logs self.new) }
        ensures extended { (k : PlainKey) → IsExtension (restored_logs self.new k) (restored_logs self.old k) }
        ensures shares { (n : ℕ) → n ≢ submission.now.by → HasSameShare n self.old self.new }
    {
        let held = &mut self.shards[key.shard()];
        let reply = held.shard.commit_now(key, submission, now);
        self.counts.record_reply(&reply);
        reply
    }

    /// Returns the document's log, or `None` if nothing is stored. Each log is made: an entry is
    /// what its submission stores on the entries before it.
    pub fn log(&self, key: &Key) -> Option<&Log>
        ensures log { unwrap_or (option_map (λ l. l.now) result) []
            ≡ restored_logs self.now (plain_key key.now) }
        ensures nonempty { IfSome result (λ l. l.now ≢ []) }
        ensures is_made { IsMade (restored_logs self.now (plain_key key.now)) }
    {
        self.shards[key.shard()].shard.log(key)
    }

    /// Returns the audit of the restored shards.
    pub fn into_audit(self) -> Audit
        ensures shards { (i : ℕ) (h : HeldShard) → HasRestoredShard self i h → HasShard result i h }
        ensures logs { audit_logs result ≡ restored_logs self }
    {
        let Restoration { alloc, shards, .. } = self;
        Audit::new(alloc, shards)
    }

    /// Returns the backend of the restored documents, and its host, whose first pass gets the number
    /// `next`. The host has observed each restored entry, so each pass has. Entries aren't
    /// [listed](Backend::list_unsaved).
    ///
    /// # Errors
    ///
    /// [`AllocError`] if an allocation fails.
    pub fn into_backend<R: Drop>(self, rt: R, next: u64) -> Result<(Backend<R>, Host), AllocError>
        requires first { 0 < next }
        requires no_root_share { HasNoShare 0 self }
        requires no_share { (n : ℕ) → next ≤ n → HasNoShare n self }
        ensures { IfOk result (λ made. IsRestoredBackend self next made.0 made.1) }
    {
        let Restoration {
            alloc,
            shards,
            counts,
        } = self;
        let (locks, seats) = StripedLock::restored(alloc, shards, next)?;
        let backend = Backend {
            alloc,
            rt,
            locks,
            counts,
            limits: WorkLimits::new(),
        };
        Ok((backend, Host { seats }))
    }
}
