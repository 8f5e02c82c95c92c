//! A shard's rejections of submissions that the caller can't store.
ghost use Rattle.std.specs.Prelude.{◌≡◌, ℕ, true, IsTrue, length};
ghost use Rattle.sdb_oplog.specs.Decide.{missed_entries};
ghost use Rattle.sdb_oplog.specs.DecidedLog.{plain_rejection};
ghost use Rattle.sdb_oplog.specs.Keys.{plain_key};
ghost use Rattle.sdb_oplog.specs.Rebase.{rebase_allocates};
ghost use Rattle.sdb_desk.specs.Looks.{IsLook};
ghost use Rattle.sdb_desk.specs.Machine.{decided};
ghost use Rattle.sdb_desk.specs.ShardView.{log_at, state_of};
ghost use Rattle.sdb_desk.specs.StateChanges.{StateAfterCommit, StateAfterDecision};

use crate::document::entries_after;
use crate::rebase_size::{rebase_pairs, transforms_edits};
use crate::shard::Shard;
use crate::work::Work;
use sdb_oplog::{Code, Entry, Key, Rejection, Submission};
use std::alloc::AllocError;

/// Greatest number of pairs of components that [`Shard::commit_short`] and
/// [`Shard::commit_newer`] transform under a lock.
pub const MAX_PAIRS_LOCKED: usize = 16_384;

impl Shard {
    /// Rejects a submission if an allocation of the caller for its entry failed. It returns the
    /// rejection of [`commit_now`](Shard::commit_now), or `error` if that would store the
    /// submission or transform an edit against an edit. `Refused(E10)` is an allocation failure.
    pub fn reject_now(&self, key: &Key, submission: &Submission, error: AllocError) -> Rejection
        ensures { (now : ℕ) → StateAfterDecision (plain_key key.now) submission.now now
            (plain_rejection result) (state_of self.now) (state_of self.now) }
    {
        if let Err(rejection) = self.check(key, submission) {
            return rejection;
        }
        if transforms_edits(submission.content(), self.missed_entries(key, submission)) {
            return Rejection::from(error);
        }
        if let Err(code) = self.rebase(key, submission) {
            return Rejection::from(code);
        }
        Rejection::from(error)
    }

    /// Rejects a work if an allocation of the caller for its entry failed. It returns the rejection
    /// of [`decide`](Shard::decide), or `error` if that would store the submission. It doesn't
    /// allocate.
    pub fn reject_work(&self, key: &Key, work: &Work, error: AllocError) -> Rejection
        requires look { IsLook (log_at self.now key.now) work.now }
        requires current { length (log_at self.now key.now) ≡ work.now.look.version }
        ensures { (now : ℕ) → StateAfterCommit (plain_key key.now) work.now now
            (decided (plain_rejection result)) (state_of self.now) (state_of self.now) }
    {
        if let Err(rejection) = self.check(key, work.submission()) {
            return rejection;
        }
        if let Err(code) = work.snapshot() {
            return Rejection::from(code);
        }
        Rejection::from(error)
    }

    // Rejects a submission that takes too long to be rebased under a lock.
    pub(crate) fn reject_long(&self, key: &Key, submission: &Submission) -> Rejection
        requires { rebase_allocates submission.now.content
            (missed_entries (log_at self.now key.now) submission.now) ≡ true }
        ensures { (now : ℕ) → StateAfterDecision (plain_key key.now) submission.now now
            (plain_rejection result) (state_of self.now) (state_of self.now) }
    {
        match self.check(key, submission) {
            Ok(()) => Rejection::Refused(Code::E10),
            Err(rejection) => rejection,
        }
    }

    // Returns whether it takes too long under a lock to transform a work against the entries that
    // were stored after its look. It doesn't if the rebase has no edits to transform.
    pub(crate) fn is_too_long(&self, key: &Key, work: &Work) -> bool
        ensures { IsTrue result → rebase_allocates work.now.submission.content
            (missed_entries (log_at self.now key.now) work.now.submission) ≡ true }
    {
        let missed = self.missed_entries(key, work.submission());
        transforms_edits(work.submission().content(), missed)
            && work.newer_pairs(missed, MAX_PAIRS_LOCKED) > MAX_PAIRS_LOCKED
    }

    // Returns whether it takes too long under a lock to rebase a submission.
    pub(crate) fn takes_too_long(&self, key: &Key, submission: &Submission) -> bool
        ensures { IsTrue result → rebase_allocates submission.now.content
            (missed_entries (log_at self.now key.now) submission.now) ≡ true }
    {
        let missed = self.missed_entries(key, submission);
        transforms_edits(submission.content(), missed)
            && rebase_pairs(submission.content(), missed, MAX_PAIRS_LOCKED) > MAX_PAIRS_LOCKED
    }
}
