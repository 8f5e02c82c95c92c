//! The interface of a document store.
ghost use Rattle.std.specs.Prelude.{◌≡◌, ℕ, true, IfOk, IfErr, OnErr};
ghost use Rattle.sdb_oplog.specs.Keys.{PlainKey, plain_key};
ghost use Rattle.sdb_desk.specs.Machine.{WorkAfterCommit, PlainAttempt, work_allocates};
ghost use Rattle.sdb_desk.specs.View.{plain_attempt, plain_look, plain_outcome, fetch_result_view, entries_view, subscribe_result_view, taken_view};
ghost use Rattle.sdb_desk.specs.ReplyView.{plain_reply};
ghost use Rattle.sdb_submit.specs.Calls.{PlainCall, look, commit, commit_now, current_version, fetch, ops_from, ops_between, snapshot, snapshot_at_time, forget, subscribe, take_next, unsubscribe, CallAnswer, OnMoved, copied_entries_view, look_view};
ghost use Rattle.sdb_submit.specs.PassModel.{CanSubmit, IsCall};

use crate::work_step::{resume_work, work};
use sdb_desk::{Attempt, FetchResult, Look, Outcome, Reply, SubscribeResult, Work};
use sdb_oplog::{Code, Entry, Key, Moment, Submission};
use sdb_subscribe::SubId;
use std::alloc::{AllocError, Global};

/// The interface of a document store: looks, commits, reads and queues. An implementation defines
/// how each call relates the pass before it, its answer and the pass after it.
///
/// ```
/// // The pass of the desk `Solo` is a `Shard`, that of a `Backend` a `Pass`.
/// let mut shard = Shard::new(alloc);
/// assert_eq!(rt; Solo.fetch(&mut shard, &key)?.version, 0);
/// ```
pub trait Desk {
    /// The caller's handle.
    type Pass;

    // Whether a pass belongs to this desk.
    ghost accepts: { Self → Self.Pass → Type 0 };

    // The number of a pass.
    ghost pass_number: { Self → Self.Pass → ℕ };

    // How a call at a key relates the pass before, the answer and the pass after.
    ghost step: { Self → PlainKey → (c : PlainCall) → Self.Pass → CallAnswer c → Self.Pass → Type 0 };

    // How a call at a key relates the snapshot caches before, the answer and the caches after.
    ghost caches_step: { Self → PlainKey → (c : PlainCall) → Self.Pass → CallAnswer c → Self.Pass → Type 0 };

    // The attempt's look at a key is one that the pass has observed.
    ghost has_seen: { Self → PlainKey → PlainAttempt → Self.Pass → Type 0 };

    /// Reads what a submission needs: version, duplicate, missed entries and snapshot.
    ///
    /// # Errors
    ///
    /// [`AllocError`] if an allocation fails.
    fn look(
        &self,
        pass: &mut Self::Pass,
        key: &Key,
        submission: &Submission,
    ) -> Result<Look, AllocError>
        requires caller { CanSubmit accepts pass_number self.now pass.old submission.now }
        ensures seen { IfOk result (λ l. has_seen self.now (plain_key key.now)
            (record { submission = submission.now; look = plain_look l }) pass.new) }
        ensures call { IsCall accepts pass_number step caches_step self.now (plain_key key.now)
            (look submission.now) pass.old (look_view result) pass.new };

    /// Computes the work of an attempt, as [`work`] does. A desk of many callers may refuse a work
    /// that takes long.
    ///
    /// # Errors
    ///
    /// The attempt, unchanged, if an allocation fails or the work is refused. An edit against an edit
    /// is transformed then, or a document changed.
    fn work(&self, alloc: Global, attempt: Attempt) -> Result<Work, Attempt>
        ensures ok { IfOk result (λ w. w ≡ plain_attempt attempt) }
        ensures err { IfErr result (λ a. plain_attempt a ≡ plain_attempt attempt) }
        ensures memory { OnErr result (work_allocates (plain_attempt attempt) ≡ true) }
    {
        work(alloc, attempt)
    }

    /// Computes the work of a submission for a newer look, as [`resume_work`] does. A desk of many
    /// callers may refuse a work that takes long.
    ///
    /// # Errors
    ///
    /// The attempt with the newer look, as of [`work`](Desk::work). The last work is then lost.
    fn resume_work(&self, alloc: Global, last: Work, look: Look) -> Result<Work, Attempt>
        ensures ok { IfOk result (λ w. w ≡ record { submission = last.submission; look = plain_look look }) }
        ensures err { IfErr result
            (λ a. plain_attempt a ≡ record { submission = last.submission; look = plain_look look }) }
        ensures memory { OnErr result
            (work_allocates (record { submission = last.submission; look = plain_look look }) ≡ true) }
    {
        resume_work(alloc, last, look)
    }

    /// Decides the work's submission at a moment if the log hasn't grown since its look. Otherwise
    /// returns a new look.
    fn commit(&self, pass: &mut Self::Pass, key: &Key, work: &mut Work, now: Moment) -> Outcome
        requires caller { CanSubmit accepts pass_number self.now pass.old work.old.submission }
        requires seen { has_seen self.now (plain_key key.now) work.old pass.old }
        ensures work { WorkAfterCommit (plain_outcome result) work.old work.new }
        ensures seen { OnMoved (plain_outcome result) (λ l. has_seen self.now (plain_key key.now)
            (record { submission = work.old.submission; look = l }) pass.new) }
        ensures call { IsCall accepts pass_number step caches_step self.now (plain_key key.now)
            (commit work.old now) pass.old (plain_outcome result) pass.new };

    /// Decides a submission at a moment.
    fn commit_now(
        &self,
        pass: &mut Self::Pass,
        key: &Key,
        submission: &Submission,
        now: Moment,
    ) -> Reply
        requires caller { CanSubmit accepts pass_number self.now pass.old submission.now }
        ensures call { IsCall accepts pass_number step caches_step self.now (plain_key key.now)
            (commit_now submission.now now) pass.old (plain_reply result) pass.new };

    /// Decides a work's submission at a moment, even if the log has grown since its look. An
    /// implementation should transform only against the newer entries; no clause states it.
    fn commit_last(&self, pass: &mut Self::Pass, key: &Key, work: Work, now: Moment) -> Reply
        requires caller { CanSubmit accepts pass_number self.now pass.old work.submission }
        ensures call { IsCall accepts pass_number step caches_step self.now (plain_key key.now)
            (commit_now work.submission now) pass.old (plain_reply result) pass.new };

    /// Returns the current version, 0 for a document without entries. It doesn't allocate.
    fn version(&self, pass: &mut Self::Pass, key: &Key) -> u64
        requires { accepts self.now pass.old }
        ensures call { IsCall accepts pass_number step caches_step self.now (plain_key key.now)
            current_version pass.old result pass.new };

    /// Returns the current version and document.
    ///
    /// # Errors
    ///
    /// [`Code::E10`] if an allocation fails.
    fn fetch(&self, pass: &mut Self::Pass, key: &Key) -> Result<FetchResult, Code>
        requires { accepts self.now pass.old }
        ensures call { IsCall accepts pass_number step caches_step self.now (plain_key key.now)
            fetch pass.old (fetch_result_view result) pass.new };

    /// Returns the entries from a version on.
    ///
    /// # Errors
    ///
    /// [`Code::E4`] if the version is above the current one, [`Code::E10`] if an allocation fails.
    fn ops_from(&self, pass: &mut Self::Pass, key: &Key, version: u64) -> Result<Vec<Entry>, Code>
        requires { accepts self.now pass.old }
        ensures call { IsCall accepts pass_number step caches_step self.now (plain_key key.now)
            (ops_from version) pass.old (entries_view result) pass.new };

    /// Returns the entries from version `from` up to, and without, version `to`; fewer if the log
    /// ends before.
    ///
    /// # Errors
    ///
    /// [`AllocError`] if an allocation fails.
    fn ops_between(
        &self,
        pass: &mut Self::Pass,
        key: &Key,
        from: u64,
        to: u64,
    ) -> Result<Vec<Entry>, AllocError>
        requires { accepts self.now pass.old }
        ensures call { IsCall accepts pass_number step caches_step self.now (plain_key key.now)
            (ops_between from to) pass.old (copied_entries_view result) pass.new };

    /// Returns the document at a version, or the current one if it is `None`, with its version.
    ///
    /// # Errors
    ///
    /// [`Code::E4`] if the version is above the current one, [`Code::E10`] if an allocation fails.
    fn snapshot_at(
        &self,
        pass: &mut Self::Pass,
        key: &Key,
        version: Option<u64>,
    ) -> Result<FetchResult, Code>
        requires { accepts self.now pass.old }
        ensures call { IsCall accepts pass_number step caches_step self.now (plain_key key.now)
            (snapshot version) pass.old (fetch_result_view result) pass.new };

    /// Returns the document at a moment, or the current one if it is `None`, with its version.
    ///
    /// # Errors
    ///
    /// [`Code::E10`] if an allocation fails.
    fn snapshot_at_time(
        &self,
        pass: &mut Self::Pass,
        key: &Key,
        moment: Option<Moment>,
    ) -> Result<FetchResult, Code>
        requires { accepts self.now pass.old }
        ensures call { IsCall accepts pass_number step caches_step self.now (plain_key key.now)
            (snapshot_at_time moment) pass.old (fetch_result_view result) pass.new };

    /// Empties the document's snapshot cache. It doesn't allocate.
    fn forget(&self, pass: &mut Self::Pass, key: &Key)
        requires { accepts self.now pass.old }
        ensures call { IsCall accepts pass_number step caches_step self.now (plain_key key.now)
            forget pass.old tt pass.new };

    /// Opens a queue of all entries from a version on, or from the current one if it is `None`, and
    /// returns the document at it. The queue belongs to the pass's number.
    ///
    /// # Errors
    ///
    /// [`Code::E4`] if the version is above the current one, [`Code::E11`] if the queue numbers of
    /// the key are used up, [`Code::E10`] if an allocation fails.
    fn subscribe(
        &self,
        pass: &mut Self::Pass,
        key: &Key,
        version: Option<u64>,
    ) -> Result<SubscribeResult, Code>
        requires { accepts self.now pass.old }
        ensures call { IsCall accepts pass_number step caches_step self.now (plain_key key.now)
            (subscribe version) pass.old (subscribe_result_view result) pass.new };

    /// Returns the next entries of a queue, at most `max`. Returns `None` if the key has no open
    /// queue with this number, or if it belongs to another pass number.
    ///
    /// # Errors
    ///
    /// [`AllocError`] if an allocation fails.
    fn take(
        &self,
        pass: &mut Self::Pass,
        key: &Key,
        id: SubId,
        max: u64,
    ) -> Result<Option<Vec<Entry>>, AllocError>
        requires { accepts self.now pass.old }
        ensures call { IsCall accepts pass_number step caches_step self.now (plain_key key.now)
            (take_next id max) pass.old (taken_view result) pass.new };

    /// Closes a queue of the key. It has no effect if no open queue has this number, or if it
    /// belongs to another pass number. It doesn't allocate.
    fn unsubscribe(&self, pass: &mut Self::Pass, key: &Key, id: SubId)
        requires { accepts self.now pass.old }
        ensures call { IsCall accepts pass_number step caches_step self.now (plain_key key.now)
            (unsubscribe id) pass.old tt pass.new };

    /// Returns the number of a pass, which each of its submissions has as `by`.
    fn by(&self, pass: &Self::Pass) -> u64
        ensures { result ≡ pass_number self.now pass.now };
}

/// A hook before each commit of a submission, for tests.
pub trait Gate {
    /// Runs before the commit of this try, 1 to 8.
    fn before_commit(&self, try_no: u64);
}

/// A gate without effect.
#[derive(Clone, Copy, Drop)]
pub struct NoGate;

impl Gate for NoGate {
    fn before_commit(&self, _try_no: u64) {}
}
