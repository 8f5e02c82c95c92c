//! A backend as a desk.
ghost use Rattle.std.specs.Prelude.{◌≡◌, IfOk, option_map};
ghost use Rattle.sdb_oplog.specs.Keys.{plain_key};
ghost use Rattle.sdb_desk.specs.ReplyView.{plain_reply};
ghost use Rattle.sdb_desk.specs.View.{taken_view};
ghost use Rattle.sdb_submit.specs.Calls.{commit_now, take_next};
ghost use Rattle.sdb_backend.specs.CallAnswers.{AnsweredAtExtension, IsLookSeenBy, ForgetsCache, AddsEntry, TakeContinues};
ghost use Rattle.sdb_backend.specs.PassModel.{pass_number, IsPassOfBackend};

use crate::backend::Backend;
use crate::commit_jobs::CommitNowJob;
use crate::jobs::{
    FetchJob, ForgetJob, OpsBetweenJob, OpsFromJob, SnapshotAtJob, SnapshotAtTimeJob, SubscribeJob,
    TakeJob, UnsubscribeJob, VersionJob,
};
use crate::pass::Pass;
use crate::work_limits::LONG_REBASE;
use sdb_desk::{
    Attempt, CommitDecision, FetchResult, Look, Outcome, Reply, SubscribeResult, Work,
    rebase_pairs, transforms_edits,
};
use sdb_oplog::{Code, Entry, Key, Moment, Submission};
use sdb_submit::{Desk, Gate, submit};
use sdb_subscribe::SubId;
use std::alloc::{AllocError, Global};
use std::sync::Wait;

/// Each call gets the machine's answer at one history of the key's shard, an extension of what the
/// pass has observed. Each call but `by`, `work` and `resume_work` waits until the lock of its shard
/// is free. A call that doesn't decide holds the lock only while it copies its result.
///
/// A rebase above 16,384 pairs of components and a replay above 16,384 components take one of four
/// places. A rebase without a place, or above 2,097,152 pairs, is refused, so its submission is
/// answered E10 unless 16,384 pairs suffice. So is a read whose replay finds no place.
impl<R: Wait + Drop> Desk for Backend<R> {
    type Pass = Pass;

    ghost accepts = { λ b p. IsPassOfBackend p b };

    ghost pass_number = { λ b p. pass_number p };

    ghost step = { λ b k c p a q. AnsweredAtExtension k c p a q };

    ghost caches_step = { λ b k c p a q. ForgetsCache k c q };

    ghost has_seen = { λ b k a p. IsLookSeenBy p k a };

    fn look(
        &self,
        pass: &mut Pass,
        key: &Key,
        submission: &Submission,
    ) -> Result<Look, AllocError> {
        self.look_from(pass, key, submission, Vec::new(self.alloc))
    }

    fn work(&self, alloc: Global, attempt: Attempt) -> Result<Work, Attempt> {
        let (content, missed) = (attempt.submission.content(), attempt.look.missed.as_slice());
        if !transforms_edits(content, missed) {
            return Work::compute(alloc, attempt);
        }
        let pairs = rebase_pairs(content, missed, LONG_REBASE);
        let Some(work) = self.limits.begin_rebase(pairs) else {
            return Err(attempt);
        };
        let made = Work::compute(alloc, attempt);
        self.limits.end(work);
        made
    }

    fn resume_work(&self, alloc: Global, last: Work, look: Look) -> Result<Work, Attempt> {
        if !transforms_edits(last.submission().content(), look.missed.as_slice()) {
            return last.resume(alloc, look);
        }
        let pairs = last.newer_pairs(look.missed.as_slice(), LONG_REBASE);
        let Some(work) = self.limits.begin_rebase(pairs) else {
            let Attempt { submission, .. } = last.into_attempt();
            return Err(Attempt { submission, look });
        };
        let made = last.resume(alloc, look);
        self.limits.end(work);
        made
    }

    fn commit(&self, pass: &mut Pass, key: &Key, work: &mut Work, now: Moment) -> Outcome {
        let decision = self.decide(pass, key, &*work, now);
        if let CommitDecision::Store { v } = &decision {
            self.counts.record(*v);
        }
        work.finish(self.alloc, decision)
    }

    fn commit_now(
        &self,
        pass: &mut Pass,
        key: &Key,
        submission: &Submission,
        now: Moment,
    ) -> Reply {
        let commit = CommitNowJob {
            key,
            submission,
            now,
            is_full: self.limits.is_full(),
        };
        let reply = self.run(pass, key, commit);
        self.counts.record_reply(&reply);
        reply
    }

    fn commit_last(&self, pass: &mut Pass, key: &Key, work: Work, now: Moment) -> Reply {
        let Ok(look) = self.look(pass, key, work.submission()) else {
            return self.commit_now(pass, key, work.submission(), now);
        };
        match self.resume_work(self.alloc, work, look) {
            Ok(resumed) => self.commit_resumed(pass, key, resumed, now),
            Err(attempt) => self.commit_now(pass, key, &attempt.submission, now),
        }
    }

    fn version(&self, pass: &mut Pass, key: &Key) -> u64 {
        self.run(pass, key, VersionJob { key })
    }

    fn fetch(&self, pass: &mut Pass, key: &Key) -> Result<FetchResult, Code> {
        self.run(pass, key, FetchJob { key })
    }

    fn ops_from(&self, pass: &mut Pass, key: &Key, version: u64) -> Result<Vec<Entry>, Code> {
        self.run(pass, key, OpsFromJob { key, version })
    }

    fn ops_between(
        &self,
        pass: &mut Pass,
        key: &Key,
        from: u64,
        to: u64,
    ) -> Result<Vec<Entry>, AllocError> {
        self.run(pass, key, OpsBetweenJob { key, from, to })
    }

    fn snapshot_at(
        &self,
        pass: &mut Pass,
        key: &Key,
        version: Option<u64>,
    ) -> Result<FetchResult, Code> {
        match version {
            Some(version) => self.snapshot_of(pass, key, version),
            None => self.run(pass, key, SnapshotAtJob { key, version }),
        }
    }

    fn snapshot_at_time(
        &self,
        pass: &mut Pass,
        key: &Key,
        moment: Option<Moment>,
    ) -> Result<FetchResult, Code> {
        match moment {
            Some(moment) => self.snapshot_at_moment(pass, key, moment),
            None => self.run(pass, key, SnapshotAtTimeJob { key, moment }),
        }
    }

    fn forget(&self, pass: &mut Pass, key: &Key) {
        self.run(pass, key, ForgetJob { key })
    }

    fn subscribe(
        &self,
        pass: &mut Pass,
        key: &Key,
        version: Option<u64>,
    ) -> Result<SubscribeResult, Code> {
        self.run(pass, key, SubscribeJob { key, version })
    }

    fn take(
        &self,
        pass: &mut Pass,
        key: &Key,
        id: SubId,
        max: u64,
    ) -> Result<Option<Vec<Entry>>, AllocError> {
        self.run(pass, key, TakeJob { key, id, max })
    }

    fn unsubscribe(&self, pass: &mut Pass, key: &Key, id: SubId) {
        self.run(pass, key, UnsubscribeJob { key, id })
    }

    fn by(&self, pass: &Pass) -> u64 {
        pass.number()
    }
}

/// Submits at a moment, in one atomic step at a history that extends what the pass has observed. A
/// reply `Stored` adds one entry to the entries under the pass's number; any other reply adds none.
pub fn submit_is_atomic<R: Wait + Drop, G: Gate>(
    alloc: Global,
    backend: &Backend<R>,
    pass: &mut Pass,
    key: &Key,
    submission: Submission,
    now: Moment,
    gate: &G,
) -> Reply
    requires pass { IsPassOfBackend pass.old backend.now }
    requires by { submission.by ≡ pass_number pass.old }
    ensures pass { IsPassOfBackend pass.new backend.now }
    ensures decides { AnsweredAtExtension (plain_key key.now) (commit_now submission now) pass.old
        (plain_reply result) pass.new }
    ensures adds_entry { AddsEntry (plain_key key.now) submission now pass.old (plain_reply result) pass.new }
{
    submit(alloc, backend, pass, key, submission, now, gate)
}

/// Returns the next entries of a queue, at most `max`, from the end of its last take. Returns
/// `None` if the pass has no open queue with this number.
///
/// # Errors
///
/// [`AllocError`] if an allocation fails.
pub fn take_is_fifo<R: Wait + Drop>(
    backend: &Backend<R>,
    pass: &mut Pass,
    key: &Key,
    id: SubId,
    max: u64,
) -> Result<Option<Vec<Entry>>, AllocError>
    requires { IsPassOfBackend pass.old backend.now }
    ensures pass { IsPassOfBackend pass.new backend.now }
    ensures entries { IfOk result
        (λ v. TakeContinues (plain_key key.now) id max pass.old (option_map (λ es. es.items) v) pass.new) }
    ensures answered { AnsweredAtExtension (plain_key key.now) (take_next id max) pass.old
        (taken_view result) pass.new }
{
    backend.take(pass, key, id, max)
}
