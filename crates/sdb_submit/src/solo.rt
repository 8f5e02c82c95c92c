//! The desk of one caller that owns the documents.
ghost use Rattle.std.specs.Prelude.{◌≡◌, ⊤};
ghost use Rattle.sdb_oplog.specs.Keys.{plain_key};
ghost use Rattle.sdb_desk.specs.ShardView.{machine_of, logs_of, caches_of};
ghost use Rattle.sdb_desk.specs.Looks.{IsLook};
ghost use Rattle.sdb_desk.specs.Machine.{DecidesOrOutOfMemory};
ghost use Rattle.sdb_desk.specs.ReplyView.{plain_reply};
ghost use Rattle.sdb_submit.specs.Calls.{MachineStep, CachesAfterCall};

use crate::desk::{Desk, Gate};
use crate::submit_loop::submit;
use sdb_desk::{FetchResult, Look, Outcome, Reply, Shard, SubscribeResult, Work};
use sdb_oplog::{Code, Entry, Key, Moment, Submission};
use sdb_subscribe::SubId;
use std::alloc::{AllocError, Global};

/// A desk whose pass is the shard itself. The pass number is 0, and no call acquires a lock.
#[derive(Clone, Copy, Drop)]
pub struct Solo;

impl Desk for Solo {
    type Pass = Shard;

    ghost accepts = { λ d p. ⊤ };

    ghost pass_number = { λ d p. 0 };

    ghost step = { λ d k c p a q. MachineStep 0 (machine_of p) k c a (machine_of q) };

    ghost caches_step = { λ d k c p a q. CachesAfterCall k (logs_of p) c a (caches_of p) (caches_of q) };

    ghost has_seen = { λ d k a p. IsLook (logs_of p k) a };

    fn look(
        &self,
        pass: &mut Shard,
        key: &Key,
        submission: &Submission,
    ) -> Result<Look, AllocError> {
        pass.look(key, submission)
    }

    fn commit(&self, pass: &mut Shard, key: &Key, work: &mut Work, now: Moment) -> Outcome {
        pass.commit(key, work, now)
    }

    fn commit_now(
        &self,
        pass: &mut Shard,
        key: &Key,
        submission: &Submission,
        now: Moment,
    ) -> Reply {
        pass.commit_now(key, submission, now)
    }

    fn commit_last(&self, pass: &mut Shard, key: &Key, work: Work, now: Moment) -> Reply {
        pass.commit_last(key, work, now)
    }

    fn version(&self, pass: &mut Shard, key: &Key) -> u64 {
        pass.version(key)
    }

    fn fetch(&self, pass: &mut Shard, key: &Key) -> Result<FetchResult, Code> {
        pass.fetch(key)
    }

    fn ops_from(&self, pass: &mut Shard, key: &Key, version: u64) -> Result<Vec<Entry>, Code> {
        pass.ops_from(key, version)
    }

    fn ops_between(
        &self,
        pass: &mut Shard,
        key: &Key,
        from: u64,
        to: u64,
    ) -> Result<Vec<Entry>, AllocError> {
        pass.ops_between(key, from, to)
    }

    fn snapshot_at(
        &self,
        pass: &mut Shard,
        key: &Key,
        version: Option<u64>,
    ) -> Result<FetchResult, Code> {
        pass.snapshot_at(key, version)
    }

    fn snapshot_at_time(
        &self,
        pass: &mut Shard,
        key: &Key,
        moment: Option<Moment>,
    ) -> Result<FetchResult, Code> {
        pass.snapshot_at_time(key, moment)
    }

    fn forget(&self, pass: &mut Shard, key: &Key) {
        pass.forget(key)
    }

    fn subscribe(
        &self,
        pass: &mut Shard,
        key: &Key,
        version: Option<u64>,
    ) -> Result<SubscribeResult, Code> {
        pass.subscribe(key, 0, version)
    }

    fn take(
        &self,
        pass: &mut Shard,
        key: &Key,
        id: SubId,
        max: u64,
    ) -> Result<Option<Vec<Entry>>, AllocError> {
        pass.take(key, 0, id, max)
    }

    fn unsubscribe(&self, pass: &mut Shard, key: &Key, id: SubId) {
        pass.unsubscribe(key, 0, id)
    }

    fn by(&self, _pass: &Shard) -> u64 {
        0
    }
}

/// Submits an operation with the number 0 to documents that have no other caller: it is decided at
/// the moment, or an allocation failed and nothing changed. The queues stay open.
///
/// ```
/// let reply = submit_alone(alloc, &mut shard, &key, submission, Moment::zero(), &NoGate);
/// assert!(rt; matches!(reply, Reply::Stored { v: 0, .. }));
/// ```
pub fn submit_alone<G: Gate>(
    alloc: Global,
    shard: &mut Shard,
    key: &Key,
    submission: Submission,
    now: Moment,
    gate: &G,
) -> Reply
    requires { submission.by ≡ 0 }
    ensures decides { DecidesOrOutOfMemory (logs_of shard.old) (plain_key key.now) submission now
        (plain_reply result) (logs_of shard.new) }
    ensures queues { (machine_of shard.new).queues ≡ (machine_of shard.old).queues }
{
    submit(alloc, &Solo, shard, key, submission, now, gate)
}
