//! Tests of `sdb_submit`: the number of tries, and a desk with concurrent submissions.
ghost use Rattle.std.specs.Prelude.{◌≡◌, ℕ, ⊤};
ghost use Rattle.sdb_oplog.specs.Keys.{Logs};
ghost use Rattle.sdb_desk.specs.Looks.{IsLook};
ghost use Rattle.sdb_desk.specs.ShardView.{machine_of, logs_of};
ghost use Rattle.sdb_desk.specs.Machine.{QueuesByKey};
ghost use Rattle.sdb_submit.specs.Calls.{MachineStep};
ghost use Rattle.sdb_oplog.specs.Keys.{plain_key};
ghost use Rattle.sdb_service_tests.specs.Seen.{StaySeen};

use crate::helpers::{counter_of, create_counter, increment, key, stored_version, submission};
use sdb_desk::{FetchResult, Look, Outcome, Reply, Shard, SubscribeResult, Work};
use sdb_oplog::{Code, Entry, Key, Moment, Submission};
use sdb_submit::{Desk, Gate, Solo, submit, submit_alone};
use sdb_subscribe::SubId;
use std::alloc::{AllocError, Global};
use std::cell::Cell;
use std::process::Abort;

// A gate that records the numbers of the tries as decimal digits.
#[derive(Drop)]
pub(crate) struct TryRecorder {
    pub(crate) digits: Cell<u64>,
}

impl TryRecorder {
    pub(crate) fn new() -> TryRecorder {
        TryRecorder {
            digits: Cell::new(0),
        }
    }
}

impl Gate for TryRecorder {
    fn before_commit(&self, try_no: u64) {
        let digits = self.digits.get().saturating_mul(10);
        self.digits.set(digits.saturating_add(try_no));
    }
}

// A shard, and the concurrent submissions, the last one first.
#[derive(Drop)]
struct ContendedShard {
    shard: Shard,
    others: Vec<Submission>,
}

// A desk that stores a concurrent submission before each `commit`, but not before `commit_last` or
// `commit_now`.
#[derive(Drop)]
struct ContendedStore;

impl ContendedShard {
    // Stores the next concurrent submission.
    fn store_other(&mut self, key: &Key)
        ensures { StaySeen (plain_key key.now) self.old.shard (plain_key key.now) self.new.shard }
    {
        if let Some(other) = self.others.pop() {
            let _ = self.shard.commit_now(key, &other, Moment::zero());
        }
    }
}

impl Desk for ContendedStore {
    type Pass = ContendedShard;

    ghost accepts = { λ d p. ⊤ };

    ghost pass_number = { λ d p. 0 };

    // A step of the machine, at some logs and queues.
    ghost step = { λ d k c p a q.
        (l : Logs) × ((n : QueuesByKey) × MachineStep 0 (record { logs = l; queues = n }) k c a (machine_of q.shard)) };

    ghost caches_step = { λ d k c p a q. ⊤ };

    ghost has_seen = { λ d k a p. IsLook (logs_of p.shard k) a };

    fn look(
        &self,
        pass: &mut ContendedShard,
        key: &Key,
        submission: &Submission,
    ) -> Result<Look, AllocError> {
        pass.shard.look(key, submission)
    }

    fn commit(
        &self,
        pass: &mut ContendedShard,
        key: &Key,
        work: &mut Work,
        now: Moment,
    ) -> Outcome {
        pass.store_other(key);
        pass.shard.commit(key, work, now)
    }

    fn commit_now(
        &self,
        pass: &mut ContendedShard,
        key: &Key,
        submission: &Submission,
        now: Moment,
    ) -> Reply {
        pass.shard.commit_now(key, submission, now)
    }

    fn commit_last(&self, pass: &mut ContendedShard, key: &Key, work: Work, now: Moment) -> Reply {
        pass.shard.commit_last(key, work, now)
    }

    fn version(&self, pass: &mut ContendedShard, key: &Key) -> u64 {
        pass.shard.version(key)
    }

    fn fetch(&self, pass: &mut ContendedShard, key: &Key) -> Result<FetchResult, Code> {
        pass.shard.fetch(key)
    }

    fn ops_from(
        &self,
        pass: &mut ContendedShard,
        key: &Key,
        version: u64,
    ) -> Result<Vec<Entry>, Code> {
        pass.shard.ops_from(key, version)
    }

    fn ops_between(
        &self,
        pass: &mut ContendedShard,
        key: &Key,
        from: u64,
        to: u64,
    ) -> Result<Vec<Entry>, AllocError> {
        pass.shard.ops_between(key, from, to)
    }

    fn snapshot_at(
        &self,
        pass: &mut ContendedShard,
        key: &Key,
        version: Option<u64>,
    ) -> Result<FetchResult, Code> {
        pass.shard.snapshot_at(key, version)
    }

    fn snapshot_at_time(
        &self,
        pass: &mut ContendedShard,
        key: &Key,
        moment: Option<Moment>,
    ) -> Result<FetchResult, Code> {
        pass.shard.snapshot_at_time(key, moment)
    }

    fn forget(&self, pass: &mut ContendedShard, key: &Key) {
        pass.shard.forget(key)
    }

    fn subscribe(
        &self,
        pass: &mut ContendedShard,
        key: &Key,
        version: Option<u64>,
    ) -> Result<SubscribeResult, Code> {
        pass.shard.subscribe(key, 0, version)
    }

    fn take(
        &self,
        pass: &mut ContendedShard,
        key: &Key,
        id: SubId,
        max: u64,
    ) -> Result<Option<Vec<Entry>>, AllocError> {
        pass.shard.take(key, 0, id, max)
    }

    fn unsubscribe(&self, pass: &mut ContendedShard, key: &Key, id: SubId) {
        pass.shard.unsubscribe(key, 0, id)
    }

    fn by(&self, _pass: &ContendedShard) -> u64 {
        0
    }
}

// Returns the submission under test, which adds 100.
fn add_hundred(rt: &impl Abort, alloc: Global, version: Option<u64>) -> Submission
    ensures { result.by ≡ 0 }
{
    submission(rt, alloc, "x", 1, version, increment(rt, alloc, 100), 0)
}

// Returns a shard with the document `{"n":0}`.
fn shard_with_counter(rt: &impl Abort, alloc: Global, key: &Key) -> Shard {
    let mut shard = Shard::new(alloc);
    let create = submission(rt, alloc, "w", 0, None, create_counter(rt, alloc), 0);
    drop(shard.commit_now(key, &create, Moment::zero()));
    shard
}

// Returns nine submissions that each add 1.
fn nine_increments(rt: &impl Abort, alloc: Global) -> Vec<Submission> {
    let mut others = Vec::new(alloc);
    for seq in 1..=9 {
        let other = submission(rt, alloc, "w", seq, None, increment(rt, alloc, 1), 0);
        others.push(other).expect(rt, "out of memory");
    }
    others
}

#[test]
fn one_caller_commits_at_its_first_try(rt: HostRuntime) {
    let key = key(&rt, rt.alloc(), "1");
    let mut shard = shard_with_counter(&rt, rt.alloc(), &key);
    let submission = add_hundred(&rt, rt.alloc(), Some(1));
    let gate = TryRecorder::new();
    let reply = submit(
        rt.alloc(),
        &Solo,
        &mut shard,
        &key,
        submission,
        Moment::zero(),
        &gate,
    );
    assert!(rt; stored_version(&reply) == Some((1, 0)));
    assert!(rt; gate.digits.get() == 1);
}

// Returns the reply to the submission to the document `{"n":0}`, and the tries.
fn submit_to_counter(rt: &impl Abort, alloc: Global, submission: Submission) -> (Reply, u64)
    requires { submission.by ≡ 0 }
{
    let key = key(rt, alloc, "1");
    let (mut shard, gate) = (shard_with_counter(rt, alloc, &key), TryRecorder::new());
    let now = Moment::zero();
    let reply = submit_alone(alloc, &mut shard, &key, submission, now, &gate);
    (reply, gate.digits.get())
}

fn refusal(reply: &Reply) -> Option<Code> {
    match reply {
        Reply::Refused(code) => Some(*code),
        _ => None,
    }
}

// A submission without a base version, and ones that are refused.
#[test]
fn the_gate_is_called_before_each_commit(rt: HostRuntime) {
    let alloc = rt.alloc();
    let (reply, tries) = submit_to_counter(&rt, alloc, add_hundred(&rt, alloc, None));
    assert!(rt; (stored_version(&reply), tries) == (Some((1, 0)), 1));
    let (reply, tries) = submit_to_counter(&rt, alloc, add_hundred(&rt, alloc, Some(7)));
    assert!(rt; refusal(&reply) == Some(Code::E4) && tries == 1);
    let create = submission(&rt, alloc, "x", 1, None, create_counter(&rt, alloc), 0);
    let (reply, tries) = submit_to_counter(&rt, alloc, create);
    assert!(rt; refusal(&reply) == Some(Code::E6) && tries == 1);
}

fn contended_shard(rt: &impl Abort, alloc: Global, key: &Key) -> ContendedShard {
    ContendedShard {
        shard: shard_with_counter(rt, alloc, key),
        others: nine_increments(rt, alloc),
    }
}

// Submits with a concurrent submission before each try, and returns the reply.
fn submit_contended(
    rt: &impl Abort,
    alloc: Global,
    pass: &mut ContendedShard,
    key: &Key,
    version: Option<u64>,
    gate: &TryRecorder,
) -> Reply {
    let now = Moment::zero();
    submit(
        alloc,
        &ContendedStore,
        pass,
        key,
        add_hundred(rt, alloc, version),
        now,
        gate,
    )
}

// Returns the version and the number at `n`.
fn read_counter(rt: &impl Abort, shard: &mut Shard, key: &Key) -> (u64, Option<i64>) {
    let fetched = shard.fetch(key).expect(rt, "out of memory");
    (fetched.version, counter_of(fetched.snapshot.as_ref()))
}

#[test]
fn commit_last_decides_after_eight_tries(rt: HostRuntime) {
    let key = key(&rt, rt.alloc(), "1");
    for (version, missed) in [(Some(1), 8), (None, 0)] {
        let gate = TryRecorder::new();
        let mut pass = contended_shard(&rt, rt.alloc(), &key);
        let reply = submit_contended(&rt, rt.alloc(), &mut pass, &key, version, &gate);
        assert!(rt; stored_version(&reply) == Some((9, missed)));
        assert!(rt; gate.digits.get() == 12_345_678);
        assert!(rt; read_counter(&rt, &mut pass.shard, &key) == (10, Some(108)));
    }
}
