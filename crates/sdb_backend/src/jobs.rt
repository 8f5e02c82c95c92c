//! The reads and queues of a shard as jobs under a lock.
ghost use Rattle.std.specs.Prelude.{◌≡◌, [], option_map};
ghost use Rattle.sdb_oplog.specs.Decide.{IsMade};
ghost use Rattle.sdb_oplog.specs.Keys.{plain_key};
ghost use Rattle.sdb_desk.specs.ShardView.{machine_of, logs_of, caches_of};
ghost use Rattle.sdb_desk.specs.View.{fetch_result_view, entries_view, subscribe_result_view, taken_view};
ghost use Rattle.sdb_submit.specs.Calls.{MachineStep, copied_entries_view};
ghost use Rattle.sdb_submit.specs.Calls as call;
ghost use Rattle.sdb_value.specs.View.{value_of};
ghost use Rattle.sdb_desk.specs.Machine.{IsUnchanged};
ghost use Rattle.sdb_backend.specs.ReplayBases.{IsDocumentAt, IsReplayBaseOrError, IsReplayBaseAtOrError, replay_base_view, replay_base_at_view};

use crate::shard_value::Held;
use sdb_desk::{FetchResult, ReplayBase, SubscribeResult};
use sdb_growlock::Job;
use sdb_oplog::{Code, Entry, Key, Moment};
use sdb_subscribe::SubId;
use sdb_value::Json;
use std::alloc::AllocError;

pub(crate) struct FetchJob<'a> {
    pub(crate) key: &'a Key,
}

impl<'a> Job<Held> for FetchJob<'a> {
    type Answer = Result<FetchResult, Code>;

    ghost precondition = { λ j n a. Unit {0} };

    ghost postcondition = { λ j n a b r. MachineStep n (machine_of a.shard) (plain_key j.key.now)
        call.fetch (fetch_result_view r) (machine_of b.shard) };

    fn run(self, _number: u64, held: &mut Held) -> Result<FetchResult, Code> {
        let Self { key } = self;
        held.shard.fetch(key)
    }
}

pub(crate) struct OpsFromJob<'a> {
    pub(crate) key: &'a Key,
    pub(crate) version: u64,
}

impl<'a> Job<Held> for OpsFromJob<'a> {
    type Answer = Result<Vec<Entry>, Code>;

    ghost precondition = { λ j n a. Unit {0} };

    ghost postcondition = { λ j n a b r. MachineStep n (machine_of a.shard) (plain_key j.key.now)
        (call.ops_from j.version) (entries_view r) (machine_of b.shard) };

    fn run(self, _number: u64, held: &mut Held) -> Result<Vec<Entry>, Code> {
        let Self { key, version } = self;
        held.shard.ops_from(key, version)
    }
}

pub(crate) struct OpsBetweenJob<'a> {
    pub(crate) key: &'a Key,
    pub(crate) from: u64,
    pub(crate) to: u64,
}

impl<'a> Job<Held> for OpsBetweenJob<'a> {
    type Answer = Result<Vec<Entry>, AllocError>;

    ghost precondition = { λ j n a. Unit {0} };

    ghost postcondition = { λ j n a b r. MachineStep n (machine_of a.shard) (plain_key j.key.now)
        (call.ops_between j.from j.to) (copied_entries_view r) (machine_of b.shard)
        × IsMade (logs_of a.shard (plain_key j.key.now)) };

    fn run(self, _number: u64, held: &mut Held) -> Result<Vec<Entry>, AllocError> {
        let Self { key, from, to } = self;
        held.shard.ops_between(key, from, to)
    }
}

pub(crate) struct SnapshotAtJob<'a> {
    pub(crate) key: &'a Key,
    pub(crate) version: Option<u64>,
}

impl<'a> Job<Held> for SnapshotAtJob<'a> {
    type Answer = Result<FetchResult, Code>;

    ghost precondition = { λ j n a. Unit {0} };

    ghost postcondition = { λ j n a b r. MachineStep n (machine_of a.shard) (plain_key j.key.now)
        (call.snapshot j.version) (fetch_result_view r) (machine_of b.shard) };

    fn run(self, _number: u64, held: &mut Held) -> Result<FetchResult, Code> {
        let Self { key, version } = self;
        held.shard.snapshot_at(key, version)
    }
}

pub(crate) struct SnapshotAtTimeJob<'a> {
    pub(crate) key: &'a Key,
    pub(crate) moment: Option<Moment>,
}

impl<'a> Job<Held> for SnapshotAtTimeJob<'a> {
    type Answer = Result<FetchResult, Code>;

    ghost precondition = { λ j n a. Unit {0} };

    ghost postcondition = { λ j n a b r. MachineStep n (machine_of a.shard) (plain_key j.key.now)
        (call.snapshot_at_time j.moment) (fetch_result_view r) (machine_of b.shard) };

    fn run(self, _number: u64, held: &mut Held) -> Result<FetchResult, Code> {
        let Self { key, moment } = self;
        held.shard.snapshot_at_time(key, moment)
    }
}

// The replay base for a moment, and the version at it.
#[derive(Drop)]
pub(crate) struct ReplayBaseAt {
    pub(crate) version: u64,
    pub(crate) base: ReplayBase,
}

pub(crate) struct ReplayBaseAtMomentJob<'a> {
    pub(crate) key: &'a Key,
    pub(crate) moment: Moment,
    pub(crate) max: u64,
}

impl<'a> Job<Held> for ReplayBaseAtMomentJob<'a> {
    type Answer = Result<ReplayBaseAt, Code>;

    ghost precondition = { λ j n a. Unit {0} };

    ghost postcondition = { λ j n a b r. IsReplayBaseAtOrError (machine_of a.shard) (plain_key j.key.now) j.moment j.max
        (replay_base_at_view r)
        × IsUnchanged (machine_of a.shard) (machine_of b.shard) };

    fn run(self, _number: u64, held: &mut Held) -> Result<ReplayBaseAt, Code> {
        let Self { key, moment, max } = self;
        let version = held.shard.version_at(key, Some(moment));
        let base = held.shard.replay_base(key, version, max)?;
        Ok(ReplayBaseAt { version, base })
    }
}

pub(crate) struct ReplayBaseJob<'a> {
    pub(crate) key: &'a Key,
    pub(crate) version: u64,
    pub(crate) max: u64,
}

impl<'a> Job<Held> for ReplayBaseJob<'a> {
    type Answer = Result<ReplayBase, Code>;

    ghost precondition = { λ j n a. Unit {0} };

    ghost postcondition = { λ j n a b r. IsReplayBaseOrError (machine_of a.shard) (plain_key j.key.now) j.version j.max
        (replay_base_view r)
        × IsUnchanged (machine_of a.shard) (machine_of b.shard) };

    fn run(self, _number: u64, held: &mut Held) -> Result<ReplayBase, Code> {
        let Self { key, version, max } = self;
        held.shard.replay_base(key, version, max)
    }
}

pub(crate) struct OfferJob<'a> {
    pub(crate) key: &'a Key,
    pub(crate) version: u64,
    pub(crate) snapshot: &'a Option<Json>,
}

impl<'a> Job<Held> for OfferJob<'a> {
    type Answer = ();

    ghost precondition = { λ j n a. IsDocumentAt (logs_of a.shard (plain_key j.key.now)) j.version
        (option_map value_of j.snapshot.now) };

    ghost postcondition = { λ j n a b r. IsDocumentAt (logs_of a.shard (plain_key j.key.now)) j.version
        (option_map value_of j.snapshot.now) × IsMade (logs_of a.shard (plain_key j.key.now))
        × IsUnchanged (machine_of a.shard) (machine_of b.shard) };

    fn run(self, _number: u64, held: &mut Held) {
        let Self {
            key,
            version,
            snapshot,
        } = self;
        held.shard.offer(key, version, snapshot.as_ref())
    }
}

pub(crate) struct ForgetJob<'a> {
    pub(crate) key: &'a Key,
}

impl<'a> Job<Held> for ForgetJob<'a> {
    type Answer = ();

    ghost precondition = { λ j n a. Unit {0} };

    ghost postcondition = { λ j n a b r. MachineStep n (machine_of a.shard) (plain_key j.key.now)
        call.forget tt (machine_of b.shard) × (caches_of b.shard (plain_key j.key.now) ≡ []) };

    fn run(self, _number: u64, held: &mut Held) {
        let Self { key } = self;
        held.shard.forget(key)
    }
}

pub(crate) struct SubscribeJob<'a> {
    pub(crate) key: &'a Key,
    pub(crate) version: Option<u64>,
}

impl<'a> Job<Held> for SubscribeJob<'a> {
    type Answer = Result<SubscribeResult, Code>;

    ghost precondition = { λ j n a. Unit {0} };

    ghost postcondition = { λ j n a b r. MachineStep n (machine_of a.shard) (plain_key j.key.now)
        (call.subscribe j.version) (subscribe_result_view r) (machine_of b.shard) };

    fn run(self, number: u64, held: &mut Held) -> Result<SubscribeResult, Code> {
        let Self { key, version } = self;
        held.shard.subscribe(key, number, version)
    }
}

pub(crate) struct TakeJob<'a> {
    pub(crate) key: &'a Key,
    pub(crate) id: SubId,
    pub(crate) max: u64,
}

impl<'a> Job<Held> for TakeJob<'a> {
    type Answer = Result<Option<Vec<Entry>>, AllocError>;

    ghost precondition = { λ j n a. Unit {0} };

    ghost postcondition = { λ j n a b r. MachineStep n (machine_of a.shard) (plain_key j.key.now)
        (call.take_next j.id j.max) (taken_view r) (machine_of b.shard) };

    fn run(self, number: u64, held: &mut Held) -> Result<Option<Vec<Entry>>, AllocError> {
        let Self { key, id, max } = self;
        held.shard.take(key, number, id, max)
    }
}

pub(crate) struct UnsubscribeJob<'a> {
    pub(crate) key: &'a Key,
    pub(crate) id: SubId,
}

impl<'a> Job<Held> for UnsubscribeJob<'a> {
    type Answer = ();

    ghost precondition = { λ j n a. Unit {0} };

    ghost postcondition = { λ j n a b r. MachineStep n (machine_of a.shard) (plain_key j.key.now)
        (call.unsubscribe j.id) tt (machine_of b.shard) };

    fn run(self, number: u64, held: &mut Held) {
        let Self { key, id } = self;
        held.shard.unsubscribe(key, number, id)
    }
}

pub(crate) struct VersionJob<'a> {
    pub(crate) key: &'a Key,
}

impl<'a> Job<Held> for VersionJob<'a> {
    type Answer = u64;

    ghost precondition = { λ j n a. Unit {0} };

    ghost postcondition = { λ j n a b r. MachineStep n (machine_of a.shard) (plain_key j.key.now)
        call.current_version r (machine_of b.shard) };

    fn run(self, _number: u64, held: &mut Held) -> u64 {
        let Self { key } = self;
        held.shard.version(key)
    }
}
