//! The looks and commits of a shard as jobs under a lock.
ghost use Rattle.std.specs.Prelude.{◌≡◌};
ghost use Rattle.sdb_oplog.specs.Keys.{plain_key};
ghost use Rattle.sdb_desk.specs.ShardView.{machine_of, logs_of};
ghost use Rattle.sdb_desk.specs.Looks.{IsLook};
ghost use Rattle.sdb_desk.specs.Machine.{IsUnchanged};
ghost use Rattle.sdb_desk.specs.ReplyView.{plain_reply};
ghost use Rattle.sdb_submit.specs.Calls.{MachineStep, look_view};
ghost use Rattle.sdb_submit.specs.Calls as call;
ghost use Rattle.sdb_backend.specs.LooksInParts.{IsLookPartOrError, CommitsIfCurrent};
ghost use Rattle.sdb_backend.specs.UnsavedEntries.{unsaved_of, UnsavedAfterReply};

use crate::shard_value::Held;
use sdb_desk::{CommitDecision, Look, LookPart, Outcome, Reply, Work};
use sdb_growlock::Job;
use sdb_oplog::{Key, Moment, Submission};
use std::alloc::AllocError;

pub(crate) struct LookJob<'a> {
    pub(crate) key: &'a Key,
    pub(crate) submission: &'a Submission,
}

impl<'a> Job<Held> for LookJob<'a> {
    type Answer = Result<Look, AllocError>;

    ghost precondition = { λ j n a. Unit {0} };

    ghost postcondition = { λ j n a b r. MachineStep n (machine_of a.shard) (plain_key j.key.now)
        (call.look j.submission.now) (look_view r) (machine_of b.shard) };

    fn run(self, _number: u64, held: &mut Held) -> Result<Look, AllocError> {
        let Self { key, submission } = self;
        held.shard.look(key, submission)
    }
}

// A part of a look, for a caller that has the first `known` missed entries: the look, if at most
// `max` others are left, or the first `max` of them.
pub(crate) struct LookPartJob<'a> {
    pub(crate) key: &'a Key,
    pub(crate) submission: &'a Submission,
    pub(crate) known: usize,
    pub(crate) max: usize,
}

impl<'a> Job<Held> for LookPartJob<'a> {
    type Answer = Result<LookPart, AllocError>;

    ghost precondition = { λ j n a. Unit {0} };

    ghost postcondition = { λ j n a b r. IsLookPartOrError (logs_of a.shard (plain_key j.key.now)) j.submission.now
        j.known j.max r × IsUnchanged (machine_of a.shard) (machine_of b.shard) };

    fn run(self, _number: u64, held: &mut Held) -> Result<LookPart, AllocError> {
        let Self {
            key,
            submission,
            known,
            max,
        } = self;
        held.shard.look_part(key, submission, known, max)
    }
}

// Decides the submission of a work if the log hasn't grown since its look. E10 if the backend is
// full or the list of unsaved entries has no place for its entry.
pub(crate) struct CommitJob<'a> {
    pub(crate) key: &'a Key,
    pub(crate) work: &'a Work,
    pub(crate) now: Moment,
    pub(crate) is_full: bool,
}

impl<'a> Job<Held> for CommitJob<'a> {
    type Answer = Option<CommitDecision>;

    ghost precondition = { λ j n a. (j.work.now.submission.by ≡ n)
        × IsLook (logs_of a.shard (plain_key j.key.now)) j.work.now };

    ghost postcondition = { λ j n a b r. CommitsIfCurrent n (plain_key j.key.now) j.work.now j.now r a b };

    fn run(self, _number: u64, held: &mut Held) -> Option<CommitDecision> {
        let Self {
            key,
            work,
            now,
            is_full,
        } = self;
        if held.shard.version(key) != work.version() {
            return None;
        }
        let place = match held.reserve_place(key, is_full) {
            Ok(place) => place,
            Err(error) => {
                let rejection = held.shard.reject_work(key, work, error);
                return Some(CommitDecision::Reply(Outcome::Decided(Reply::from(rejection))));
            }
        };
        let decision = held.shard.decide(key, work, now);
        held.list_decision(place, work, &decision);
        Some(decision)
    }
}

pub(crate) struct CommitNowJob<'a> {
    pub(crate) key: &'a Key,
    pub(crate) submission: &'a Submission,
    pub(crate) now: Moment,
    pub(crate) is_full: bool,
}

impl<'a> Job<Held> for CommitNowJob<'a> {
    type Answer = Reply;

    ghost precondition = { λ j n a. j.submission.now.by ≡ n };

    ghost postcondition = { λ j n a b r. MachineStep n (machine_of a.shard) (plain_key j.key.now)
        (call.commit_now j.submission.now j.now) (plain_reply r) (machine_of b.shard)
        × UnsavedAfterReply (plain_key j.key.now) (plain_reply r) (unsaved_of a) (unsaved_of b) };

    fn run(self, _number: u64, held: &mut Held) -> Reply {
        let Self {
            key,
            submission,
            now,
            is_full,
        } = self;
        let place = match held.reserve_place(key, is_full) {
            Ok(place) => place,
            Err(error) => return Reply::from(held.shard.reject_now(key, submission, error)),
        };
        let reply = held.shard.commit_short(key, submission, now);
        held.list_reply(place, &reply);
        reply
    }
}

pub(crate) struct CommitLastJob<'a> {
    pub(crate) key: &'a Key,
    pub(crate) work: Work,
    pub(crate) now: Moment,
    pub(crate) is_full: bool,
}

impl<'a> Job<Held> for CommitLastJob<'a> {
    type Answer = Reply;

    ghost precondition = { λ j n a. (j.work.submission.by ≡ n)
        × IsLook (logs_of a.shard (plain_key j.key.now)) j.work };

    ghost postcondition = { λ j n a b r. MachineStep n (machine_of a.shard) (plain_key j.key.now)
        (call.commit_now j.work.submission j.now) (plain_reply r) (machine_of b.shard)
        × UnsavedAfterReply (plain_key j.key.now) (plain_reply r) (unsaved_of a) (unsaved_of b) };

    fn run(self, _number: u64, held: &mut Held) -> Reply {
        let Self {
            key,
            work,
            now,
            is_full,
        } = self;
        let place = match held.reserve_place(key, is_full) {
            Ok(place) => place,
            Err(error) => return Reply::from(held.shard.reject_now(key, work.submission(), error)),
        };
        let reply = held.shard.commit_newer(key, work, now);
        held.list_reply(place, &reply);
        reply
    }
}
