//! Dispatch of a step to its session and the documents.
ghost use Rattle.std.specs.Prelude.{◌≡◌, ℕ, None, IfOk, OnErr, length, option_map, unwrap_or, string_bytes};
ghost use Rattle.sdb_oplog.specs.Keys.{plain_key};
ghost use Rattle.sdb_desk.specs.Machine.{version_at_moment};
ghost use Rattle.sdb_desk.specs.ShardView.{state_of, logs_of, log_at, caches_of, queues_of};
ghost use Rattle.sdb_desk.specs.StateChanges.{StateAfterRead};
ghost use Rattle.sdb_steps.specs.Caches.{CachesAfterAct, read_result};
ghost use Rattle.sdb_steps.specs.LookInvariant.{HasLookAt};
ghost use Rattle.sdb_steps.specs.Picks as plain;
ghost use Rattle.sdb_steps.specs.Dispatch.{DispatchesAct, AttemptBegins};
ghost use Rattle.sdb_steps.specs.StateView.{one_step_of_shard, session_state_of, plain_open_attempt, queue_slots_of};
ghost use Rattle.sdb_steps.specs.Slots.{SlotsOpen, OtherQueuesUnchanged};
ghost use Rattle.sdb_steps.specs.View.{plain_session_step, plain_step_answer, snapshot_refusal_answer};

use crate::session_data::{OpenAttempt, Session};
use crate::session_number::SessionNumber;
use crate::step::{Step, StepAnswer};
use sdb_desk::Shard;
use sdb_oplog::{Code, Content, Key, Moment, Submission};
use std::alloc::{AllocError, Global};

// Runs one step of this session.
pub(crate) fn dispatch(
    alloc: Global,
    shard: &mut Shard,
    session: &mut Session,
    step: &Step,
) -> StepAnswer
    requires queues { SlotsOpen (plain_session_step step.now).session (queues_of shard.old)
        (queue_slots_of session.old) }
    requires has_look { HasLookAt (logs_of shard.old) session.old.attempt }
    ensures has_look { HasLookAt (logs_of shard.new) session.new.attempt }
    ensures dispatches { DispatchesAct (plain_session_step step.now).session (one_step_of_shard shard.old)
        (session_state_of (queues_of shard.old) session.old) (plain_session_step step.now).act
        (plain_step_answer result)
        (one_step_of_shard shard.new) (session_state_of (queues_of shard.new) session.new) }
    ensures other_queues_unchanged { OtherQueuesUnchanged (plain_session_step step.now).session (queues_of shard.old)
        (queue_slots_of session.old)
        (queues_of shard.new) (queue_slots_of session.new) }
    ensures caches { CachesAfterAct (logs_of shard.old) (plain_session_step step.now).act
        (plain_step_answer result) (caches_of shard.old) (caches_of shard.new) }
{
    match step {
        Step::Begin {
            session: number,
            key,
            src,
            seq,
            version,
            content,
        } => {
            if session.attempt.is_some() {
                return StepAnswer::Idle;
            }
            let submission = submission_of(alloc, *number, key, src, *seq, *version, content);
            begin(shard, session, key, submission)
        }
        Step::Work { .. } => session.work(alloc),
        Step::Commit { now, .. } => session.commit(alloc, shard, *now),
        Step::Fetch { key, .. } => fetch(shard, key),
        Step::Snapshot { key, version, .. } => snapshot(shard, key, *version),
        Step::SnapshotAtTime { key, moment, .. } => snapshot_at_time(shard, key, *moment),
        Step::Subscribe {
            session: number,
            key,
            version,
        } => session.subscribe(number.number, shard, key, *version),
        Step::Take {
            session: number,
            key,
            max,
        } => session.take(number.number, shard, key, *max),
        Step::Unsubscribe {
            session: number,
            key,
        } => session.unsubscribe(number.number, shard, key),
        Step::Forget { key, .. } => {
            shard.forget(key);
            StepAnswer::Forgotten
        }
    }
}

// Creates a session's submission, through the collection's own name.
fn submission_of(
    alloc: Global,
    number: SessionNumber,
    key: &Key,
    src: &String,
    seq: u64,
    version: Option<u64>,
    content: &Content,
) -> Result<Submission, AllocError>
    ensures { IfOk result (λ s.
        s ≡ plain.submission_of_begin number.number (plain_key key.now)
        (string_bytes src.now) seq version content.now) }
{
    let src = src.clone()?;
    let content = content.try_clone()?;
    let via = key.collection.clone()?;
    Submission::new(alloc, src, seq, version, content, via, number.number)
}

// Opens an attempt, unless the allocation of its submission failed.
fn begin(
    shard: &Shard,
    session: &mut Session,
    key: &Key,
    submission: Result<Submission, AllocError>,
) -> StepAnswer
    requires { session.old.attempt ≡ None }
    ensures slots_unchanged { queue_slots_of session.new ≡ queue_slots_of session.old }
    ensures has_look { HasLookAt (logs_of shard.now) session.new.attempt }
    ensures begun { IfOk submission (λ s. AttemptBegins (one_step_of_shard shard.now) (plain_key key.now) s
        (plain_step_answer result) (option_map plain_open_attempt session.new.attempt)) }
    ensures memory { OnErr submission
        ((plain_step_answer result ≡ plain.out_of_memory)
        × (option_map plain_open_attempt session.new.attempt ≡ None)) }
{
    let Ok(submission) = submission else {
        return StepAnswer::OutOfMemory;
    };
    match OpenAttempt::open(shard, key, submission) {
        Ok(attempt) => {
            session.attempt = Some(attempt);
            StepAnswer::Began
        }
        Err(_) => StepAnswer::OutOfMemory,
    }
}

// Reads the current document.
fn fetch(shard: &mut Shard, key: &Key) -> StepAnswer
    ensures dispatches { (i : ℕ) (x : plain.SessionState) → DispatchesAct i (one_step_of_shard shard.old) x
        (plain.fetch (plain_key key.now)) (plain_step_answer result) (one_step_of_shard shard.new) x }
    ensures unchanged { state_of shard.new ≡ state_of shard.old }
{
    match shard.fetch(key) {
        Ok(fetched) => StepAnswer::Fetched(fetched),
        Err(_) => StepAnswer::OutOfMemory,
    }
}

// Reads the document at a version, or the current one.
fn snapshot(shard: &mut Shard, key: &Key, version: Option<u64>) -> StepAnswer
    ensures dispatches { (i : ℕ) (x : plain.SessionState) → DispatchesAct i (one_step_of_shard shard.old) x
        (plain.snapshot (plain_key key.now) version) (plain_step_answer result) (one_step_of_shard shard.new) x }
    ensures cache { StateAfterRead (plain_key key.now)
        (unwrap_or version (length (log_at shard.old key.now)))
        (read_result (plain_step_answer result)) (state_of shard.old) (state_of shard.new) }
{
    match shard.snapshot_at(key, version) {
        Ok(fetched) => StepAnswer::SnapshotFetched(Ok(fetched)),
        Err(code) => refused_snapshot(code),
    }
}

// Reads the document at a moment, or the current one.
fn snapshot_at_time(shard: &mut Shard, key: &Key, moment: Option<Moment>) -> StepAnswer
    ensures dispatches { (i : ℕ) (x : plain.SessionState) → DispatchesAct i (one_step_of_shard shard.old) x
        (plain.snapshot_at_time (plain_key key.now) moment) (plain_step_answer result) (one_step_of_shard shard.new) x }
    ensures cache { StateAfterRead (plain_key key.now)
        (version_at_moment (log_at shard.old key.now) moment)
        (read_result (plain_step_answer result)) (state_of shard.old) (state_of shard.new) }
{
    match shard.snapshot_at_time(key, moment) {
        Ok(fetched) => StepAnswer::MomentFetched(fetched),
        Err(_) => StepAnswer::OutOfMemory,
    }
}

// Returns the answer for a snapshot that the shard refuses.
fn refused_snapshot(code: Code) -> StepAnswer
    ensures { plain_step_answer result ≡ snapshot_refusal_answer code }
{
    match code {
        Code::E10 => StepAnswer::OutOfMemory,
        code => StepAnswer::SnapshotFetched(Err(code)),
    }
}
