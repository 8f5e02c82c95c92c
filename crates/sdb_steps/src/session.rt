//! The steps of one session.
ghost use Rattle.std.specs.Prelude.{◌≡◌, ℕ, None};
ghost use Rattle.sdb_oplog.specs.Keys.{Logs};
ghost use Rattle.sdb_steps.specs.LookInvariant.{HasLookAt};
ghost use Rattle.sdb_oplog.specs.Keys.{plain_key};
ghost use Rattle.sdb_desk.specs.ShardView.{logs_of, caches_of, queues_of};
ghost use Rattle.sdb_desk.specs.Machine.{QueuesByKey, with_queues};
ghost use Rattle.sdb_steps.specs.OneStep.{OneStep};
ghost use Rattle.sdb_steps.specs.Picks.{work, commit, subscribe, take, unsubscribe};
ghost use Rattle.sdb_steps.specs.Dispatch.{DispatchesAct};
ghost use Rattle.sdb_steps.specs.StateView.{one_step_of_shard, session_state_of, queue_slots_of};
ghost use Rattle.sdb_steps.specs.Slots.{SlotsOpen, OtherQueuesUnchanged, close_in};
ghost use Rattle.sdb_steps.specs.View.{plain_step_answer, start_refusal_answer};

use crate::session_data::Session;
use crate::slots::{drop_empty_slot, drop_slot, fill_slot, queue_of, reserve_slot};
use crate::step::StepAnswer;
use sdb_desk::Shard;
use sdb_oplog::{Code, Key, Moment};
use sdb_subscribe::SubId;
use std::alloc::Global;
use std::collections::BTreeMap;

impl Session {
    pub(crate) fn new(alloc: Global) -> Session
        ensures attempt { result.attempt ≡ None }
        ensures slots { queue_slots_of result ≡ (λ k. None) }
    {
        Session {
            attempt: None,
            slots: BTreeMap::new(alloc),
        }
    }

    // Computes the attempt's work.
    pub(crate) fn work(&mut self, alloc: Global) -> StepAnswer
        ensures dispatches { (i : ℕ) (m : OneStep) (q : QueuesByKey) → HasLookAt m.logs self.old.attempt →
            DispatchesAct i m (session_state_of q self.old) work (plain_step_answer result) m
            (session_state_of q self.new) }
        ensures slots_unchanged { queue_slots_of self.new ≡ queue_slots_of self.old }
        ensures has_look { (logs : Logs) → HasLookAt logs self.old.attempt → HasLookAt logs self.new.attempt }
    {
        let Some(attempt) = self.attempt.take() else {
            return StepAnswer::Idle;
        };
        let (answer, attempt) = attempt.work(alloc);
        self.attempt = Some(attempt);
        answer
    }

    // Commits the attempt at a moment.
    pub(crate) fn commit(&mut self, alloc: Global, shard: &mut Shard, now: Moment) -> StepAnswer
        requires { HasLookAt (logs_of shard.old) self.old.attempt }
        ensures has_look { HasLookAt (logs_of shard.new) self.new.attempt }
        ensures dispatches { (i : ℕ) (q : QueuesByKey)
            → DispatchesAct i (one_step_of_shard shard.old) (session_state_of q self.old)
            (commit now) (plain_step_answer result) (one_step_of_shard shard.new) (session_state_of q self.new) }
        ensures slots_unchanged { queue_slots_of self.new ≡ queue_slots_of self.old }
        ensures queues_unchanged { queues_of shard.new ≡ queues_of shard.old }
        ensures caches_unchanged { caches_of shard.new ≡ caches_of shard.old }
    {
        let Some(attempt) = self.attempt.take() else {
            return StepAnswer::Idle;
        };
        let (answer, left) = attempt.commit(alloc, shard, now);
        self.attempt = left;
        answer
    }

    // Opens a queue for the session number, and replaces the key's old queue.
    pub(crate) fn subscribe(
        &mut self,
        by: u64,
        shard: &mut Shard,
        key: &Key,
        version: Option<u64>,
    ) -> StepAnswer
        requires { SlotsOpen by (queues_of shard.old) (queue_slots_of self.old) }
        ensures dispatches { DispatchesAct by (one_step_of_shard shard.old) (session_state_of
            (queues_of shard.old) self.old)
            (subscribe (plain_key key.now) version)
            (plain_step_answer result) (one_step_of_shard shard.new) (session_state_of (queues_of shard.new) self.new) }
        ensures other_queues_unchanged { OtherQueuesUnchanged by (queues_of shard.old) (queue_slots_of self.old)
            (queues_of shard.new) (queue_slots_of self.new) }
        ensures attempt_unchanged { self.new.attempt ≡ self.old.attempt }
        ensures logs_unchanged { logs_of shard.new ≡ logs_of shard.old }
        ensures caches_unchanged { caches_of shard.new ≡ caches_of shard.old }
    {
        if let Err(code) = shard.queue_start_or_full(key, version) {
            return refused_start(code);
        }
        let Ok(old) = reserve_slot(&mut self.slots, key) else {
            return StepAnswer::OutOfMemory;
        };
        match shard.subscribe(key, by, version) {
            Ok(subscribed) => {
                fill_slot(&mut self.slots, key, subscribed.id);
                close_queue(shard, by, key, old);
                StepAnswer::Subscribed(Ok(subscribed.start))
            }
            Err(code) => {
                drop_empty_slot(&mut self.slots, key);
                refused_start(code)
            }
        }
    }

    // Reads the next entries of the queue.
    pub(crate) fn take(&mut self, by: u64, shard: &mut Shard, key: &Key, max: u64) -> StepAnswer
        requires { SlotsOpen by (queues_of shard.old) (queue_slots_of self.old) }
        ensures dispatches { DispatchesAct by (one_step_of_shard shard.old) (session_state_of
            (queues_of shard.old) self.old)
            (take (plain_key key.now) max)
            (plain_step_answer result) (one_step_of_shard shard.new) (session_state_of (queues_of shard.new) self.new) }
        ensures other_queues_unchanged { OtherQueuesUnchanged by (queues_of shard.old) (queue_slots_of self.old)
            (queues_of shard.new) (queue_slots_of self.new) }
        ensures attempt_unchanged { self.new.attempt ≡ self.old.attempt }
        ensures logs_unchanged { logs_of shard.new ≡ logs_of shard.old }
        ensures caches_unchanged { caches_of shard.new ≡ caches_of shard.old }
    {
        let Some(id) = queue_of(&self.slots, key) else {
            return StepAnswer::Idle;
        };
        match shard.take(key, by, id, max) {
            Ok(Some(entries)) => StepAnswer::Taken(entries),
            Ok(None) => StepAnswer::Idle,
            Err(_) => StepAnswer::OutOfMemory,
        }
    }

    // Closes the queue.
    pub(crate) fn unsubscribe(&mut self, by: u64, shard: &mut Shard, key: &Key) -> StepAnswer
        requires { SlotsOpen by (queues_of shard.old) (queue_slots_of self.old) }
        ensures dispatches { DispatchesAct by (one_step_of_shard shard.old) (session_state_of
            (queues_of shard.old) self.old)
            (unsubscribe (plain_key key.now))
            (plain_step_answer result) (one_step_of_shard shard.new) (session_state_of (queues_of shard.new) self.new) }
        ensures other_queues_unchanged { OtherQueuesUnchanged by (queues_of shard.old) (queue_slots_of self.old)
            (queues_of shard.new) (queue_slots_of self.new) }
        ensures attempt_unchanged { self.new.attempt ≡ self.old.attempt }
        ensures logs_unchanged { logs_of shard.new ≡ logs_of shard.old }
        ensures caches_unchanged { caches_of shard.new ≡ caches_of shard.old }
    {
        let Some(id) = queue_of(&self.slots, key) else {
            return StepAnswer::Idle;
        };
        shard.unsubscribe(key, by, id);
        drop_slot(&mut self.slots, key);
        StepAnswer::Unsubscribed
    }
}

// Closes a queue of the key, if there is one.
fn close_queue(shard: &mut Shard, by: u64, key: &Key, queue: Option<SubId>)
    ensures queues { queues_of shard.new ≡
        with_queues (queues_of shard.old) (plain_key key.now)
        (close_in by queue (queues_of shard.old (plain_key key.now))) }
    ensures logs_unchanged { logs_of shard.new ≡ logs_of shard.old }
    ensures caches_unchanged { caches_of shard.new ≡ caches_of shard.old }
{
    match queue {
        Some(id) => shard.unsubscribe(key, by, id),
        None => {}
    }
}

// Returns the answer for a subscribe that the shard refuses.
fn refused_start(code: Code) -> StepAnswer
    ensures { plain_step_answer result ≡ start_refusal_answer code }
{
    match code {
        Code::E10 => StepAnswer::OutOfMemory,
        code => StepAnswer::Subscribed(Err(code)),
    }
}
