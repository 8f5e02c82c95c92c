//! The state of a world.
ghost use Rattle.std.specs.Prelude.{◌≡◌, ℕ, [], length, IfOk};
ghost use Rattle.sdb_oplog.specs.Keys.{PlainKey, no_logs};
ghost use Rattle.sdb_desk.specs.ShardView.{logs_of, caches_of, queues_of};
ghost use Rattle.sdb_desk.specs.Machine.{no_queues};
ghost use Rattle.sdb_steps.specs.Caches.{CachesAfterAct};
ghost use Rattle.sdb_steps.specs.Picks.{empty_sessions};
ghost use Rattle.sdb_steps.specs.Runs.{IsStep};
ghost use Rattle.sdb_steps.specs.StateView.{one_step_of_shard, session_states_of, queue_slots_at, count_slots, count_queues};
ghost use Rattle.sdb_steps.specs.Slots.{SlotsOpen, SlotsDisjoint};
ghost use Rattle.sdb_steps.specs.LookInvariant.{AllHaveLookAt};
ghost use Rattle.sdb_steps.specs.LookInvariantProps.{AllLooked-prop};
ghost use Rattle.sdb_steps.specs.View.{plain_session_step, plain_step_answer};

use crate::dispatch::dispatch;
use crate::session_data::Session;
use crate::session_number::SESSION_LIMIT;
use crate::step::{Step, StepAnswer};
use sdb_desk::Shard;
use std::alloc::{AllocError, Global};

// All documents and sessions. Each queue in a slot is open under its session's number, no two
// sessions share a queue, and no other queue is open. Each attempt's look is a look at its key's log
// or at a prefix of it.
#[derive(Drop)]
pub(crate) struct WorldState {
    alloc: Global,
    pub shard: Shard,
    pub sessions: Vec<Session>,
    ghost all: { length sessions.items ≡ 64 },
    ghost slots_open: { (i : ℕ) → SlotsOpen i (queues_of shard) (queue_slots_at sessions.items i) },
    ghost apart: { SlotsDisjoint (queue_slots_at sessions.items) },
    ghost counted: { (k : PlainKey)
        → length (queues_of shard k).queues ≡ count_slots sessions.items k },
    ghost looked: { AllHaveLookAt (logs_of shard) sessions.items } by { AllLooked-prop (logs_of shard) sessions.items },
}

impl WorldState {
    pub(crate) fn new(alloc: Global) -> Result<WorldState, AllocError>
        ensures logs { IfOk result (λ p. logs_of p.shard ≡ no_logs) }
        ensures queues { IfOk result (λ p. queues_of p.shard ≡ (λ k. no_queues)) }
        ensures sessions { IfOk result (λ p. session_states_of (queues_of p.shard) p.sessions.items ≡ empty_sessions) }
        ensures caches { IfOk result (λ p. caches_of p.shard ≡ (λ k. [])) }
    {
        let mut sessions = Vec::new(alloc);
        for _ in 0..SESSION_LIMIT {
            sessions.push(Session::new(alloc))?;
        }
        Ok(WorldState {
            alloc,
            shard: Shard::new(alloc),
            sessions,
        })
    }

    pub(crate) fn step(&mut self, step: &Step) -> StepAnswer
        ensures step { IsStep (one_step_of_shard self.old.shard) (session_states_of
            (queues_of self.old.shard) self.old.sessions.items)
            (plain_session_step step.now) (plain_step_answer result)
            (one_step_of_shard self.new.shard) (session_states_of (queues_of self.new.shard) self.new.sessions.items) }
        ensures caches { CachesAfterAct (logs_of self.old.shard) (plain_session_step step.now).act
            (plain_step_answer result) (caches_of self.old.shard) (caches_of self.new.shard) }
        ensures queues { (k : PlainKey) → length (queues_of self.new.shard k).queues
            ≡ count_queues (session_states_of (queues_of self.new.shard) self.new.sessions.items) k 0 64 }
    {
        let number = step.session().number as usize;
        dispatch(
            self.alloc,
            &mut self.shard,
            &mut self.sessions[number],
            step,
        )
    }
}
