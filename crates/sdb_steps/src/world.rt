//! The world of 64 sessions.
ghost use Rattle.std.specs.Prelude.{◌≡◌, IfOk};
ghost use Rattle.sdb_steps.specs.WorldView.{plain_world, empty_world, IsWorldStep, one_step_of_world};
ghost use Rattle.sdb_steps.specs.View.{plain_session_step, plain_step_answer};

use crate::step::{Step, StepAnswer};
use crate::world_state::WorldState;
use sdb_dump::DumpSource;
use sdb_oplog::{Key, Log};
use std::alloc::{AllocError, Global};

/// All documents and 64 sessions, each with at most one attempt and at most one queue per document.
#[derive(Drop)]
pub struct World {
    state: WorldState,
}

impl World {
    /// Creates a world without logs, attempts and queues.
    ///
    /// # Errors
    ///
    /// [`AllocError`] if an allocation fails.
    ///
    /// ```
    /// let mut world = World::new(alloc)?;
    /// let fetch = read_step(alloc, r#"{"s":7,"do":"fetch","c":"b","d":"1"}"#)?;
    /// let answer = world.step(fetch);
    /// assert!(rt; matches!(answer, StepAnswer::Fetched(found) if found.version == 0));
    /// ```
    pub fn new(alloc: Global) -> Result<World, AllocError>
        ensures { IfOk result (λ w. plain_world w ≡ empty_world) }
    {
        Ok(World {
            state: WorldState::new(alloc)?,
        })
    }

    /// Runs one step. If an allocation fails, nothing changes, except for the order of use in a
    /// snapshot cache.
    pub fn step(&mut self, step: Step) -> StepAnswer
        ensures { IsWorldStep (plain_world self.old) (plain_session_step step)
            (plain_step_answer result) (plain_world self.new) }
    {
        self.state.step(&step)
    }

    // Runs one borrowed step.
    pub(crate) fn apply_step(&mut self, step: &Step) -> StepAnswer
        ensures { IsWorldStep (plain_world self.old) (plain_session_step step.now)
            (plain_step_answer result) (plain_world self.new) }
    {
        self.state.step(step)
    }
}

impl DumpSource for World {
    ghost logs = { λ w. (one_step_of_world w).logs };

    fn keys(&self) -> Result<Vec<Key>, AllocError> {
        self.state.shard.documents()
    }

    fn log(&self, key: &Key) -> Option<&Log> {
        self.state.shard.log(key)
    }
}
