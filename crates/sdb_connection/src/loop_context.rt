//! What all loops of a run share.
ghost use Rattle.std.specs.Prelude.{◌≡◌, IfOk};
ghost use Rattle.sdb_connection.specs.PassLocks.{NamesBackend};

use crate::loop_pass::{LoopPass, PassBrand};
use crate::loop_server::LoopServer;
use crate::pass_supply::PassSupply;
use sdb_link::{LoopTime, ServerStatus, Tally};
use sdb_loop_state::{DocumentGroup, LoopState};
use sdb_session::Policy;
use std::alloc::{AllocError, Global};
use std::sync::{Arc, Wait};

/// The runtime, the state of the server and the supply of passes.
#[derive(Drop)]
pub struct LoopContext<R, P, B: PassBrand> {
    pub rt: R,
    pub state: Arc<LoopServer<R, P>, Global>,
    pub supply: Arc<PassSupply<B>, Global>,
    ghost names_backend: { NamesBackend B.locks state.value.backend },
}

impl<R: Copy, P: Policy + Drop, B: PassBrand> LoopContext<R, P, B> {
    /// Creates the context of a run. Fails only if an allocation fails.
    pub fn new(
        rt: R,
        alloc: Global,
        state: &Arc<LoopServer<R, P>, Global>,
    ) -> Result<LoopContext<R, P, B>, AllocError>
        requires { NamesBackend B.locks state.now.value.backend }
        ensures { IfOk result (λ c. c.state.value ≡ state.now.value) }
    {
        let state = Arc::try_clone(state)?;
        let supply = PassSupply::new(alloc, state.loops.ports.count())?;
        let supply = Arc::new(alloc, supply)?;
        Ok(LoopContext { rt, state, supply })
    }

    /// Returns another context of the run. Fails only if there are too many.
    pub fn try_clone(&self) -> Result<LoopContext<R, P, B>, AllocError>
        ensures { IfOk result (λ c. c.state.value ≡ self.now.state.value) }
    {
        let state = Arc::try_clone(&self.state)?;
        let supply = Arc::try_clone(&self.supply)?;
        Ok(LoopContext {
            rt: self.rt,
            state,
            supply,
        })
    }
}

impl<R, P, B: PassBrand> LoopContext<R, P, B> {
    /// Returns the state of the loops.
    pub fn loops(&self) -> &LoopState {
        &self.state.loops
    }

    /// Adds what turns have done to the server's metrics, and empties their tally.
    pub fn add_to_metrics(&self, tally: &mut Tally) {
        self.state.metrics.add(tally);
    }

    /// Returns the state of the server at this time of a loop.
    pub fn status(&self, time: LoopTime) -> ServerStatus {
        self.state.status(time)
    }
}

impl<R: Wait, P, B: PassBrand> LoopContext<R, P, B> {
    /// Records that a connection was accepted, and lets the next loop accept one.
    pub fn record_accept(&self, number: usize) {
        self.state.loops.flags.set_accept_failing(false);
        self.state.loops.pass_accept_turn(&self.rt, number);
    }

    /// Returns a pass that was never used. If there is none, one is created soon, and the loops are
    /// woken.
    pub fn pop_pass(&self) -> Option<LoopPass<B>> {
        let pass = self.supply.pop(&self.rt);
        if pass.is_none() {
            self.supply.request();
        }
        self.state.loops.supplier().unpark();
        pass
    }

    /// Returns whether there is a pass, or none can be created.
    pub fn has_pass_or_failure(&self) -> bool {
        self.supply.has_pass_or_failure(&self.rt)
    }

    /// Wakes each loop that has a subscriber of the group of a stored operation, if there is one.
    pub fn notify(&self, stored: Option<DocumentGroup>) {
        if let Some(group) = stored {
            self.state.loops.ports.notify(&self.rt, group);
        }
    }

    /// Lets all loops check all their subscribers, since an operation may have been stored whose
    /// acknowledgement wasn't written.
    pub fn notify_all(&self) {
        self.state.loops.ports.notify_all(&self.rt);
    }
}
