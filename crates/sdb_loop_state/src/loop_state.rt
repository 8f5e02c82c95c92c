//! The state that all loops of a server share.
use crate::client_counts::ClientCounts;
use crate::large_turns::{LargeTurn, LargeTurns};
use crate::loop_options::LoopOptions;
use crate::loop_ports::LoopPorts;
use crate::loop_settings::LoopSettings;
use crate::server_flags::ServerFlags;
use std::alloc::{AllocError, Global};
use std::sync::Wait;
use std::thread::Parker;

/// The state that all loops of a server share, besides its documents.
#[derive(Drop)]
pub struct LoopState {
    pub settings: LoopSettings,
    pub flags: ServerFlags,
    pub counts: ClientCounts,
    pub ports: LoopPorts,
    pub large_turns: LargeTurns,
    // The thread that supplies passes parks here.
    supplier: Parker,
}

impl LoopState {
    /// Creates the state of a server without clients. Each number of the options is set to the nearest
    /// permitted one.
    ///
    /// # Errors
    ///
    /// [`AllocError`] if an allocation fails.
    pub fn new(alloc: Global, options: LoopOptions) -> Result<LoopState, AllocError> {
        let options = options.clamped();
        Ok(LoopState {
            settings: LoopSettings::new(),
            flags: ServerFlags::new(),
            counts: ClientCounts::new(options.clients),
            ports: LoopPorts::new(alloc, options.loops)?,
            large_turns: LargeTurns::new(),
            supplier: Parker::new(),
        })
    }

    /// Parks the thread that supplies passes at this.
    pub fn supplier(&self) -> &Parker {
        &self.supplier
    }

    /// Prepares a run of the loops, which begins with [`open`](LoopState::open).
    pub fn prepare(&self) {
        self.flags.prepare();
        self.counts.reset();
    }

    /// Allows the loops to accept connections.
    pub fn open<W: Wait>(&self, rt: &W) {
        self.flags.open();
        self.ports.wake_all(rt);
    }

    /// Makes the loops end.
    pub fn end<W: Wait>(&self, rt: &W) {
        self.flags.end();
        self.ports.wake_all(rt);
    }

    /// Stops the server. A stop is final.
    pub fn stop<W: Wait>(&self, rt: &W) {
        self.flags.stop();
        self.end(rt);
        self.supplier.unpark();
    }

    /// Wakes all loops and the thread that supplies passes.
    pub fn wake_everyone<W: Wait>(&self, rt: &W) {
        self.ports.wake_all(rt);
        self.supplier.unpark();
    }

    /// Counts a client less after its session. Stops the server if that was the last one.
    pub fn end_client<W: Wait>(&self, rt: &W) {
        if self.counts.end_client() {
            self.stop(rt);
        }
    }

    /// Lets the loop after this one accept the next connection.
    pub fn pass_accept_turn<W: Wait>(&self, rt: &W, number: usize) {
        let next = number.saturating_add(1) % self.ports.count().max(1);
        self.flags.set_accept_turn(next);
        if next != number {
            self.ports.wake(rt, next);
        }
    }

    /// Ends a large turn. Clients that wait for its place are served next.
    pub fn end_large_turn<W: Wait>(&self, rt: &W, turn: LargeTurn) {
        self.large_turns.end(turn);
        self.ports.wake_all(rt);
    }

    /// Counts a connection less. If there was no room for more, the loop whose turn it is accepts
    /// one.
    pub fn remove_connection<W: Wait>(&self, rt: &W) {
        if self.counts.remove_connection() {
            self.ports.wake(rt, self.flags.accept_turn());
        }
    }
}
