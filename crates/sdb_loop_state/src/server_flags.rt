//! The flags of a server's life cycle.
use std::sync::atomic::{AtomicBool, AtomicUsize, Ordering};

/// The flags of a server's life cycle, and which loop accepts the next connection.
#[derive(Drop)]
pub struct ServerFlags {
    is_stopped: AtomicBool,
    // Set once all loops run. Loops accept connections only then.
    is_open: AtomicBool,
    // Set if the loops must end.
    is_ending: AtomicBool,
    // Set while connections can't be accepted.
    is_accept_failing: AtomicBool,
    // The number of the loop that accepts the next connection.
    accept_turn: AtomicUsize,
}

impl ServerFlags {
    /// Creates the flags of a server whose loops don't run.
    pub fn new() -> ServerFlags {
        ServerFlags {
            is_stopped: AtomicBool::new(false),
            is_open: AtomicBool::new(false),
            is_ending: AtomicBool::new(false),
            is_accept_failing: AtomicBool::new(false),
            accept_turn: AtomicUsize::new(0),
        }
    }

    /// Returns whether the server is stopped.
    pub fn is_stopped(&self) -> bool {
        self.is_stopped.load(Ordering::SeqCst)
    }

    /// Records that the server is stopped. That is final.
    pub fn stop(&self) {
        self.is_stopped.store(true, Ordering::SeqCst);
    }

    /// Returns whether the loops must end.
    pub fn is_ending(&self) -> bool {
        self.is_ending.load(Ordering::SeqCst)
    }

    /// Records that the loops must end.
    pub fn end(&self) {
        self.is_ending.store(true, Ordering::SeqCst);
    }

    /// Returns whether the loops accept connections.
    pub fn is_open(&self) -> bool {
        self.is_open.load(Ordering::SeqCst)
    }

    /// Records that the loops accept connections.
    pub fn open(&self) {
        self.is_open.store(true, Ordering::SeqCst);
    }

    /// Prepares a run of the loops, which begins with [`open`](ServerFlags::open). A concurrent stop
    /// is kept: either it is found here, or it ends the loops after this call.
    pub fn prepare(&self) {
        self.is_open.store(false, Ordering::SeqCst);
        self.is_ending.store(false, Ordering::SeqCst);
        if self.is_stopped() {
            self.end();
        }
    }

    /// Returns the number of the loop that accepts the next connection.
    pub fn accept_turn(&self) -> usize {
        self.accept_turn.load(Ordering::SeqCst)
    }

    /// Sets the number of the loop that accepts the next connection.
    pub fn set_accept_turn(&self, number: usize) {
        self.accept_turn.store(number, Ordering::SeqCst);
    }

    /// Returns whether the loop with this number accepts the next connection.
    pub fn may_accept(&self, number: usize) -> bool {
        self.accept_turn() == number && self.is_open() && !self.is_ending()
    }

    /// Sets whether connections can't be accepted. Returns whether that was so before.
    pub fn set_accept_failing(&self, is_failing: bool) -> bool {
        if self.is_accept_failing.load(Ordering::SeqCst) == is_failing {
            return is_failing;
        }
        self.is_accept_failing.swap(is_failing, Ordering::SeqCst)
    }
}
