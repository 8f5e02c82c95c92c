//! The numbers of loops and clients.

/// Maximum number of loops.
pub const LOOP_LIMIT: usize = 64;

/// Maximum number of clients that the loops serve at once.
pub const LOOP_CLIENT_LIMIT: usize = 16_384;

/// Number of clients that the loops serve at once by default.
pub const DEFAULT_LOOP_CLIENTS: usize = 64;

/// The numbers of loops and clients of a server.
#[derive(Clone, Copy, PartialEq, Eq, Drop)]
pub struct LoopOptions {
    /// Number of loops, each on its own thread: 1 to [`LOOP_LIMIT`].
    pub loops: usize,
    /// Maximum number of clients served at once: 1 to [`LOOP_CLIENT_LIMIT`].
    pub clients: usize,
}

impl LoopOptions {
    /// Returns the options with each number set to the nearest permitted one.
    pub fn clamped(self) -> LoopOptions {
        LoopOptions {
            loops: self.loops.clamp(1, LOOP_LIMIT),
            clients: self.clients.clamp(1, LOOP_CLIENT_LIMIT),
        }
    }
}
