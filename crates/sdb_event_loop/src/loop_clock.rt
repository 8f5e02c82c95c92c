//! The clock of a loop.
use sdb_link::LoopTime;
use sdb_server::{Clock as MomentClock, SystemClock};
use std::time::{Clock, Instant};

// Milliseconds after which a loop ends while the server is shutting down, and after which it closes
// clients whose output isn't saved.
const END_LIMIT_MS: u64 = 1_500;

const HOLD_END_MS: u64 = 1_000;

// Longest wait in milliseconds, and while the server is shutting down.
const WAIT_MS: u64 = 1_000;

const ENDING_WAIT_MS: u64 = 100;

/// The time of a loop's pass, of its last sweep, and of the begin of its end.
#[derive(Drop)]
pub(crate) struct LoopClock {
    pub(crate) time: LoopTime,
    start: Option<Instant>,
    last_sweep: u64,
    // The millisecond in which the loop began to end. From then on sweeps are counted in tenths.
    ending_since: Option<u64>,
}

impl LoopClock {
    /// Creates the clock of a loop that begins now.
    pub(crate) fn new<R: Clock>(rt: &R) -> LoopClock {
        LoopClock {
            time: LoopTime {
                second: 0,
                millis: 0,
                moment_millis: 0,
            },
            start: Instant::now(rt).ok(),
            last_sweep: 0,
            ending_since: None,
        }
    }

    /// Reads the clocks for a pass.
    pub(crate) fn read<R: Clock>(&mut self, rt: &R) {
        if let (Some(start), Ok(now)) = (self.start, Instant::now(rt)) {
            let elapsed = now.saturating_duration_since(start);
            self.time.second = elapsed.as_secs();
            self.time.millis = u64::try_from(elapsed.as_millis()).unwrap_or(u64::MAX);
        }
        self.time.moment_millis = SystemClock::new(rt).now().milliseconds();
    }

    /// Returns the second of the pass.
    pub(crate) fn second(&self) -> u64 {
        self.time.second
    }

    /// Returns whether the loop has begun to end.
    pub(crate) fn is_ending(&self) -> bool {
        self.ending_since.is_some()
    }

    /// Returns whether the server is shutting down for a second, so that no output is held any longer.
    pub(crate) fn ends_holds(&self) -> bool {
        match self.ending_since {
            Some(since) => self.time.millis.saturating_sub(since) >= HOLD_END_MS,
            None => false,
        }
    }

    /// Begins the sweep of this second, or of this tenth of a second while the server is shutting down.
    /// Returns `false` if it was begun before. A loop that begins to end sweeps in any case.
    pub(crate) fn begin_sweep(&mut self, begins_end: bool) -> bool {
        if begins_end {
            self.ending_since = Some(self.time.millis);
        }
        let tick = match self.ending_since {
            Some(_) => self.time.millis / ENDING_WAIT_MS,
            None => self.time.second,
        };
        let is_new = begins_end || self.last_sweep != tick;
        self.last_sweep = tick;
        is_new
    }

    /// Returns the longest wait in milliseconds.
    pub(crate) fn longest_wait(&self) -> u64 {
        match self.ending_since {
            Some(_) => ENDING_WAIT_MS,
            None => WAIT_MS,
        }
    }

    /// Returns whether a loop that begins to end has ended: it has no connections, or they had their
    /// time and no turn lasts.
    pub(crate) fn is_over(&self, has_connections: bool, has_turns: bool) -> bool {
        match self.ending_since {
            Some(since) => {
                let millis = self.time.millis.saturating_sub(since);
                !has_connections || millis >= END_LIMIT_MS && !has_turns
            }
            None => false,
        }
    }
}
