//! The deadlines of a served client, in seconds of its loop.
use crate::loop_buffers::LoopTime;
use crate::session_end::SessionEnd;

// Seconds of silence before a ping, and before the connection is closed.
const SILENCE_LIMIT_BEFORE_PING: u64 = 60;

const SILENCE_LIMIT: u64 = 120;

// Seconds that a message may take.
const MESSAGE_LIMIT_SECONDS: u64 = 41;

/// Seconds that a write may take without progress.
pub const WRITE_LIMIT_SECONDS: u64 = 10;

/// Seconds that output may be held, and that a client may wait for its number.
pub const SAVE_LIMIT_SECONDS: u64 = 30;

/// The seconds in which a client last made progress.
#[derive(Drop)]
pub struct Deadlines {
    // The last message, ping or pong.
    last_message: u64,
    // The last time that the socket took output.
    last_write: u64,
    // The begin of a message that isn't complete.
    message_start: Option<u64>,
    // The time since which output is held. Meanwhile only the end of the hold is due.
    hold_start: Option<LoopTime>,
    // The second since which the client waits for the place of a large turn. Nothing is due then.
    wait_start: Option<u64>,
    is_pinged: bool,
}

/// What is due in a second.
#[derive(Clone, Copy, Drop)]
pub enum DueAction {
    Nothing,
    Ping,
    End(SessionEnd),
}

impl Deadlines {
    /// Creates the deadlines of a client whose handshake ends in this second.
    pub fn new(second: u64) -> Deadlines {
        Deadlines {
            last_message: second,
            last_write: second,
            message_start: None,
            hold_start: None,
            wait_start: None,
            is_pinged: false,
        }
    }

    /// Records a complete message, ping or pong.
    pub fn record_message(&mut self, second: u64) {
        self.last_message = second;
        self.is_pinged = false;
    }

    /// Records that no message has begun.
    pub fn end_message(&mut self) {
        self.message_start = None;
    }

    /// Records that a message has begun.
    pub fn begin_message(&mut self, second: u64) {
        if self.message_start.is_none() {
            self.message_start = Some(second);
        }
    }

    /// Records that the socket took output, or that output became pending.
    pub fn record_write(&mut self, second: u64) {
        self.last_write = second;
    }

    /// Records that output is held.
    pub fn begin_hold(&mut self, time: LoopTime) {
        if self.hold_start.is_none() {
            self.hold_start = Some(time);
        }
    }

    /// Records that no output is held, and returns for how many milliseconds it was. The time of the
    /// hold doesn't count, since the client wasn't read from.
    pub fn end_hold(&mut self, time: LoopTime) -> u64 {
        let start = self.hold_start.take().unwrap_or(time);
        self.exclude(Some(start.second), time.second);
        self.last_write = time.second;
        time.millis.saturating_sub(start.millis)
    }

    /// Records that the client waits for a place.
    pub fn begin_wait(&mut self, second: u64) {
        if self.wait_start.is_none() {
            self.wait_start = Some(second);
        }
    }

    /// Records that the client doesn't wait for a place. The time of the wait doesn't count.
    pub fn end_wait(&mut self, second: u64) {
        let start = self.wait_start.take();
        self.exclude(start, second);
    }

    // Makes the time from this second on not count.
    fn exclude(&mut self, start: Option<u64>, second: u64) {
        let excluded = second.saturating_sub(start.unwrap_or(second));
        self.last_message = self.last_message.saturating_add(excluded);
        if let Some(start) = self.message_start {
            self.message_start = Some(start.saturating_add(excluded));
        }
    }

    /// Returns what is due. A ping is due once for each silence.
    pub fn next_action(&mut self, second: u64, has_pending_output: bool) -> DueAction {
        if let Some(start) = self.hold_start {
            return match second.saturating_sub(start.second) >= SAVE_LIMIT_SECONDS {
                true => DueAction::End(SessionEnd::Unsaved),
                false => DueAction::Nothing,
            };
        }
        if self.wait_start.is_some() {
            return DueAction::Nothing;
        }
        if has_pending_output {
            return match second.saturating_sub(self.last_write) > WRITE_LIMIT_SECONDS {
                true => DueAction::End(SessionEnd::Lost),
                false => DueAction::Nothing,
            };
        }
        let is_slow = match self.message_start {
            Some(start) => second.saturating_sub(start) > MESSAGE_LIMIT_SECONDS,
            None => false,
        };
        if is_slow {
            return DueAction::End(SessionEnd::Slow);
        }
        let silence = second.saturating_sub(self.last_message);
        if silence > SILENCE_LIMIT {
            return DueAction::End(SessionEnd::Silent);
        }
        if silence > SILENCE_LIMIT_BEFORE_PING && !self.is_pinged {
            self.is_pinged = true;
            return DueAction::Ping;
        }
        DueAction::Nothing
    }
}
