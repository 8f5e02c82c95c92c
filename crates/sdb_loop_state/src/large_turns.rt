//! Turns of clients with much unanswered input.
use std::array;
use std::sync::atomic::{AtomicU64, Ordering};

/// Number of bytes of unanswered input from which a client's turn is a large one.
pub const LARGE_INPUT: usize = 64 * 1_024;

/// Number of places of large turns. A message takes up to 170 times its length while it is answered.
pub const LARGE_TURN_LIMIT: usize = 2;

// Maximum number of large turns that last, also those whose places were given to others: 6 times 170 MB
// are 16 MB for each of 64 clients.
const LASTING_LIMIT: u64 = 6;

// Milliseconds after which the place of a turn is given to another one. So clients whose turns take
// long don't stop all others.
const PLACE_LIMIT_MS: u64 = 1_000;

/// A place of a large turn.
#[derive(Clone, Copy, Drop)]
pub struct LargeTurn {
    place: usize,
    begin: u64,
}

/// The large turns of a server. Each has a place for a second, and there are few places.
#[derive(Drop)]
pub struct LargeTurns {
    // For each place 0, or one more than the millisecond in which it was taken.
    begins: [AtomicU64; LARGE_TURN_LIMIT],
    // Number of turns that haven't ended.
    lasting: AtomicU64,
}

// Returns whether a place is free, or was taken long ago.
fn is_free(begin: u64, millis: u64) -> bool {
    begin == 0 || millis.saturating_sub(begin) >= PLACE_LIMIT_MS
}

impl LargeTurns {
    /// Creates it without turns.
    pub fn new() -> LargeTurns {
        LargeTurns {
            begins: array::from_fn(|_| AtomicU64::new(0)),
            lasting: AtomicU64::new(0),
        }
    }

    /// Returns whether a place is free in this millisecond.
    pub fn has_place(&self, millis: u64) -> bool {
        self.lasting.load(Ordering::SeqCst) < LASTING_LIMIT
            && self
                .begins
                .iter()
                .any(|begin| is_free(begin.load(Ordering::SeqCst), millis))
    }

    /// Takes a place, if one is free in this millisecond.
    pub fn begin(&self, millis: u64) -> Option<LargeTurn> {
        let before = self.lasting.fetch_add(1, Ordering::SeqCst);
        let turn = if before < LASTING_LIMIT {
            self.take_place(millis)
        } else {
            None
        };
        if turn.is_none() {
            self.lasting.fetch_sub(1, Ordering::SeqCst);
        }
        turn
    }

    fn take_place(&self, millis: u64) -> Option<LargeTurn> {
        let begin = millis.saturating_add(1);
        for (place, taken) in self.begins.iter().enumerate() {
            let before = taken.load(Ordering::SeqCst);
            if is_free(before, millis)
                && taken
                    .compare_exchange(before, begin, Ordering::SeqCst, Ordering::SeqCst)
                    .is_ok()
            {
                return Some(LargeTurn { place, begin });
            }
        }
        None
    }

    /// Ends a turn, and frees its place unless that was given to another one.
    pub fn end(&self, turn: LargeTurn) {
        self.lasting.fetch_sub(1, Ordering::SeqCst);
        if let Some(taken) = self.begins.get(turn.place) {
            let _ = taken.compare_exchange(turn.begin, 0, Ordering::SeqCst, Ordering::SeqCst);
        }
    }
}
