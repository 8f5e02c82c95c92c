//! Detecting turns that take long.
use crate::loop_slots::LoopSlots;
use std::sync::Wait;
use std::thread;
use std::time::{Clock, Duration};

// Milliseconds after which another thread continues the loop of a turn: at least once, and less
// than twice this.
const WATCH_MS: u64 = 5;

// Number of times that the watcher sees no turn before it parks until the next one.
const QUIET_LIMIT: u32 = 200;

/// Watches the slots until all loops have ended: lets another thread continue each loop whose turn
/// takes long. `seen` has a zero for each loop.
pub fn watch_loops<R: Wait + Clock, L: Drop, T: Drop, K: Drop>(
    rt: &R,
    slots: &LoopSlots<L, T, K>,
    mut seen: Vec<u64>,
) {
    let mut quiet: u32 = 0;
    for _ in rt.forever() {
        if slots.have_ended() {
            return;
        }
        if slots.watch(rt, &mut seen) {
            quiet = 0;
        } else {
            quiet = quiet.saturating_add(1);
        }
        if quiet < QUIET_LIMIT {
            thread::sleep(rt, Duration::from_millis(WATCH_MS));
        } else {
            slots.await_turn(rt, &mut seen);
            quiet = 0;
        }
    }
    unreachable!()
}
