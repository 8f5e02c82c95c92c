//! The slot of a loop, from which any thread can continue it.
use std::alloc::{AllocError, Global};
use std::sync::atomic::{AtomicBool, AtomicU64, Ordering};
use std::sync::{Mutex, Wait};

/// The slot of a loop. A thread that runs the loop moves it into the slot while it serves a client.
/// If that takes long, another thread moves it out and continues it. `L` is a loop, and `T` a turn that
/// has ended.
#[derive(Drop)]
pub struct LoopSlot<L, T> {
    event_loop: Mutex<Option<Box<L>>>,
    // Number of moves into the slot and out of it. It is odd while the loop is in the slot.
    move_count: AtomicU64,
    // Whether the loop waits for a thread that continues it.
    is_assigned: AtomicBool,
    // Turns that ended while another thread ran the loop.
    ended_turns: Mutex<Vec<T>>,
    has_ended_turns: AtomicBool,
}

impl<L: Drop, T: Drop> LoopSlot<L, T> {
    /// Creates a slot without a loop, for at most this number of turns at once. Fails only if an
    /// allocation fails.
    pub fn new(alloc: Global, turns: usize) -> Result<LoopSlot<L, T>, AllocError> {
        Ok(LoopSlot {
            event_loop: Mutex::new(None),
            move_count: AtomicU64::new(0),
            is_assigned: AtomicBool::new(true),
            ended_turns: Mutex::new(Vec::with_capacity(alloc, turns)?),
            has_ended_turns: AtomicBool::new(false),
        })
    }

    /// Moves the loop into the slot.
    pub fn put<W: Wait>(&self, rt: &W, event_loop: Box<L>) {
        let mut place = self.event_loop.lock(rt);
        *place = Some(event_loop);
        self.move_count.fetch_add(1, Ordering::SeqCst);
    }

    /// Moves the loop out of the slot, if it is there.
    pub fn take<W: Wait>(&self, rt: &W) -> Option<Box<L>> {
        let mut place = self.event_loop.lock(rt);
        let event_loop = place.take();
        if event_loop.is_some() {
            self.move_count.fetch_add(1, Ordering::SeqCst);
        }
        event_loop
    }

    /// Returns the number of moves, which is odd while the loop is in the slot.
    pub fn move_count(&self) -> u64 {
        self.move_count.load(Ordering::SeqCst)
    }

    /// Records that the loop waits for a thread. Returns whether it didn't before.
    pub fn assign(&self) -> bool {
        !self.is_assigned.swap(true, Ordering::SeqCst)
    }

    /// Records that a thread continues the loop.
    pub fn end_assignment(&self) {
        self.is_assigned.store(false, Ordering::SeqCst);
    }

    /// Adds a turn that ended while another thread ran the loop.
    pub fn add_ended_turn<W: Wait>(&self, rt: &W, turn: T) {
        // Can't fail: the list has capacity for all turns.
        let _ = self.ended_turns.lock(rt).push(turn);
        self.has_ended_turns.store(true, Ordering::SeqCst);
    }

    /// Returns whether turns were added since the last call of
    /// [`take_ended_turn`](LoopSlot::take_ended_turn) that returned none.
    pub fn has_ended_turns(&self) -> bool {
        self.has_ended_turns.load(Ordering::SeqCst)
    }

    /// Returns a turn that ended while another thread ran the loop, if there is one.
    pub fn take_ended_turn<W: Wait>(&self, rt: &W) -> Option<T> {
        let mut turns = self.ended_turns.lock(rt);
        let turn = turns.pop();
        if turn.is_none() {
            self.has_ended_turns.store(false, Ordering::SeqCst);
        }
        turn
    }
}
