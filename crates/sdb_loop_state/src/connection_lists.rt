//! The lists of a loop's connections.
use std::alloc::Global;
use std::collections::VecDeque;

/// The keys of the connections that a loop reads from next, whose queues it reads next, and that wait.
#[derive(Drop)]
pub struct ConnectionLists {
    alloc: Global,
    ready: VecDeque<usize>,
    lagging: Vec<usize>,
    // They wait for a pass.
    awaiting: Vec<usize>,
    // They wait for the place of a large turn.
    awaiting_place: VecDeque<usize>,
    // Their output is held. The list has a number, 1 or more, that each listed connection has too.
    held: Vec<usize>,
    held_number: u64,
    // The number of the last committed round when the list was last compared with it. Each listed
    // connection waits for a later round.
    seen_round: u64,
}

impl ConnectionLists {
    /// Creates empty lists.
    pub fn new(alloc: Global) -> ConnectionLists {
        ConnectionLists {
            alloc,
            ready: VecDeque::new(alloc),
            lagging: Vec::new(alloc),
            awaiting: Vec::new(alloc),
            awaiting_place: VecDeque::new(alloc),
            held: Vec::new(alloc),
            held_number: 1,
            seen_round: 0,
        }
    }

    /// Returns whether a connection is ready or lags.
    pub fn has_work(&self) -> bool {
        !self.ready.is_empty() || !self.lagging.is_empty()
    }

    /// Returns the number of connections that are read from next.
    pub fn ready_count(&self) -> usize {
        self.ready.len()
    }

    /// Adds a connection that is read from next. Returns `false` if an allocation fails.
    pub fn add_ready(&mut self, key: usize) -> bool {
        self.ready.push_back(key).is_ok()
    }

    /// Removes the connection that is read from next.
    pub fn next_ready(&mut self) -> Option<usize> {
        self.ready.pop_front()
    }

    /// Adds a connection whose queues are read next. Returns `false` if an allocation fails.
    pub fn add_lagging(&mut self, key: usize) -> bool {
        self.lagging.push(key).is_ok()
    }

    /// Moves out the connections whose queues are read next.
    pub fn take_lagging(&mut self) -> Vec<usize> {
        std::mem::replace(&mut self.lagging, Vec::new(self.alloc))
    }

    /// Adds a connection that waits for a pass. Returns `false` if an allocation fails.
    pub fn add_awaiting(&mut self, key: usize) -> bool {
        self.awaiting.push(key).is_ok()
    }

    /// Returns whether a connection waits for a pass.
    pub fn has_awaiting(&self) -> bool {
        !self.awaiting.is_empty()
    }

    /// Moves out the connections that wait for a pass.
    pub fn take_awaiting(&mut self) -> Vec<usize> {
        std::mem::replace(&mut self.awaiting, Vec::new(self.alloc))
    }

    /// Adds a connection that waits for a place.
    pub fn add_awaiting_place(&mut self, key: usize) {
        if self.awaiting_place.push_back(key).is_err() {
            // Can't fail: the connection was just removed from this list.
            let _ = self.ready.push_back(key);
        }
    }

    /// Returns whether a connection waits for a place.
    pub fn has_awaiting_place(&self) -> bool {
        !self.awaiting_place.is_empty()
    }

    /// Removes the next connection that waits for a place.
    pub fn next_awaiting_place(&mut self) -> Option<usize> {
        self.awaiting_place.pop_front()
    }

    /// Returns the number of the list of connections whose output is held.
    pub fn held_number(&self) -> u64 {
        self.held_number
    }

    /// Adds a connection whose output is held. Returns `false` if an allocation fails.
    pub fn add_held(&mut self, key: usize) -> bool {
        self.held.push(key).is_ok()
    }

    /// Begins a new list of connections whose output is held. Returns the last one.
    pub fn begin_held(&mut self) -> Vec<usize> {
        self.held_number = self.held_number.saturating_add(1);
        std::mem::replace(&mut self.held, Vec::new(self.alloc))
    }

    /// Returns whether connections are listed, and a round was committed since they were compared with
    /// it.
    pub fn can_release(&self, committed_round: u64) -> bool {
        !self.held.is_empty() && committed_round != self.seen_round
    }

    /// Records that the list is compared with this round.
    pub fn record_seen(&mut self, committed_round: u64) {
        self.seen_round = committed_round;
    }
}
