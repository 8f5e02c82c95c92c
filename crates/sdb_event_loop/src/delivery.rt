//! Delivering stored operations.
use crate::event_loop::EventLoop;
use sdb_connection::{ConnectionSlot, PassBrand};
use sdb_link::{Progress, SessionEnd};
use sdb_loop_state::{DocumentGroup, LoopPort, WORD_COUNT};
use sdb_session::Policy;
use std::alloc::AllocError;
use std::net::Net;
use std::sync::Wait;
use std::time::Clock;

impl<R: Net + Wait + Clock + Eprint + Copy + Drop, P: Policy + Drop, B: PassBrand> EventLoop<
    R,
    P,
    B,
> {
    /// Registers what the connection has subscribed to in its turn. Its queues are read next.
    pub(crate) fn note_subscriptions(&mut self, key: usize, subscribed: Vec<DocumentGroup>) {
        if subscribed.is_empty() {
            return;
        }
        for group in subscribed {
            if self.subscribe(key, group).is_err() {
                self.end_session(key, SessionEnd::OutOfMemory);
            }
        }
        self.connections.list_lagging(key);
    }

    fn subscribe(&mut self, key: usize, group: DocumentGroup) -> Result<(), AllocError> {
        if !self.connections.subscribe(key, group)? {
            return Ok(());
        }
        self.subscribers.add(group, key)?;
        if let Some(port) = self.port() {
            port.subscribe(group);
        }
        Ok(())
    }

    /// Reads the queues of the connections that lag, and of all subscribers of documents of which
    /// operations were stored.
    pub(crate) fn deliver(&mut self) {
        for key in self.connections.lists.take_lagging() {
            self.pump(key);
        }
        if !self.port().is_some_and(LoopPort::take_change) {
            return;
        }
        for word in 0..WORD_COUNT {
            let bits = self.port().map_or(0, |port| port.take_changed_word(word));
            if bits != 0 {
                self.deliver_word(word, bits);
            }
        }
    }

    // Reads the queues of the subscribers of the groups of a word.
    fn deliver_word(&mut self, word: usize, bits: u64) {
        for bit in 0..64usize {
            if (bits >> bit) & 1 == 1 {
                self.deliver_group(word.saturating_mul(64).saturating_add(bit));
            }
        }
    }

    // Goes from the last subscriber to the first, so that one that is removed shifts none that comes
    // later.
    fn deliver_group(&mut self, number: usize) {
        let count = self.subscribers.count(number);
        for position in (0..count).rev() {
            if let Some(key) = self.subscribers.at(number, position) {
                self.pump(key);
            }
        }
    }

    // Sends entries of the connection's queues. If more are left, it lags.
    fn pump(&mut self, key: usize) {
        let connection = match self.connections.slots.get_mut(key) {
            Some(ConnectionSlot::Served(connection)) => connection,
            Some(ConnectionSlot::InTurn(events)) => {
                events.is_lagging = true;
                return;
            }
            _ => return,
        };
        connection.is_lagging = false;
        match connection.pump(&self.context, self.clock.time, &mut self.buffers.output) {
            Ok(Progress::More) => self.connections.list_lagging(key),
            Ok(_) => {}
            Err(end) => self.end_session(key, end),
        }
        self.connections.list_held(key);
    }
}
