//! Numbers of what a server has done.
use crate::session_end::{ENDS, SessionEnd};
use sdb_oplog::Code;
use std::array;
use std::sync::atomic::{AtomicU64, Ordering};
use websocket::protocol::CloseCode;

/// The codes of refusals, in the order of their counts.
pub const CODES: [Code; 11] = [
    Code::E1,
    Code::E2,
    Code::E3,
    Code::E4,
    Code::E5,
    Code::E6,
    Code::E7,
    Code::E8,
    Code::E9,
    Code::E10,
    Code::E11,
];

/// The reasons for which a client is closed without a session, in the order of their counts.
pub const REFUSAL_REASONS: [&str; 3] = ["stopped", "no_room", "out_of_memory"];

/// What one or more turns have done.
#[derive(Clone, Copy, Drop)]
pub struct Tally {
    /// Number of messages received.
    pub messages: u64,
    /// Number of acknowledgements sent. An acknowledgement that is held isn't sent.
    pub acknowledgements: u64,
    /// Number of subscriptions that began, and of those that ended.
    pub subscriptions_begun: u64,
    pub subscriptions_ended: u64,
    /// Number of refusals by code, in the order of [`CODES`].
    pub refusals: [u64; CODES.len()],
    /// Number of bytes received after handshakes.
    pub received: u64,
    /// Number of bytes sent after handshakes.
    pub sent: u64,
    /// Number of ended sessions by reason, in the order of [`ENDS`].
    pub ends: [u64; ENDS.len()],
    /// Number of clients that were closed without a session, in the order of [`REFUSAL_REASONS`].
    pub refused_clients: [u64; REFUSAL_REASONS.len()],
}

impl Tally {
    /// Creates a tally of nothing.
    pub fn new() -> Tally {
        Tally {
            messages: 0,
            acknowledgements: 0,
            subscriptions_begun: 0,
            subscriptions_ended: 0,
            refusals: [0; CODES.len()],
            received: 0,
            sent: 0,
            ends: [0; ENDS.len()],
            refused_clients: [0; REFUSAL_REASONS.len()],
        }
    }

    /// Counts a message.
    pub fn add_message(&mut self) {
        self.messages = self.messages.saturating_add(1);
    }

    /// Counts acknowledgements.
    pub fn add_acknowledgements(&mut self, count: u64) {
        self.acknowledgements = self.acknowledgements.saturating_add(count);
    }

    /// Counts the subscriptions that a session has begun or ended, by its numbers of subscriptions
    /// before and after.
    pub fn add_subscriptions(&mut self, before: usize, after: usize) {
        let begun = after.saturating_sub(before) as u64;
        let ended = before.saturating_sub(after) as u64;
        self.subscriptions_begun = self.subscriptions_begun.saturating_add(begun);
        self.subscriptions_ended = self.subscriptions_ended.saturating_add(ended);
    }

    /// Returns the number of subscriptions that haven't ended.
    pub fn subscriptions(&self) -> u64 {
        self.subscriptions_begun
            .saturating_sub(self.subscriptions_ended)
    }

    /// Counts a refusal.
    pub fn add_refusal(&mut self, code: Code) {
        let position = CODES.iter().position(|known| *known == code);
        add_one(&mut self.refusals, position);
    }

    /// Counts the end of a session.
    pub fn add_end(&mut self, end: SessionEnd) {
        let position = ENDS.iter().position(|known| *known == end);
        add_one(&mut self.ends, position);
    }

    /// Counts a client that is closed with this code, without a session.
    pub fn add_refused_client(&mut self, code: CloseCode) {
        let position = match code {
            CloseCode::Away => 0,
            CloseCode::Again => 1,
            _ => 2,
        };
        add_one(&mut self.refused_clients, Some(position));
    }

    /// Counts bytes that were received.
    pub fn add_received(&mut self, bytes: usize) {
        self.received = self.received.saturating_add(bytes as u64);
    }

    /// Counts bytes that are sent.
    pub fn add_sent(&mut self, bytes: usize) {
        self.sent = self.sent.saturating_add(bytes as u64);
    }
}

// Counts one more at the position, if there is one.
fn add_one(counts: &mut [u64], position: Option<usize>) {
    if let Some(position) = position
        && let Some(count) = counts.get_mut(position)
    {
        *count = count.saturating_add(1);
    }
}

/// What all turns of a server have done.
#[derive(Drop)]
pub struct Metrics {
    messages: AtomicU64,
    acknowledgements: AtomicU64,
    subscriptions_begun: AtomicU64,
    subscriptions_ended: AtomicU64,
    refusals: [AtomicU64; CODES.len()],
    received: AtomicU64,
    sent: AtomicU64,
    ends: [AtomicU64; ENDS.len()],
    refused_clients: [AtomicU64; REFUSAL_REASONS.len()],
}

fn add_to(counter: &AtomicU64, count: u64) {
    if count > 0 {
        counter.fetch_add(count, Ordering::Relaxed);
    }
}

// Adds to each counter the count at its position.
fn add_each(counters: &[AtomicU64], counts: &[u64]) {
    for (counter, count) in counters.iter().zip(counts.iter()) {
        add_to(counter, *count);
    }
}

// Sets each count to the counter at its position.
fn load_each(counts: &mut [u64], counters: &[AtomicU64]) {
    for (count, counter) in counts.iter_mut().zip(counters.iter()) {
        *count = counter.load(Ordering::Relaxed);
    }
}

impl Metrics {
    /// Creates the metrics of a server that has done nothing.
    pub fn new() -> Metrics {
        Metrics {
            messages: AtomicU64::new(0),
            acknowledgements: AtomicU64::new(0),
            subscriptions_begun: AtomicU64::new(0),
            subscriptions_ended: AtomicU64::new(0),
            refusals: array::from_fn(|_| AtomicU64::new(0)),
            received: AtomicU64::new(0),
            sent: AtomicU64::new(0),
            ends: array::from_fn(|_| AtomicU64::new(0)),
            refused_clients: array::from_fn(|_| AtomicU64::new(0)),
        }
    }

    /// Adds what turns have done, and empties their tally.
    pub fn add(&self, tally: &mut Tally) {
        add_to(&self.messages, tally.messages);
        add_to(&self.acknowledgements, tally.acknowledgements);
        add_to(&self.subscriptions_begun, tally.subscriptions_begun);
        add_to(&self.subscriptions_ended, tally.subscriptions_ended);
        add_to(&self.received, tally.received);
        add_to(&self.sent, tally.sent);
        add_each(&self.refusals, &tally.refusals);
        add_each(&self.ends, &tally.ends);
        add_each(&self.refused_clients, &tally.refused_clients);
        *tally = Tally::new();
    }

    /// Returns what all turns have done.
    pub fn load(&self) -> Tally {
        let mut tally = Tally::new();
        tally.messages = self.messages.load(Ordering::Relaxed);
        tally.acknowledgements = self.acknowledgements.load(Ordering::Relaxed);
        tally.subscriptions_ended = self.subscriptions_ended.load(Ordering::Relaxed);
        tally.subscriptions_begun = self.subscriptions_begun.load(Ordering::Relaxed);
        tally.received = self.received.load(Ordering::Relaxed);
        tally.sent = self.sent.load(Ordering::Relaxed);
        load_each(&mut tally.refusals, &self.refusals);
        load_each(&mut tally.ends, &self.ends);
        load_each(&mut tally.refused_clients, &self.refused_clients);
        tally
    }
}
