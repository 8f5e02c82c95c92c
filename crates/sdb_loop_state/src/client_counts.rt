//! Numbers of connections and clients, and their limits.
use std::sync::atomic::{AtomicU64, AtomicUsize, Ordering};

// Number of connections besides those of served clients: handshakes, refusals and closes.
const OTHER_CONNECTION_LIMIT: usize = 64;

/// The numbers of connections and clients of a server.
#[derive(Drop)]
pub struct ClientCounts {
    client_limit: usize,
    // Number of clients after which the server is stopped.
    session_limit: Option<u64>,
    connections: AtomicUsize,
    clients: AtomicUsize,
    // Numbers of clients that were admitted, and whose sessions have ended.
    admitted: AtomicU64,
    ended: AtomicU64,
}

impl ClientCounts {
    /// Creates the counts of a server without clients, which serves at most this number at once.
    pub fn new(client_limit: usize) -> ClientCounts {
        ClientCounts {
            client_limit,
            session_limit: None,
            connections: AtomicUsize::new(0),
            clients: AtomicUsize::new(0),
            admitted: AtomicU64::new(0),
            ended: AtomicU64::new(0),
        }
    }

    /// Sets the number of sessions after whose end the server is stopped.
    pub fn set_session_limit(&mut self, limit: Option<u64>) {
        self.session_limit = limit;
    }

    /// Sets all numbers to 0.
    pub fn reset(&self) {
        self.connections.store(0, Ordering::SeqCst);
        self.clients.store(0, Ordering::SeqCst);
        self.admitted.store(0, Ordering::SeqCst);
        self.ended.store(0, Ordering::SeqCst);
    }

    /// Returns the number of clients served.
    pub fn clients(&self) -> usize {
        self.clients.load(Ordering::SeqCst)
    }

    // Returns the maximum number of connections.
    fn connection_limit(&self) -> usize {
        self.client_limit.saturating_add(OTHER_CONNECTION_LIMIT)
    }

    /// Returns whether one more connection may be accepted.
    pub fn has_room(&self) -> bool {
        self.connections.load(Ordering::SeqCst) < self.connection_limit()
    }

    /// Counts an accepted connection.
    pub fn add_connection(&self) {
        self.connections.fetch_add(1, Ordering::SeqCst);
    }

    /// Counts a connection less. Returns whether there was no room for more.
    pub fn remove_connection(&self) -> bool {
        let count = self.connections.fetch_sub(1, Ordering::SeqCst);
        count >= self.connection_limit()
    }

    // Returns whether one more session is permitted after this number.
    fn is_session_permitted(&self, admitted: u64) -> bool {
        match self.session_limit {
            Some(limit) => admitted < limit,
            None => true,
        }
    }

    /// Counts a client, unless the maximum number is served. Returns whether it was counted.
    pub fn add_client(&self) -> bool {
        let admitted = self.admitted.fetch_add(1, Ordering::SeqCst);
        let others = self.clients.fetch_add(1, Ordering::SeqCst);
        if others < self.client_limit && self.is_session_permitted(admitted) {
            return true;
        }
        self.cancel_client();
        false
    }

    /// Doesn't count a client that has no session.
    pub fn cancel_client(&self) {
        self.admitted.fetch_sub(1, Ordering::SeqCst);
        self.clients.fetch_sub(1, Ordering::SeqCst);
    }

    /// Counts a client less after its session. Returns whether that was the last one.
    pub fn end_client(&self) -> bool {
        self.clients.fetch_sub(1, Ordering::SeqCst);
        let ended = self.ended.fetch_add(1, Ordering::SeqCst);
        !self.is_session_permitted(ended.saturating_add(1))
    }
}
