//! The connections of a loop.
use sdb_connection::{Connection, ConnectionSlot, PassBrand, TurnEvents};
use sdb_link::{ClosingConnection, Handshake, LoopTime, Progress, WaitingClient};
use sdb_loop_state::{ConnectionLists, DocumentGroup, LARGE_TURN_LIMIT};
use sdb_progress::SaveProgress;
use slab::Slab;
use std::alloc::{AllocError, Global};
use websocket::protocol::CloseCode;

/// The connections of a loop, each with a key, and which of them are served next.
#[derive(Drop)]
pub(crate) struct Connections<B: PassBrand> {
    pub(crate) slots: Slab<ConnectionSlot<B>>,
    pub(crate) lists: ConnectionLists,
}

impl<B: PassBrand> Connections<B> {
    /// Creates it without connections.
    pub(crate) fn new(alloc: Global) -> Connections<B> {
        Connections {
            slots: Slab::new(alloc),
            lists: ConnectionLists::new(alloc),
        }
    }

    /// Adds a connection at the next vacant key. Returns `false` if an allocation fails.
    pub(crate) fn add_handshake(&mut self, handshake: Handshake) -> bool {
        self.slots
            .insert(ConnectionSlot::Handshake(handshake))
            .is_ok()
    }

    /// Moves a connection into its slot.
    pub(crate) fn put(&mut self, key: usize, connection: ConnectionSlot<B>) {
        if let Some(slot) = self.slots.get_mut(key) {
            *slot = connection;
        }
    }

    /// Moves a connection that is being closed into its slot, and lists it as ready. Returns `false`
    /// if nothing is left to do for it.
    pub(crate) fn put_closing(&mut self, key: usize, closing: Option<ClosingConnection>) -> bool {
        match closing {
            Some(closing) if !closing.is_over() => {
                self.put(key, ConnectionSlot::Closing(closing));
                self.list_ready(key);
                true
            }
            _ => false,
        }
    }

    /// Removes a connection. Returns whether there was one.
    pub(crate) fn remove(&mut self, key: usize) -> bool {
        self.slots.try_remove(key).is_some()
    }

    /// Moves the handshake out of its slot.
    pub(crate) fn take_handshake(&mut self, key: usize) -> Option<Handshake> {
        self.slots.get_mut(key)?.take_handshake()
    }

    /// Returns the key of the handshake that began first.
    pub(crate) fn oldest_handshake(&self) -> Option<usize> {
        let mut oldest: Option<(u64, usize)> = None;
        for key in 0..self.slots.capacity() {
            if let Some(ConnectionSlot::Handshake(handshake)) = self.slots.get(key) {
                let begun = (handshake.order(), key);
                oldest = Some(oldest.map_or(begun, |other| other.min(begun)));
            }
        }
        oldest.map(|(_, key)| key)
    }

    /// Moves a client that waits for its pass out of its slot.
    pub(crate) fn take_awaiting(&mut self, key: usize) -> Option<WaitingClient> {
        self.slots.get_mut(key)?.take_awaiting()
    }

    /// Moves a served client out of its slot.
    pub(crate) fn take_served(&mut self, key: usize) -> Option<Box<Connection<B>>> {
        self.slots.get_mut(key)?.take_served()
    }

    /// Moves a served client out of its slot for its turn. The client doesn't wait for a place.
    pub(crate) fn begin_turn(&mut self, key: usize, second: u64) -> Option<Box<Connection<B>>> {
        let mut connection = self.slots.get_mut(key)?.begin_turn()?;
        connection.is_listed = false;
        connection.deadlines.end_wait(second);
        Some(connection)
    }

    /// Moves a client into its slot after its turn. Returns what events have reported meanwhile.
    pub(crate) fn end_turn(&mut self, key: usize, connection: Box<Connection<B>>) -> TurnEvents {
        let events = match self.slots.get(key) {
            Some(ConnectionSlot::InTurn(events)) => *events,
            _ => TurnEvents::new(),
        };
        self.put(key, ConnectionSlot::Served(connection));
        events
    }

    /// Records that input waits, or that the client has closed its sending side, and lists the
    /// connection as ready.
    pub(crate) fn record_readable(&mut self, key: usize, is_closed: bool) {
        match self.slots.get_mut(key) {
            Some(ConnectionSlot::Served(connection)) => connection.record_readable(is_closed),
            Some(ConnectionSlot::Closing(closing)) => closing.record_readable(is_closed),
            _ => {}
        }
        self.list_ready(key);
    }

    /// Lists the connection as ready, unless it is listed.
    pub(crate) fn list_ready(&mut self, key: usize) {
        match self.slots.get_mut(key) {
            Some(ConnectionSlot::Served(connection)) if !connection.is_listed => {
                connection.is_listed = self.lists.add_ready(key);
            }
            Some(ConnectionSlot::Closing(closing)) if !closing.is_listed => {
                closing.is_listed = self.lists.add_ready(key);
            }
            _ => {}
        }
    }

    /// Lists the connection as lagging, unless it is listed.
    pub(crate) fn list_lagging(&mut self, key: usize) {
        match self.slots.get_mut(key) {
            Some(ConnectionSlot::Served(connection)) if !connection.is_lagging => {
                connection.is_lagging = self.lists.add_lagging(key);
            }
            Some(ConnectionSlot::InTurn(events)) => events.is_lagging = true,
            _ => {}
        }
    }

    /// Lists the connection as lagging after a turn in which its queues were to be read. If it was
    /// listed before the turn, the list was read meanwhile.
    pub(crate) fn list_lagging_again(&mut self, key: usize) {
        if let Some(ConnectionSlot::Served(connection)) = self.slots.get_mut(key) {
            connection.is_lagging = false;
        }
        self.list_lagging(key);
    }

    /// Lists the connection for what is next: more input, a listing or a document, or queues that
    /// weren't read while one of these was sent.
    pub(crate) fn list_next(&mut self, key: usize, progress: Progress) {
        if progress == Progress::More {
            self.list_ready(key);
        }
        if let Some(ConnectionSlot::Served(connection)) = self.slots.get_mut(key)
            && connection.take_deferral()
        {
            self.list_lagging(key);
        }
    }

    /// Lists the connection if its output is held, unless it is listed. If an allocation fails, the
    /// next sweep lists it.
    ///
    /// A round that is committed later releases it, since its ticket is not yet committed: the loop's
    /// thread has just requested it, or [`check_hold`](crate::event_loop::EventLoop::check_hold) has
    /// compared it. Any other is released by the next sweep.
    pub(crate) fn list_held(&mut self, key: usize) {
        let number = self.lists.held_number();
        match self.slots.get_mut(key) {
            Some(ConnectionSlot::Served(connection)) if connection.link.is_unlisted(number) => {
                if self.lists.add_held(key) {
                    connection.link.record_listed(number);
                }
            }
            Some(ConnectionSlot::Closing(closing)) if closing.link.is_unlisted(number) => {
                if self.lists.add_held(key) {
                    closing.link.record_listed(number);
                }
            }
            _ => {}
        }
    }

    /// Releases held output of the connection if it is committed. Returns the number of acknowledgements
    /// in it if it did.
    pub(crate) fn release(
        &mut self,
        key: usize,
        progress: &SaveProgress,
        time: LoopTime,
    ) -> Option<u64> {
        match self.slots.get_mut(key)? {
            ConnectionSlot::Served(connection) => connection.release(progress, time),
            ConnectionSlot::Closing(closing) => closing.release(progress, time.second),
            _ => None,
        }
    }

    /// Sends a close in place of output that is still held. Returns `false` if that isn't possible.
    pub(crate) fn close_held(
        &mut self,
        alloc: Global,
        key: usize,
        progress: &SaveProgress,
        second: u64,
    ) -> bool {
        match self.slots.get_mut(key) {
            Some(ConnectionSlot::Closing(closing)) => {
                closing.close_held(alloc, progress, CloseCode::Away, second)
            }
            _ => false,
        }
    }

    /// Lets a client wait for the place of a large turn. It stays listed meanwhile.
    pub(crate) fn await_place(&mut self, key: usize, second: u64) {
        if let Some(ConnectionSlot::Served(connection)) = self.slots.get_mut(key) {
            connection.deadlines.begin_wait(second);
        }
        self.lists.add_awaiting_place(key);
    }

    /// Lists the next clients that wait for a place.
    pub(crate) fn list_awaiting_place(&mut self) {
        for _ in 0..LARGE_TURN_LIMIT {
            let Some(key) = self.lists.next_awaiting_place() else {
                return;
            };
            if let Some(ConnectionSlot::Served(connection)) = self.slots.get_mut(key) {
                connection.is_listed = false;
            }
            self.list_ready(key);
        }
    }

    /// Adds a group to those that the connection is subscribed to. Returns `false` if it was before, or
    /// the connection isn't served.
    pub(crate) fn subscribe(
        &mut self,
        key: usize,
        group: DocumentGroup,
    ) -> Result<bool, AllocError> {
        match self.slots.get_mut(key) {
            Some(ConnectionSlot::Served(connection)) => connection.subscribe(group),
            _ => Ok(false),
        }
    }
}
