//! Checking deadlines, and the end of a loop.
use crate::event_loop::EventLoop;
use sdb_connection::{ConnectionSlot, PassBrand};
use sdb_link::SessionEnd;
use sdb_session::Policy;
use std::net::Net;
use std::sync::Wait;
use std::time::Clock;
use websocket::protocol::CloseCode;

// What is due for a connection.
#[derive(Drop)]
enum DueEnd {
    None,
    Remove,
    End(SessionEnd),
    // Close a client that waits for its number.
    Refuse(CloseCode),
    // Close a client in place of output that isn't saved, since the server is shutting down.
    CloseHeld,
}

impl<R: Net + Wait + Clock + Eprint + Copy + Drop, P: Policy + Drop, B: PassBrand> EventLoop<
    R,
    P,
    B,
> {
    /// Returns whether the loop must begin to end.
    pub(crate) fn begins_end(&self) -> bool {
        !self.clock.is_ending() && self.context.loops().flags.is_ending()
    }

    /// Checks the memory of the server and the deadlines of all connections once a second, and ends
    /// all once the server is shutting down. Lists anew whose output is held: a connection may be
    /// missing if an allocation failed.
    pub(crate) fn sweep(&mut self) {
        let begins_end = self.begins_end();
        if !self.clock.begin_sweep(begins_end) {
            return;
        }
        self.context.state.check_memory();
        let is_crowded = !self.context.loops().counts.has_room();
        let is_unsaved = self.context.loops().settings.is_unsaved();
        self.connections.lists.begin_held();
        for key in 0..self.connections.slots.capacity() {
            self.check_hold(key);
            let due = self.due_end(key, is_crowded, is_unsaved);
            self.end_due(key, due);
        }
    }

    // Returns what is due for the connection. Sends a ping to a silent client.
    fn due_end(&mut self, key: usize, is_crowded: bool, is_unsaved: bool) -> DueEnd {
        let is_ending = self.clock.is_ending();
        let ends_holds = self.clock.ends_holds();
        let time = self.clock.time;
        match self.connections.slots.get_mut(key) {
            Some(ConnectionSlot::Handshake(handshake)) => {
                remove_if(is_ending || handshake.is_late(time.second, is_crowded))
            }
            Some(ConnectionSlot::Awaiting(_)) if is_ending => DueEnd::Refuse(CloseCode::Away),
            Some(ConnectionSlot::Awaiting(client)) if client.is_late(time.second) => {
                DueEnd::Refuse(CloseCode::Again)
            }
            Some(ConnectionSlot::Served(_)) if is_ending => DueEnd::End(SessionEnd::Stopped),
            Some(ConnectionSlot::Served(connection)) => {
                match connection.check(time, &mut self.buffers.output) {
                    Ok(()) => DueEnd::None,
                    Err(end) => DueEnd::End(end),
                }
            }
            Some(ConnectionSlot::Closing(closing)) if closing.link.is_held() && ends_holds => {
                DueEnd::CloseHeld
            }
            Some(ConnectionSlot::Closing(closing)) => {
                remove_if(closing.is_late(time.second, is_unsaved))
            }
            _ => DueEnd::None,
        }
    }

    fn end_due(&mut self, key: usize, due: DueEnd) {
        match due {
            DueEnd::None => self.connections.list_held(key),
            DueEnd::Remove => self.remove(key),
            DueEnd::End(end) => self.end_session(key, end),
            DueEnd::Refuse(code) => self.refuse_awaiting(key, code),
            DueEnd::CloseHeld => self.close_held(key),
        }
    }

    // Closes a client that waits for a pass.
    fn refuse_awaiting(&mut self, key: usize, code: CloseCode) {
        if let Some(client) = self.connections.take_awaiting(key) {
            self.refuse_client(key, client, code);
        }
    }

    // Sends a close in place of held output, or removes the connection.
    fn close_held(&mut self, key: usize) {
        let second = self.clock.second();
        let is_closed = match self.context.loops().settings.progress() {
            Some(progress) => {
                self.connections
                    .close_held(self.alloc, key, progress, second)
            }
            None => false,
        };
        if !is_closed {
            self.remove(key);
        }
    }

    /// Returns whether the loop has ended: the server is shutting down, all turns have ended, and
    /// all connections are closed or had their time.
    pub(crate) fn is_over(&self) -> bool {
        let has_connections = !self.connections.slots.is_empty();
        self.clock.is_over(has_connections, self.turn_count > 0)
    }
}

fn remove_if(is_due: bool) -> DueEnd {
    if is_due { DueEnd::Remove } else { DueEnd::None }
}
