//! Accepting connections.
use crate::event_loop::EventLoop;
use mio::net::{TcpListener as MioListener, TcpStream as MioStream};
use mio::{Interest, Registry, Token};
use sdb_connection::PassBrand;
use sdb_link::{Handshake, Peer, log_accept_error};
use sdb_session::Policy;
use std::alloc::Global;
use std::io::{Error, ErrorKind};
use std::net::Net;
use std::sync::{Arc, Wait};
use std::time::Clock;

/// The listener of the server, and when the loop accepts from it.
#[derive(Drop)]
pub(crate) struct Acceptor {
    listener: Arc<MioListener, Global>,
    // Whether a connection may wait at the listener, and the second before which none is accepted.
    can_accept: bool,
    accept_after: u64,
    // The number of connections that were accepted, and the second in which the loop last let the
    // next one accept for want of a handshake to remove.
    accepted: u64,
    passed_turn: u64,
}

impl Acceptor {
    /// Creates the acceptor of a loop. A connection may wait already.
    pub(crate) fn new(listener: Arc<MioListener, Global>) -> Acceptor {
        Acceptor {
            listener,
            can_accept: true,
            accept_after: 0,
            accepted: 0,
            passed_turn: 0,
        }
    }

    /// Records that a connection may wait.
    pub(crate) fn record_event(&mut self) {
        self.can_accept = true;
    }

    // Returns whether the loop accepts a connection in this second.
    fn is_due(&self, second: u64) -> bool {
        self.can_accept && self.accept_after <= second
    }

    // Returns the number of the next connection.
    fn next_order(&mut self) -> u64 {
        self.accepted = self.accepted.saturating_add(1);
        self.accepted
    }

    // Returns whether the loop lets the next one accept in this second, which it does once.
    fn passes_turn(&mut self, second: u64) -> bool {
        std::mem::replace(&mut self.passed_turn, second) != second
    }

    // Accepts none until the next event, or after a failure until the next second. Returns whether
    // accepting fails, or `None` if that isn't known.
    fn record_error(&mut self, kind: ErrorKind, second: u64) -> Option<bool> {
        match kind {
            ErrorKind::WouldBlock => {
                self.can_accept = false;
                Some(false)
            }
            // (a connection that was closed before it was accepted says nothing of the next one)
            ErrorKind::Interrupted | ErrorKind::ConnectionAborted => None,
            _ => {
                self.accept_after = second.saturating_add(1);
                Some(true)
            }
        }
    }
}

impl<R: Net + Wait + Clock + Eprint + Copy + Drop, P: Policy + Drop, B: PassBrand> EventLoop<
    R,
    P,
    B,
> {
    /// Accepts a connection if one waits, if it is the loop's turn, and if there is room, which the
    /// oldest handshake gives. Returns whether it accepted one.
    pub(crate) fn accept_next(&mut self, registry: &Registry) -> bool {
        let is_due = self.acceptor.is_due(self.clock.second());
        if !is_due || !self.context.loops().flags.may_accept(self.number) || !self.make_room() {
            return false;
        }
        match self.acceptor.listener.accept() {
            Ok((stream, address)) => {
                self.context.record_accept(self.number);
                self.add_connection(registry, stream, Peer::Connected(address));
                true
            }
            Err(error) => {
                self.handle_accept_error(&error);
                false
            }
        }
    }

    // Returns whether there is room for a connection. Without room, the loop removes its oldest
    // handshake. A loop without one lets the next loop accept, at most once a second.
    fn make_room(&mut self) -> bool {
        if self.context.loops().counts.has_room() {
            return true;
        }
        if let Some(key) = self.connections.oldest_handshake() {
            self.remove(key);
            return self.context.loops().counts.has_room();
        }
        if self.acceptor.passes_turn(self.clock.second()) {
            let rt = self.context.rt;
            self.context.loops().pass_accept_turn(&rt, self.number);
        }
        false
    }

    // Lets the next loop accept after a failure, which is logged once until accepting works again.
    fn handle_accept_error(&mut self, error: &Error) {
        let Some(is_failing) = self
            .acceptor
            .record_error(error.kind(), self.clock.second())
        else {
            return;
        };
        let rt = self.context.rt;
        let loops = self.context.loops();
        let was_failing = loops.flags.set_accept_failing(is_failing);
        if is_failing {
            loops.pass_accept_turn(&rt, self.number);
        }
        if is_failing && !was_failing {
            log_accept_error(&rt, self.clock.time.log_time(), error);
        }
    }

    // Begins the handshake of a connection. The connection is closed if it can't be registered or
    // an allocation fails.
    fn add_connection(&mut self, registry: &Registry, mut stream: MioStream, peer: Peer) {
        let key = self.connections.slots.vacant_key();
        let interest = Interest::READABLE | Interest::WRITABLE;
        let is_registered = stream.set_nodelay(true).is_ok()
            && registry.register(&mut stream, Token(key), interest).is_ok();
        if !is_registered {
            return;
        }
        let is_proxied = self.context.loops().settings.is_proxied;
        let second = self.clock.second();
        let order = self.acceptor.next_order();
        let handshake = Handshake::new(self.alloc, stream, peer, is_proxied, second, order);
        if self.connections.add_handshake(handshake) {
            self.context.loops().counts.add_connection();
        }
    }
}
