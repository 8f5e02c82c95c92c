//! An event loop.
use crate::acceptor::Acceptor;
use crate::connections::Connections;
use crate::kept_passes::KeptPasses;
use crate::loop_clock::LoopClock;
use crate::polled_loop::PolledLoop;
use mio::event::Event;
use mio::net::TcpListener as MioListener;
use mio::{Events, Poll, Registry, Token};
use sdb_connection::{ConnectionSlot, EndedTurn, LoopContext, PassBrand, TurnEvents};
use sdb_link::{ClosingConnection, LoopBuffers};
use sdb_loop_state::{LoopPort, LoopSlot, Subscribers};
use sdb_session::Policy;
use std::alloc::Global;
use std::net::Net;
use std::sync::{Arc, Wait};
use std::time::{Clock, Duration};

/// The token of the listener.
pub(crate) const LISTENER: Token = Token(usize::MAX);

/// The token of the loop's waker.
pub(crate) const WAKER: Token = Token(usize::MAX - 1);

// Pause in milliseconds after a wait that failed.
const PAUSE_MS: u64 = 10;

/// The slot of a loop.
pub(crate) type SlotOfLoop<R, P, B> = LoopSlot<PolledLoop<R, P, B>, EndedTurn<B>>;

/// A loop: its connections, which of them are served next, and its buffers. One thread at a time
/// runs it.
#[derive(Drop)]
pub(crate) struct EventLoop<R, P, B: PassBrand> {
    pub(crate) alloc: Global,
    pub(crate) context: LoopContext<R, P, B>,
    pub(crate) number: usize,
    pub(crate) acceptor: Acceptor,
    pub(crate) connections: Connections<B>,
    pub(crate) subscribers: Subscribers,
    pub(crate) buffers: LoopBuffers,
    pub(crate) clock: LoopClock,
    // Number of turns that haven't ended.
    pub(crate) turn_count: usize,
    pub(crate) kept: KeptPasses<B>,
}

impl<R: Clock, P: Policy + Drop, B: PassBrand> EventLoop<R, P, B> {
    /// Creates a loop without connections.
    pub(crate) fn new(
        alloc: Global,
        context: LoopContext<R, P, B>,
        number: usize,
        listener: Arc<MioListener, Global>,
        buffers: LoopBuffers,
        subscribers: Subscribers,
    ) -> EventLoop<R, P, B> {
        let clock = LoopClock::new(&context.rt);
        EventLoop {
            alloc,
            context,
            number,
            acceptor: Acceptor::new(listener),
            connections: Connections::new(alloc),
            subscribers,
            buffers,
            clock,
            turn_count: 0,
            kept: KeptPasses::new(alloc),
        }
    }
}

impl<R, P, B: PassBrand> EventLoop<R, P, B> {
    /// Returns the loop's wake-up flags.
    pub(crate) fn port(&self) -> Option<&LoopPort> {
        self.context.loops().ports.port(self.number)
    }
}

impl<R: Net + Wait + Clock + Eprint + Copy + Drop, P: Policy + Drop, B: PassBrand> EventLoop<
    R,
    P,
    B,
> {
    /// Waits for events and records them, puts clients back whose turns ended elsewhere, writes output
    /// that was held, accepts connections and starts sessions.
    pub(crate) fn begin_pass(
        &mut self,
        poll: &mut Poll,
        events: &mut Events<Global>,
        slot: &SlotOfLoop<R, P, B>,
    ) {
        let timeout = self.next_timeout(poll.registry(), slot);
        let polled = poll.poll(events, Some(timeout));
        self.read_clocks();
        if polled.is_ok() {
            for event in &*events {
                self.handle_event(event);
            }
        } else {
            std::thread::sleep(&self.context.rt, Duration::from_millis(PAUSE_MS));
        }
        self.end_turns(slot);
        self.list_awaiting_place();
        self.release_held();
        self.accept_next(poll.registry());
        self.start_sessions();
    }

    /// Delivers stored operations and checks deadlines.
    pub(crate) fn end_pass(&mut self) {
        self.deliver();
        self.sweep();
        self.context.add_to_metrics(&mut self.buffers.output.tally);
        self.buffers.output.free_large(self.alloc);
    }

    // Returns how long the loop waits for the next event: not at all if work is left. From here on
    // it is woken for stored operations, for committed rounds, for passes, for ended turns, and to
    // accept a connection.
    fn next_timeout(&mut self, registry: &Registry, slot: &SlotOfLoop<R, P, B>) -> Duration {
        let is_quiet = self.port().is_some_and(LoopPort::begin_wait);
        let has_accepted = self.accept_next(registry);
        if is_quiet && !has_accepted && !slot.has_ended_turns() && !self.has_work() {
            Duration::from_millis(self.clock.longest_wait())
        } else {
            Duration::from_millis(0)
        }
    }

    // Returns whether a connection is listed, held output may be committed, a session can start, or the
    // loop must begin to end.
    fn has_work(&self) -> bool {
        self.begins_end()
            || self.connections.lists.has_work()
            || self.can_begin_large_turn()
            || self.can_release()
            || self.can_start_session()
    }

    // Returns whether a client and a pass wait for each other.
    fn can_start_session(&self) -> bool {
        self.connections.lists.has_awaiting() && self.context.has_pass_or_failure()
    }

    // Reads the clocks for the pass.
    fn read_clocks(&mut self) {
        if let Some(port) = self.port() {
            port.end_wait();
        }
        self.clock.read(&self.context.rt);
    }

    fn handle_event(&mut self, event: &Event) {
        let token = event.token();
        if token == LISTENER {
            self.acceptor.record_event();
        } else if token != WAKER {
            self.handle_socket_event(token.0, event);
        }
    }

    fn handle_socket_event(&mut self, key: usize, event: &Event) {
        let reported = TurnEvents {
            is_readable: event.is_readable() || event.is_error(),
            is_closed: event.is_read_closed() || event.is_error(),
            is_writable: event.is_writable(),
            is_lagging: false,
        };
        match self.connections.slots.get_mut(key) {
            Some(ConnectionSlot::Handshake(_)) => self.proceed(key),
            Some(ConnectionSlot::InTurn(events)) => *events = events.and(reported),
            Some(ConnectionSlot::Awaiting(_)) if reported.is_closed => self.forget_awaiting(key),
            Some(_) => self.apply_events(key, reported),
            None => {}
        }
    }

    // Removes a client that has closed its connection while it waited for its number.
    fn forget_awaiting(&mut self, key: usize) {
        self.context.loops().counts.cancel_client();
        self.remove(key);
    }

    /// Records what events have reported of a connection, and writes pending output.
    pub(crate) fn apply_events(&mut self, key: usize, events: TurnEvents) {
        if events.is_readable {
            self.connections.record_readable(key, events.is_closed);
        }
        if events.is_lagging {
            self.connections.list_lagging_again(key);
        }
        if events.is_writable {
            self.resume(key);
        }
    }

    /// Writes pending output. A client that has taken all of it is served again.
    pub(crate) fn resume(&mut self, key: usize) {
        let resumed = match self.connections.slots.get_mut(key) {
            Some(ConnectionSlot::Served(connection)) => connection.resume(self.clock.time),
            Some(ConnectionSlot::Closing(closing)) => {
                if closing.resume(self.clock.time.second).is_err() || closing.is_over() {
                    self.remove(key);
                }
                return;
            }
            _ => return,
        };
        match resumed {
            Ok(true) => {
                self.connections.list_ready(key);
                self.connections.list_lagging(key);
            }
            Ok(false) => {}
            Err(end) => self.end_session(key, end),
        }
    }

    /// Closes the connection of the slot, or removes it.
    pub(crate) fn put_closing(&mut self, key: usize, closing: Option<ClosingConnection>) {
        if !self.connections.put_closing(key, closing) {
            self.remove(key);
        }
    }

    /// Removes the slot of a connection without a session.
    pub(crate) fn remove(&mut self, key: usize) {
        if self.connections.remove(key) {
            let context = &self.context;
            context.loops().remove_connection(&context.rt);
        }
    }
}
