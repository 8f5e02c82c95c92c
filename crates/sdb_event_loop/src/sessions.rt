//! Starting and ending sessions.
use crate::event_loop::EventLoop;
use sdb_connection::{
    Connection, ConnectionSlot, EndedConnection, LoopPass, PassBrand, session_of,
};
use sdb_link::{Peer, SessionEnd, SessionReport, WaitingClient, log_begin, log_end};
use sdb_loop_state::DocumentGroup;
use sdb_session::Policy;
use std::net::Net;
use std::sync::Wait;
use std::time::Clock;
use websocket::protocol::CloseCode;

// Returns the report of a session that could not be created.
fn failed_report(number: u64) -> SessionReport {
    SessionReport {
        number,
        source: None,
        end: SessionEnd::OutOfMemory,
        messages: 0,
        operations: 0,
    }
}

impl<R: Net + Wait + Clock + Eprint + Copy + Drop, P: Policy + Drop, B: PassBrand> EventLoop<
    R,
    P,
    B,
> {
    /// Starts the session of each client that waits, as far as there are passes.
    pub(crate) fn start_sessions(&mut self) {
        if !self.connections.lists.has_awaiting() {
            return;
        }
        for key in self.connections.lists.take_awaiting() {
            if let Some(client) = self.connections.take_awaiting(key) {
                self.start_or_await(key, client);
            }
        }
    }

    fn start_or_await(&mut self, key: usize, client: WaitingClient) {
        if !self.kept.reserve() {
            self.refuse_client(key, client, CloseCode::Error);
            return;
        }
        let is_failing = self.context.supply.is_failing();
        match self.context.pop_pass() {
            Some(pass) => self.start_session(key, client, pass),
            None if is_failing => self.refuse_client(key, client, CloseCode::Again),
            None => self.await_pass(key, client),
        }
    }

    // Starts a session with this pass.
    fn start_session(&mut self, key: usize, client: WaitingClient, pass: LoopPass<B>) {
        let number = pass.number();
        let peer = client.peer;
        if self.context.loops().settings.is_logging {
            log_begin(&self.context.rt, self.clock.time.log_time(), number, peer);
        }
        let Ok(session) = session_of(self.alloc, number) else {
            self.log_report(&failed_report(number));
            self.keep_pass(pass);
            self.refuse_client(key, client, CloseCode::Error);
            return;
        };
        let time = self.clock.time;
        let connection = Connection::new(self.alloc, client.stream, pass, session, time);
        match Box::new(self.alloc, connection) {
            Ok(connection) => self.open_connection(key, connection),
            Err(failed) => self.refuse_connection(key, failed.value, peer),
        }
    }

    // Refuses a client whose session could not be created.
    fn refuse_connection(&mut self, key: usize, connection: Connection<B>, peer: Peer) {
        let (stream, pass) = connection.into_parts();
        self.log_report(&failed_report(pass.number()));
        self.keep_pass(pass);
        let start = self.clock.second();
        let client = WaitingClient {
            stream,
            peer,
            start,
        };
        self.refuse_client(key, client, CloseCode::Error);
    }

    // Sends the opening message.
    fn open_connection(&mut self, key: usize, mut connection: Box<Connection<B>>) {
        self.kept.begin_session();
        let opened = connection.open(self.clock.time, &mut self.buffers.output);
        self.connections
            .put(key, ConnectionSlot::Served(connection));
        match opened {
            Ok(()) => {
                self.connections.list_ready(key);
                self.connections.list_held(key);
            }
            Err(end) => self.end_session(key, end),
        }
    }

    // Keeps the pass of an ended session.
    fn keep_pass(&mut self, pass: LoopPass<B>) {
        if self.context.loops().settings.is_keeping {
            self.kept.keep(pass);
        }
    }

    /// Ends the session, and closes its connection.
    pub(crate) fn end_session(&mut self, key: usize, end: SessionEnd) {
        let Some(connection) = self.connections.take_served(key) else {
            return;
        };
        let output = &mut self.buffers.output;
        output.tally.add_end(end);
        let connection = Box::into_inner(connection);
        let ended = connection.end(&self.context, end, self.clock.time, output);
        let EndedConnection {
            pass,
            report,
            closing,
            groups,
        } = ended;
        for group in groups {
            self.unsubscribe(key, group);
        }
        self.log_report(&report);
        self.kept.end_session();
        self.keep_pass(pass);
        let context = &self.context;
        context.loops().end_client(&context.rt);
        self.put_closing(key, closing);
        self.connections.list_held(key);
    }

    fn log_report(&self, report: &SessionReport) {
        if self.context.loops().settings.is_logging {
            log_end(&self.context.rt, self.clock.time.log_time(), report);
        }
    }

    fn unsubscribe(&mut self, key: usize, group: DocumentGroup) {
        let is_last = self.subscribers.remove(group, key);
        if is_last && let Some(port) = self.port() {
            port.unsubscribe(group);
        }
    }

    /// Returns the passes of a loop that has ended.
    pub(crate) fn finish(&mut self) -> Vec<LoopPass<B>> {
        let rt = self.context.rt;
        if let Some(port) = self.port() {
            port.set_waker(&rt, None);
        }
        self.kept.take()
    }
}
