//! Handshakes, and clients that wait for their passes or are refused.
use crate::event_loop::EventLoop;
use mio::net::TcpStream as MioStream;
use sdb_connection::{ConnectionSlot, PassBrand};
use sdb_link::{
    ClosingConnection, HandshakeProgress, PlainRequest, WaitingClient, log_refusal, write_page,
};
use sdb_session::Policy;
use std::net::Net;
use std::sync::Wait;
use std::time::Clock;
use websocket::protocol::CloseCode;

impl<R: Net + Wait + Clock + Eprint + Copy + Drop, P: Policy + Drop, B: PassBrand> EventLoop<
    R,
    P,
    B,
> {
    /// Continues the handshake.
    pub(crate) fn proceed(&mut self, key: usize) {
        let Some(handshake) = self.connections.take_handshake(key) else {
            return;
        };
        match handshake.proceed() {
            HandshakeProgress::Pending(handshake) => {
                self.connections
                    .put(key, ConnectionSlot::Handshake(handshake));
            }
            HandshakeProgress::Complete(client) => self.admit(key, client),
            HandshakeProgress::NotUpgrade(stream, request) => {
                self.send_page(key, stream, request);
            }
            HandshakeProgress::Failed => self.remove(key),
        }
    }

    // Answers a request that is no WebSocket handshake.
    fn send_page(&mut self, key: usize, stream: MioStream, request: PlainRequest) {
        let second = self.clock.second();
        let status = self.context.status(self.clock.time);
        let output = &mut self.buffers.output.bytes;
        let is_written = write_page(self.alloc, request, &status, output).is_ok();
        let closing = if is_written {
            ClosingConnection::after_output(self.alloc, stream, output, second)
        } else {
            output.clear();
            None
        };
        self.put_closing(key, closing);
    }

    // Closes a connection without a session.
    fn refuse(&mut self, key: usize, client: WaitingClient, code: CloseCode) {
        let WaitingClient { stream, peer, .. } = client;
        self.buffers.output.tally.add_refused_client(code);
        if self.context.loops().settings.is_logging {
            log_refusal(&self.context.rt, self.clock.time.log_time(), code, peer);
        }
        let output = &mut self.buffers.output.bytes;
        let second = self.clock.second();
        let closing = ClosingConnection::after_close(self.alloc, stream, code, output, second);
        self.put_closing(key, closing);
    }

    // Lets a client wait for a pass after its handshake, or refuses it.
    fn admit(&mut self, key: usize, client: WaitingClient) {
        if self.context.loops().flags.is_ending() {
            self.refuse(key, client, CloseCode::Away);
        } else if !self.context.loops().counts.add_client() {
            self.refuse(key, client, CloseCode::Again);
        } else {
            self.await_pass(key, client);
        }
    }

    /// Lets a client that was counted wait for a pass.
    pub(crate) fn await_pass(&mut self, key: usize, client: WaitingClient) {
        if self.connections.lists.add_awaiting(key) {
            self.connections.put(key, ConnectionSlot::Awaiting(client));
        } else {
            self.refuse_client(key, client, CloseCode::Error);
        }
    }

    /// Refuses a client that was counted.
    pub(crate) fn refuse_client(&mut self, key: usize, client: WaitingClient, code: CloseCode) {
        self.context.loops().counts.cancel_client();
        self.refuse(key, client, code);
    }
}
