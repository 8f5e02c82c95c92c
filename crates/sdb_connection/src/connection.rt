//! Clients that are served, and their sessions.
ghost use Rattle.std.specs.Prelude.{◌≡◌};
ghost use Rattle.sdb_backend.specs.PassModel.{pass_number};
ghost use Rattle.sdb_connection.specs.PassModel.{KeepsPass};

use crate::frame_sink::FrameSink;
use crate::loop_context::LoopContext;
use crate::loop_pass::{LoopPass, PassBrand};
use mio::net::TcpStream as MioStream;
use sdb_link::{
    ClosingConnection, Deadlines, DueAction, Link, LoopOutput, LoopTime, PendingDocument,
    SessionEnd, SessionReport, configuration, write_close,
};
use sdb_loop_state::{DocumentGroup, LARGE_INPUT};
use sdb_progress::SaveProgress;
use sdb_session::{Ended, Listing, Policy, Session};
use std::alloc::{AllocError, Global};
use std::sync::Wait;
use websocket::protocol::{CloseCode, Message, NoMask, Role, WebSocketContext};

/// A client after its handshake: its socket, its pass, its session, and what is left of a message.
#[derive(Drop)]
pub struct Connection<B: PassBrand> {
    pub(crate) alloc: Global,
    pub link: Link,
    pub pass: LoopPass<B>,
    pub(crate) session: Session,
    pub(crate) websocket: WebSocketContext,
    // Received bytes that weren't answered.
    pub(crate) partial: Vec<u8>,
    // Whether they may begin with a complete frame.
    pub(crate) has_frames: bool,
    // Whether a fragment of a message was received, but not the last one, and the length in bytes of
    // the frames of such a message.
    pub(crate) is_in_message: bool,
    pub(crate) fragment_bytes: usize,
    pub deadlines: Deadlines,
    pub(crate) groups: Vec<DocumentGroup>,
    pub(crate) messages: u64,
    pub(crate) operations: u64,
    // What is left of the listing that answers the last message. Until it is sent, no message is
    // answered and no queue is read.
    pub(crate) listing: Option<Listing>,
    // Likewise what is left of the document that answers the last message.
    pub(crate) document: Option<Box<PendingDocument>>,
    // Whether the queues weren't read because of a listing or a document.
    pub(crate) is_deferred: bool,
    // The position of the subscription whose queue is read next.
    pub(crate) next_queue: usize,
    /// Whether the loop reads from it next.
    pub is_listed: bool,
    /// Whether the loop reads its queues next.
    pub is_lagging: bool,
}

/// What is left of a client after its session.
#[derive(Drop)]
pub struct EndedConnection<B: PassBrand> {
    pub pass: LoopPass<B>,
    pub report: SessionReport,
    /// The connection, if it isn't lost.
    pub closing: Option<ClosingConnection>,
    /// The groups that the session was subscribed to.
    pub groups: Vec<DocumentGroup>,
}

/// Creates the session of the pass with this number. Its source is `s` followed by the number.
pub fn session_of(alloc: Global, number: u64) -> Result<Session, AllocError> {
    let source = format!(in alloc; "s{number}")?;
    Ok(Session::new(alloc, source))
}

// Returns the session's source as JSON text, cut out of its opening message. Returns `None` if an
// allocation fails.
fn source_of(alloc: Global, session: &Session) -> Option<String> {
    let opening = session.opening().ok()?;
    let (_, rest) = opening.as_str().split_once(r#""id":"#)?;
    let (source, _) = rest.split_once(r#","protocol":"#)?;
    String::from_str(alloc, source).ok()
}

/// Returns the result of a call of the session, which ends if an allocation failed.
pub(crate) fn session_result<T>(returned: Result<T, Ended>) -> Result<T, SessionEnd> {
    match returned {
        Ok(value) => Ok(value),
        Err(_) => Err(SessionEnd::OutOfMemory),
    }
}

// Returns the context if it reads more frames.
fn readable_context(websocket: WebSocketContext) -> Option<WebSocketContext> {
    if websocket.can_read() {
        Some(websocket)
    } else {
        None
    }
}

impl<B: PassBrand> Connection<B> {
    /// Creates the connection of a session that hasn't sent its opening message.
    pub fn new(
        alloc: Global,
        stream: MioStream,
        pass: LoopPass<B>,
        session: Session,
        time: LoopTime,
    ) -> Connection<B>
        ensures { pass_number result.pass.pass ≡ pass_number pass.pass }
    {
        Connection {
            alloc,
            link: Link::new(alloc, stream),
            pass,
            session,
            websocket: WebSocketContext::new(alloc, Role::Server, configuration()),
            partial: Vec::new(alloc),
            has_frames: false,
            is_in_message: false,
            fragment_bytes: 0,
            deadlines: Deadlines::new(time.second),
            groups: Vec::new(alloc),
            messages: 0,
            operations: 0,
            listing: None,
            document: None,
            is_deferred: false,
            next_queue: 0,
            is_listed: false,
            is_lagging: false,
        }
    }

    /// Returns the stream and the pass of a session that was not opened.
    pub fn into_parts(self) -> (MioStream, LoopPass<B>)
        ensures { pass_number result.1.pass ≡ pass_number self.pass.pass }
    {
        let Connection { link, pass, .. } = self;
        (link.into_stream(), pass)
    }

    /// Sends the opening message.
    pub fn open(&mut self, time: LoopTime, output: &mut LoopOutput) -> Result<(), SessionEnd>
        ensures { pass_number self.new.pass.pass ≡ pass_number self.old.pass.pass }
    {
        let mut sink = FrameSink::new(&mut self.websocket, &mut output.bytes);
        let opened = self.session.opening_to(&mut sink);
        let FrameSink { document, .. } = sink;
        self.document = document;
        opened?;
        self.send(time, output)
    }

    /// Returns whether a turn of the client is a large one.
    pub fn has_large_input(&self) -> bool {
        self.partial.len().saturating_add(self.fragment_bytes) >= LARGE_INPUT
    }

    /// Records that input waits, or that the client has closed its sending side.
    pub fn record_readable(&mut self, is_closed: bool)
        ensures { pass_number self.new.pass.pass ≡ pass_number self.old.pass.pass }
    {
        self.link.record_readable(is_closed);
    }

    /// Writes pending output. Returns whether some was pending and none is left.
    pub fn resume(&mut self, time: LoopTime) -> Result<bool, SessionEnd>
        ensures { pass_number self.new.pass.pass ≡ pass_number self.old.pass.pass }
    {
        if !self.link.has_pending_output() {
            return Ok(false);
        }
        match self.link.resume() {
            Ok(is_taken) => {
                if is_taken {
                    self.deadlines.record_write(time.second);
                }
                Ok(!self.link.has_pending_output())
            }
            Err(_) => Err(SessionEnd::Lost),
        }
    }

    /// Releases held output if it is committed. Returns the number of acknowledgements in it if it did.
    pub fn release(&mut self, progress: &SaveProgress, time: LoopTime) -> Option<u64>
        ensures { pass_number self.new.pass.pass ≡ pass_number self.old.pass.pass }
    {
        let released = self.link.release(progress);
        if released.is_some() {
            progress.record().add_hold(self.deadlines.end_hold(time));
        }
        released
    }

    /// Returns the number of subscriptions of the session.
    pub fn subscription_count(&self) -> usize {
        self.session.subscription_count()
    }

    /// Adds a group. Returns `false` if the session was subscribed to it before.
    pub fn subscribe(&mut self, group: DocumentGroup) -> Result<bool, AllocError>
        ensures { pass_number self.new.pass.pass ≡ pass_number self.old.pass.pass }
    {
        let number = group.number();
        if self.groups.iter().any(|known| known.number() == number) {
            return Ok(false);
        }
        self.groups.push(group)?;
        Ok(true)
    }

    /// Sends a ping to a silent client, or returns why the session ends.
    pub fn check(&mut self, time: LoopTime, output: &mut LoopOutput) -> Result<(), SessionEnd>
        ensures { pass_number self.new.pass.pass ≡ pass_number self.old.pass.pass }
    {
        let is_pending = self.link.has_pending_output() || self.is_answering();
        match self.deadlines.next_action(time.second, is_pending) {
            DueAction::Nothing => Ok(()),
            DueAction::End(end) => Err(end),
            DueAction::Ping => {
                let ping = Message::Ping(&[]);
                let _ = self.websocket.write(ping, &mut output.bytes, &mut NoMask);
                self.send(time, output)
            }
        }
    }

    /// Returns whether a part of the answer to the last message isn't written.
    pub fn is_answering(&self) -> bool {
        self.listing.is_some() || self.document.is_some()
    }

    /// Returns whether the queues weren't read because of a listing or a document that has ended, and
    /// forgets it.
    pub fn take_deferral(&mut self) -> bool
        ensures { pass_number self.new.pass.pass ≡ pass_number self.old.pass.pass }
    {
        if self.is_answering() {
            return false;
        }
        std::mem::replace(&mut self.is_deferred, false)
    }

    /// Writes what a turn has left when its session ends.
    pub fn send_rest(&mut self, time: LoopTime, output: &mut LoopOutput)
        ensures { pass_number self.new.pass.pass ≡ pass_number self.old.pass.pass }
    {
        // (a connection that is lost is found to be so again when the session ends)
        let _ = self.send(time, output);
    }

    /// Writes the output. What the socket doesn't take is pending. If the server saves operations,
    /// the output is held until all operations stored before this call are saved.
    pub fn send(&mut self, time: LoopTime, output: &mut LoopOutput) -> Result<(), SessionEnd>
        ensures { pass_number self.new.pass.pass ≡ pass_number self.old.pass.pass }
    {
        output.tally.add_sent(output.bytes.len());
        let ticket = output.request_ticket();
        let is_sent = self.link.send(&mut output.bytes, ticket).is_ok();
        self.deadlines.record_write(time.second);
        if self.link.is_held() {
            self.deadlines.begin_hold(time);
            self.link.add_held(output.take_acknowledgements());
        }
        if is_sent {
            Ok(())
        } else {
            Err(SessionEnd::Lost)
        }
    }

    // Sends what the client receives at the end of its session. Returns `false` if it receives nothing
    // or the connection is lost. If held output is never saved, it is discarded.
    fn send_end(&mut self, end: SessionEnd, output: &mut LoopOutput) -> bool
        ensures { pass_number self.new.pass.pass ≡ pass_number self.old.pass.pass }
    {
        let is_unsaved = output.is_unsaved(end);
        if is_unsaved && !self.discard_unsaved(output) {
            return false;
        }
        let is_answered = self.write_end(end, output);
        output.tally.add_sent(output.bytes.len());
        // (what is sent at the end alone reports no operation)
        let ticket = if is_unsaved {
            None
        } else {
            output.request_ticket()
        };
        let is_sent = self.link.send(&mut output.bytes, ticket).is_ok();
        is_answered && is_sent
    }

    // Discards output that isn't committed. Returns `false` if the client has received a part of it.
    fn discard_unsaved(&mut self, output: &mut LoopOutput) -> bool
        ensures { pass_number self.new.pass.pass ≡ pass_number self.old.pass.pass }
    {
        output.bytes.clear();
        match &output.progress {
            Some(progress) => self.link.discard_held(progress),
            None => true,
        }
    }

    // Appends what the client receives at the end of its session. Returns whether it is to be sent.
    fn write_end(&mut self, end: SessionEnd, output: &mut LoopOutput) -> bool
        ensures { pass_number self.new.pass.pass ≡ pass_number self.old.pass.pass }
    {
        if let SessionEnd::TooLong = end {
            return self.write_refusal(output);
        }
        match end.close_code() {
            Some(code) => write_close(&mut self.websocket, code, &mut output.bytes),
            None => matches!(end, SessionEnd::Closed),
        }
    }

    // Appends the answer to a message that is too long, and a close. The context that read it writes
    // no more text, so a new one does.
    fn write_refusal(&mut self, output: &mut LoopOutput) -> bool
        ensures { pass_number self.new.pass.pass ≡ pass_number self.old.pass.pass }
    {
        let mut websocket = WebSocketContext::new(self.alloc, Role::Server, configuration());
        let mut sink = FrameSink::new(&mut websocket, &mut output.bytes);
        let refused = self.session.refuse_unreadable_to(&mut sink);
        let FrameSink { document, .. } = sink;
        self.document = document;
        if refused.is_err() {
            return false;
        }
        write_close(&mut websocket, CloseCode::Size, &mut output.bytes)
    }
}

impl<B: PassBrand> Connection<B> {
    /// Ends the session, and sends what the client receives at its end. The session's queues are
    /// closed.
    pub fn end<R: Wait + Drop, P: Policy + Drop>(
        mut self,
        context: &LoopContext<R, P, B>,
        end: SessionEnd,
        time: LoopTime,
        output: &mut LoopOutput,
    ) -> EndedConnection<B>
        ensures { let b = context.now.state.value.backend in KeepsPass b self.pass.pass b result.pass.pass }
    {
        let is_closing = self.send_end(end, output);
        output.tally.add_subscriptions(self.subscription_count(), 0);
        let Connection {
            alloc,
            link,
            mut pass,
            session,
            websocket,
            partial,
            groups,
            messages,
            operations,
            listing,
            ..
        } = self;
        let report = SessionReport {
            number: pass.number(),
            source: source_of(alloc, &session),
            end,
            messages,
            operations,
        };
        pass.end_session(context, session, listing);
        let closing = if is_closing {
            let readable = readable_context(websocket);
            let drains = !matches!(end, SessionEnd::Closed);
            Some(ClosingConnection::new(link, readable, partial, time.second, drains))
        } else {
            None
        };
        EndedConnection {
            pass,
            report,
            closing,
            groups,
        }
    }
}
