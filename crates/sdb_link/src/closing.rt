//! Connections that are being closed.
use crate::deadlines::{SAVE_LIMIT_SECONDS, WRITE_LIMIT_SECONDS};
use crate::link::{Link, ReadOutcome};
use crate::session_end::configuration;
use mio::net::TcpStream as MioStream;
use sdb_progress::SaveProgress;
use std::alloc::Global;
use std::io;
use websocket::error::Error;
use websocket::protocol::{CloseCode, CloseFrame, FrameStatus, NoMask, Role, WebSocketContext};

// Maximum number of seconds for which input is discarded after a close.
const DRAIN_SECONDS: u64 = 2;

/// What is left to do for a connection.
#[derive(Clone, Copy, PartialEq, Eq, Drop)]
pub enum Progress {
    /// Nothing until the next event.
    Idle,
    /// More input or more entries wait.
    More,
    /// The connection is to be dropped.
    Over,
}

/// A connection whose last output is sent or pending, and whose input is discarded, so that the
/// client reads that output before its own writes fail.
#[derive(Drop)]
pub struct ClosingConnection {
    pub link: Link,
    // `None` if the input isn't read as frames.
    websocket: Option<WebSocketContext>,
    // The received part of a frame.
    partial: Vec<u8>,
    // The second of the last output.
    start: u64,
    // Whether input is discarded once the output is sent.
    drains: bool,
    pub is_listed: bool,
}

/// Appends a close frame to the output. Returns `false` if an allocation fails.
pub fn write_close(
    websocket: &mut WebSocketContext,
    code: CloseCode,
    output: &mut Vec<u8>,
) -> bool {
    let frame = CloseFrame { code, reason: "" };
    websocket.close(Some(frame), output, &mut NoMask).is_ok()
}

impl ClosingConnection {
    /// Creates a connection that is closed from this second on. The client's close ends it if its
    /// frames are still read. If it doesn't drain, it is over once its output is sent.
    pub fn new(
        link: Link,
        websocket: Option<WebSocketContext>,
        partial: Vec<u8>,
        second: u64,
        drains: bool,
    ) -> ClosingConnection {
        ClosingConnection {
            link,
            websocket,
            partial,
            start: second,
            drains,
            is_listed: false,
        }
    }

    /// Sends the output to a connection without a session, and closes it. Returns `None` if the
    /// connection is lost.
    pub fn after_output(
        alloc: Global,
        stream: MioStream,
        output: &mut Vec<u8>,
        second: u64,
    ) -> Option<ClosingConnection> {
        let mut link = Link::new(alloc, stream);
        link.send(output, None).ok()?;
        let closing = ClosingConnection::new(link, None, Vec::new(alloc), second, true);
        closing.end_output();
        Some(closing)
    }

    /// Closes a connection without a session. Returns `None` if the connection is lost.
    pub fn after_close(
        alloc: Global,
        stream: MioStream,
        code: CloseCode,
        output: &mut Vec<u8>,
        second: u64,
    ) -> Option<ClosingConnection> {
        let mut link = Link::new(alloc, stream);
        let mut websocket = WebSocketContext::new(alloc, Role::Server, configuration());
        if !write_close(&mut websocket, code, output) {
            output.clear();
            return None;
        }
        link.send(output, None).ok()?;
        let partial = Vec::new(alloc);
        Some(ClosingConnection::new(link, Some(websocket), partial, second, true))
    }

    /// Records that input waits, or that the client has closed its sending side.
    pub fn record_readable(&mut self, is_closed: bool) {
        self.link.record_readable(is_closed);
    }

    /// Sends a close in place of output that is still held. Returns `false` if that isn't possible: the
    /// client has received a part of a frame, or the connection is lost.
    pub fn close_held(
        &mut self,
        alloc: Global,
        progress: &SaveProgress,
        code: CloseCode,
        second: u64,
    ) -> bool {
        let mut websocket = WebSocketContext::new(alloc, Role::Server, configuration());
        let mut output = Vec::new(alloc);
        let is_sent = self.link.discard_held(progress)
            && write_close(&mut websocket, code, &mut output)
            && self.link.send(&mut output, None).is_ok();
        self.start = second;
        is_sent
    }

    /// Releases held output if it is committed. Returns the number of acknowledgements in it if it did.
    /// The time of the hold doesn't count.
    pub fn release(&mut self, progress: &SaveProgress, second: u64) -> Option<u64> {
        let released = self.link.release(progress);
        if released.is_some() {
            self.start = second;
        }
        released
    }

    /// Writes pending output.
    pub fn resume(&mut self, second: u64) -> io::Result<()> {
        if self.link.resume()? {
            self.start = second;
        }
        self.end_output();
        Ok(())
    }

    // Lets the client read the end of the output once all of it is sent, if its input isn't read as
    // frames.
    fn end_output(&self) {
        if self.websocket.is_none() && !self.link.has_pending_output() {
            self.link.shut_down();
        }
    }

    /// Returns whether nothing is left to do.
    pub fn is_over(&self) -> bool {
        !self.drains && !self.link.has_pending_output()
    }

    /// Returns whether the client had its time. A client whose output is held has half a minute, unless
    /// nothing more is saved.
    pub fn is_late(&self, second: u64, is_unsaved: bool) -> bool {
        let seconds = second.saturating_sub(self.start);
        if self.link.is_held() {
            return is_unsaved || seconds >= SAVE_LIMIT_SECONDS;
        }
        if self.link.has_pending_output() {
            seconds > WRITE_LIMIT_SECONDS
        } else {
            seconds >= DRAIN_SECONDS
        }
    }

    /// Reads once and discards the input. The connection is over at the client's close, or at the
    /// end of its stream. While output is held no input is read.
    pub fn discard_input(&mut self, alloc: Global, input: &mut [u8]) -> Progress {
        if self.link.is_held() {
            return Progress::Idle;
        }
        let count = match self.link.read(input) {
            Ok(ReadOutcome::Bytes(count)) => count,
            Ok(ReadOutcome::Blocked) => return Progress::Idle,
            Ok(ReadOutcome::Closed) | Err(_) => return Progress::Over,
        };
        let bytes = input.get(..count).unwrap_or(&[]);
        if self.has_read_close(alloc, bytes) {
            return Progress::Over;
        }
        if self.link.is_readable() {
            return Progress::More;
        }
        Progress::Idle
    }

    // Reads the bytes as frames. Returns whether the client has answered the close. After an error
    // the bytes are only discarded.
    fn has_read_close(&mut self, alloc: Global, bytes: &[u8]) -> bool {
        let Some(mut websocket) = self.websocket.take() else {
            return false;
        };
        let mut partial = std::mem::replace(&mut self.partial, Vec::new(alloc));
        if partial.extend_from_slice(bytes).is_err() {
            return true;
        }
        if discard_frames(alloc, &mut websocket, &mut partial).is_err() {
            return false;
        }
        let is_closed = !websocket.can_read();
        self.partial = partial;
        self.websocket = Some(websocket);
        is_closed
    }
}

// Discards the complete frames at the front.
fn discard_frames(
    alloc: Global,
    websocket: &mut WebSocketContext,
    partial: &mut Vec<u8>,
) -> Result<(), Error> {
    let mut used: usize = 0;
    let mut replies = Vec::new(alloc);
    for _ in 0..partial.len() {
        let at = used.min(partial.len());
        let consumed = discard_frame(websocket, &mut partial[at..], &mut replies)?;
        if consumed == 0 {
            break;
        }
        used = used.saturating_add(consumed);
    }
    let at = used.min(partial.len());
    partial.drain(..at);
    Ok(())
}

// Discards the frame at the front, and returns its length, or 0 if it isn't complete.
fn discard_frame(
    websocket: &mut WebSocketContext,
    bytes: &mut [u8],
    replies: &mut Vec<u8>,
) -> Result<usize, Error> {
    if bytes.is_empty() || !websocket.can_read() {
        return Ok(0);
    }
    match websocket.read(bytes, replies, &mut NoMask)? {
        FrameStatus::Complete(step) => Ok(step.consumed),
        FrameStatus::Partial(_) => Ok(0),
    }
}
