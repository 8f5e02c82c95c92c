//! The socket of a connection.
use crate::pending_output::{PendingOutput, is_would_block};
use mio::net::TcpStream as MioStream;
use sdb_progress::{SaveProgress, Ticket};
use std::alloc::Global;
use std::io;
use std::io::{Read, Write};
use std::net::Shutdown;

/// The outcome of one read.
#[derive(Clone, Copy, Drop)]
pub enum ReadOutcome {
    /// This number of bytes came, 1 or more.
    Bytes(usize),
    /// No bytes wait.
    Blocked,
    /// The client has closed its sending side.
    Closed,
}

/// The socket of a connection, its pending output, and what events have reported of it. An event is
/// reported once, so it is recorded until a read finds no more.
///
/// Pending output is held until its ticket is committed, since a crash could remove the operations
/// that it reports.
#[derive(Drop)]
pub struct Link {
    stream: MioStream,
    pending: PendingOutput,
    // The ticket of held output.
    hold: Option<Ticket>,
    // Number of acknowledgements in held output.
    held_acknowledgements: u64,
    // The number of the last list of held connections that has the connection, or 0.
    list_number: u64,
    is_readable: bool,
    // Whether a short read doesn't show that all input was read, since no event reports the rest.
    reads_until_blocked: bool,
}

impl Link {
    /// Creates the link. Input may wait already.
    pub fn new(alloc: Global, stream: MioStream) -> Link {
        Link {
            stream,
            pending: PendingOutput::new(alloc),
            hold: None,
            held_acknowledgements: 0,
            list_number: 0,
            is_readable: true,
            reads_until_blocked: true,
        }
    }

    /// Records that input waits, or that the client has closed its sending side.
    pub fn record_readable(&mut self, is_closed: bool) {
        self.is_readable = true;
        self.reads_until_blocked = self.reads_until_blocked || is_closed;
    }

    /// Returns the stream. Pending output is discarded.
    pub fn into_stream(self) -> MioStream {
        let Link { stream, .. } = self;
        stream
    }

    /// Returns whether a read may find input.
    pub fn is_readable(&self) -> bool {
        self.is_readable
    }

    /// Returns whether output is pending.
    pub fn has_pending_output(&self) -> bool {
        !self.pending.is_empty()
    }

    /// Returns whether output is held.
    pub fn is_held(&self) -> bool {
        self.hold.is_some()
    }

    /// Returns whether output is held and the list with this number doesn't have the connection.
    pub fn is_unlisted(&self, list_number: u64) -> bool {
        self.is_held() && self.list_number != list_number
    }

    /// Records that the list with this number has the connection.
    pub fn record_listed(&mut self, list_number: u64) {
        self.list_number = list_number;
    }

    /// Records that held output has this number of acknowledgements more.
    pub fn add_held(&mut self, acknowledgements: u64) {
        self.held_acknowledgements = self.held_acknowledgements.saturating_add(acknowledgements);
    }

    /// Ends the hold if its ticket is committed. Returns the number of acknowledgements in the output
    /// if it did: the output is then pending until [`resume`](Link::resume) writes it.
    pub fn release(&mut self, progress: &SaveProgress) -> Option<u64> {
        match self.hold {
            Some(ticket) if progress.is_committed(ticket) => {
                self.hold = None;
                Some(std::mem::replace(&mut self.held_acknowledgements, 0))
            }
            _ => None,
        }
    }

    /// Discards held output, unless its ticket is committed. Returns `false` if the client has
    /// received a part of a frame, so that no other frame can be sent.
    pub fn discard_held(&mut self, progress: &SaveProgress) -> bool {
        match self.hold {
            Some(ticket) if !progress.is_committed(ticket) => {
                self.hold = None;
                self.held_acknowledgements = 0;
                self.pending.discard()
            }
            _ => true,
        }
    }

    /// Reads once.
    pub fn read(&mut self, input: &mut [u8]) -> io::Result<ReadOutcome> {
        match self.stream.read(input) {
            Ok(0) => Ok(ReadOutcome::Closed),
            Ok(count) => {
                self.is_readable = self.reads_until_blocked || count >= input.len();
                Ok(ReadOutcome::Bytes(count))
            }
            Err(error) if is_would_block(&error) => {
                self.is_readable = false;
                self.reads_until_blocked = false;
                Ok(ReadOutcome::Blocked)
            }
            Err(error) => Err(error),
        }
    }

    /// Writes the output, and clears it. What the socket doesn't take is pending. With a ticket, or
    /// while earlier output is held, the output is held, and all of it waits for the last ticket.
    pub fn send(&mut self, output: &mut Vec<u8>, ticket: Option<Ticket>) -> io::Result<()> {
        if output.is_empty() {
            return Ok(());
        }
        self.hold = ticket.or(self.hold);
        let sent = if self.is_held() {
            self.pending.append(output)
        } else {
            self.pending.send(&mut self.stream, output)
        };
        output.clear();
        sent
    }

    /// Closes the sending side.
    pub fn shut_down(&self) {
        // (a connection that is lost has no sending side)
        let _ = self.stream.shutdown(Shutdown::Write);
    }

    /// Writes pending output, unless it is held. Returns whether the socket took any.
    pub fn resume(&mut self) -> io::Result<bool> {
        if self.is_held() {
            return Ok(false);
        }
        self.pending.resume(&mut self.stream)
    }
}
