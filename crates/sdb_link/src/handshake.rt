//! Handshakes that don't block.
use crate::deadlines::SAVE_LIMIT_SECONDS;
use crate::log::Peer;
use crate::pending_output::{PendingOutput, is_would_block};
use crate::plain_request::{PlainRequest, forwarded_address, plain_request_of};
use mio::net::TcpStream as MioStream;
use std::alloc::{AllocError, Global};
use std::io;
use std::io::{ErrorKind, Read, Write};
use tungstenite::handshake::server::accept;
use tungstenite::{Error, HandshakeError};

// Seconds that a handshake may take, and if no room for more connections is left.
const HANDSHAKE_LIMIT_SECONDS: u64 = 10;

const CROWDED_LIMIT_SECONDS: u64 = 1;

// Maximum number of reads of one request, and of bytes of one read.
const READ_LIMIT: usize = 64;

const READ_SIZE: usize = 4096;

/// A connection in its handshake.
#[derive(Drop)]
pub struct Handshake {
    alloc: Global,
    stream: MioStream,
    peer: Peer,
    is_proxied: bool,
    request: Vec<u8>,
    reads: usize,
    response: PendingOutput,
    is_accepted: bool,
    start: u64,
    order: u64,
}

/// A client after its handshake, without a session.
#[derive(Drop)]
pub struct WaitingClient {
    pub stream: MioStream,
    pub peer: Peer,
    /// The second in which its handshake began.
    pub start: u64,
}

impl WaitingClient {
    /// Returns whether the client has waited for half a minute.
    pub fn is_late(&self, second: u64) -> bool {
        second.saturating_sub(self.start) >= SAVE_LIMIT_SECONDS
    }
}

/// The state of a handshake.
#[derive(Drop)]
pub enum HandshakeProgress {
    /// The handshake is complete.
    Complete(WaitingClient),
    /// More input is needed, or output is pending.
    Pending(Handshake),
    /// The request is no WebSocket handshake, but a plain one.
    NotUpgrade(MioStream, PlainRequest),
    /// The client is gone, or an allocation failed.
    Failed,
}

impl Handshake {
    /// Begins a handshake, the one with this number in the order of accepting. If clients connect
    /// through a proxy, the request has the client's address.
    pub fn new(
        alloc: Global,
        stream: MioStream,
        peer: Peer,
        is_proxied: bool,
        second: u64,
        order: u64,
    ) -> Handshake {
        Handshake {
            alloc,
            stream,
            peer,
            is_proxied,
            request: Vec::new(alloc),
            reads: 0,
            response: PendingOutput::new(alloc),
            is_accepted: false,
            start: second,
            order,
        }
    }

    /// Returns its number in the order of accepting.
    pub fn order(&self) -> u64 {
        self.order
    }

    /// Continues the handshake as far as the input permits.
    pub fn proceed(mut self) -> HandshakeProgress {
        match self.advance() {
            Ok(true) => HandshakeProgress::Complete(self.into_client()),
            Ok(false) => HandshakeProgress::Pending(self),
            Err(error) if is_not_upgrade(&error) => {
                let request = plain_request_of(&self.request);
                HandshakeProgress::NotUpgrade(self.into_stream(), request)
            }
            Err(_) => HandshakeProgress::Failed,
        }
    }

    fn into_stream(self) -> MioStream {
        let Handshake { stream, .. } = self;
        stream
    }

    fn into_client(self) -> WaitingClient {
        let forwarded = match self.is_proxied {
            true => forwarded_address(&self.request),
            false => None,
        };
        let peer = match forwarded {
            Some(address) => Peer::Forwarded(address),
            None => self.peer,
        };
        let start = self.start;
        let stream = self.into_stream();
        WaitingClient {
            stream,
            peer,
            start,
        }
    }

    // Reads the request, and writes the response once it is complete. Returns whether the whole
    // response was written.
    fn advance(&mut self) -> Result<bool, Error> {
        if self.is_accepted {
            self.response.resume(&mut self.stream)?;
            return Ok(self.response.is_empty());
        }
        let has_ended = self.read_request()?;
        self.answer()?;
        if has_ended && !self.is_accepted {
            return Err(io::Error::from(ErrorKind::UnexpectedEof).into());
        }
        Ok(self.is_accepted && self.response.is_empty())
    }

    // Reads until no input waits. Returns whether the client has closed its sending side.
    fn read_request(&mut self) -> io::Result<bool> {
        let mut input = [0; READ_SIZE];
        for _ in self.reads..READ_LIMIT {
            match self.stream.read(&mut input) {
                Ok(0) => return Ok(true),
                Ok(count) => self.append(input.get(..count).unwrap_or(&[]))?,
                Err(error) if is_would_block(&error) => return Ok(false),
                Err(error) => return Err(error),
            }
        }
        Err(io::Error::from(ErrorKind::InvalidData))
    }

    // Appends a part of the request.
    fn append(&mut self, bytes: &[u8]) -> Result<(), AllocError> {
        self.reads = self.reads.saturating_add(1);
        self.request.extend_from_slice(bytes)
    }

    // Answers the request if it is complete.
    fn answer(&mut self) -> Result<(), Error> {
        if let Some(response) = response_to(self.alloc, &self.request)? {
            self.is_accepted = true;
            self.response.send(&mut self.stream, &response)?;
        }
        Ok(())
    }

    /// Returns whether the handshake takes too long.
    pub fn is_late(&self, second: u64, is_crowded: bool) -> bool {
        let limit = if is_crowded {
            CROWDED_LIMIT_SECONDS
        } else {
            HANDSHAKE_LIMIT_SECONDS
        };
        second.saturating_sub(self.start) > limit
    }
}

fn is_not_upgrade(error: &Error) -> bool {
    matches!(
        error,
        Error::Handshake(_) | Error::JunkAfterRequest | Error::Url
    )
}

// Returns the response to a request, or `None` if the request isn't complete.
fn response_to(alloc: Global, request: &[u8]) -> Result<Option<Vec<u8>>, Error> {
    match accept(alloc, Exchange::new(alloc, request)?) {
        Ok(websocket) => Ok(Some(websocket.into_inner().into_response())),
        Err(HandshakeError::Interrupted(rest)) => {
            drop(rest);
            Ok(None)
        }
        Err(HandshakeError::Failure(error)) => Err(error),
    }
}

// The received part of a request, how much of it was read, and the response to it.
#[derive(Drop)]
struct Exchange {
    request: Vec<u8>,
    used: usize,
    response: Vec<u8>,
}

impl Exchange {
    fn new(alloc: Global, request: &[u8]) -> Result<Exchange, AllocError> {
        let mut copy = Vec::new(alloc);
        copy.extend_from_slice(request)?;
        Ok(Exchange {
            request: copy,
            used: 0,
            response: Vec::new(alloc),
        })
    }

    fn into_response(self) -> Vec<u8> {
        let Exchange { response, .. } = self;
        response
    }
}

impl Read for Exchange {
    // Would block at the end, since the rest wasn't received.
    fn read(&mut self, buf: &mut [u8]) -> io::Result<usize> {
        let mut rest: &[u8] = self.request.get(self.used..).unwrap_or(&[]);
        let count = rest.read(buf)?;
        if count == 0 {
            return Err(io::Error::from(ErrorKind::WouldBlock));
        }
        self.used = self.used.saturating_add(count);
        Ok(count)
    }
}

impl Write for Exchange {
    fn write(&mut self, buf: &[u8]) -> io::Result<usize> {
        self.response.extend_from_slice(buf)?;
        Ok(buf.len())
    }

    fn flush(&mut self) -> io::Result<()> {
        Ok(())
    }
}
