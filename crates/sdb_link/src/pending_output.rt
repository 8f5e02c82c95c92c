//! The output that a client hasn't taken.
use std::alloc::Global;
use std::io;
use std::io::{ErrorKind, Write};

// Maximum number of unsent bytes of one client. A client isn't read from while it has any, so they
// are at most the answers of one turn, as the entries that a submission missed. A listing and a large
// document are sent in parts.
const PENDING_OUTPUT_LIMIT: usize = 1 << 28;

/// Bytes that the socket hasn't taken. It holds no memory while it is empty.
#[derive(Drop)]
pub struct PendingOutput {
    alloc: Global,
    bytes: Vec<u8>,
    sent: usize,
}

impl PendingOutput {
    /// Creates it without bytes.
    pub fn new(alloc: Global) -> PendingOutput {
        PendingOutput {
            alloc,
            bytes: Vec::new(alloc),
            sent: 0,
        }
    }

    pub fn is_empty(&self) -> bool {
        self.bytes.is_empty()
    }

    /// Writes the bytes after those that are pending. What the socket doesn't take is pending.
    pub fn send<S: Write>(&mut self, stream: &mut S, bytes: &[u8]) -> io::Result<()> {
        let count = if self.is_empty() {
            write_some(stream, bytes)?
        } else {
            0
        };
        self.append(bytes.get(count..).unwrap_or(&[]))
    }

    /// Appends the bytes to those that are pending.
    ///
    /// # Errors
    ///
    /// An error of kind `TimedOut` if there are too many bytes, or `OutOfMemory` if an allocation
    /// fails.
    pub fn append(&mut self, bytes: &[u8]) -> io::Result<()> {
        if bytes.is_empty() {
            return Ok(());
        }
        if self.bytes.len().saturating_add(bytes.len()) > PENDING_OUTPUT_LIMIT {
            return Err(io::Error::from(ErrorKind::TimedOut));
        }
        self.bytes.extend_from_slice(bytes)?;
        Ok(())
    }

    /// Discards pending bytes. Returns `false` if the socket has taken some of them.
    pub fn discard(&mut self) -> bool {
        let is_untouched = self.sent == 0;
        self.bytes = Vec::new(self.alloc);
        self.sent = 0;
        is_untouched
    }

    /// Writes pending bytes as far as the socket takes them. Returns whether it took any.
    pub fn resume<S: Write>(&mut self, stream: &mut S) -> io::Result<bool> {
        let rest = self.bytes.get(self.sent..).unwrap_or(&[]);
        if rest.is_empty() {
            return Ok(false);
        }
        let count = write_some(stream, rest)?;
        self.record_sent(count);
        Ok(count > 0)
    }

    // Records that the socket took these bytes.
    fn record_sent(&mut self, count: usize) {
        self.sent = self.sent.saturating_add(count);
        if self.sent >= self.bytes.len() {
            self.discard();
        }
    }
}

// Writes once, and returns how many bytes the socket took.
fn write_some<S: Write>(stream: &mut S, bytes: &[u8]) -> io::Result<usize> {
    match stream.write(bytes) {
        Err(error) if is_would_block(&error) => Ok(0),
        written => written,
    }
}

/// Returns whether a call would have to wait.
pub fn is_would_block(error: &io::Error) -> bool {
    matches!(error.kind(), ErrorKind::WouldBlock | ErrorKind::Interrupted)
}
