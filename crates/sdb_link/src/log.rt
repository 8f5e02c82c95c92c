//! The server's messages on standard error.
use crate::session_end::SessionEnd;
use httpdate::HttpDate;
use std::fmt;
use std::io::Error;
use std::net::{IpAddr, SocketAddr};
use websocket::protocol::CloseCode;

/// The address of a client.
#[derive(Clone, Copy, Drop)]
pub enum Peer {
    /// The other end of the connection.
    Connected(SocketAddr),
    /// The address that a proxy has forwarded.
    Forwarded(IpAddr),
}

impl fmt::Display for Peer {
    fn fmt<W: fmt::Write>(&self, f: &mut fmt::Formatter<W>) -> fmt::Result {
        match self {
            Peer::Connected(address) => write!(f, "{address}"),
            Peer::Forwarded(address) => write!(f, "{address}"),
        }
    }
}

/// The time of a line of the log, in milliseconds since the start of 1970. `Display` writes it in
/// UTC as the IMF-fixdate of RFC 9110, such as `Sun, 29 Nov 2026 08:00:00 GMT`.
#[derive(Clone, Copy, Drop)]
pub struct LogTime {
    pub millis: u64,
}

impl fmt::Display for LogTime {
    fn fmt<W: fmt::Write>(&self, f: &mut fmt::Formatter<W>) -> fmt::Result {
        match HttpDate::from_unix_secs(self.millis / 1_000) {
            Ok(date) => write!(f, "{date}"),
            Err(_) => f.write_str("unknown time"),
        }
    }
}

/// The report of an ended session. `Display` writes it as one line.
#[derive(Drop)]
pub struct SessionReport {
    /// The number of the session's pass.
    pub number: u64,
    /// The session's source at its end, as JSON text. `None` if an allocation failed.
    pub source: Option<String>,
    /// The reason why the session ended.
    pub end: SessionEnd,
    /// Number of messages received.
    pub messages: u64,
    /// Number of operations acknowledged.
    pub operations: u64,
}

impl fmt::Display for SessionReport {
    fn fmt<W: fmt::Write>(&self, f: &mut fmt::Formatter<W>) -> fmt::Result {
        let source = self.source.as_ref().map_or("unknown", String::as_str);
        write!(
            f,
            "connection {} ends: source {source}, messages {}, operations {}, {}",
            self.number, self.messages, self.operations, self.end
        )
    }
}

/// Logs the start of a session.
pub fn log_begin(rt: &impl Eprint, time: LogTime, number: u64, peer: Peer) {
    let _ = eprintln!(rt; "{time} connection {number} begins: source \"s{number}\", peer {peer}");
}

/// Logs that a client is closed without a session, with this code.
pub fn log_refusal(rt: &impl Eprint, time: LogTime, code: CloseCode, peer: Peer) {
    let why = match code {
        CloseCode::Away => "the server is shutting down",
        CloseCode::Again => "no more clients are served",
        _ => "an allocation failed",
    };
    let _ = eprintln!(rt; "{time} connection refused: {why}, peer {peer}");
}

/// Logs the end of a session.
pub fn log_end(rt: &impl Eprint, time: LogTime, report: &SessionReport) {
    let _ = eprintln!(rt; "{time} {report}");
}

/// Logs that no connection can be accepted.
pub fn log_accept_error(rt: &impl Eprint, time: LogTime, error: &Error) {
    let _ = eprintln!(rt; "{time} error: accepting a connection failed: {error}");
}
