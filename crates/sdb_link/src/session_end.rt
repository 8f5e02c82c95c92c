//! The reasons for which a session ends.
use sdb_wire::MESSAGE_LIMIT;
use std::alloc::AllocError;
use std::fmt;
use websocket::error::Error;
use websocket::protocol::{CloseCode, WebSocketConfig};

/// The reason why a session ended. `Display` writes it in words.
#[derive(Clone, Copy, PartialEq, Eq, Drop)]
pub enum SessionEnd {
    /// The client closed the connection.
    Closed,
    /// The connection is broken.
    Lost,
    /// A message exceeded the length limit, so its end can't be found.
    TooLong,
    /// The client was silent for too long.
    Silent,
    /// A message arrived too slowly.
    Slow,
    /// The client broke the WebSocket protocol, or closed without a close frame.
    Protocol,
    /// A text message was not UTF-8.
    NotText,
    /// An allocation failed.
    OutOfMemory,
    /// Operations can't be saved.
    Unsaved,
    /// The server is shutting down.
    Stopped,
}

/// The reasons, in the order of their counts.
pub const ENDS: [SessionEnd; 10] = [
    SessionEnd::Closed,
    SessionEnd::Lost,
    SessionEnd::TooLong,
    SessionEnd::Silent,
    SessionEnd::Slow,
    SessionEnd::Protocol,
    SessionEnd::NotText,
    SessionEnd::OutOfMemory,
    SessionEnd::Unsaved,
    SessionEnd::Stopped,
];

impl SessionEnd {
    /// Returns the name of the reason in metrics.
    pub fn label(self) -> &'static str {
        match self {
            SessionEnd::Closed => "closed",
            SessionEnd::Lost => "lost",
            SessionEnd::TooLong => "too_long",
            SessionEnd::Silent => "silent",
            SessionEnd::Slow => "slow",
            SessionEnd::Protocol => "protocol",
            SessionEnd::NotText => "not_text",
            SessionEnd::OutOfMemory => "out_of_memory",
            SessionEnd::Unsaved => "unsaved",
            SessionEnd::Stopped => "stopped",
        }
    }

    /// Returns the close code to send, or `None` if no close is sent.
    pub fn close_code(self) -> Option<CloseCode> {
        match self {
            SessionEnd::Closed | SessionEnd::Lost | SessionEnd::TooLong => None,
            SessionEnd::Silent | SessionEnd::Slow | SessionEnd::Stopped => Some(CloseCode::Away),
            SessionEnd::Protocol => Some(CloseCode::Protocol),
            SessionEnd::NotText => Some(CloseCode::Invalid),
            SessionEnd::OutOfMemory => Some(CloseCode::Error),
            SessionEnd::Unsaved => Some(CloseCode::Again),
        }
    }
}

impl fmt::Display for SessionEnd {
    fn fmt<W: fmt::Write>(&self, f: &mut fmt::Formatter<W>) -> fmt::Result {
        f.write_str(match self {
            SessionEnd::Closed => "the client closed the connection",
            SessionEnd::Lost => "the connection was lost",
            SessionEnd::TooLong => "a message was too long",
            SessionEnd::Silent => "the client was silent",
            SessionEnd::Slow => "a message arrived too slowly",
            SessionEnd::Protocol => "the client violated the protocol, or sent no close frame",
            SessionEnd::NotText => "a text message was not UTF-8",
            SessionEnd::OutOfMemory => "an allocation failed",
            SessionEnd::Unsaved => "operations could not be saved",
            SessionEnd::Stopped => "the server is shutting down",
        })
    }
}

impl From<AllocError> for SessionEnd {
    fn from(_: AllocError) -> SessionEnd {
        SessionEnd::OutOfMemory
    }
}

/// Returns the reason why a session ends after an error of the protocol.
pub fn end_of(error: &Error) -> SessionEnd {
    match error {
        Error::ConnectionClosed => SessionEnd::Closed,
        Error::AlreadyClosed => SessionEnd::Lost,
        Error::Capacity(_) => SessionEnd::TooLong,
        Error::Protocol(_) => SessionEnd::Protocol,
        Error::Utf8 => SessionEnd::NotText,
        Error::OutOfMemory => SessionEnd::OutOfMemory,
    }
}

/// Returns the configuration of a connection.
pub fn configuration() -> WebSocketConfig {
    WebSocketConfig::default()
        .max_message_size(Some(MESSAGE_LIMIT))
        .max_frame_size(Some(MESSAGE_LIMIT))
}
