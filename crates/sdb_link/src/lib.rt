//! The sockets of clients, without their sessions: handshakes, plain requests, pending output,
//! deadlines and closes, and the buffers, counts and log lines of the loops that serve them.
//!
//! Nothing here blocks on a socket, and nothing knows a stored document.
#![tactic(auto)]

mod closing;
mod deadlines;
mod handshake;
mod link;
mod log;
mod loop_buffers;
mod memory;
mod metrics;
mod metrics_page;
mod pending_document;
mod pending_output;
mod plain_request;
mod session_end;

pub use closing::{ClosingConnection, Progress, write_close};
pub use deadlines::{Deadlines, DueAction};
pub use handshake::{Handshake, HandshakeProgress, WaitingClient};
pub use link::{Link, ReadOutcome};
pub use log::{LogTime, Peer, SessionReport, log_accept_error, log_begin, log_end, log_refusal};
pub use loop_buffers::{LoopBuffers, LoopOutput, LoopTime, OUTPUT_BOUND};
pub use memory::resident_memory;
pub use metrics::{Metrics, Tally};
pub use pending_document::PendingDocument;
pub use plain_request::{Page, PlainRequest, ServerStatus, VERSION, write_page};
pub use session_end::{SessionEnd, configuration, end_of};
