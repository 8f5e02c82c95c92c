//! What the event loops of a server share: their ports and slots, the counts of connections and
//! clients, and the flags of the server's life cycle.
//!
//! Nothing here knows a document, a session or a socket.
#![tactic(auto)]

mod client_counts;
mod connection_lists;
mod document_group;
mod large_turns;
mod loop_options;
mod loop_port;
mod loop_ports;
mod loop_settings;
mod loop_slot;
mod loop_slots;
mod loop_state;
mod server_flags;
mod subscribers;
mod watcher;

pub use client_counts::ClientCounts;
pub use connection_lists::ConnectionLists;
pub use document_group::{DocumentGroup, WORD_COUNT};
pub use large_turns::{LARGE_INPUT, LARGE_TURN_LIMIT, LargeTurn, LargeTurns};
pub use loop_options::{DEFAULT_LOOP_CLIENTS, LOOP_CLIENT_LIMIT, LOOP_LIMIT, LoopOptions};
pub use loop_port::LoopPort;
pub use loop_ports::LoopPorts;
pub use loop_settings::LoopSettings;
pub use loop_slot::LoopSlot;
pub use loop_slots::LoopSlots;
pub use loop_state::LoopState;
pub use server_flags::ServerFlags;
pub use subscribers::Subscribers;
pub use watcher::watch_loops;
