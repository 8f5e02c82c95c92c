//! The clients of a server on event loops: their passes and sessions, and what the loops share.
//!
//! A connection reads messages from its socket, answers them at the server's documents and sends stored
//! operations. It never blocks on its socket. Which connection is served when, its loop decides.
#![tactic(auto)]

mod connection;
mod connection_input;
mod connection_output;
mod connection_slot;
mod frame_sink;
mod loop_context;
mod loop_pass;
mod loop_server;
mod pass_supply;
mod turn;

pub use connection::{Connection, EndedConnection, session_of};
pub use connection_slot::ConnectionSlot;
pub use loop_context::LoopContext;
pub use loop_pass::{LoopPass, PassBrand};
pub use loop_server::LoopServer;
pub use pass_supply::{PassSupply, supply_passes};
pub use turn::{EndedTurn, Turn, TurnEvents};
