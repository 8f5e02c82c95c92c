//! Serves WebSocket clients on a few event loops.
//!
//! A loop accepts connections, performs handshakes, answers messages, delivers stored operations and
//! checks deadlines. It never blocks on a socket, and one thread at a time runs it.
//!
//! Some messages take long to answer: a late edit over thousands of entries, a large document. While
//! a thread answers a client it leaves the loop in its slot, and if the answer takes longer than some
//! milliseconds, a spare thread continues the loop. There are 32 spare threads. While more clients
//! than these are answered for long, their loops wait.
//!
//! A message takes up to 170 times its length in memory while it is answered. So at most two clients
//! with 64 KiB or more of unanswered input are served at once, or for a second, and at most six at
//! once. Others wait, without holding up a loop.
#![tactic(auto)]

mod acceptor;
mod admission;
mod connections;
mod delivery;
mod event_loop;
mod holding;
mod kept_passes;
mod listen;
mod loop_clock;
mod loop_threads;
mod polled_loop;
mod serving;
mod sessions;
mod sweep;

pub use listen::{bind_listener, listen_on_loops};
pub use sdb_connection::LoopServer;
pub use sdb_link::VERSION;
pub use sdb_loop_state::{DEFAULT_LOOP_CLIENTS, LOOP_CLIENT_LIMIT, LOOP_LIMIT, LoopOptions};
