//! Eight locks around values that only grow, and callers with one seat per lock.
//!
//! Lock striping: a value is split in eight parts, so that callers of different parts don't wait
//! for each other. Each part has the guarantees of
//! [`GrowLock::with`](sdb_growlock::GrowLock::with).
#![tactic(auto)]

mod close_buffers;
mod operations;
mod striped_lock;

pub use close_buffers::CloseBuffers;
pub use operations::{Empty, SplitFault};
pub use striped_lock::{RootSeats, SeatSet, StripedLock};
