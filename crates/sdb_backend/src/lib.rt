//! A document store for many threads: a desk whose calls acquire a lock, a pass for each caller,
//! and the audit of the stored operations.
//!
//! Each answer is the machine's at one history of the key's shard. That history extends all that
//! the pass has observed. Of the caller's submissions it contains exactly those that the caller's
//! earlier calls stored. The module `laws` has the contracts of several calls.
#![tactic(auto)]

mod audit;
mod audit_listing;
mod backend;
mod commit_jobs;
mod counts;
mod desk;
mod jobs;
pub mod laws;
mod looks;
mod pass;
mod pass_check;
mod replays;
mod restoration;
mod restoring;
mod saving;
mod shard_value;
mod unsaved;
mod work_limits;

pub use audit::Audit;
pub use backend::{Backend, CloseError, CloseRefused};
pub use counts::Counts;
pub use desk::{submit_is_atomic, take_is_fifo};
pub use pass::{Host, Pass};
pub use restoration::Restoration;
pub use saving::SHARD_COUNT;
pub use shard_value::Held;
pub use unsaved::EntryAt;
