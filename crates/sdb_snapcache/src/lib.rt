//! A cache of a document's snapshots, so that a read at a version need not replay the whole log.
#![tactic(auto)]

mod cache;

pub use cache::{CACHE_CAPACITY, Cache};
