//! The documents of a shard: looks, commits, snapshots and queues.
#![tactic(auto)]

mod document;
mod document_slot;
mod rebase_size;
mod replay_base;
mod resume;
mod shard;
mod shard_commits;
mod shard_queues;
mod shard_reads;
mod shard_refusals;
mod work;

pub use document::Reply;
pub use rebase_size::{rebase_pairs, transforms_edits};
pub use replay_base::ReplayBase;
pub use shard::{CommitDecision, FetchResult, Outcome, Shard, SubscribeResult};
pub use shard_refusals::MAX_PAIRS_LOCKED;
pub use work::{Attempt, Look, LookPart, Work};
