//! Chunked lists: chunks of bounded length, each unique or shared with clones.
#![tactic(auto)]

mod chunk;
mod chunk_edit;
mod chunk_group;
mod chunk_list;
mod chunk_split;
mod chunked_vec;
mod group_list;
mod item_edit;
mod iter;
mod regroup;

pub use chunk::{Chunk, TryClone};
pub use chunk_edit::split_chunk;
pub use chunk_group::ChunkGroup;
pub use chunked_vec::{ChunkedVec, Repr};
pub use iter::{Chunks, Iter};
