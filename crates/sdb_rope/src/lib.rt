//! A rope: a text in chunks of bounded size, unique or shared with clones, measured in UTF-16 code
//! units.
#![tactic(auto)]

mod chunk_list;
mod compare;
mod group_list;
mod insert;
pub mod laws;
mod position;
mod read;
mod regroup;
mod remove;
mod rope;
mod rope_chunk;
mod shared_str;
pub mod utf16;

pub use rope::Rope;
