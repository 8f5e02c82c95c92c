//! The log of a document: its entries in order, each with its submission.
#![tactic(auto)]

mod codes;
mod content;
mod decided_log;
mod document;
mod entry;
mod equality;
mod index;
mod keys;
pub mod laws;
mod log;
mod moment;
mod path_interner;

pub use codes::Code;
pub use content::{Content, Kind, over, rebase};
pub use decided_log::{DecidedLog, RebaseResult, Rejection};
pub use document::clone_document;
pub use entry::{Entry, Submission, clone_entries};
pub use equality::entries_equal;
pub use keys::Key;
pub use log::Log;
pub use moment::Moment;
pub use path_interner::PathInterner;
