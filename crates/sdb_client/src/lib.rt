//! A reference client of one document, which shows its edits at once: the `Client` of
//! `sdb_client_model` as a program.
#![tactic(auto)]

mod client;
mod fault;
mod pending;
mod sent_edit;

pub use client::ReferenceClient;
pub use fault::{ProcessFault, SendFault};
pub use sent_edit::SentEdit;
