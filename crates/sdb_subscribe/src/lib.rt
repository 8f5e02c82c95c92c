//! The queues of one document: each gives the entries from its start version on, once and in order.
#![tactic(auto)]

mod queue;
mod queues;

pub use queues::{Queues, SubId};
