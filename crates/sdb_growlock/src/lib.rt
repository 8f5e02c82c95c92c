//! A lock around a value that only grows, and seats that record how far it has grown.
//!
//! A common lock guarantees only its value's invariant: a later holder may find that what it
//! observed before is gone. Here the value's type implements [`Grows`], and each thread has a
//! [`Seat`] with the last value that it observed. [`GrowLock::with`] passes a value that extends it
//! and has the same part of the seat's number.
//!
//! The lock is one word and one slot of an `atomic_table`. Its steps and their rule are defined in
//! `rule.rt`.
#![tactic(auto)]

mod grow_lock;
mod grows;
mod lock;
mod rule;
mod view;

pub use grow_lock::{GrowLock, Seat};
pub use grows::{Grows, Job};
pub use lock::SplitFault;
