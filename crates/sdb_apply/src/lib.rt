//! Operations of json0, applied to a value in place.
#![tactic(auto)]

mod act;
mod atomic_apply;
pub mod laws;
mod op_apply;

pub use atomic_apply::apply_atomic;
pub use op_apply::{ApplyFault, Refused, apply, apply_at, apply_one};
