//! Submissions with optimistic retry: a look, then tries of work and commit until one decides.
#![tactic(auto)]

mod desk;
mod solo;
mod submit_loop;
mod work_step;

pub use desk::{Desk, Gate, NoGate};
pub use solo::{Solo, submit_alone};
pub use submit_loop::submit;
pub use work_step::{resume_work, work};
