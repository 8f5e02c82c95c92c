//! Steps of up to 64 sessions on one set of documents, each step with its answer.
#![tactic(auto)]

mod attempt;
mod dispatch;
pub mod laws;
mod read;
mod runner;
mod session;
mod session_data;
mod session_number;
mod slots;
mod step;
mod world;
mod world_dump;
mod world_state;
mod write_answer;

pub use read::read_step;
pub use runner::{Ran, run, run_steps};
pub use sdb_dump::{CheckedDump, DumpFault, check_dump};
pub use session_number::{SESSION_LIMIT, SessionNumber};
pub use step::{Step, StepAnswer};
pub use world::World;
pub use world_dump::{dump, run_dump};
pub use write_answer::{write_refusal, write_step_answer};
