//! Operational transformation of json0: `transform_one` for two components, `cross` and `transform`
//! for two operations, and their laws.
#![tactic(auto)]

mod classify;
mod classify_act;
mod classify_path;
mod commutes;
mod component_list;
mod component_transform;
mod cross_stack;
pub mod laws;
mod op_transform;
mod removed_value;
mod rewrite;
mod side;

pub use component_transform::transform_one;
pub use op_transform::{Crossed, TransformedOp, cross, transform};
pub use side::{Fault, Side};
