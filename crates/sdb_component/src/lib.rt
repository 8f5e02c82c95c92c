//! Operations of json0: lists of components, each a change at one path (json0's README, "Summary of
//! operations").
#![tactic(auto)]

mod act_kind;
mod clone_path;
mod component;
mod equality;
mod fields;
mod from_act_kind;
mod from_json;
pub mod laws;
mod non_empty_text;
mod op_weight;
mod operation;
mod path;
mod path_json;
mod push_option;
mod size;
mod to_json;
mod write;

pub use component::{Act, Component};
pub use equality::components_equal;
pub use from_json::{OpFault, read_op};
pub use non_empty_text::NonEmptyText;
pub use op_weight::weight;
pub use operation::Op;
pub use path::Path;
pub use to_json::op_value;
pub use write::write_op;
