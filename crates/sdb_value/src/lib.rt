//! JSON values with integers, paths in them, and texts measured in UTF-16 code units.
#![tactic(auto)]

mod clone_modes;
mod depth_and_size;
mod equality;
mod freeze;
mod from_json;
mod inner_mut;
pub mod laws;
mod list_edits;
mod numbers;
mod object_edits;
mod path;
mod to_json;
mod value;
mod write;

pub use equality::{paths_equal, values_equal};
pub use from_json::{ValueFault, from_value};
pub use inner_mut::{list_mut, object_mut, text_mut};
pub use list_edits::{insert_item, remove_item, replace_item};
pub use numbers::{MAX, count_of, whole_of};
pub use object_edits::{put_at_key, remove_at_key};
pub use path::{Change, Path, Step, change_at, find, find_mut};
pub use sdb_rope::Rope;
pub use sdb_rope::utf16::{cut_at, units};
pub use to_json::to_value;
pub use value::{Json, List, Members, Whole};
pub use write::write_value;
