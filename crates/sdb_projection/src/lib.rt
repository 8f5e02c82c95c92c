//! Projections: collection names under which some fields of another collection's documents are
//! visible.
#![tactic(auto)]

mod allow;
pub mod laws;
mod project;
mod projection;
mod table;

pub use allow::allowed;
pub use project::{project_content, project_data, project_op};
pub use projection::Projection;
pub use table::{Table, TableFault};
