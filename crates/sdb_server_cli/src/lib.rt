//! The command line of the server: its options, its refusals, and the run of it. The program
//! `sdb_server_main` calls [`parse_run`], then [`run_mode`], or opens the store, restores it and calls
//! [`serve_stored`].
#![tactic(auto)]

mod clients;
mod close;
mod command_line;
mod load;
mod options;
mod projection_option;
mod recover;
mod store_file;
mod store_task;
mod stored;
mod stored_lines;

pub use clients::{ServeOptions, StopCondition, serve_at, serve_until_end};
pub use close::print_close;
pub use command_line::{ParsedArgs, answer_input, parse_run, run, run_mode};
pub use load::{LoadedDump, restore_nothing, store_dump};
pub use options::{Options, RunMode, StorePaths, parse_options};
pub use projection_option::{ProjectionOptionError, table_of};
pub use recover::{backup_lines, is_new_path, recover_lines};
pub use store_file::{print_closed, print_file_fault, restore};
pub use store_task::{StoreJob, prepare_job, read_copy, serve_stored};
