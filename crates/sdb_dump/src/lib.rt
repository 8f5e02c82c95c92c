//! Dumps: all logs as text, and the check of such a text. The lines of a journal: the entries of all
//! logs in the order of storing, and blocks of numbers.
//!
//! [`entry_line`] and [`number_line`] return the lines to store. [`read_number`] parses the line of
//! a block. A `Restorer` of `sdb_store` restores lines.
#![tactic(auto)]

mod check;
mod checker;
mod decided_line;
mod dump_line;
mod journal_line;
pub mod laws;
mod made_log;
mod utf8_facts;
mod write;

pub use check::check_dump;
pub use checker::{CheckedDump, DumpFault};
pub use decided_line::is_line_of;
pub use dump_line::{LineContent, entry_line, read_line};
pub use journal_line::{number_line, read_number};
pub use write::{DumpSource, write_dump};
