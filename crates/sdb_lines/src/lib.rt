//! A loop that reads lines and writes the answers to them.
//!
//! [`run_lines`] reads an input to its end and passes each line to a [`LineHandler`], which appends
//! the answer. It reads from a [`Source`] and writes to a [`Sink`]; [`CountingReader`] and
//! [`CountingWriter`] implement these for the readers and writers of `std`.
#![tactic(auto)]

pub mod line_handler;
pub mod line_reader;
pub mod runner;
pub mod streams;

pub use line_handler::{LineHandler, LineProgress};
pub use line_reader::{LINE_LIMIT, first_line_feed, flush_buffer};
pub use runner::{Counts, READ_LIMIT, RunFault, run_lines};
pub use streams::{CountingReader, CountingWriter, Sink, Source};
