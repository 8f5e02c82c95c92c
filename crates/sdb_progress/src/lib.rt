//! The progress of saving a server's documents, which its threads share, and the record of what its
//! rounds have done.
#![tactic(auto)]

mod histogram;
mod progress;
mod save_record;

pub use histogram::{BOUND_COUNT, Histogram, HistogramCounts};
pub use progress::{SaveProgress, Ticket};
pub use save_record::{RoundFailure, SaveOutage, SaveRecord, SaveStatus};
