//! A session over lines, and the clocks of sessions.
#![tactic(auto)]

mod clock;
mod line_session;

pub use clock::{Clock, ListClock, SystemClock, moment_since};
pub use line_session::{LineSession, run_lines};

// Maximum number of entries read from one queue at a time.
const TAKE_LIMIT: u64 = 64;
