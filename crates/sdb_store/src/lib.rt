//! Durable storage of a backend's documents: stored entries are saved as lines, and restored from
//! them after a restart.
//!
//! One thread runs [`save_until_closed`]: in each round it takes the entries that were stored, and
//! writes their lines as one group to a [`LineWriter`].
//! [`SaveProgress`](sdb_progress::SaveProgress) has the numbers of the committed rounds. An entry that
//! an answer reveals was stored before the answer: it is committed once a round is that began later.
//! A [`Restorer`] restores the entries of the lines.
#![tactic(auto)]

mod line_writer;
mod restorer;
mod saver;
mod saving_loop;

pub use line_writer::{LineWriter, WriteFault};
pub use restorer::{RestoreFault, RestoredBackend, Restorer};
pub use saver::{SaveFault, Saver};
pub use saving_loop::{RoundListener, save_until_closed};
