//! The buffers of a loop and of a thread, which serve one client at a time.
use crate::log::LogTime;
use crate::metrics::Tally;
use crate::session_end::SessionEnd;
use sdb_loop_state::DocumentGroup;
use sdb_oplog::{Code, Moment};
use sdb_progress::{SaveProgress, Ticket};
use std::alloc::{AllocError, Global};
use std::sync::Arc;

// Size in bytes of one read.
const INPUT_SIZE: usize = 64 * 1_024;

// Capacity in bytes above which an output buffer is freed.
const OUTPUT_CAPACITY_LIMIT: usize = 1 << 20;

/// Number of bytes of output after which the turn of a client ends.
pub const OUTPUT_BOUND: usize = 64 * 1_024;

/// The time of a pass of a loop.
#[derive(Clone, Copy, Drop)]
pub struct LoopTime {
    /// Whole seconds since the loop began.
    pub second: u64,
    /// Milliseconds since the loop began.
    pub millis: u64,
    /// The milliseconds of the moment of operations that are stored in the pass.
    pub moment_millis: u64,
}

impl LoopTime {
    /// Returns the moment of operations that are stored in the pass.
    pub fn moment(self) -> Moment {
        Moment::saturating_new(self.moment_millis)
    }

    /// Returns the time of lines of the log that are written in the pass.
    pub fn log_time(self) -> LogTime {
        LogTime {
            millis: self.moment_millis,
        }
    }
}

/// What a client's turn makes: frames to send, the groups of documents that it names, and its tally.
#[derive(Drop)]
pub struct LoopOutput {
    pub bytes: Vec<u8>,
    /// The groups to which a session has subscribed.
    pub subscribed: Vec<DocumentGroup>,
    /// What was done since the tally was added to the metrics.
    pub tally: Tally,
    /// The progress of saving, if operations are saved. Output is then held until it is committed.
    pub progress: Option<Arc<SaveProgress, Global>>,
}

/// The buffers of a loop or of a thread.
#[derive(Drop)]
pub struct LoopBuffers {
    /// The bytes of one read.
    pub input: Vec<u8>,
    /// Memory for the input of a client that keeps none.
    pub spare: Vec<u8>,
    pub output: LoopOutput,
}

impl LoopBuffers {
    /// Creates the buffers of a server with this progress of saving, if it has one.
    ///
    /// # Errors
    ///
    /// [`AllocError`] if an allocation fails, or if the progress has too many owners.
    pub fn new(
        alloc: Global,
        progress: Option<&Arc<SaveProgress, Global>>,
    ) -> Result<LoopBuffers, AllocError> {
        let progress = match progress {
            Some(progress) => Some(Arc::try_clone(progress)?),
            None => None,
        };
        Ok(LoopBuffers {
            input: Vec::from_elem(alloc, 0, INPUT_SIZE)?,
            spare: Vec::new(alloc),
            output: LoopOutput {
                bytes: Vec::new(alloc),
                subscribed: Vec::new(alloc),
                tally: Tally::new(),
                progress,
            },
        })
    }
}

impl LoopOutput {
    /// Requests that all operations stored before this call are saved, if there is output to send.
    pub fn request_ticket(&self) -> Option<Ticket> {
        match &self.progress {
            Some(progress) if !self.bytes.is_empty() => Some(progress.request()),
            _ => None,
        }
    }

    /// Returns whether held output is discarded at this end of a session.
    pub fn is_unsaved(&self, end: SessionEnd) -> bool {
        match &self.progress {
            Some(progress) => matches!(end, SessionEnd::Unsaved) || progress.is_over(),
            None => false,
        }
    }

    /// Moves out the groups to which a session has subscribed.
    pub fn take_subscribed(&mut self, alloc: Global) -> Vec<DocumentGroup> {
        std::mem::replace(&mut self.subscribed, Vec::new(alloc))
    }

    /// Records that the session has subscribed to a document of the group, if there is one.
    pub fn record_subscription(
        &mut self,
        subscribed: Option<DocumentGroup>,
    ) -> Result<(), AllocError> {
        if let Some(group) = subscribed {
            self.subscribed.push(group)?;
        }
        Ok(())
    }

    /// Counts a message, with the group of the document to which its operation was appended, or the
    /// code of its refusal.
    pub fn record_message(&mut self, stored: Option<DocumentGroup>, refused: Option<Code>) {
        self.tally.add_message();
        if stored.is_some() {
            self.tally.add_acknowledgements(1);
        }
        if let Some(code) = refused {
            self.tally.add_refusal(code);
        }
    }

    /// Returns the number of acknowledgements of the turn, and counts none of them.
    pub fn take_acknowledgements(&mut self) -> u64 {
        std::mem::replace(&mut self.tally.acknowledgements, 0)
    }

    /// Frees the memory of a large output.
    pub fn free_large(&mut self, alloc: Global) {
        if self.bytes.is_empty() && self.bytes.capacity() > OUTPUT_CAPACITY_LIMIT {
            self.bytes = Vec::new(alloc);
        }
    }
}
