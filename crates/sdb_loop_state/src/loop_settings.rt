//! What the owner of a server has set.
use sdb_progress::SaveProgress;
use std::alloc::Global;
use std::sync::Arc;

/// The settings of a server.
#[derive(Drop)]
pub struct LoopSettings {
    /// Whether the start and the end of each session are logged.
    pub is_logging: bool,
    /// Whether clients connect through a proxy.
    pub is_proxied: bool,
    /// Whether the passes of ended sessions are kept.
    pub is_keeping: bool,
    /// The progress of saving, if operations are saved.
    pub progress: Option<Arc<SaveProgress, Global>>,
    /// The resident memory in bytes above which no operation is stored.
    pub memory_limit: Option<u64>,
}

impl LoopSettings {
    /// Creates the settings of a server that logs and saves nothing, has no proxy and no limit of memory,
    /// and keeps passes.
    pub fn new() -> LoopSettings {
        LoopSettings {
            is_logging: false,
            is_proxied: false,
            is_keeping: true,
            progress: None,
            memory_limit: None,
        }
    }

    /// Returns the progress of saving, if operations are saved.
    pub fn progress(&self) -> Option<&Arc<SaveProgress, Global>> {
        self.progress.as_ref()
    }

    /// Returns the number of the last round that is committed, or 0.
    pub fn committed_round(&self) -> u64 {
        match &self.progress {
            Some(progress) => progress.committed_round(),
            None => 0,
        }
    }

    /// Returns whether nothing more is saved.
    pub fn is_unsaved(&self) -> bool {
        match &self.progress {
            Some(progress) => progress.is_over(),
            None => false,
        }
    }

    /// Requests that numbers up to this one may be given to sessions. Returns whether they may.
    pub fn reserve_number(&self, number: u64) -> bool {
        match &self.progress {
            Some(progress) => progress.reserve_number(number),
            None => true,
        }
    }
}
