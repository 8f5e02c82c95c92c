//! The numbers of documents and entries that a backend has stored.
use sdb_desk::Reply;
use std::sync::atomic::{AtomicU64, Ordering};

/// Numbers of stored documents and entries.
#[derive(Clone, Copy, PartialEq, Eq, Debug, Drop)]
pub struct Counts {
    /// Number of documents with one entry or more, deleted ones too.
    pub documents: u64,
    /// Number of entries of all documents.
    pub entries: u64,
}

// The numbers, incremented after each stored submission, when its lock is free again.
#[derive(Drop)]
pub(crate) struct StoredCounts {
    documents: AtomicU64,
    entries: AtomicU64,
}

impl StoredCounts {
    // Creates the numbers of a backend without documents.
    pub(crate) fn new() -> StoredCounts {
        StoredCounts {
            documents: AtomicU64::new(0),
            entries: AtomicU64::new(0),
        }
    }

    // Counts an entry that was stored at a version. The first entry of a document counts the
    // document.
    pub(crate) fn record(&self, version: u64) {
        self.entries.fetch_add(1, Ordering::Relaxed);
        if version == 0 {
            self.documents.fetch_add(1, Ordering::Relaxed);
        }
    }

    // Counts the entry of a submission, if it was stored.
    pub(crate) fn record_reply(&self, reply: &Reply) {
        if let Reply::Stored { v, .. } = reply {
            self.record(*v);
        }
    }

    // Returns the numbers.
    pub(crate) fn load(&self) -> Counts {
        Counts {
            documents: self.documents.load(Ordering::Relaxed),
            entries: self.entries.load(Ordering::Relaxed),
        }
    }
}
