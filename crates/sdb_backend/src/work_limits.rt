//! The limits of a backend's work: places of long rebases and replays, which hold no lock, and
//! whether entries are stored.
//!
//! Without a place a long work is refused, so that callers with long works leave processors and
//! threads to the others.
use std::sync::atomic::{AtomicBool, AtomicU64, Ordering};

/// Greatest number of pairs of components that a rebase meets without a place.
pub(crate) const SHORT_REBASE: usize = 16_384;

/// Greatest number of pairs of components that a rebase meets.
pub(crate) const LONG_REBASE: usize = 2_097_152;

/// Greatest number of components that a replay applies without a place.
pub(crate) const SHORT_REPLAY: usize = 16_384;

// Number of places.
const PLACES: u64 = 4;

/// A work that has begun, and whether it has a place.
#[derive(Drop)]
pub(crate) struct BegunWork {
    has_place: bool,
}

/// The places of works, and whether entries are stored.
#[derive(Drop)]
pub(crate) struct WorkLimits {
    // Number of places that are taken, or are being looked for.
    taken: AtomicU64,
    is_full: AtomicBool,
}

impl WorkLimits {
    // Creates limits without works. Entries are stored.
    pub(crate) fn new() -> WorkLimits {
        WorkLimits {
            taken: AtomicU64::new(0),
            is_full: AtomicBool::new(false),
        }
    }

    // Begins a rebase of so many pairs, unless it is too long or finds no place.
    pub(crate) fn begin_rebase(&self, pairs: usize) -> Option<BegunWork> {
        if pairs > LONG_REBASE {
            return None;
        }
        self.begin(pairs > SHORT_REBASE)
    }

    // Begins a work, unless it is long and finds no place.
    pub(crate) fn begin(&self, is_long: bool) -> Option<BegunWork> {
        if is_long && self.taken.fetch_add(1, Ordering::Relaxed) >= PLACES {
            self.taken.fetch_sub(1, Ordering::Relaxed);
            return None;
        }
        Some(BegunWork { has_place: is_long })
    }

    // Ends a work and frees its place.
    pub(crate) fn end(&self, work: BegunWork) {
        if work.has_place {
            self.taken.fetch_sub(1, Ordering::Relaxed);
        }
    }

    // Returns whether no entries are stored.
    pub(crate) fn is_full(&self) -> bool {
        self.is_full.load(Ordering::Relaxed)
    }

    // Sets whether no entries are stored.
    pub(crate) fn set_full(&self, is_full: bool) {
        self.is_full.store(is_full, Ordering::Relaxed);
    }
}
