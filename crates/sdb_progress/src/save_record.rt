//! The record of what a store's rounds have done, which an operator reads.
use crate::histogram::{Bounds, Histogram, HistogramCounts};
use std::fmt;
use std::sync::atomic::{AtomicU64, Ordering};

// Bounds in microseconds: 1 ms to 10 s.
const DURATION_BOUNDS: Bounds = [
    1_000, 2_500, 5_000, 10_000, 25_000, 50_000, 100_000, 250_000, 500_000, 1_000_000, 2_500_000,
    10_000_000,
];

// Bounds in entries.
const SIZE_BOUNDS: Bounds = [1, 2, 4, 8, 16, 32, 64, 128, 256, 512, 1_024, 4_096];

/// The cause for which a round fails and is repeated.
#[derive(Clone, Copy, PartialEq, Eq, Debug, Drop)]
pub enum RoundFailure {
    /// An allocation failed.
    OutOfMemory,
    /// The disk has no room.
    DiskFull,
    /// The disk returned another error.
    DiskFailed,
}

impl fmt::Display for RoundFailure {
    fn fmt<W: fmt::Write>(&self, f: &mut fmt::Formatter<W>) -> fmt::Result {
        f.write_str(match self {
            RoundFailure::OutOfMemory => "out of memory",
            RoundFailure::DiskFull => "the disk is full",
            RoundFailure::DiskFailed => "the disk returned an error",
        })
    }
}

/// The failure of the last round.
#[derive(Clone, Copy, PartialEq, Eq, Debug, Drop)]
pub struct SaveOutage {
    pub failure: RoundFailure,
    /// The second since the start of 1970 in which a round failed first.
    pub since: u64,
}

/// The counts of a record at a time.
#[derive(Clone, Copy, Drop)]
pub struct SaveStatus {
    /// Number of saved entries, with those that were restored.
    pub entries: u64,
    /// Number of groups that were committed.
    pub rounds: u64,
    /// Number of rounds that failed.
    pub failures: u64,
    /// The failure of the last round, if it failed.
    pub outage: Option<SaveOutage>,
    /// Duration of the write of a committed group, in microseconds.
    pub durations: HistogramCounts,
    /// Number of entries of a committed group.
    pub sizes: HistogramCounts,
    /// Duration for which output of a client was held, in microseconds.
    pub holds: HistogramCounts,
}

/// What the rounds of a store have done. Threads share it.
#[derive(Drop)]
pub struct SaveRecord {
    entries: AtomicU64,
    rounds: AtomicU64,
    failures: AtomicU64,
    // 0 if the last round was committed. Else four times the second of the first failure, plus a number
    // from 1 to 3 for the last failure.
    outage: AtomicU64,
    durations: Histogram,
    sizes: Histogram,
    holds: Histogram,
}

impl SaveRecord {
    /// Creates the record of a store without entries.
    pub fn new() -> SaveRecord {
        SaveRecord {
            entries: AtomicU64::new(0),
            rounds: AtomicU64::new(0),
            failures: AtomicU64::new(0),
            outage: AtomicU64::new(0),
            durations: Histogram::new(DURATION_BOUNDS),
            sizes: Histogram::new(SIZE_BOUNDS),
            holds: Histogram::new(DURATION_BOUNDS),
        }
    }

    /// Records entries that were restored.
    pub fn add_restored(&self, entries: u64) {
        self.entries.fetch_add(entries, Ordering::Relaxed);
    }

    /// Records a committed group of this number of entries, whose write took this number of
    /// microseconds.
    pub fn add_group(&self, entries: u64, micros: u64) {
        self.entries.fetch_add(entries, Ordering::Relaxed);
        self.rounds.fetch_add(1, Ordering::Relaxed);
        self.sizes.add(entries);
        self.durations.add(micros);
    }

    /// Records that output of a client was held for this number of milliseconds.
    pub fn add_hold(&self, millis: u64) {
        self.holds.add(millis.saturating_mul(1_000));
    }

    /// Records that a round was committed. Returns the outage that it ends.
    pub fn end_outage(&self) -> Option<SaveOutage> {
        outage_of(self.outage.swap(0, Ordering::Relaxed))
    }

    /// Records that a round failed in this second since the start of 1970. Returns whether the round
    /// before it didn't.
    pub fn add_failure(&self, failure: RoundFailure, second: u64) -> bool {
        self.failures.fetch_add(1, Ordering::Relaxed);
        let outage = outage_of(self.outage.load(Ordering::Relaxed));
        let since = match outage {
            Some(outage) => outage.since,
            None => second,
        };
        self.outage.store(number_of(SaveOutage { failure, since }), Ordering::Relaxed);
        outage.is_none()
    }

    /// Returns the counts.
    pub fn load(&self) -> SaveStatus {
        SaveStatus {
            entries: self.entries.load(Ordering::Relaxed),
            rounds: self.rounds.load(Ordering::Relaxed),
            failures: self.failures.load(Ordering::Relaxed),
            outage: outage_of(self.outage.load(Ordering::Relaxed)),
            durations: self.durations.load(),
            sizes: self.sizes.load(),
            holds: self.holds.load(),
        }
    }
}

// Returns the number of an outage.
fn number_of(outage: SaveOutage) -> u64 {
    let failure = match outage.failure {
        RoundFailure::OutOfMemory => 1,
        RoundFailure::DiskFull => 2,
        RoundFailure::DiskFailed => 3,
    };
    outage.since.saturating_mul(4) | failure
}

// Returns the outage with a number.
fn outage_of(number: u64) -> Option<SaveOutage> {
    let failure = match number % 4 {
        1 => RoundFailure::OutOfMemory,
        2 => RoundFailure::DiskFull,
        3 => RoundFailure::DiskFailed,
        _ => return None,
    };
    Some(SaveOutage {
        failure,
        since: number / 4,
    })
}
