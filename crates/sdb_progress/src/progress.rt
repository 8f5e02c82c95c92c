//! The progress of saving, which the threads of a server share.
use crate::save_record::SaveRecord;
use std::sync::Wait;
use std::sync::atomic::{AtomicBool, AtomicU64, Ordering};
use std::thread::Parker;
use std::time::Duration;

/// The number of a round. Once it is committed, so is all that was stored before the ticket was
/// taken.
#[derive(Clone, Copy, PartialEq, Eq, Debug, Drop)]
pub struct Ticket {
    round: u64,
}

/// The progress of saving: the rounds that are requested, begun and committed, and the reserved numbers.
#[derive(Drop)]
pub struct SaveProgress {
    // The number of the last round that began, and of the last one that is committed.
    begun: AtomicU64,
    committed: AtomicU64,
    // The highest number of a round that is requested.
    requested: AtomicU64,
    // The highest number that may be given to a session, and the highest one that is requested.
    reserved_number: AtomicU64,
    requested_number: AtomicU64,
    is_closing: AtomicBool,
    // Set once nothing more is saved.
    is_over: AtomicBool,
    // The thread that saves parks here, and the one that waits for its end.
    saver: Parker,
    ender: Parker,
    record: SaveRecord,
}

impl SaveProgress {
    /// Creates the progress of a journal by which numbers up to `reserved` may be given to sessions.
    pub fn new(reserved: u64) -> SaveProgress {
        SaveProgress {
            begun: AtomicU64::new(0),
            committed: AtomicU64::new(0),
            requested: AtomicU64::new(0),
            reserved_number: AtomicU64::new(reserved),
            requested_number: AtomicU64::new(reserved),
            is_closing: AtomicBool::new(false),
            is_over: AtomicBool::new(false),
            saver: Parker::new(),
            ender: Parker::new(),
            record: SaveRecord::new(),
        }
    }

    /// Returns the record of what rounds have done.
    pub fn record(&self) -> &SaveRecord {
        &self.record
    }

    /// Requests the next round, and returns its ticket. A round that has begun may have missed what
    /// was stored meanwhile.
    pub fn request(&self) -> Ticket {
        let round = self.begun.load(Ordering::SeqCst).saturating_add(1);
        if self.requested.fetch_max(round, Ordering::SeqCst) < round {
            self.saver.unpark();
        }
        Ticket { round }
    }

    /// Returns whether all that was stored before the ticket was taken is committed.
    pub fn is_committed(&self, ticket: Ticket) -> bool {
        self.committed.load(Ordering::SeqCst) >= ticket.round
    }

    /// Returns the number of the last round that is committed.
    pub fn committed_round(&self) -> u64 {
        self.committed.load(Ordering::SeqCst)
    }

    /// Requests that numbers up to this one may be given to sessions. Returns whether they may.
    pub fn reserve_number(&self, number: u64) -> bool {
        if self.reserved_number.load(Ordering::SeqCst) >= number {
            return true;
        }
        if self.requested_number.fetch_max(number, Ordering::SeqCst) < number {
            self.request();
        }
        false
    }

    /// Returns whether nothing more is saved.
    pub fn is_over(&self) -> bool {
        self.is_over.load(Ordering::SeqCst)
    }

    /// Lets the thread that saves end after one more round.
    pub fn close(&self) {
        self.is_closing.store(true, Ordering::SeqCst);
        self.request();
        self.saver.unpark();
    }

    /// Returns whether the thread that saves ends after one more round.
    pub fn is_closing(&self) -> bool {
        self.is_closing.load(Ordering::SeqCst)
    }

    /// Begins a round, and returns its number.
    pub fn begin_round(&self) -> u64 {
        let round = self.begun.load(Ordering::SeqCst).saturating_add(1);
        self.begun.store(round, Ordering::SeqCst);
        round
    }

    /// Records that a round is committed, and which numbers are reserved.
    pub fn end_round(&self, round: u64, reserved: u64) {
        self.reserved_number.store(reserved, Ordering::SeqCst);
        self.committed.store(round, Ordering::SeqCst);
    }

    /// Records that nothing more is saved.
    pub fn end(&self) {
        self.is_over.store(true, Ordering::SeqCst);
        self.ender.unpark();
    }

    /// Returns the highest number that is to be reserved.
    pub fn requested_number(&self) -> u64 {
        self.requested_number.load(Ordering::SeqCst)
    }

    /// Waits until nothing more is saved, at most this long. Returns whether that is so.
    pub fn wait_end<R: Wait>(&self, rt: &R, longest: Duration) -> bool {
        if !self.is_over() {
            self.ender.park_timeout(rt, longest);
        }
        self.is_over()
    }

    /// Waits for a request, at most this long.
    pub fn wait<R: Wait>(&self, rt: &R, pause: Duration) {
        if self.requested.load(Ordering::SeqCst) <= self.committed.load(Ordering::SeqCst) {
            self.saver.park_timeout(rt, pause);
        }
    }
}
