//! Listings: the entries of a log from a version on, or the first ones of a new queue, in batches.
ghost use Rattle.std.specs.Prelude.{◌≡◌, ◌+◌, ◌<◌, ◌≤◌, [], ◌∷◌, IfOk, OnErr};
ghost use Rattle.sdb_submit.specs.PassModel.{IsNextPass};
ghost use Rattle.sdb_session.specs.Listing.{ReadsFrom, FailsToRead, ClosesNewQueue, entries_left};
ghost use Rattle.sdb_session.specs.ListingView.{plain_listing, BatchOutcome};
ghost use Rattle.sdb_session.specs.View.{plain_projection_option, WroteAnswers};

use crate::answer_sink::AnswerSink;
use crate::answers::write_entries;
use crate::projection::DocumentRef;
use crate::subscriptions::take_entries;
use sdb_oplog::{Entry, Key};
use sdb_projection::Projection;
use sdb_submit::Desk;
use sdb_subscribe::SubId;
use std::alloc::{AllocError, Global};

// Maximum number of entries read from a desk at once.
const BATCH_LIMIT: u64 = 64;

/// What is left of a listing: entries that its client hasn't been sent yet.
///
/// Nothing is written or read until the session continues it. A listing that isn't continued must
/// be [abandoned](Listing::abandon).
#[derive(Drop)]
pub struct Listing {
    // The client's key, and the base document's.
    pub(crate) key: Key,
    pub(crate) base: Key,
    // The version of the next entry, and the one at which the listing ends.
    pub(crate) next: u64,
    pub(crate) end: u64,
    // The new queue that delivers the entries, if the client subscribes.
    pub(crate) queue: Option<SubId>,
}

// The reason why a batch failed.
#[derive(Drop)]
pub(crate) enum BatchFault {
    // An allocation failed before anything was written.
    NotRead { error: AllocError },
    // An allocation failed for an answer or for the subscription.
    NotWritten { error: AllocError },
}

impl From<AllocError> for BatchFault {
    ghost use Rattle.sdb_session.specs.declared.listing.BatchFault.TheVariants.{NotWritten};

    ghost from_gives = { λ e f. f ≡ NotWritten e };

    fn from(error: AllocError) -> BatchFault {
        BatchFault::NotWritten { error }
    }
}

impl Listing {
    /// Returns the number of entries that are left.
    pub fn entries_left(&self) -> u64
        ensures { result ≡ entries_left (plain_listing self.now) }
    {
        self.end.saturating_sub(self.next)
    }

    /// Closes the listing's queue, if it has one. It doesn't allocate.
    pub fn abandon<D: Desk>(self, desk: &D, pass: &mut D::Pass)
        requires accepted { D.accepts desk.now pass.old }
        ensures pass { IsNextPass D.accepts D.pass_number desk.now pass.old pass.new }
        ensures closed { ClosesNewQueue (D.step desk.now) (plain_listing self).queue (plain_listing self).base
            pass.old pass.new }
    {
        if let Some(id) = self.queue {
            desk.unsubscribe(pass, &self.base, id);
        }
    }

    // Returns the version after so many of the entries that are left.
    fn version_after(&self, size: u64) -> u64
        requires some { 0 < size }
        requires few { size ≤ entries_left (plain_listing self.now) }
        ensures { result ≡ (plain_listing self.now).next + size }
    {
        // (a sum could overflow as far as the types tell)
        self.end.saturating_sub(self.entries_left() - size)
    }

    // Reads the next entries.
    fn read<D: Desk>(
        &self,
        alloc: Global,
        desk: &D,
        pass: &mut D::Pass,
        size: u64,
    ) -> Result<Vec<Entry>, AllocError>
        requires accepted { D.accepts desk.now pass.old }
        requires some { 0 < size }
        requires few { size ≤ entries_left (plain_listing self.now) }
        ensures pass { IsNextPass D.accepts D.pass_number desk.now pass.old pass.new }
        ensures read { IfOk result (λ entries. ReadsFrom (D.step desk.now) (plain_listing self.now).queue
            (plain_listing self.now).base (plain_listing self.now).next
            (record { size = size; entries = entries.items } ∷ []) pass.old pass.new) }
        ensures failed { OnErr result (FailsToRead (D.step desk.now) (plain_listing self.now).queue
            (plain_listing self.now).base (plain_listing self.now).next (plain_listing self.now).end
            pass.old pass.new) }
    {
        match self.queue {
            None => desk.ops_between(pass, &self.base, self.next, self.version_after(size)),
            Some(id) => take_entries(alloc, desk, pass, &self.base, id, size),
        }
    }

    // Reads and writes the next entries, at most `BATCH_LIMIT`.
    pub(crate) fn write_batch<D: Desk, O: AnswerSink>(
        &mut self,
        alloc: Global,
        desk: &D,
        pass: &mut D::Pass,
        projection: Option<&Projection>,
        out: &mut O,
    ) -> Result<(), BatchFault>
        requires accepted { D.accepts desk.now pass.old }
        ensures pass { IsNextPass D.accepts D.pass_number desk.now pass.old pass.new }
        ensures batch { BatchOutcome (D.step desk.now) (plain_projection_option projection.entry) BATCH_LIMIT
            (plain_listing self.old) pass.old result (WroteAnswers O.items (O.contents out.old) (O.contents out.new))
            (plain_listing self.new) pass.new }
    {
        let size = self.entries_left().min(BATCH_LIMIT);
        if size == 0 {
            return Ok(());
        }
        let entries = match self.read(alloc, desk, pass, size) {
            Ok(entries) => entries,
            Err(error) => return Err(BatchFault::NotRead { error }),
        };
        let target = DocumentRef {
            key: &self.key,
            base: &self.base,
            projection,
        };
        write_entries(alloc, &target, entries.as_slice(), out)?;
        self.next = self.version_after(size);
        Ok(())
    }
}
