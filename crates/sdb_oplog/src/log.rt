//! The log of a document.
ghost use Rattle.std.specs.Prelude.{◌≡◌, ◌≤◌, [], ◌∷◌, ◌++◌, length, take, drop, slice_get, true, Some, OnOk, OnErr, IfOk, IfErr, option_map, is_some, IsTrue, ◌↔◌};
ghost use Rattle.sdb_value.specs.View.{value_of};
ghost use Rattle.sdb_oplog.specs.Decide.{missed_entries};
ghost use Rattle.sdb_oplog.specs.Snap.{snap, stored_at, are_identifiers_new};
ghost use Rattle.sdb_oplog.specs.Moments.{last_moment, version_at, MomentsOrderedFrom};
ghost use Rattle.sdb_oplog.specs.LogInvariant.{CanAppend};
ghost use Rattle.sdb_oplog.specs.declared.codes.Code.TheVariants.{E10};

use crate::codes::Code;
use crate::entry::{Entry, Submission};
use crate::index::Index;
use crate::moment::Moment;
use sdb_value::{Json, MAX};
use std::alloc::{AllocError, Global};
use std::marker::Model;

/// A list of at most [`MAX`] entries. No two have the same source and seq, each content applies at
/// its version, and moments never decrease.
///
/// ```
/// let mut log = Log::new(alloc);
/// log.push(Entry::new(0, Moment::zero(), None, submission))?;
/// assert_eq!(rt; (log.len(), log.stored_at("x", 1)), (1, Some(0)));
/// assert!(rt; log.replay(1)?.is_some());
/// ```
#[derive(Drop)]
pub struct Log {
    alloc: Global,
    entries: Vec<Entry>,
    index: Index,
}

impl Model for Log {
    ghost use Rattle.std.specs.Prelude.{List};
    ghost use Rattle.sdb_oplog.specs.Plain.{PlainEntry};
    ghost use Rattle.sdb_oplog.specs.Coding.{log_code};

    ghost Value = { List PlainEntry };

    ghost coded = { log_code };

    ghost use Rattle.sdb_oplog.specs.LogInvariant.{LogInvariant};
    ghost use Rattle.sdb_oplog.specs.IndexModel.{AllSourcesHaveEntries};

    ghost view = { λ l. l.entries.items };

    ghost invariant = { λ l. LogInvariant l.entries.items l.index × AllSourcesHaveEntries l.index };
}

impl Log {
    /// Creates an empty log. It keeps the allocator.
    pub fn new(alloc: Global) -> Log
        ensures { result ≡ [] }
    {
        Log {
            alloc,
            entries: Vec::new(alloc),
            index: Index::new(alloc),
        }
    }

    /// Returns the number of entries, which is the current version.
    pub fn len(&self) -> u64
        ensures len { result ≡ length self.now }
        ensures bound { length self.now ≤ MAX }
        ensures alive { is_some (snap self.now) ≡ true }
        ensures first { are_identifiers_new [] self.now ≡ true }
        ensures time { MomentsOrderedFrom 0 self.now }
    {
        self.entries.len() as u64
    }

    /// Returns whether the log is empty.
    pub fn is_empty(&self) -> bool
        ensures { IsTrue result ↔ (length self.now ≡ 0) }
    {
        self.entries.is_empty()
    }

    /// Returns the entry of a version.
    pub fn get(&self, version: u64) -> Option<&Entry>
        ensures { option_map (λ e. e.now) result ≡ slice_get self.now version }
    {
        self.entries.get(version as usize)
    }

    /// Returns the entries from a version on, which is at most the length.
    pub fn entries_from(&self, version: u64) -> &[Entry]
        requires { version ≤ length self.now }
        ensures { result.now ≡ drop version self.now }
    {
        &self.entries.as_slice()[version as usize..]
    }

    /// Returns the entries stored since the submission's base version; none if that version is above
    /// the length.
    pub fn missed_entries(&self, submission: &Submission) -> &[Entry]
        ensures { result.now ≡ missed_entries self.now submission.now }
    {
        let version = self.len();
        self.entries_from(submission.version().unwrap_or(version).min(version))
    }

    /// Returns the version of the entry with this source and seq, from an index.
    pub fn stored_at(&self, src: &str, seq: u64) -> Option<u64>
        ensures { result ≡ stored_at src.now seq self.now }
    {
        self.index.find(src, seq)
    }

    /// Returns the version at a moment: the number of entries whose moment isn't later. It is found
    /// by binary search, since moments never decrease.
    pub fn version_at(&self, moment: Moment) -> u64
        ensures { result ≡ version_at self.now moment }
    {
        let entries = self.entries.as_slice();
        let mut low = 0;
        let mut high = entries.len();
        while low < high {
            let middle = low + (high - low) / 2;
            if entries[middle].moment().milliseconds() <= moment.milliseconds() {
                low = middle + 1;
            } else {
                high = middle;
            }
        }
        low as u64
    }

    /// Returns the moment of the last entry, or the first moment for an empty log.
    pub(crate) fn last_moment(&self) -> Moment
        ensures { result ≡ last_moment self.now }
    {
        match self.entries.last() {
            Some(entry) => entry.moment(),
            None => Moment::zero(),
        }
    }

    /// Appends an entry to the log.
    ///
    /// # Errors
    ///
    /// [`AllocError`] if an allocation fails. The log is then unchanged.
    pub fn push(&mut self, entry: Entry) -> Result<(), AllocError>
        requires { CanAppend self.old entry }
        ensures ok { OnOk result (self.new ≡ self.old ++ entry ∷ []) }
        ensures err { OnErr result (self.new ≡ self.old) }
    {
        let at = self.len();
        self.entries.reserve(1)?;
        let arrived = entry.arrived();
        self.index
            .insert(self.alloc, arrived.src(), arrived.seq(), at)?;
        let Ok(()) = self.entries.push(entry) else {
            unreachable!();
        };
        Ok(())
    }

    /// Returns the document at a version, by applying the entries before it.
    ///
    /// # Errors
    ///
    /// [`Code::E10`] if an allocation fails.
    pub fn replay(&self, version: u64) -> Result<Option<Json>, Code>
        requires { version ≤ length self.now }
        ensures ok { IfOk result (λ d. snap (take version self.now) ≡ Some (option_map value_of d)) }
        ensures err { IfErr result (λ code. code ≡ E10) }
    {
        self.replay_from(None, 0, version)
    }

    /// Returns the document at version `to` from the one at version `from`, by applying the entries
    /// between them.
    ///
    /// # Errors
    ///
    /// [`Code::E10`] if an allocation fails.
    pub fn replay_from(
        &self,
        document: Option<Json>,
        from: u64,
        to: u64,
    ) -> Result<Option<Json>, Code>
        requires ordered { from ≤ to }
        requires bound { to ≤ length self.now }
        requires document { snap (take from self.now) ≡ Some (option_map value_of document) }
        ensures ok { IfOk result (λ d. snap (take to self.now) ≡ Some (option_map value_of d)) }
        ensures err { IfErr result (λ code. code ≡ E10) }
    {
        let mut replayed = document;
        let entries = self.entries.as_slice();
        for at in from as usize..to as usize {
            entries[at].content().apply_to(self.alloc, &mut replayed)?;
        }
        Ok(replayed)
    }
}
